//! What a run of the program does: it reads the words of the command line, does what they ask for over the streams, files, sockets
//! and the clock that it is handed, and tells what failed on the standard error.
#![tactic(auto)]

mod captures;
mod console;
mod descriptors;
mod failures;
mod looking;
mod manager;
mod pictures;
mod refusals;
mod reloading;
mod rights;
mod run;
mod saying;
mod serving;
mod streams;
mod terminals;

pub use console::Console;
pub use descriptors::most_descriptors;
pub use failures::tell_loop;
pub use run::{RunOutcome, run_words};
pub use serving::Service;
