//! What the program's commands answer, over any streams of octets.
#![tactic(auto)]

mod answer;
mod gathering;
mod input;
mod input_fault;
mod lines;
mod options;
mod putting;
mod run;
mod status;
mod stream;
mod stream_fault;

pub use answer::{MEMORY_LINE, page_of_hex};
pub use input::{InputError, read_input};
pub use input_fault::InputFault;
pub use lines::first_line;
pub use options::{Output, PageOptions};
pub use putting::write_rows;
pub use run::run_page;
pub use status::Status;
pub use stream::{
    MOST_AT_ONCE, MOST_OCTETS, MOST_READS, ReadFault, Sink, Source, StdSink, StdSource, WriteFault,
    fault_of_streams, write_text,
};
pub use stream_fault::StreamFault;
