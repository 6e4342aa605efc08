//! Scripts of what came to a gateway, played on a new one: what `faxgate trace` answers, over any streams of octets.
#![tactic(auto)]

mod answer;
mod ending;
mod event;
mod hex_text;
mod player;
mod run;
mod script_fault;
mod told;

pub use answer::{Answer, push_fault};
pub use ending::Ending;
pub use event::{ScriptEvent, event_of_line};
pub use run::{play_script, run_trace};
pub use script_fault::ScriptFault;
