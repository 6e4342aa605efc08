//! Captures of calls as scripts of what came to a gateway: what `faxgate capture` answers, over any streams of octets.
#![tactic(auto)]

mod address;
mod answer;
mod counts;
mod fragments;
mod leg;
mod machines;
mod options;
mod pcap;
mod reading;
mod reading_fault;
mod run;
mod script;
mod script_fault;
mod signal;

pub use address::{Address, Host};
pub use counts::Counts;
pub use machines::Machines;
pub use options::CaptureOptions;
pub use run::{CaptureRun, run_capture};
