//! The words of the program's command line: its commands, their options, and what the help of each says.

mod building;
mod capture_line;
mod check_line;
mod command_line;
mod explain_line;
mod loop_line;
mod options;
mod page_line;
mod receive_line;
mod say_line;
mod send_line;
mod serve_line;
mod spool_line;
mod trace_line;

pub use capture_line::{refused_address, refused_half, refused_machines};
pub use command_line::{faxgate_command, refused_command};
pub use say_line::refused_words;
