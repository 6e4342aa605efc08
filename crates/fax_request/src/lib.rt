//! What the words of the program's command line ask for.
#![tactic(auto)]

mod arguments;
mod capture_words;
mod explain_options;
mod given;
mod page_words;
mod request;
mod say_words;
mod spool_words;
mod terminal_words;

pub use explain_options::ExplainOptions;
pub use request::{Request, request_in, request_of};
