//! What happens in a call, in words: frames and faults, why a page is refused and why a job ended so, and the lines that tell
//! such things at a moment.
//!
//! What the words are stands in `specs/Words` and `specs/Reasons`, and what a line is in `specs/Tales`. What answers a `Result` takes
//! memory for words, and its only fault is that none is left.
#![tactic(auto)]

mod lane;
mod paragraph;
mod reasons;
mod tale;
mod timers;
mod words;

pub use lane::Lane;
pub use reasons::{why_ended, why_refused};
pub use tale::{Tale, Told};
pub use timers::words_of_timer;
pub use words::{
    name_of_kind, words_of_format, words_of_frame, words_of_numbers, words_of_wholeness,
};
