//! What is told of the pieces that come to a call, kept in lists: of frames, and of the beginnings and the ends of signals.
//!
//! Each definition that a contract here speaks of stands in `specs/Notes`.
#![tactic(auto)]

mod answer_notes;
mod call_notes;
mod came;
pub mod laws;

pub use answer_notes::{AnswerNote, AnswerNotes};
pub use call_notes::{CallNote, CallNotes};
pub use came::Came;
