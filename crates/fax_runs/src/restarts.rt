//! A run, the crash that follows, and the next run: laws over any number of them. Runs are joined by what their files hold, so each is
//! over files of a type of its own, which says what these held as it began.

pub mod laws;
mod memory;

pub use memory::{open_again, open_over};
