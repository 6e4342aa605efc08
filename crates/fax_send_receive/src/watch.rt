//! Who watches a terminal on the standard error.
use libc::{STDERR_FILENO, isatty};
use std::fmt::Display;
use std::io::Stderr;

/// Who watches a terminal on the standard error. Nothing depends on what is told.
pub struct Watch {
    stderr: Stderr,
    is_watched: bool,
}

impl Drop for Watch {
    fn drop(self) {
        let Watch {
            stderr: _stderr,
            is_watched: _is_watched,
        } = self;
    }
}

impl Watch {
    /// Progress is told where the standard error is a screen. No contract says so, since none can say what the standard error is.
    pub fn new(stderr: Stderr) -> Self {
        Watch {
            stderr,
            is_watched: isatty(STDERR_FILENO) == 1,
        }
    }

    /// Tells how far a call is, to a screen alone.
    pub(crate) fn tell_progress(&self, words: &str, number: u32) {
        if self.is_watched {
            let _ = self.stderr.eprintln(format_args!("{words} {number}"));
        }
    }

    /// Tells what went wrong, whoever watches.
    pub(crate) fn tell_trouble<D: Display + Drop>(&self, trouble: D) {
        let _ = self.stderr.eprintln(format_args!("faxgate: {trouble}"));
    }
}
