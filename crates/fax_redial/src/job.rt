//! Jobs that are tried again.
use fax_desk::{Cause, Tag};
use fax_jobs::Outcome;
use fax_spool::CallName;

/// A job that is tried again.
#[derive(Drop)]
pub struct RetryJob {
    /// The call that its pages came in, on the line on which they did.
    pub name: CallName,
    /// The tag of that call.
    pub tag: Option<Tag>,
    /// How often it was tried before.
    pub tries: u32,
    /// The numbers of the pages of that call that waited as the try began: of those that it sends, and before them of those that other tries
    /// delivered.
    pub numbers: Vec<u32>,
}

/// How a try ended.
pub struct RetryEnd {
    /// The call that the pages of its job came in.
    pub name: CallName,
    /// The numbers of the pages of that call that waited as the try began.
    pub numbers: Vec<u32>,
    /// How many of its pages, from the first on, the called machine confirmed.
    pub delivered: u32,
    /// `Delivered`: all of them.
    pub outcome: Outcome,
    /// For what cause the call was not placed, where it was not.
    pub cause: Option<Cause>,
}

impl Drop for RetryEnd {
    fn drop(self) {
        let RetryEnd {
            name: _name,
            numbers: _numbers,
            delivered: _delivered,
            outcome: _outcome,
            cause: _cause,
        } = self;
    }
}
