//! What a page tells of a server.
use crate::health::Health;

/// A call: its number on its line, and its tag.
#[derive(Clone, Copy)]
pub struct CallView<'a> {
    pub call: u32,
    pub tag: Option<&'a str>,
}

/// What is on on a called leg.
#[derive(Clone, Copy)]
pub enum CalledView<'a> {
    /// Nothing.
    Idle,
    /// The call of a job is asked for, whose pages came in this call.
    Asks(CallView<'a>),
    /// The pages of this call are being sent.
    Sends(CallView<'a>),
}

/// A line on which something is under way.
#[derive(Clone, Copy)]
pub struct LineView<'a> {
    pub name: &'a str,
    /// The call that is on on the calling leg.
    pub calling: Option<CallView<'a>>,
    pub called: CalledView<'a>,
    /// How many jobs wait.
    pub waiting: u64,
}

/// A job that ended.
#[derive(Clone, Copy)]
pub struct JobView<'a> {
    /// The name of its line.
    pub line: &'a str,
    /// The call that its pages came in.
    pub call: CallView<'a>,
    pub pages: u32,
    /// How many pages were confirmed.
    pub delivered: u32,
    /// How it ended, in words.
    pub outcome: &'a str,
}

/// A call of which pages could not be delivered.
#[derive(Clone, Copy)]
pub struct UndeliveredView<'a> {
    /// The name of its line.
    pub line: &'a str,
    /// In which life of the server its pages came.
    pub life: u64,
    pub call: CallView<'a>,
    /// How many pages are kept.
    pub pages: u64,
    /// How often it was tried.
    pub tries: u64,
    /// When it was tried last, in words.
    pub at: &'a str,
    /// How its job ended last, in words.
    pub outcome: &'a str,
}

/// A count.
#[derive(Clone, Copy)]
pub struct CountView<'a> {
    /// What is counted, in words.
    pub name: &'a str,
    pub value: u64,
}

/// What a page tells of a server.
#[derive(Clone, Copy)]
pub struct PageView<'a> {
    pub health: Health,
    /// Lines on which something is under way, as many as are to be told.
    pub lines: &'a [LineView<'a>],
    /// How many lines there are besides.
    pub others: u64,
    /// The jobs that ended last.
    pub jobs: &'a [JobView<'a>],
    /// Calls of which pages could not be delivered, as many as are to be told.
    pub undelivered: &'a [UndeliveredView<'a>],
    pub counts: &'a [CountView<'a>],
}
