//! SIP, as what gives the orders sees it.
use fax_bits::NoMemory;
use fax_control::Word;
use fax_desk::{LineEvent, Reply, Tag, View};
use fax_sip_service::Said;

/// What SIP has to tell clients next.
#[derive(Drop)]
pub enum SipNews {
    Nothing,
    /// Something that no client wants, or that lacks memory.
    Untold,
    /// The line of an event.
    Line(Vec<u8>),
}

/// SIP beside the lines of a server.
pub trait SipSide {
    /// Whether it is looked at now; if so, it is looked at again later.
    fn is_due(&mut self, now: u64) -> bool;

    /// Whether it is looked now whether a line is idle; if so, it is again later.
    fn is_open_due(&mut self, now: u64) -> bool;

    /// Whether SIP says something now, before clients do: it gave few orders since they were heard first.
    fn goes_first(&mut self) -> bool;

    /// What was said gave an order: `done` tells how that ended.
    fn wait_for(&mut self, said: Said);

    /// Hears what came, does what is due, and sends what is to go out.
    fn look(&mut self, now: u64);

    /// Whether a call can come now.
    fn set_open(&mut self, is_open: bool);

    /// The server stops: no call comes any more.
    fn leave(&mut self, now: u64);

    /// It has stopped: all calls and registrations end, and what is due is done.
    fn end_all(&mut self, now: u64);

    /// Whether nothing is due any more.
    fn is_settled(&self) -> bool;

    /// What is to be told next is taken; clients want events, or none does.
    fn next_news(&mut self, now: u64, is_wanted: bool) -> SipNews;

    /// What is to be said next is taken.
    fn next_said(&mut self) -> Option<Said>;

    /// The word that says so, where the call that it is about is on.
    fn word<'s, V: View>(&'s self, said: &'s Said, view: &V) -> Option<Word<'s>>;

    /// What was said was answered so.
    fn answered(&mut self, now: u64, said: &Said, reply: Reply);

    /// The order of what was said last has ended so.
    fn done(&mut self, now: u64, reply: Reply);

    /// This happened on line i; redial lines are counted after the others.
    fn happened(&mut self, now: u64, i: usize, what: LineEvent);

    /// Whether it places the call of a job that has this tag.
    fn places(&self, tag: &Option<Tag>) -> bool;

    /// Adds a line for each trunk, to the answer of `status`.
    fn put_status(&self, text: &mut Vec<u8>) -> Result<(), NoMemory>;

    /// The text of counts, with its own before the end.
    fn with_counts(&self, text: String) -> Result<String, NoMemory>;
}
