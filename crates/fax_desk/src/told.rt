//! What is told of a line.
ghost use Rattle.std.specs.Prelude.{◌≡◌};
ghost use Rattle.fax_desk.specs.Turns.{ending_of};

use crate::questions::Cause;
use crate::tag::{Tag, TaggedCall};
use crate::view::FirstJob;
use fax_control::events::{AskedJob, Ending, PageConfirmed};
use fax_gateway::{RefusedPage, TurnReport};
use fax_jobs::Report;

/// What happened on a line: of which call, with its tag.
#[derive(Clone, Copy)]
pub enum LineEvent {
    /// The calling leg was rung.
    Rung(TaggedCall),
    /// A page was confirmed that could not be kept.
    NotStored(TaggedCall),
    /// A page was confirmed.
    Page(PageConfirmed, Option<Tag>),
    /// A page was refused (RTN).
    RefusedPage(RefusedPage, Option<Tag>),
    /// A call ended.
    Ended(TaggedCall, Ending),
    /// A job ended: its report, its tag, and for what cause its own call was not placed.
    Job(Report, Option<Tag>, Option<Cause>),
    /// The call of a job began that was not asked for.
    Dial(TaggedCall),
    /// The call of a job is asked for.
    Asked(AskedJob, Option<Tag>),
    /// It was placed.
    Connected(TaggedCall),
}

/// What a turn of a line came to.
#[derive(Clone, Copy)]
pub struct Turn {
    pub turned: TurnReport,
    /// The job that was first in turn.
    pub first: FirstJob,
    /// Whether the page that was confirmed in it was kept.
    pub is_stored: bool,
    /// Whether the calling leg is silenced, and whether a word said that the peer's call on it is gone.
    pub is_silenced: bool,
    pub is_hung_up: bool,
}

/// What is told of it, in this order.
#[derive(Clone, Copy)]
pub struct TurnEvents {
    pub not_stored: Option<LineEvent>,
    pub page: Option<LineEvent>,
    pub refused: Option<LineEvent>,
    pub ended: Option<LineEvent>,
    pub job: Option<LineEvent>,
    pub dialled: Option<LineEvent>,
}

/// What is on on a line, as a client is told it first.
#[derive(Clone, Copy)]
pub struct LineState {
    pub rung: Option<LineEvent>,
    pub job: Option<LineEvent>,
}

/// How a call ended: a page of it could not be kept, its peer's call was said to be gone, we gave it up, or its peer ended it; and
/// the last page was said to be the last or not. A peer that says no more after its last page has done what it called for.
pub fn ending(is_silenced: bool, is_hung_up: bool, is_given_up: bool, is_closed: bool) -> Ending
    ensures { result ≡ ending_of is_silenced is_hung_up is_given_up is_closed }
{
    if is_silenced {
        Ending::NotStored
    } else if is_closed {
        Ending::Done
    } else if is_hung_up {
        Ending::HungUp
    } else if is_given_up {
        Ending::GivenUp
    } else {
        Ending::Done
    }
}
