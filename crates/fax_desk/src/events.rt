//! What happened, as an event.
ghost use Rattle.std.specs.Prelude.{◌≡◌, option_map};
ghost use Rattle.fax_desk.specs.Shown.{CauseShows, Shows, TagShows};

use crate::questions::Cause;
use crate::tag::{Tag, TaggedCall};
use crate::told::LineEvent;
use fax_control::events::What;

impl LineEvent {
    /// The same as an event.
    pub fn shown(&self) -> What<'_>
        ensures { Shows self.now result }
    {
        match self {
            LineEvent::Rung(tagged) => What::Rung(tagged.call, tagged.text()),
            LineEvent::NotStored(tagged) => What::NotStored(tagged.call, tagged.text()),
            LineEvent::Page(page, tag) => What::Page(*page, text_of(tag)),
            LineEvent::RefusedPage(refused, tag) => {
                What::RefusedPage(refused.call, text_of(tag), refused.why)
            }
            LineEvent::Ended(tagged, how) => What::Ended(tagged.call, tagged.text(), *how),
            LineEvent::Job(report, tag, cause) => {
                What::Job(*report, text_of(tag), cause_text_of(cause))
            }
            LineEvent::Dial(tagged) => What::Dial(tagged.call, tagged.text()),
            LineEvent::Asked(job, tag) => What::Asked(*job, text_of(tag)),
            LineEvent::Connected(tagged) => What::Connected(tagged.call, tagged.text()),
        }
    }
}

impl TaggedCall {
    /// The text of its tag.
    fn text(&self) -> Option<&str>
        ensures { TagShows self.now.tag (option_map (λ text. text.now) result) }
    {
        text_of(&self.tag)
    }
}

/// The text of a tag.
fn text_of(tag: &Option<Tag>) -> Option<&str>
    ensures { TagShows tag.now (option_map (λ text. text.now) result) }
{
    match tag {
        Some(tag) => Some(tag.text()),
        None => None,
    }
}

/// The text of a cause.
fn cause_text_of(cause: &Option<Cause>) -> Option<&str>
    ensures { CauseShows cause.now (option_map (λ text. text.now) result) }
{
    match cause {
        Some(cause) => Some(cause.text()),
        None => None,
    }
}
