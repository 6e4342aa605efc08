//! What a desk knows of lines.
ghost use Rattle.std.specs.Prelude.{◌≡◌, slice_get};
ghost use Rattle.fax_desk.specs.Desks.{IsAnswer, counts_if, state_at, tag_at, tags_at, texts_at};
ghost use Rattle.fax_desk.specs.Spools.{spool_told};

use crate::card::{LineCounts, ReportTexts, TagsOn};
use crate::desk::Desk;
use crate::next::Reply;
use crate::spool::{SpoolTold, failure_told};
use crate::tag::Tag;
use crate::told::LineState;
use crate::view::LineView;
use fax_control::Answer;

impl Desk {
    /// What is told of the spool to a client that wants events from now on, before what is on on the lines.
    pub fn spool_told(&self) -> SpoolTold
        ensures { result ≡ spool_told self.now.damage self.now.failed }
    {
        SpoolTold {
            damage: self.damage.told(),
            failure: failure_told(self.failed),
        }
    }

    /// What is on on line i, which is so.
    pub fn state(&self, i: usize, line: LineView) -> Option<LineState>
        ensures { result ≡ state_at self.now.cards.items self.now.time.heard i line }
    {
        match self.cards.get(i) {
            Some(card) => Some(card.state(line, self.time.heard)),
            None => None,
        }
    }

    /// The tags of what is on there.
    pub fn tags_on(&self, i: usize, line: LineView) -> TagsOn
        ensures { result ≡ tags_at self.now.cards.items i line }
    {
        match self.cards.get(i) {
            Some(card) => card.tags_on(line),
            None => TagsOn {
                calling: None,
                called: None,
            },
        }
    }

    /// The tag of a call of line i of this life.
    pub fn tag(&self, i: usize, call: u32) -> Option<Tag>
        ensures { result ≡ tag_at self.now.cards.items i call }
    {
        match self.cards.get(i) {
            Some(card) => card.tag(call),
            None => None,
        }
    }

    /// What is told of report k of so many of line i that are kept, of a job whose pages came in this call.
    pub fn report_texts(&self, i: usize, k: usize, kept: usize, call: u32) -> ReportTexts
        ensures { result ≡ texts_at self.now.cards.items i k kept call }
    {
        match self.cards.get(i) {
            Some(card) => card.report_texts(k, kept, call),
            None => ReportTexts {
                tag: None,
                cause: None,
            },
        }
    }

    /// The calls that were rung on line i, and the pages that were confirmed.
    pub fn counts(&self, i: usize) -> LineCounts
        ensures { result ≡ counts_if (slice_get self.now.cards.items i) }
    {
        match self.cards.get(i) {
            Some(card) => card.counts,
            None => LineCounts { calls: 0, pages: 0 },
        }
    }

    /// The line that answers a word.
    pub fn answer(&self, reply: Reply) -> Answer<'_>
        ensures { IsAnswer self.now.names.items reply result }
    {
        match reply {
            Reply::Done => Answer::Done,
            Reply::Rung(call) => Answer::Rung(call),
            Reply::RungOn(rung) => match self.name(rung.line) {
                Some(name) => Answer::RungOn(name, rung.call),
                None => Answer::Rung(rung.call),
            },
            Reply::Refused(refused) => Answer::Refused(refused.why),
        }
    }
}
