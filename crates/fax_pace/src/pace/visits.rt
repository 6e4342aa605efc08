//! What those who look over HTTP are told.
ghost use Rattle.std.specs.Prelude.{◌≡◌};

use super::RealPace;
use crate::answers::counters_of;
use crate::redial_side::RedialSide;
use crate::seen::SeenLines;
use crate::sip_side::SipSide;
use crate::undelivered::pages_undelivered;
use crate::visiting::NO_MEMORY;
use crate::visits::page_text;
use fax_bits::NoMemory;
use fax_control::events::{Counters, write_metrics};
use fax_http::{
    Answer, Content, Health, Resource, Status, Wanted, refusal, write_health, write_open_metrics,
};
use fax_undelivered::UndeliveredCall;
use fax_undelivered::held::HeldPages;
use std::alloc::Global;
use std::rt::Clock;

/// What a request is answered, and whose octets are those of its body.
struct Told {
    status: Status,
    content: Content,
    body: Vec<u8>,
}

impl Drop for Told {
    fn drop(self) {
        let Told {
            status: _status,
            content: _content,
            body: _body,
        } = self;
    }
}

impl<'a, C: Clock, R: RedialSide + Drop, S: SipSide + Drop> RealPace<'a, C, R, S> {
    /// Goes on with who looks over HTTP, without waiting: one request is answered.
    pub(super) fn serve_visitors<L: SeenLines>(&mut self, seen: &L)
        ensures { self.new ≡ self.old }
    {
        let now = self.rounds.now;
        let Some((place, question)) = self.visiting.next_question(now) else {
            return;
        };
        match question.wanted {
            Wanted::Refuse(why) => self.visiting.answer(now, place, &refusal(why)),
            Wanted::Tell(resource) => match self.told(resource, seen) {
                Ok(told) => {
                    let answer = Answer {
                        status: told.status,
                        content: told.content,
                        body: told.body.as_slice(),
                    };
                    self.visiting.answer(now, place, &answer);
                }
                Err(NoMemory) => self.visiting.answer(now, place, &NO_MEMORY),
            },
        }
    }

    /// What is told.
    fn told<L: SeenLines>(&self, resource: Resource, seen: &L) -> Result<Told, NoMemory> {
        let health = Health {
            is_stopping: self.desk.is_stopping(),
            has_failed_disk: seen.has_failed(),
            is_late: self.rounds.is_late(),
        };
        match resource {
            Resource::Health => told_health(self.alloc, health),
            Resource::Picture => told_nothing(self.alloc),
            Resource::Metrics => {
                let counters = self.counts(seen);
                told_metrics(self.alloc, metrics(self.alloc, &self.sip, &counters)?)
            }
            Resource::Page => {
                let counters = self.counts(seen);
                let calls = calls_in(seen, &self.held);
                let jobs = self.teller.jobs();
                let body = page_text(self.alloc, &self.desk, &counters, health, seen, jobs, calls)?;
                Ok(Told {
                    status: Status::Good,
                    content: Content::Html,
                    body,
                })
            }
        }
    }

    /// The counts, with what the lines and the spool count.
    pub(super) fn counts<L: SeenLines>(&self, seen: &L) -> Counters {
        let mut counters = counters_of(self.teller.counters(), seen);
        counters.pages_stored = seen.pages_stored();
        counters.pages_undelivered = pages_undelivered(calls_in(seen, &self.held));
        counters
    }
}

/// How the server is.
fn told_health(alloc: Global, health: Health) -> Result<Told, NoMemory> {
    Ok(Told {
        status: health.status(),
        content: Content::Text,
        body: write_health(alloc, health)?,
    })
}

/// Nothing is there.
fn told_nothing(alloc: Global) -> Result<Told, NoMemory> {
    Ok(Told {
        status: Status::NotFound,
        content: Content::Text,
        body: Vec::from_slice(alloc, b"nothing is here\n")?,
    })
}

/// The counts, of this text.
fn told_metrics(alloc: Global, text: String) -> Result<Told, NoMemory> {
    Ok(Told {
        status: Status::Good,
        content: Content::OpenMetrics,
        body: write_open_metrics(alloc, text.as_bytes())?,
    })
}

/// These counts, and those of SIP, as text.
pub(super) fn metrics<S: SipSide>(
    alloc: Global,
    sip: &Option<S>,
    counters: &Counters,
) -> Result<String, NoMemory> {
    let text = write_metrics(alloc, counters)?;
    match sip {
        Some(sip) => sip.with_counts(text),
        None => Ok(text),
    }
}

/// The calls of which pages could not be delivered: on the disk, where there is one, else in memory.
pub(super) fn calls_in<'s, L: SeenLines>(
    seen: &'s L,
    held: &'s Option<HeldPages>,
) -> &'s [UndeliveredCall] {
    match (seen.calls(), held) {
        (Some(calls), _) => calls,
        (None, Some(held)) => held.undelivered.calls(),
        (None, None) => &[],
    }
}
