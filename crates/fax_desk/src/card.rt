//! What a desk knows of a line beside what the line is.
ghost use Rattle.std.specs.Prelude.{◌≡◌, IfOk, find, nat_eq};
ghost use Rattle.fax_desk.specs.Cards.{after_done, after_job, after_page, after_placing, after_refusal, after_ring, card_new, cause_of, job_tag, report_texts, rung_card, tag_of, tagged_job, tagged_of};
ghost use Rattle.fax_desk.specs.Reloads.{closed_card};

use crate::next::{Note, Order};
use crate::questions::{Cause, Question};
use crate::tag::{Tag, TaggedCall};
use crate::view::FirstJob;
use circular_buffer::HeapCircularBuffer;
use fax_gateway::Kept;
use fax_jobs::Report;
use fax_line::LineAnswer;
use std::alloc::{AllocError, Global};

/// The most tags that are kept of a line: the newest.
const MOST_TAGS: usize = 256;

/// The most causes that are kept of a line: of the newest jobs, as many as `report` tells.
const MOST_CAUSES: usize = 64;

/// A job whose call could not be placed, by how many ended before it, and for what cause.
#[derive(Clone, Copy)]
pub struct RefusedJob {
    pub job: usize,
    pub cause: Cause,
}

/// What is told of a report: the tag of its job, and for what cause its call could not be placed.
#[derive(Clone, Copy)]
pub struct ReportTexts {
    pub tag: Option<Tag>,
    pub cause: Option<Cause>,
}

/// The tags of what is on on each leg.
#[derive(Clone, Copy)]
pub struct TagsOn {
    pub calling: Option<Tag>,
    pub called: Option<Tag>,
}

/// Calls that were rung on a line, and pages that were confirmed in them.
#[derive(Clone, Copy)]
pub struct LineCounts {
    pub calls: u64,
    pub pages: u64,
}

/// What a line is bounded by.
#[derive(Clone, Copy)]
pub struct LineLimits {
    /// How many octets its call and its jobs may hold of pages.
    pub memory: u32,
    /// While so many pages of it wait, or more, it takes no call.
    pub most_waiting: u32,
}

/// What is known of a line.
pub struct Card {
    /// The tags of the last calls, the newest first.
    pub tags: HeapCircularBuffer<TaggedCall>,
    pub counts: LineCounts,
    /// Pages that were confirmed in the last call, and whether the last of them was said to be the last.
    pub pages_in_call: u32,
    pub is_closed: bool,
    /// How many jobs ended, and how many of those were confirmed in an earlier life: they go first.
    pub jobs: usize,
    pub restored_jobs: usize,
    /// For how many seconds a question is open, and the one that is.
    pub dial_seconds: u32,
    pub question: Option<Question>,
    /// The last jobs whose calls could not be placed, the newest first.
    pub refused: HeapCircularBuffer<RefusedJob>,
    /// How many pages of it wait: they were confirmed, and their jobs have not ended.
    pub waiting: u64,
    pub limits: LineLimits,
}

impl Drop for Card {
    fn drop(self) {
        let Card {
            tags: _tags,
            counts: _counts,
            pages_in_call: _pages_in_call,
            is_closed: _is_closed,
            jobs: _jobs,
            restored_jobs: _restored_jobs,
            dial_seconds: _dial_seconds,
            question: _question,
            refused: _refused,
            waiting: _waiting,
            limits: _limits,
        } = self;
    }
}

impl Card {
    /// A line to which nothing happened, whose questions are open for so many seconds, and of whose memory nothing is counted. It takes
    /// the memory for all that it is to know.
    pub fn new(alloc: Global, dial_seconds: u32) -> Result<Self, AllocError>
        ensures { IfOk result (λ card. card ≡ card_new dial_seconds) }
    {
        let tags = HeapCircularBuffer::with_capacity(alloc, MOST_TAGS)?;
        let refused = HeapCircularBuffer::with_capacity(alloc, MOST_CAUSES)?;
        Ok(Card {
            tags,
            counts: LineCounts { calls: 0, pages: 0 },
            pages_in_call: 0,
            is_closed: false,
            jobs: 0,
            restored_jobs: 0,
            dial_seconds,
            question: None,
            refused,
            waiting: 0,
            limits: LineLimits {
                memory: 0,
                most_waiting: u32::MAX,
            },
        })
    }

    /// The tag of a call of this life.
    pub fn tag(&self, call: u32) -> Option<Tag>
        ensures { result ≡ tag_of self.now call }
    {
        match self.found(call) {
            Some(tagged) => tagged.tag,
            None => None,
        }
    }

    /// The same with its call, where it is kept.
    fn found(&self, call: u32) -> Option<TaggedCall>
        ensures { result ≡ find (λ tagged. nat_eq tagged.call call) self.now.tags.items }
    {
        self.tags.iter().copied().find(|tagged| tagged.call == call)
    }

    /// The tag of a job whose pages came in this call: the one that is first in turn, of which this is known.
    pub fn job_tag(&self, first: FirstJob, call: u32) -> Option<Tag>
        ensures { result ≡ job_tag self.now first call }
    {
        if first.is_restored {
            first.tag
        } else {
            self.tag(call)
        }
    }

    /// For what cause the call of the job after so many that ended could not be placed.
    pub fn cause(&self, job: usize) -> Option<Cause>
        ensures { result ≡ cause_of self.now job }
    {
        match self.found_cause(job) {
            Some(refused) => Some(refused.cause),
            None => None,
        }
    }

    /// The same with its job, where it is kept.
    fn found_cause(&self, job: usize) -> Option<RefusedJob>
        ensures { result ≡ find (λ refused. nat_eq refused.job job) self.now.refused.items }
    {
        self.refused
            .iter()
            .copied()
            .find(|refused| refused.job == job)
    }

    /// A call of this life, with its tag.
    pub(crate) fn tagged(&self, call: u32) -> TaggedCall
        ensures { result ≡ tagged_of self.now call }
    {
        TaggedCall {
            call,
            tag: self.tag(call),
        }
    }

    /// The same job, with its tag.
    pub(crate) fn tagged_job(&self, first: FirstJob, call: u32) -> TaggedCall
        ensures { result ≡ tagged_job self.now first call }
    {
        TaggedCall {
            call,
            tag: self.job_tag(first, call),
        }
    }

    /// A call was rung, with this tag.
    fn ring(&mut self, call: u32, tag: Option<Tag>)
        ensures { self.new ≡ rung_card call tag self.old }
    {
        self.counts.calls = self.counts.calls.saturating_add(1);
        self.pages_in_call = 0;
        self.is_closed = false;
        if tag.is_some() {
            let _ = self.tags.push_front(TaggedCall { call, tag });
        }
    }

    /// The call of the job that is first in turn could not be placed, for this cause.
    fn refuse(&mut self, cause: Cause)
        ensures { self.new ≡ after_refusal cause self.old }
    {
        self.question = None;
        let job = self.jobs;
        let _ = self.refused.push_front(RefusedJob { job, cause });
    }

    /// The line answered this to an order.
    pub(crate) fn note(&mut self, order: Order, answered: Option<LineAnswer>)
        ensures { self.new ≡ after_done order.note answered self.old }
    {
        match answered {
            Some(LineAnswer::Rung(Ok(call))) => self.note_ring(order.note, call),
            Some(LineAnswer::Placed(Ok(()))) => self.note_placing(order.note),
            _ => {}
        }
    }

    /// The same of a ring, by which this call began.
    fn note_ring(&mut self, note: Note, call: u32)
        ensures { self.new ≡ after_ring note call self.old }
    {
        match note {
            Note::Ring(tag) | Note::RingAny(tag) => self.ring(call, tag),
            _ => self.ring(call, None),
        }
    }

    /// The same of a call that was placed, or could not be.
    fn note_placing(&mut self, note: Note)
        ensures { self.new ≡ after_placing note self.old }
    {
        match note {
            Note::Refuse(cause) => self.refuse(cause),
            _ => self.question = None,
        }
    }

    /// From now on its line takes no call.
    pub(crate) fn close(&mut self)
        ensures { self.new ≡ closed_card self.old }
    {
        self.limits.most_waiting = 0;
    }

    /// This page was confirmed, and was kept or not.
    pub(crate) fn keep_page(&mut self, is_stored: bool, kept: Option<Kept>)
        ensures { self.new ≡ after_page is_stored kept self.old }
    {
        if let Some(kept) = kept {
            if is_stored {
                self.counts.pages = self.counts.pages.saturating_add(1);
            }
            self.pages_in_call = self.pages_in_call.saturating_add(1);
            self.waiting = self.waiting.saturating_add(1);
            self.is_closed = kept.closes;
        }
    }

    /// This job ended, which was the first in turn.
    pub(crate) fn end_job(&mut self, first: FirstJob, report: Option<Report>)
        ensures { self.new ≡ after_job first.is_restored report self.old }
    {
        if let Some(report) = report {
            self.jobs = self.jobs.saturating_add(1);
            self.waiting = self.waiting.saturating_sub(u64::from(report.pages));
            if first.is_restored {
                self.restored_jobs = self.restored_jobs.saturating_add(1);
            }
        }
    }

    /// What is told of report k of so many that are kept, of a job whose pages came in this call. Of a job that was confirmed in an
    /// earlier life no tag is known.
    pub fn report_texts(&self, k: usize, kept: usize, call: u32) -> ReportTexts
        ensures { result ≡ report_texts k kept call self.now }
    {
        let after = kept.saturating_sub(k);
        let job = self.jobs.saturating_sub(after);
        ReportTexts {
            tag: if job < self.restored_jobs {
                None
            } else {
                self.tag(call)
            },
            cause: if self.jobs < after {
                None
            } else {
                self.cause(job)
            },
        }
    }
}
