//! Questions, and what is on on a line.
ghost use Rattle.std.specs.Prelude.{◌≡◌};
ghost use Rattle.fax_desk.specs.Desks.{asked_card, asks_now, looked_card, looked_of, over_if};
ghost use Rattle.fax_desk.specs.Turns.{asked_happened, asked_told, asking_card, connected_told, job_on, rung_told, state_of, tags_on};

use crate::answer::refusal_order;
use crate::card::{Card, TagsOn};
use crate::desk::LookOutcome;
use crate::questions::{Cause, Question};
use crate::told::{LineEvent, LineState};
use crate::view::{AskedView, FirstJob, LineView};
use fax_control::events::AskedJob;

/// The first time that the call of a job is asked for.
const FIRST_TRY: u32 = 1;

impl Card {
    /// The question of line i, which is so, is looked at when events were heard for so many milliseconds, and a client hears them now,
    /// or none does.
    pub(crate) fn look(
        &mut self,
        i: usize,
        line: LineView,
        heard: u64,
        is_heard: bool,
    ) -> LookOutcome
        ensures looked { result
            ≡ looked_of self.old line.first i heard is_heard self.old.question line.asked }
        ensures card { self.new ≡ looked_card heard is_heard line.asked self.old }
    {
        let Some(job) = line.asked else {
            self.question = None;
            return LookOutcome::Nothing;
        };
        let before = self.question;
        if is_heard {
            self.ask(heard);
        }
        match before {
            Some(question) => over_if(i, question.is_over(heard)),
            None => self.asks_if(line.first, job, heard),
        }
    }

    /// The question is open from now on, where it was not.
    fn ask(&mut self, heard: u64)
        ensures { self.new ≡ asking_card heard self.old }
    {
        if self.question.is_none() {
            self.question = Some(Question::new(heard, self.dial_seconds));
        }
    }

    /// The same where the line asks for a call.
    pub(crate) fn ask_if(&mut self, line: LineView, heard: u64)
        ensures { self.new ≡ asked_card heard line.asked self.old }
    {
        if line.asked.is_some() {
            self.ask(heard);
        }
    }

    /// Clients are asked, where the question is open.
    fn asks_if(&self, first: FirstJob, job: AskedView, heard: u64) -> LookOutcome
        ensures { result ≡ asks_now self.now first heard job self.now.question }
    {
        match self.question {
            Some(question) => LookOutcome::Asks(self.asked_happened(first, question, job, heard)),
            None => LookOutcome::Nothing,
        }
    }

    /// The call of this job is asked for.
    fn asked_happened(
        &self,
        first: FirstJob,
        question: Question,
        job: AskedView,
        heard: u64,
    ) -> LineEvent
        ensures { result ≡ asked_happened self.now first question heard job }
    {
        let asked = AskedJob {
            call: job.call,
            tries: FIRST_TRY,
            pages: job.pages,
            seconds: question.seconds_left(heard),
        };
        LineEvent::Asked(asked, self.job_tag(first, job.call))
    }

    /// What is on, where this is what its line is, when events were heard for so many milliseconds.
    pub(crate) fn state(&self, line: LineView, heard: u64) -> LineState
        ensures { result ≡ state_of self.now line heard }
    {
        LineState {
            rung: self.rung_told(line.call),
            job: self.job_on(line, heard),
        }
    }

    fn rung_told(&self, call: Option<u32>) -> Option<LineEvent>
        ensures { result ≡ rung_told self.now call }
    {
        match call {
            Some(call) => Some(LineEvent::Rung(self.tagged(call))),
            None => None,
        }
    }

    /// The job whose call is on, with a peer, or the one whose call clients are asked for.
    fn job_on(&self, line: LineView, heard: u64) -> Option<LineEvent>
        ensures { result ≡ job_on self.now line heard line.sending }
    {
        match line.sending {
            Some(call) => self.connected_told(line.first, line.called.has_peer, call),
            None => self.asked_told(line.first, line.asked, heard),
        }
    }

    fn connected_told(&self, first: FirstJob, has_peer: bool, call: u32) -> Option<LineEvent>
        ensures { result ≡ connected_told self.now first has_peer call }
    {
        if has_peer {
            Some(LineEvent::Connected(self.tagged_job(first, call)))
        } else {
            None
        }
    }

    fn asked_told(&self, first: FirstJob, job: Option<AskedView>, heard: u64) -> Option<LineEvent>
        ensures { result ≡ asked_told self.now first heard self.now.question job }
    {
        let Some(question) = self.question else {
            return None;
        };
        match job {
            Some(job) => Some(self.asked_happened(first, question, job, heard)),
            None => None,
        }
    }

    /// The tags of the call that is on, and of the job that is under way.
    pub(crate) fn tags_on(&self, line: LineView) -> TagsOn
        ensures { result ≡ tags_on self.now line }
    {
        TagsOn {
            calling: match line.call {
                Some(call) => self.tag(call),
                None => None,
            },
            called: match line.sending {
                Some(call) => self.job_tag(line.first, call),
                None => None,
            },
        }
    }
}

/// A question whose time is over is refused.
fn over_if(i: usize, is_over: bool) -> LookOutcome
    ensures { result ≡ over_if i is_over }
{
    if is_over {
        LookOutcome::Orders(refusal_order(i, Cause::Unanswered))
    } else {
        LookOutcome::Nothing
    }
}
