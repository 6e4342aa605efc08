//! Calls of which pages could not be delivered: the words that drop them or try their jobs again, and the redial lines.
use crate::calls_on::{CallOn, is_on};
use crate::redial_side::RedialSide;
use crate::telling::Teller;
use crate::undelivered::place_of;
use crate::undelivered_calls::UndeliveredCalls;
use fax_clients::Asker;
use fax_control::{Answer, CallWord, Refusal};
use fax_jobs::Outcome;
use fax_queue::Queue;
use fax_redial::{BeginFault, RetryEnd, is_owed};
use fax_spool::CallName;
use fax_undelivered::UndeliveredCall;
use std::alloc::{AllocError, Global};

/// A word `discard` or `retry`, and who said it.
pub(crate) struct SaidCall {
    asker: Asker,
    line: String,
    life: u32,
    call: u32,
}

impl Drop for SaidCall {
    fn drop(self) {
        let SaidCall {
            asker: _asker,
            line: _line,
            life: _life,
            call: _call,
        } = self;
    }
}

impl SaidCall {
    /// This word.
    fn new(alloc: Global, asker: Asker, call: CallWord<'_>) -> Result<Self, AllocError> {
        Ok(SaidCall {
            asker,
            line: String::from_str(alloc, call.line)?,
            life: call.life,
            call: call.call,
        })
    }
}

/// What is beside the pages that could not be delivered.
#[derive(Clone, Copy)]
pub(crate) struct Beside<'a, 'b> {
    /// The pages of lines that wait.
    pub queues: &'a [Queue],
    /// The calls that are on. `None`: they are not known.
    pub on: Option<&'b Vec<CallOn>>,
    /// Whether the disk of those has failed, and whether the server stops.
    pub has_failed: bool,
    pub is_stopping: bool,
    /// How a word is refused where what it names cannot be reached.
    pub refusal: Refusal,
    /// The moment, and the second since 1970, where the clock tells it.
    pub now: u64,
    pub day: Option<u64>,
}

/// Redial lines, and the words about calls that are done at the end of the next turn. No other word is heard before that.
pub(crate) struct Retries<R: RedialSide + Drop> {
    alloc: Global,
    pub redials: R,
    discard: Option<SaidCall>,
    retry: Option<SaidCall>,
}

impl<R: RedialSide + Drop> Drop for Retries<R> {
    fn drop(self) {
        let Retries {
            alloc: _alloc,
            redials: _redials,
            discard: _discard,
            retry: _retry,
        } = self;
    }
}

impl<R: RedialSide + Drop> Retries<R> {
    /// These redial lines; nothing was said.
    pub(crate) fn new(alloc: Global, redials: R) -> Self {
        Retries {
            alloc,
            redials,
            discard: None,
            retry: None,
        }
    }

    /// Whether a word is to be done at the end of the next turn.
    pub(crate) fn is_said(&self) -> bool {
        self.discard.is_some() || self.retry.is_some()
    }

    /// Whether a try may begin at this moment: a word says so, or it is looked what is due.
    pub(crate) fn may_begin(&self, now: u64) -> bool {
        self.retry.is_some() || self.redials.is_look_due(now)
    }

    /// The pages of a call are to be dropped, where something keeps calls. An `Err` says why not.
    pub(crate) fn say_discard(
        &mut self,
        asker: Asker,
        call: CallWord<'_>,
        keeps_calls: bool,
    ) -> Result<(), Refusal> {
        if !keeps_calls {
            return Err(Refusal::NoCall);
        }
        match SaidCall::new(self.alloc, asker, call) {
            Ok(said) => {
                self.discard = Some(said);
                Ok(())
            }
            Err(AllocError) => Err(Refusal::NoMemory),
        }
    }

    /// The job of a call is to be tried again at once, where something keeps calls. An `Err` says why not.
    pub(crate) fn say_retry(
        &mut self,
        asker: Asker,
        call: CallWord<'_>,
        keeps_calls: bool,
    ) -> Result<(), Refusal> {
        if self.redials.len() == 0 {
            return Err(Refusal::NoLine);
        }
        if !keeps_calls {
            return Err(Refusal::NoCall);
        }
        match SaidCall::new(self.alloc, asker, call) {
            Ok(said) => {
                self.retry = Some(said);
                Ok(())
            }
            Err(AllocError) => Err(Refusal::NoMemory),
        }
    }

    /// Tells what could not be delivered since that was told last, does what words named, and notes tries and begins others.
    pub(crate) fn see_kept<K: UndeliveredCalls>(
        &mut self,
        kept: &mut K,
        beside: Beside<'_, '_>,
        teller: &mut Teller,
    ) {
        let news = kept.take_news(self.alloc);
        tell_news(teller, news.as_slice(), kept.calls(), beside.now);
        if let Some(said) = self.discard.take() {
            let answer = self.do_discard(&said, kept, beside, teller);
            teller.answer(said.asker, answer);
        }
        self.note_end(kept, beside, teller);
        if let Some(said) = self.retry.take() {
            let answer = self.do_retry(&said, kept, beside);
            teller.answer(said.asker, answer);
        }
        if let Some(day) = beside.day
            && self.redials.is_look_due(beside.now)
        {
            self.redials.note_look(beside.now);
            self.try_due(day, kept, beside, teller);
        }
    }

    /// Drops the pages of a call, and says how the word is answered.
    fn do_discard<K: UndeliveredCalls>(
        &mut self,
        said: &SaidCall,
        kept: &mut K,
        beside: Beside<'_, '_>,
        teller: &mut Teller,
    ) -> Answer<'static> {
        let (line, life, call) = (said.line.as_str(), said.life, said.call);
        let calls = kept.calls();
        let Some(k) = place_of(calls, line.as_bytes(), life, call) else {
            return Answer::Refused(Refusal::NoCall);
        };
        let tag = match calls.get(k) {
            Some(found) => found.tag.as_slice().to_vec(self.alloc).ok(),
            None => None,
        };
        if self.redials.has(line.as_bytes(), life, call) {
            return Answer::Refused(Refusal::InCall);
        }
        match kept.drop_call(self.alloc, line.as_bytes(), life, call) {
            Some(true) => {
                teller.tell_discarded(line, beside.now, life, call, tag.as_ref());
                Answer::Done
            }
            Some(false) => Answer::Refused(Refusal::NoCall),
            None => Answer::Refused(beside.refusal),
        }
    }

    /// Notes how a try ended, and tells what waits still. What could not be noted is noted later.
    fn note_end<K: UndeliveredCalls>(
        &mut self,
        kept: &mut K,
        beside: Beside<'_, '_>,
        teller: &mut Teller,
    ) {
        let Some(end) = self.redials.take_end() else {
            return;
        };
        if kept.note_end(self.alloc, &end, beside.day.unwrap_or(0)) {
            tell_try(teller, &end.name, kept.calls(), beside.now);
        } else {
            self.redials.keep_end(end);
        }
    }

    /// Tries the job that a word named, and says how the word is answered.
    fn do_retry<K: UndeliveredCalls>(
        &mut self,
        said: &SaidCall,
        kept: &mut K,
        beside: Beside<'_, '_>,
    ) -> Answer<'static> {
        if beside.is_stopping {
            return Answer::Refused(Refusal::Stopping);
        }
        if beside.has_failed || kept.refuses() {
            return Answer::Refused(beside.refusal);
        }
        let line = said.line.as_bytes();
        let Some(k) = place_of(kept.calls(), line, said.life, said.call) else {
            return Answer::Refused(Refusal::NoCall);
        };
        if self.is_under_way(line, said.life, said.call, beside) {
            return Answer::Refused(Refusal::InCall);
        }
        let Some(i) = self.redials.free() else {
            return Answer::Refused(Refusal::Busy);
        };
        match self.try_call(i, k, kept, beside.queues) {
            Ok(()) => Answer::Done,
            Err(BeginFault::NoMemory) => Answer::Refused(Refusal::NoMemory),
            Err(_) => Answer::Refused(beside.refusal),
        }
    }

    /// Whether a job is under way: a try of it is on or to be noted, its line owes it, or more of its pages may come.
    fn is_under_way(&self, line: &[u8], life: u32, call: u32, beside: Beside<'_, '_>) -> bool {
        self.redials.has(line, life, call)
            || is_owed(beside.queues, line, life, call)
            || is_on(beside.on, beside.queues, line, call)
    }

    /// The first of these calls whose time has come by this second since 1970, and of which no more pages may come.
    fn due(&self, day: u64, calls: &[UndeliveredCall], beside: Beside<'_, '_>) -> Option<usize> {
        let mut from = 0;
        for _ in 0..calls.len() {
            let k = self.redials.due(day, calls, beside.queues, from)?;
            let call = calls.get(k)?;
            if !is_on(beside.on, beside.queues, call.line.as_slice(), call.call) {
                return Some(k);
            }
            from = k.saturating_add(1);
        }
        None
    }

    /// Tries those whose time has come by this second since 1970, while a redial line is idle.
    fn try_due<K: UndeliveredCalls>(
        &mut self,
        day: u64,
        kept: &mut K,
        beside: Beside<'_, '_>,
        teller: &mut Teller,
    ) {
        let has_failed = beside.has_failed || kept.refuses();
        if beside.is_stopping || has_failed || self.redials.has_end() {
            return;
        }
        for _ in 0..self.redials.len() {
            let Some(i) = self.redials.free() else {
                return;
            };
            let Some(k) = self.due(day, kept.calls(), beside) else {
                return;
            };
            match self.try_call(i, k, kept, beside.queues) {
                Ok(()) => {}
                Err(BeginFault::NoMemory) => return,
                Err(_) => {
                    self.give_up(k, kept, beside, teller);
                    return;
                }
            }
        }
    }

    /// A try of call k begins on redial line i.
    fn try_call<K: UndeliveredCalls>(
        &mut self,
        i: usize,
        k: usize,
        kept: &mut K,
        queues: &[Queue],
    ) -> Result<(), BeginFault> {
        let name = name_at(self.alloc, kept.calls(), k)?;
        let pages = kept.pages_of(self.alloc, name.line.as_slice(), name.life, name.call);
        // What cannot be read holds up no other job: it waits for its next time.
        let Some(pages) = pages else {
            return Err(BeginFault::NoPage);
        };
        match kept.calls().get(k) {
            Some(call) => self.redials.begin(i, call, pages.as_slice(), queues),
            None => Err(BeginFault::NoPage),
        }
    }

    /// No try of call k can begin: that counts as one, so that it waits for its next time.
    fn give_up<K: UndeliveredCalls>(
        &mut self,
        k: usize,
        kept: &mut K,
        beside: Beside<'_, '_>,
        teller: &mut Teller,
    ) {
        if let Ok(name) = name_at(self.alloc, kept.calls(), k) {
            self.redials.keep_end(RetryEnd {
                name,
                numbers: Vec::new(self.alloc),
                delivered: 0,
                outcome: Outcome::NotPlaced,
                cause: None,
            });
            self.note_end(kept, beside, teller);
        }
    }
}

/// Tells that pages of these calls are kept, each of which is one of those.
fn tell_news(teller: &mut Teller, news: &[CallName], calls: &[UndeliveredCall], now: u64) {
    for name in news {
        if let Some(k) = place_of(calls, name.line.as_slice(), name.life, name.call)
            && let Some(call) = calls.get(k)
        {
            teller.tell_kept(call, now);
        }
    }
}

/// Tells that the pages of a call wait still, where they do.
fn tell_try(teller: &mut Teller, name: &CallName, calls: &[UndeliveredCall], now: u64) {
    if let Some(k) = place_of(calls, name.line.as_slice(), name.life, name.call)
        && let Some(call) = calls.get(k)
    {
        teller.tell_call(call, now);
    }
}

/// The name of call k.
fn name_at(alloc: Global, calls: &[UndeliveredCall], k: usize) -> Result<CallName, BeginFault> {
    let Some(call) = calls.get(k) else {
        return Err(BeginFault::NoPage);
    };
    match call.line.as_slice().to_vec(alloc) {
        Ok(line) => Ok(CallName {
            life: call.life,
            call: call.call,
            line,
        }),
        Err(AllocError) => Err(BeginFault::NoMemory),
    }
}
