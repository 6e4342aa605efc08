//! What is told of lines.
use crate::answers::{answer_text, failures_of};
use crate::failures::Failures;
use crate::refusals::Refusals;
use crate::rounds::Rounds;
use crate::seen::SeenLines;
use crate::undelivered::{event_of, shown_text};
use crate::visits::{EndedJob, words_with};
use fax_bits::NoMemory;
use fax_clients::{Asker, Clients};
use fax_control::events::{Counters, Event, PageAside, What, write_event};
use fax_control::{Answer, HeardLine, Refusal};
use fax_desk::{Cause, Damage, LineEvent, Listener, Tag};
use fax_jobs::{Outcome, Report};
use fax_undelivered::UndeliveredCall;
use std::alloc::{AllocError, Global};

/// The most jobs that are kept for a page.
const MOST_JOBS: usize = 20;

/// The most that is told of a line at one time.
const MOST_NEWS: usize = 16;

/// Counts, and tells the clients that want events.
pub(crate) struct Teller {
    alloc: Global,
    clients: Clients,
    pub counters: Counters,
    /// Events that were lost for want of memory.
    lost: u64,
    /// The pages that are not sent, as lines of events: for those who come later.
    aside: Vec<Vec<u8>>,
    /// How many failures of each line were told.
    failures: Vec<Failures>,
    /// What each line has refused for want of memory.
    refusals: Vec<Refusals>,
    /// The jobs that ended last, the newest first.
    jobs: Vec<EndedJob>,
    /// What happened on the line that was told of last, where SIP is to hear it.
    news: Option<Vec<LineEvent>>,
}

impl Drop for Teller {
    fn drop(self) {
        let Teller {
            alloc: _alloc,
            clients: _clients,
            counters: _counters,
            lost: _lost,
            aside: _aside,
            failures: _failures,
            refusals: _refusals,
            jobs: _jobs,
            news: _news,
        } = self;
    }
}

impl Teller {
    /// Nothing was told; there are so many lines, and the spool has failed so often before.
    pub(crate) fn new(
        alloc: Global,
        clients: Clients,
        lines: usize,
        spool_failures: u64,
        keeps_news: bool,
    ) -> Result<Self, AllocError> {
        let mut failures = Vec::new(alloc);
        failures.resize(lines, Failures::default())?;
        let mut refusals = Vec::new(alloc);
        refusals.resize(lines, Refusals::default())?;
        Ok(Teller {
            alloc,
            clients,
            counters: Counters {
                lines: lines as u64,
                spool_failures,
                ..Counters::default()
            },
            lost: 0,
            aside: Vec::new(alloc),
            failures,
            refusals,
            jobs: Vec::with_capacity(alloc, MOST_JOBS)?,
            news: if keeps_news {
                Some(Vec::with_capacity(alloc, MOST_NEWS)?)
            } else {
                None
            },
        })
    }

    /// Clients are waited for so many milliseconds at most.
    pub(crate) fn wait(&mut self, most_ms: i32) {
        self.clients.wait(most_ms);
    }

    /// A line that a client said.
    pub(crate) fn hear(&mut self) -> Option<(Asker, HeardLine)> {
        self.clients.hear()
    }

    /// Whether no words can come any more.
    pub(crate) fn have_ended(&self) -> bool {
        self.clients.have_ended()
    }

    /// Whether a client hears events.
    pub(crate) fn tell_events(&self) -> bool {
        self.clients.tell_events()
    }

    /// Whether events are heard or written down.
    pub(crate) fn takes_events(&self) -> bool {
        self.clients.takes_events()
    }

    /// From now on a client is told events.
    pub(crate) fn want_events(&mut self, asker: Asker) -> Result<(), NoMemory> {
        self.clients.want_events(asker)
    }

    /// From now on a client watches line i, and no other.
    pub(crate) fn watch(&mut self, asker: Asker, i: usize) {
        self.clients.watch(asker, i);
    }

    /// Whether a client watches line i.
    pub(crate) fn is_watched(&self, i: usize) -> bool {
        self.clients.is_watched(i)
    }

    /// Those who watch line i, of this name, are told a thing that happened there. Without memory it is lost.
    pub(crate) fn tell_frame(&mut self, i: usize, name: &str, at: u64, lane: &str, words: &str) {
        let event = Event {
            line: Some(name),
            at,
            what: What::Frame(lane, words),
        };
        match write_event(self.alloc, &event) {
            Ok(text) => self.clients.tell_watchers(i, text.as_slice()),
            Err(_) => self.lost = self.lost.saturating_add(1),
        }
    }

    /// Clients are told this line of an event.
    pub(crate) fn tell_line(&mut self, line: &[u8]) {
        self.clients.tell(line);
    }

    /// Writes what clients are still to be told, for a while.
    pub(crate) fn finish(&mut self) {
        self.clients.finish();
    }

    /// A client is answered by a line. Without memory for it there is no answer.
    pub(crate) fn answer(&mut self, asker: Asker, answer: Answer<'_>) {
        let text = answer_text(self.alloc, answer);
        self.put_line(asker, text);
    }

    /// The same, by its text.
    pub(crate) fn put_line(&mut self, asker: Asker, text: Result<Vec<u8>, AllocError>) {
        if let Ok(text) = text {
            self.clients.answer(asker, text);
        }
    }

    /// A client is answered by a text, or told that memory lacks for it.
    pub(crate) fn put(&mut self, asker: Asker, text: Result<Vec<u8>, NoMemory>) {
        match text {
            Ok(text) => self.clients.answer(asker, text),
            Err(NoMemory) => self.answer(asker, Answer::Refused(Refusal::NoMemory)),
        }
    }

    /// The counts, with the events that were lost.
    pub(crate) fn counters(&self) -> Counters {
        Counters {
            events_lost: self.clients.lost().saturating_add(self.lost),
            ..self.counters
        }
    }

    /// Tells an event of the line of this name, or of all of them. Without memory it is lost.
    pub(crate) fn tell_event(&mut self, line: Option<&str>, at: u64, what: What<'_>) {
        if !self.clients.takes_events() {
            return;
        }
        match write_event(self.alloc, &Event { line, at, what }) {
            Ok(text) => self.clients.tell(text.as_slice()),
            Err(_) => self.lost = self.lost.saturating_add(1),
        }
    }

    /// Pages of lines were handed to the spool at once, which took so many microseconds.
    pub(crate) fn count_put(&mut self, micros: u64) {
        self.counters.puts = self.counters.puts.saturating_add(1);
        self.counters.put_micros = self.counters.put_micros.saturating_add(micros);
    }

    /// Counts what a start found damaged in the spool, and tells it, where there is something.
    pub(crate) fn tell_damage(&mut self, damage: Damage) {
        self.counters.records_damaged = damage.records;
        self.counters.octets_passed_over = damage.octets;
        if let Some(what) = damage.told() {
            self.tell_event(None, 0, what);
        }
    }

    /// Counts that the spool has failed, and tells it.
    pub(crate) fn tell_spool_failed(&mut self, at: u64) {
        self.counters.spool_failures = self.counters.spool_failures.saturating_add(1);
        self.tell_event(None, at, What::SpoolFailed);
    }

    /// Tells a page of an earlier life that is not sent, with the tag of its call.
    pub(crate) fn tell_aside(&mut self, line: &str, page: PageAside, tag: Option<&str>) {
        self.counters.pages_set_aside = self.counters.pages_set_aside.saturating_add(1);
        let what = What::SetAside(page, tag);
        let line = Some(line);
        self.tell_event(line, 0, what);
        if let Ok(text) = write_event(self.alloc, &Event { line, at: 0, what }) {
            let _ = self.aside.push(text);
        }
    }

    /// Counts a turn that is late, and tells it of the line of this name, the first of its slot, once a second at most.
    pub(crate) fn tell_late(&mut self, rounds: &mut Rounds, name: Option<&str>, late: u64) {
        self.counters.turns_late = self.counters.turns_late.saturating_add(1);
        self.counters.skipped_ms = rounds.skipped();
        if let Some(name) = name
            && rounds.tells_late()
        {
            self.tell_event(Some(name), rounds.now, What::Late(late));
        }
    }

    /// Tells that pages of a call are kept, since its job failed.
    pub(crate) fn tell_kept(&mut self, call: &UndeliveredCall, at: u64) {
        self.counters.jobs_undelivered = self.counters.jobs_undelivered.saturating_add(1);
        self.tell_call(call, at);
    }

    /// Tells that pages of a call wait.
    pub(crate) fn tell_call(&mut self, call: &UndeliveredCall, at: u64) {
        let line = std::str::from_utf8(call.line.as_slice()).ok();
        self.tell_event(line, at, event_of(call));
    }

    /// Counts that the pages of a call of this tag were dropped, and tells it of the line of this name.
    pub(crate) fn tell_discarded(
        &mut self,
        line: &str,
        at: u64,
        life: u32,
        call: u32,
        tag: Option<&Vec<u8>>,
    ) {
        self.counters.jobs_discarded = self.counters.jobs_discarded.saturating_add(1);
        let tag = match tag {
            Some(tag) => shown_text(tag.as_slice()),
            None => None,
        };
        self.tell_event(Some(line), at, What::Discarded(life, call, tag));
    }

    /// The lines of the events that told pages that are not sent.
    pub(crate) fn aside(&self) -> &[Vec<u8>] {
        self.aside.as_slice()
    }

    /// Counts what happened.
    fn count(&mut self, what: LineEvent) {
        let counters = &mut self.counters;
        match what {
            LineEvent::Rung(_) => counters.calls = counters.calls.saturating_add(1),
            LineEvent::Page(_, _) => {
                counters.pages_confirmed = counters.pages_confirmed.saturating_add(1);
            }
            LineEvent::NotStored(_) => {
                counters.put_failures = counters.put_failures.saturating_add(1);
            }
            LineEvent::RefusedPage(_, _) => {
                counters.pages_refused = counters.pages_refused.saturating_add(1);
            }
            LineEvent::Job(report, _, _) => self.count_report(report),
            LineEvent::Ended(_, _)
            | LineEvent::Dial(_)
            | LineEvent::Asked(_, _)
            | LineEvent::Connected(_) => {}
        }
    }

    /// Counts a job that ended.
    fn count_report(&mut self, report: Report) {
        let counters = &mut self.counters;
        let delivered = u64::from(report.delivered);
        counters.pages_delivered = counters.pages_delivered.saturating_add(delivered);
        if report.outcome == Outcome::Delivered {
            counters.jobs_delivered = counters.jobs_delivered.saturating_add(1);
        } else {
            counters.jobs_failed = counters.jobs_failed.saturating_add(1);
        }
    }

    /// A job that ended on the line of this name is kept for a page, in place of the one that ended first.
    fn keep_job(
        &mut self,
        line: &str,
        report: Report,
        tag: Option<Tag>,
        cause: Option<Cause>,
    ) -> Result<(), AllocError> {
        let words = match &cause {
            Some(cause) => words_with(self.alloc, report.outcome, Some(cause.text()))?,
            None => words_with(self.alloc, report.outcome, None)?,
        };
        let line = String::from_str(self.alloc, line)?;
        self.jobs.truncate(MOST_JOBS - 1);
        self.jobs.insert(
            0,
            EndedJob {
                line,
                report,
                tag,
                words,
            },
        )?;
        Ok(())
    }

    /// What happened on the line that was told of last: the latest of it. It is taken.
    pub(crate) fn next_news(&mut self) -> Option<LineEvent> {
        match &mut self.news {
            Some(news) if !news.is_empty() => Some(news.remove(0)),
            Some(_) | None => None,
        }
    }

    /// The jobs that ended last, the newest first.
    pub(crate) fn jobs(&self) -> &[EndedJob] {
        self.jobs.as_slice()
    }

    /// Tells of receives and sends that fail on line i, of this name.
    pub(crate) fn tell_failures<S: SeenLines>(&mut self, i: usize, name: &str, seen: &S, at: u64) {
        let Some(told) = self.failures.get_mut(i) else {
            return;
        };
        let Some((leg, direction, count)) = failures_of(i, seen).news(told) else {
            return;
        };
        told.tell(leg, direction, count);
        self.tell_event(Some(name), at, What::Wire(leg, direction, count));
    }

    /// Tells that line i, of this name, refused a datagram for want of memory: once in a call.
    pub(crate) fn tell_refusals<S: SeenLines>(&mut self, i: usize, name: &str, seen: &S, at: u64) {
        let Some(told) = self.refusals.get_mut(i) else {
            return;
        };
        if let Some(call) = told.news(seen.refusals(i), seen.call(i)) {
            self.tell_event(Some(name), at, What::Full(call));
        }
    }
}

/// It is counted, and told those who hear events. What they read is not told of clients.
impl Listener for Teller {
    ghost tells = { λ line at what old new. Unit {0} };

    fn tell(&mut self, line: &str, at: u64, what: LineEvent) {
        self.count(what);
        if let Some(news) = &mut self.news {
            let _ = news.push(what);
        }
        if let LineEvent::Job(report, tag, cause) = what {
            let _ = self.keep_job(line, report, tag, cause);
        }
        self.tell_event(Some(line), at, what.shown());
    }
}
