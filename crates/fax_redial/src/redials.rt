//! Redial lines.
ghost use Rattle.std.specs.Prelude.{◌≡◌, ℕ, None, IfOk, IfSome, OnErr, OnOk, IfNone, false, length, position, option_copied, slice_get, is_some, not};
ghost use Rattle.std.specs.List.{All, list_all};
ghost use Rattle.fax_desk.specs.Cards.{card_new};
ghost use Rattle.fax_redial.specs.Befalls.{BeginsAt, BeginsUnless, EndsAt, TurnsAt, fault_of, job_at, fault_of_job, is_over_if, is_under_way};
ghost use Rattle.fax_redial.specs.Telling.{NotesIf, TurnsIf, TurnsOne, cause_on, told_if_held, told_of_try, told_on, turn_of};
ghost use Rattle.fax_redial.specs.Tries.{Turns, is_of, report_of};

use crate::begun::RestoredTry;
use crate::fault::BeginFault;
use crate::job::{RetryEnd, RetryJob};
use crate::job_try::JobTry;
use crate::picking::is_owed;
use crate::seeing::first_of;
use fax_bits::NoMemory;
use fax_desk::{Card, Cause, Desk, Listener, Turn, tell_turn};
use fax_gateway::TurnReport;
use fax_jobs::Report;
use fax_queue::Queue;
use fax_wires::repeat::TimedWire;
use std::alloc::Global;
use std::marker::Model;

/// Redial lines, each with a try of a job at most. No two have a try of one job.
pub struct Redials<W: TimedWire + Drop> {
    alloc: Global,
    pub(crate) desk: Desk,
    pub(crate) tries: Vec<Option<JobTry<W>>>,
}

impl<W: TimedWire + Drop> Drop for Redials<W> {
    fn drop(self) {
        let Redials {
            alloc: _alloc,
            desk: _desk,
            tries: _tries,
        } = self;
    }
}

impl<W: TimedWire + Drop> Model for Redials<W> {
    ghost use Rattle.fax_redial.specs.Telling.{AreWell, RedialsValue};

    ghost Value = { RedialsValue };

    ghost view = { λ r. record { desk = r.desk; tries = r.tries.items } };

    ghost invariant = { λ r. AreWell r.desk };
}

impl<W: TimedWire + Drop> Redials<W> {
    /// Redial lines of these names, without a try, whose questions are open for so many seconds.
    pub fn new(alloc: Global, names: Vec<String>, dial_seconds: u32) -> Result<Self, NoMemory>
        ensures names { IfOk result (λ redials. redials.desk.names ≡ names) }
        ensures cards { IfOk result
            (λ redials. (length redials.desk.cards.items ≡ length names.items)
            × All (λ card. card ≡ card_new dial_seconds) redials.desk.cards.items) }
        ensures tries { IfOk result (λ redials. (length redials.tries ≡ length names.items)
            × All (λ held. held ≡ None) redials.tries) }
    {
        let cards = new_cards(alloc, names.len(), dial_seconds)?;
        let tries = no_tries(alloc, names.len())?;
        Ok(Redials {
            alloc,
            desk: Desk::new(names, cards, 0),
            tries,
        })
    }

    /// How many redial lines there are.
    pub fn len(&self) -> usize
        ensures { result ≡ length self.now.tries }
    {
        self.tries.len()
    }

    /// Whether redial line i has a try.
    pub fn has_try(&self, i: usize) -> bool
        ensures { result ≡ is_some (job_at (slice_get self.now.tries i)) }
    {
        self.job(i).is_some()
    }

    /// The job of the try on redial line i.
    pub fn job(&self, i: usize) -> Option<&RetryJob>
        ensures { option_copied result ≡ job_at (slice_get self.now.tries i) }
    {
        match self.tries.get(i) {
            Some(Some(held)) => Some(held.job()),
            Some(None) => None,
            None => None,
        }
    }

    /// The first redial line without a try.
    pub fn free(&self) -> Option<usize>
        ensures { result ≡ position (λ held. not (is_some held)) self.now.tries }
    {
        self.tries.iter().position(|held| !held.is_some())
    }

    /// Whether the job is tried on a redial line whose pages came in this call of this life of the line of this name.
    pub fn is_under_way(&self, line: &[u8], life: u32, call: u32) -> bool
        ensures { result
            ≡ is_under_way (record { life = life; call = call; line = line.now }) self.now.tries }
    {
        is_under_way(line, life, call, self.tries.as_slice())
    }

    /// Whether none has a try.
    pub fn are_idle(&self) -> bool
        ensures { result ≡ list_all (λ held. not (is_some held)) self.now.tries }
    {
        self.tries.iter().all(|held| !held.is_some())
    }

    /// A try of a job begins on redial line i, by a line that was restored with its pages, and with nothing else, where its own line owes
    /// it by none of these queues. An `Err` changes nothing, and lets the line go.
    pub fn begin(
        &mut self,
        i: usize,
        restored: RestoredTry<W>,
        queues: &[Queue],
    ) -> Result<(), BeginFault>
        ensures answer { BeginsUnless (fault_of
            self.old.tries i queues.now restored.job restored.line) result }
        ensures begun { OnOk result
            (BeginsAt i queues.now restored.job restored.line self.old.tries self.new.tries) }
        ensures desk { self.new.desk ≡ self.old.desk }
        ensures err { OnErr result (self.new ≡ self.old) }
    {
        if let Some(fault) = self.fault(i, &restored, queues) {
            return Err(fault);
        }
        let held = JobTry::new(self.alloc, restored)?;
        self.tries[i] = Some(held);
        Ok(())
    }

    /// Why none begins, but for want of memory.
    fn fault(&self, i: usize, restored: &RestoredTry<W>, queues: &[Queue]) -> Option<BeginFault>
        ensures { result ≡ fault_of self.now.tries i queues.now restored.now.job restored.now.line }
    {
        match self.tries.get(i) {
            None => Some(BeginFault::NoLine),
            Some(Some(_)) => Some(BeginFault::Busy),
            Some(None) => {
                let job = restored.job();
                let name = &job.name;
                let is_tried = self.is_under_way(name.line.as_slice(), name.life, name.call);
                let owes = is_owed(queues, name.line.as_slice(), name.life, name.call);
                fault_of_job(is_tried, owes, restored.waiting())
            }
        }
    }

    /// Redial line i has the turn of its next slot, where it has a try, at this moment; one before another that came reads as the latest.
    /// Forty turns are a round, in one of which the line itself is turned. What that comes to is told, under the redial line's name.
    pub fn turn<L: Listener>(&mut self, i: usize, now: u64, listener: &mut L)
        ensures tries { TurnsIf i now (cause_on self.old.desk.cards.items i)
            (slice_get self.old.tries i) self.old.tries self.new.tries }
        ensures notes { NotesIf L.tells i now (told_on (slice_get self.old.tries i)
            (slice_get self.new.tries i)) self.old.desk self.new.desk listener.old listener.new }
    {
        let cause = cause_on(self.desk.cards.as_slice(), i);
        if let Some(turn) = turn_at(self.tries.as_mut_slice(), i, now, cause) {
            tell_turn(&mut self.desk, i, turn, now, listener);
        }
    }

    /// Takes a try that is over away from its redial line, which is free again, and answers how it ended. `None`: none is over.
    pub fn take_end(&mut self) -> Option<RetryEnd>
        ensures ended { IfSome result
            (λ end. (i : ℕ) × EndsAt i end self.old.tries self.new.tries) }
        ensures none { IfNone result (position is_over_if self.old.tries ≡ None) }
        ensures same { IfNone result (self.new ≡ self.old) }
        ensures desk { self.new.desk ≡ self.old.desk }
    {
        let i = first_over(self.tries.as_slice())?;
        let held = self.tries[i].take()?;
        Some(held.into_end())
    }
}

/// Why no try of a job begins on a line that is free.
fn fault_of_job(is_tried: bool, is_owed: bool, waiting: usize) -> Option<BeginFault>
    ensures { result ≡ fault_of_job is_tried is_owed waiting }
{
    if is_tried {
        Some(BeginFault::UnderWay)
    } else if is_owed {
        Some(BeginFault::Owed)
    } else if waiting == 0 {
        Some(BeginFault::NoPage)
    } else {
        None
    }
}

/// For what cause the call of the job that is first in turn on redial line i could not be placed, where a word said so.
fn cause_on(cards: &[Card], i: usize) -> Option<Cause>
    ensures { result ≡ cause_on cards.now i }
{
    match cards.get(i) {
        Some(card) => card.cause(card.jobs),
        None => None,
    }
}

/// The try on redial line i has a turn, where there is one. It answers what is told of that.
fn turn_at<W: TimedWire + Drop>(
    tries: &mut [Option<JobTry<W>>],
    i: usize,
    now: u64,
    cause: Option<Cause>,
) -> Option<Turn>
    ensures turns { TurnsIf i now cause (slice_get tries.old i) tries.old tries.new }
    ensures told { result ≡ told_on (slice_get tries.old i) (slice_get tries.new i) }
{
    if i >= tries.len() {
        return None;
    }
    turn_one(&mut tries[i], now, cause)
}

/// The same of a try, where there is one.
fn turn_one<W: TimedWire + Drop>(
    held: &mut Option<JobTry<W>>,
    now: u64,
    cause: Option<Cause>,
) -> Option<Turn>
    ensures turns { TurnsOne now cause held.old held.new }
    ensures told { result ≡ told_if_held held.old held.new }
{
    match held {
        Some(held) => turn_held(held, now, cause),
        None => None,
    }
}

/// The same of a try.
fn turn_held<W: TimedWire + Drop>(
    held: &mut JobTry<W>,
    now: u64,
    cause: Option<Cause>,
) -> Option<Turn>
    ensures turns { Turns now cause held.old held.new }
    ensures told { result ≡ told_of_try held.old (Some held.new) }
{
    let turned = held.turn(now);
    held.count(report_of(turned), cause);
    match turned {
        Some(turned) => Some(turn_of(held.job(), turned)),
        None => None,
    }
}

/// What a turn reported.
fn report_of(turned: Option<TurnReport>) -> Option<Report>
    ensures { result ≡ report_of turned }
{
    match turned {
        Some(turned) => turned.report,
        None => None,
    }
}

/// What a desk knows of so many lines to which nothing happened.
fn new_cards(alloc: Global, count: usize, dial_seconds: u32) -> Result<Vec<Card>, NoMemory>
    ensures { IfOk result (λ cards. (length cards.items ≡ count)
        × All (λ card. card ≡ card_new dial_seconds) cards.items) }
{
    let mut cards = Vec::new(alloc);
    for _ in 0..count {
        cards.push(Card::new(alloc, dial_seconds)?)?;
    }
    Ok(cards)
}

/// So many redial lines without a try.
fn no_tries<W: TimedWire + Drop>(
    alloc: Global,
    count: usize,
) -> Result<Vec<Option<JobTry<W>>>, NoMemory>
    ensures { IfOk result
        (λ tries. (length tries.items ≡ count) × All (λ held. held ≡ None) tries.items) }
{
    let mut tries = Vec::new(alloc);
    for _ in 0..count {
        tries.push(None)?;
    }
    Ok(tries)
}

/// A turn of a try's line, which told this.
fn turn_of(job: &RetryJob, turned: TurnReport) -> Turn
    ensures { result ≡ turn_of job.now turned }
{
    Turn {
        turned,
        first: first_of(job),
        is_stored: true,
        is_silenced: false,
        is_hung_up: false,
    }
}

/// Whether the job whose pages came in this call is tried.
fn is_under_way<W: TimedWire + Drop>(
    line: &[u8],
    life: u32,
    call: u32,
    tries: &[Option<JobTry<W>>],
) -> bool
    ensures { result
        ≡ is_under_way (record { life = life; call = call; line = line.now }) tries.now }
{
    tries.iter().any(|held| is_of(line, life, call, held))
}

/// Whether a try, where there is one, is of this job.
fn is_of<W: TimedWire + Drop>(line: &[u8], life: u32, call: u32, held: &Option<JobTry<W>>) -> bool
    ensures { result ≡ is_of (record { life = life; call = call; line = line.now }) held.now }
{
    match held {
        Some(held) => held.is_named(line, life, call),
        None => false,
    }
}

/// The first try that is over.
fn first_over<W: TimedWire + Drop>(tries: &[Option<JobTry<W>>]) -> Option<usize>
    ensures { result ≡ position is_over_if tries.now }
{
    tries.iter().position(is_over_if)
}

/// Whether a try, where there is one, is over.
fn is_over_if<W: TimedWire + Drop>(held: &Option<JobTry<W>>) -> bool
    ensures { result ≡ is_over_if held.now }
{
    match held {
        Some(held) => held.is_over(),
        None => false,
    }
}
