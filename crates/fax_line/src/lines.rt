//! All lines of a server, in forty slots.
ghost use Rattle.std.specs.Prelude.{◌≡◌, ◌≢◌, ◌+◌, ◌<◌, List, [], ◌∷◌, ◌++◌, ℕ, Bool, true, false, IsTrue, IfOk, OnOk, OnErr, IsSome, ◌≤◌, ◌↔◌, MatchOption, is_ok, length, map, nat_eq, slice_index_or, if◌then◌else◌};
ghost use Rattle.std.specs.List.{list_any};
ghost use Rattle.fax_gateway.specs.Restored.{RestoredCall};
ghost use Rattle.fax_wires.specs.holding.Storing.{PutsIf};
ghost use Rattle.fax_line.specs.Actions.{Asks, BeginsWith, IsNew, Wakes};
ghost use Rattle.fax_line.specs.Places.{StaysHeld, WaitsStill, actions_by};
ghost use Rattle.fax_line.specs.Operations.{AllStayHeld, AllWaitStill, AreBegun, AreFreed, AreNew, AskFrees, AsksLine, AwakeAfter, AwakeAlike, EachComes, EachGoes, IsAdded, IsLineAt, LinesWent, VisitsLines, VisitsTell, WaitAlike, WakesLine, WakesOne, have_turned, most_slots, rests_at, slot_after, slot_before, slot_of, visits_at, waits_of};
ghost use Rattle.fax_line.specs.StoredRuns.{EndsIf, EndsLines, EndsWith, NotesIf, NotesLines, NotesWhere, TellsLines, report_if};
ghost use Rattle.fax_line.specs.Settling.{ArePagesOf, EndTurns, EndsWhere, HandOver, LetsOutSlot, RiseByLine, SetAside, has_page, is_stored_in};
ghost use Rattle.fax_line.specs.declared.settling.PageToStore.{PageToStore as ToStore};

use crate::asked::{LineAnswer, LineRequest};
use crate::line::Line;
use crate::place::Place;
use crate::settling::{LineReport, PageToStore, PutResult, has_page};
use crate::store::RunStore;
use fax_bits::NoMemory;
use fax_gateway::{Buffer, Kept};
use fax_jobs::Report;
use fax_wires::holding::{PageStore, store_pages};
use fax_wires::repeat::TimedWire;
use std::alloc::{AllocError, Global};
use std::marker::Model;

/// How many slots there are.
pub const SLOTS: usize = 40;

/// The lines of a server. Line i stands in slot i mod 40; a slot has its turn each millisecond, one after the other, so that
/// each line has one each 40 ms: there it is turned, or left at rest where nothing is due on it and it was not woken since it
/// was turned last. All share one buffer, which is lent to the line whose turn it is.
pub struct Lines<W: TimedWire + Drop> {
    places: Vec<Place<W>>,
    alloc: Global,
    buffer: Buffer,
    /// The slot that has the next turn.
    slot: usize,
}

impl<W: TimedWire + Drop> Drop for Lines<W> {
    fn drop(self) {
        let Lines {
            places: _places,
            alloc: _alloc,
            buffer: _buffer,
            slot: _slot,
        } = self;
    }
}

impl<W: TimedWire + Drop> Model for Lines<W> {
    ghost use Rattle.std.specs.Prelude.{◌<◌};
    ghost use Rattle.fax_line.specs.Operations.{LinesValue, most_slots};

    ghost Value = { LinesValue };

    ghost view = { λ l. record { lines = l.places.items; slot = l.slot } };

    ghost invariant = { λ l. l.slot < most_slots };
}

impl<W: TimedWire + Drop> Lines<W> {
    /// No lines. It takes memory for their buffer.
    pub fn new(alloc: Global) -> Result<Self, NoMemory>
        ensures { IfOk result (λ lines. lines ≡ record { lines = []; slot = 0 }) }
    {
        let buffer = Buffer::new(alloc)?;
        Ok(Lines {
            places: Vec::new(alloc),
            alloc,
            buffer,
            slot: 0,
        })
    }

    /// Adds a line after the others. Without memory nothing is changed, and the line is let go.
    pub fn add(&mut self, line: Line<W>) -> Result<(), AllocError>
        ensures added { OnOk result (IsAdded line self.old.lines self.new.lines) }
        ensures err { OnErr result (self.new.lines ≡ self.old.lines) }
        ensures slot { self.new.slot ≡ self.old.slot }
        ensures new { AreNew self.old.lines → IsNew line → AreNew self.new.lines }
        ensures begun { (calls : List RestoredCall)
            → AreBegun self.old.lines → BeginsWith calls line → AreBegun self.new.lines }
    {
        let place = Place::new(self.alloc, line)?;
        self.places.push(place)?;
        Ok(())
    }

    /// How many lines there are.
    pub fn len(&self) -> usize
        ensures { result ≡ length self.now.lines }
    {
        self.places.len()
    }

    /// Line i, counted from 0.
    pub fn line(&self, i: usize) -> Option<&Line<W>>
        ensures { MatchOption result (length self.now.lines ≤ i)
            (λ line. IsLineAt i self.now.lines line.now) }
    {
        match self.places.get(i) {
            Some(place) => Some(place.line()),
            None => None,
        }
    }

    /// Whether line i was turned, and not left at rest, in the last turn of its slot. `false`: there is no such line.
    pub fn has_turned(&self, i: usize) -> bool
        ensures { result ≡ slice_index_or (have_turned self.now.lines) i false }
    {
        match self.places.get(i) {
            Some(place) => place.has_turned(),
            None => false,
        }
    }

    /// Whether line i would be left at rest if its slot had its turn at this moment: nothing is due on it, and it was not woken
    /// since it was turned last. `false`: there is no such line.
    pub fn is_at_rest(&self, i: usize, now: u64) -> bool
        ensures { result ≡ rests_at now self.now.lines i }
    {
        match self.places.get(i) {
            Some(place) => place.is_at_rest(now),
            None => false,
        }
    }

    /// The slot that has the next turn.
    pub fn slot(&self) -> usize
        ensures slot { result ≡ self.now.slot }
        ensures low { result < most_slots }
    {
        self.slot
    }

    /// Whether line i was turned, and does nothing until what is to be stored of that turn is stored. `false`: there is no such line.
    pub fn waits(&self, i: usize) -> bool
        ensures { result ≡ waits_of self.now.lines i }
    {
        match self.places.get(i) {
            Some(place) => place.waits(),
            None => false,
        }
    }

    /// Whether a line waits.
    pub fn some_wait(&self) -> bool
        ensures { result ≡ list_any (λ place. place.waits) self.now.lines }
    {
        self.places.iter().any(|place| place.waits())
    }

    /// The turn of the slot that is next: its lines are turned, or left at rest, but for those that wait. The wires of the slot half a round
    /// away are told the time, where something is due.
    pub fn turn(&mut self, now: u64)
        ensures went { LinesWent (VisitsLines (visits_at self.old.slot now self.old.lines) ∷ [])
            self.old.lines self.new.lines }
        ensures tells { VisitsTell
            (visits_at self.old.slot now self.old.lines) self.old.lines self.new.lines }
        ensures waits { AllWaitStill self.old.lines self.new.lines }
        ensures awake { AwakeAfter
            (visits_at self.old.slot now self.old.lines) self.old.lines self.new.lines }
        ensures slot { self.new.slot ≡ slot_after self.old.slot }
    {
        serve_slot(self.places.as_mut_slice(), &mut self.buffer, self.slot, now);
        self.slot = slot_after_it(self.slot);
    }

    /// This is asked of line i, counted from 0, where there is one. Every other line is left as it was.
    pub fn ask(&mut self, i: usize, what: LineRequest, now: u64) -> Option<LineAnswer>
        ensures went { LinesWent (AsksLine i now what result ∷ []) self.old.lines self.new.lines }
        ensures frees { AskFrees i what result self.old.lines self.new.lines }
        ensures waits { WaitAlike self.old.lines self.new.lines }
        ensures awake { AwakeAlike self.old.lines self.new.lines }
        ensures there { IsSome result ↔ (i < length self.old.lines) }
        ensures slot { self.new.slot ≡ self.old.slot }
    {
        ask_one(self.places.as_mut_slice(), i, what, now)
    }

    /// Something may have come for line i, counted from 0, where there is one: it is turned in the next turn of its slot.
    pub fn wake(&mut self, i: usize)
        ensures went { LinesWent (WakesLine i ∷ []) self.old.lines self.new.lines }
        ensures stays { AllStayHeld self.old.lines self.new.lines }
        ensures woken { WakesOne i self.old.lines self.new.lines }
        ensures slot { self.new.slot ≡ self.old.slot }
    {
        wake_one(self.places.as_mut_slice(), i);
    }

    /// After the turns of lines that wait have ended: a store is told which of the pages that they confirmed were not handed over, and which
    /// jobs ended, line by line.
    pub fn tell_store<K: RunStore>(&self, end: &PutResult, store: &mut K)
        ensures { TellsLines K.notes K.ends (waits_of self.now.lines)
            end.now.pages.items self.now.lines store.old store.new }
    {
        let places = self.places.as_slice();
        note_places(places, end.pages.as_slice(), store);
        end_jobs(places, self.alloc, store);
    }

    /// After the turn of the slot that had the last one: each of its lines waits that was turned, and of whose turn something is to be stored;
    /// what the others gave on their calling legs goes out.
    pub fn set_aside(&mut self)
        ensures went { LinesWent [] self.old.lines self.new.lines }
        ensures aside { SetAside (slot_before self.old.slot) self.old.lines self.new.lines }
        ensures slot { self.new.slot ≡ self.old.slot }
    {
        let slot = slot_before(self.slot);
        set_aside_slot(self.places.as_mut_slice(), slot);
    }

    /// The turns of the lines that wait end. The pages that they confirmed are stored, all of them at once; then what these lines gave on
    /// their calling legs goes out. Where the pages were not stored none of that does, and these legs are silenced until the next calls
    /// begin on them; where memory was refused for a page's text that is so of its line alone. What a line gave that confirmed none goes
    /// out before. No other line is touched.
    pub fn settle<K: PageStore<PageToStore>>(&mut self, store: &mut K) -> PutResult
        ensures went { LinesWent [] self.old.lines self.new.lines }
        ensures slot { self.new.slot ≡ self.old.slot }
        ensures waits { WaitAlike self.old.lines self.new.lines }
        ensures awake { AwakeAlike self.old.lines self.new.lines }
        ensures pages { ArePagesOf (waits_of self.old.lines) self.old.lines result.pages.items }
        ensures kept { OnOk result.answer ((before : List ToStore)
            → K.keeps store.old before → K.keeps store.new (before ++ result.pages.items)) }
        ensures settled { EndTurns (waits_of self.old.lines)
            (is_stored_in result) self.old.lines self.new.lines }
        ensures put { PutsIf K.puts result.pages.items (is_ok result.answer) store.old store.new }
    {
        settle_places(self.places.as_mut_slice(), self.alloc, store)
    }

    /// What is to be stored of the turns of lines is stored: none waits any more.
    pub fn free(&mut self)
        ensures went { LinesWent [] self.old.lines self.new.lines }
        ensures frees { AreFreed self.old.lines self.new.lines }
        ensures slot { self.new.slot ≡ self.old.slot }
    {
        free_places(self.places.as_mut_slice());
    }

    /// The end of the turn of the slot that had the last one, where pages are not stored: what its lines gave on their calling legs
    /// goes out.
    pub fn let_out_slot(&mut self)
        ensures ends { LetsOutSlot (slot_before self.old.slot) self.old.lines self.new.lines }
        ensures went { LinesWent [] self.old.lines self.new.lines }
        ensures waits { WaitAlike self.old.lines self.new.lines }
        ensures awake { AwakeAlike self.old.lines self.new.lines }
        ensures slot { self.new.slot ≡ self.old.slot }
    {
        let slot = slot_before(self.slot);
        let_out_places(self.places.as_mut_slice(), slot);
    }
}

/// The slot after a slot.
fn slot_after_it(slot: usize) -> usize
    requires { slot < most_slots }
    ensures next { result ≡ slot_after slot }
    ensures low { result < most_slots }
{
    if slot == SLOTS - 1 { 0 } else { slot + 1 }
}

/// The slot before a slot.
fn slot_before(slot: usize) -> usize
    requires { slot < most_slots }
    ensures before { result ≡ slot_before slot }
    ensures low { result < most_slots }
{
    if slot == 0 { SLOTS - 1 } else { slot - 1 }
}

/// The slot half a round away.
fn slot_across(slot: usize) -> usize
    requires { slot < most_slots }
    ensures other { result ≢ slot }
    ensures low { result < most_slots }
{
    (slot + SLOTS / 2) % SLOTS
}

/// The turn of a slot, and the wires of the slot half a round away are told the time.
fn serve_slot<W: TimedWire + Drop>(
    places: &mut [Place<W>],
    buffer: &mut Buffer,
    slot: usize,
    now: u64,
)
    requires { slot < most_slots }
    ensures went { LinesWent (VisitsLines (visits_at slot now places.old) ∷ [])
        places.old places.new }
    ensures tells { VisitsTell (visits_at slot now places.old) places.old places.new }
    ensures waits { AllWaitStill places.old places.new }
    ensures awake { AwakeAfter (visits_at slot now places.old) places.old places.new }
{
    turn_slot(places, buffer, slot, now);
    tell_slot(places, slot_across(slot), now);
}

/// A turn of each line of a slot, but for those that are left at rest, and those that wait.
fn turn_slot<W: TimedWire + Drop>(
    places: &mut [Place<W>],
    buffer: &mut Buffer,
    slot: usize,
    now: u64,
)
    requires { slot < most_slots }
    ensures goes { EachGoes (λ i. actions_by (visits_at slot now places.old i))
        places.old places.new }
    ensures tells { VisitsTell (visits_at slot now places.old) places.old places.new }
    ensures waits { AllWaitStill places.old places.new }
    ensures awake { AwakeAfter (visits_at slot now places.old) places.old places.new }
{
    let rounds = places.len() / SLOTS + 1;
    for round in 0..rounds {
        let i = round * SLOTS + slot;
        if i < places.len() {
            places[i].visit(buffer, now);
        }
    }
}

/// The wire of each line of a slot is told the time, where something is due.
fn tell_slot<W: TimedWire + Drop>(places: &mut [Place<W>], slot: usize, now: u64)
    requires { slot < most_slots }
    ensures goes { EachGoes (λ i. []) places.old places.new }
    ensures others { EachComes (λ i before after. (nat_eq (slot_of i) slot ≡ false → after ≡ before)
        × (StaysHeld before after × WaitsStill before after)) places.old places.new }
    ensures awake { AwakeAlike places.old places.new }
{
    let rounds = places.len() / SLOTS + 1;
    for round in 0..rounds {
        let i = round * SLOTS + slot;
        if i < places.len() {
            places[i].tell_time(now);
        }
    }
}

/// This is asked of line i, where there is one.
fn ask_one<W: TimedWire + Drop>(
    places: &mut [Place<W>],
    i: usize,
    what: LineRequest,
    now: u64,
) -> Option<LineAnswer>
    ensures went { EachGoes
        (λ line. if nat_eq line i then Asks now what result ∷ [] else []) places.old places.new }
    ensures frees { AskFrees i what result places.old places.new }
    ensures waits { WaitAlike places.old places.new }
    ensures awake { AwakeAlike places.old places.new }
    ensures there { IsSome result ↔ (i < length places.old) }
{
    if i >= places.len() {
        return None;
    }
    Some(places[i].ask(what, now))
}

/// Line i is woken, where there is one.
fn wake_one<W: TimedWire + Drop>(places: &mut [Place<W>], i: usize)
    ensures went { EachGoes
        (λ line. if nat_eq line i then Wakes ∷ [] else []) places.old places.new }
    ensures stays { AllStayHeld places.old places.new }
    ensures woken { WakesOne i places.old places.new }
{
    if i < places.len() {
        places[i].wake();
    }
}

/// Each line of a slot waits that was turned, and of whose turn something is to be stored; what the others gave goes out.
fn set_aside_slot<W: TimedWire + Drop>(places: &mut [Place<W>], slot: usize)
    requires { slot < most_slots }
    ensures went { EachGoes (λ i. []) places.old places.new }
    ensures aside { SetAside slot places.old places.new }
{
    let rounds = places.len() / SLOTS + 1;
    for round in 0..rounds {
        let i = round * SLOTS + slot;
        if i < places.len() {
            places[i].set_aside();
        }
    }
}

/// The turns of the lines that wait end.
fn settle_places<K: PageStore<PageToStore>, W: TimedWire + Drop>(
    places: &mut [Place<W>],
    alloc: Global,
    store: &mut K,
) -> PutResult
    ensures went { EachGoes (λ i. []) places.old places.new }
    ensures waits { WaitAlike places.old places.new }
    ensures awake { AwakeAlike places.old places.new }
    ensures pages { ArePagesOf (waits_of places.old) places.old result.pages.items }
    ensures kept { OnOk result.answer ((before : List ToStore)
        → K.keeps store.old before → K.keeps store.new (before ++ result.pages.items)) }
    ensures settled { EndTurns (waits_of places.old)
        (is_stored_in result) places.old places.new }
    ensures put { PutsIf K.puts result.pages.items (is_ok result.answer) store.old store.new }
{
    let pages = hand_over_all(places, alloc);
    let answer = store_pages(store, pages.as_slice());
    end_turns(places, pages.as_slice(), answer.is_ok());
    PutResult { pages, answer }
}

/// The pages that the lines which wait confirmed, one after the other. The turns of those that confirmed none end, and of those whose pages
/// memory was refused for.
fn hand_over_all<W: TimedWire + Drop>(places: &mut [Place<W>], alloc: Global) -> Vec<PageToStore>
    ensures went { EachGoes (λ i. []) places.old places.new }
    ensures waits { WaitAlike places.old places.new }
    ensures awake { AwakeAlike places.old places.new }
    ensures pages { ArePagesOf (waits_of places.old) places.old result.items }
    ensures hands { HandOver (waits_of places.old) result.items places.old places.new }
{
    let mut pages = Vec::new(alloc);
    for i in 0..places.len() {
        places[i].hand_over(alloc, i, &mut pages);
    }
    pages
}

/// The turns of the lines end whose pages these are.
fn end_turns<W: TimedWire + Drop>(places: &mut [Place<W>], pages: &[PageToStore], is_stored: bool)
    ensures went { EachGoes (λ i. []) places.old places.new }
    ensures waits { WaitAlike places.old places.new }
    ensures awake { AwakeAlike places.old places.new }
    ensures ends { EachComes
        (λ i. EndsWhere (has_page pages.now i) is_stored) places.old places.new }
{
    for i in 0..places.len() {
        if has_page(pages, i) {
            places[i].end_turn(is_stored);
        }
    }
}

/// No line waits any more.
fn free_places<W: TimedWire + Drop>(places: &mut [Place<W>])
    ensures went { EachGoes (λ i. []) places.old places.new }
    ensures frees { AreFreed places.old places.new }
{
    for i in 0..places.len() {
        places[i].free();
    }
}

/// What the lines of a slot gave on their calling legs goes out, where they had turns.
fn let_out_places<W: TimedWire + Drop>(places: &mut [Place<W>], slot: usize)
    requires { slot < most_slots }
    ensures goes { EachGoes (λ i. []) places.old places.new }
    ensures ends { LetsOutSlot slot places.old places.new }
    ensures waits { WaitAlike places.old places.new }
    ensures awake { AwakeAlike places.old places.new }
{
    let rounds = places.len() / SLOTS + 1;
    for round in 0..rounds {
        let i = round * SLOTS + slot;
        if i < places.len() && places[i].has_turned() {
            places[i].let_out();
        }
    }
}

/// A store is told which pages of the lines that wait were not handed over, one after the other.
fn note_places<W: TimedWire + Drop, K: RunStore>(
    places: &[Place<W>],
    pages: &[PageToStore],
    store: &mut K,
)
    ensures { NotesLines K.notes (waits_of places.now) pages.now places.now store.old store.new }
{
    for i in 0..places.len() {
        note_place(i, &places[i], has_page(pages, i), store);
    }
}

/// The same of a line, where it waits.
fn note_place<W: TimedWire + Drop, K: RunStore>(
    number: usize,
    place: &Place<W>,
    was_handed: bool,
    store: &mut K,
)
    ensures { NotesWhere K.notes number
        place.now.waits place.now.line.turned was_handed store.old store.new }
{
    if place.waits() {
        note_kept(number, place.line().turned().kept, was_handed, store);
    }
}

/// A store is told of a page that was confirmed, where it was not handed over.
fn note_kept<K: RunStore>(number: usize, kept: Option<Kept>, was_handed: bool, store: &mut K)
    ensures { NotesIf K.notes number kept was_handed store.old store.new }
{
    match kept {
        Some(kept) => {
            if !was_handed {
                store.note(number, kept.call);
            }
        }
        None => {}
    }
}

/// A store is told which jobs ended in the turns of the lines that wait: of all of them at once, but as memory is refused.
fn end_jobs<W: TimedWire + Drop, K: RunStore>(places: &[Place<W>], alloc: Global, store: &mut K)
    ensures { EndsLines K.ends (waits_of places.now) places.now store.old store.new }
{
    let mut ended = Vec::new(alloc);
    for i in 0..places.len() {
        if let Some(report) = report_of(&places[i]) {
            end_with(&mut ended, LineReport { line: i, report }, store);
        }
    }
    end_some(ended.as_slice(), store);
}

/// What the turn of a line told of a job, where it waits.
fn report_of<W: TimedWire + Drop>(place: &Place<W>) -> Option<Report>
    ensures { result ≡ report_if place.now.waits place.now.line.turned }
{
    if place.waits() {
        place.line().turned().report
    } else {
        None
    }
}

/// One job more joins those of which a store is to be told. Without memory for it the store is told of these now, and of that one.
fn end_with<K: RunStore>(ended: &mut Vec<LineReport>, one: LineReport, store: &mut K)
    requires { RiseByLine ended.old.items }
    ensures { EndsWith K.ends one ended.old.items ended.new.items store.old store.new }
{
    if ended.push(one).is_err() {
        end_some(ended.as_slice(), store);
        ended.clear();
        store.end_jobs(&[one]);
    }
}

/// A store is told of jobs that ended, where there are any.
fn end_some<K: RunStore>(ended: &[LineReport], store: &mut K)
    requires { RiseByLine ended.now }
    ensures { EndsIf K.ends ended.now store.old store.new }
{
    if !ended.is_empty() {
        store.end_jobs(ended);
    }
}
