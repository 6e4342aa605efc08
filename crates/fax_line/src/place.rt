//! A line in its slot.
ghost use Rattle.std.specs.Prelude.{◌≡◌, List, [], ◌∷◌, Some, not, true, false, IfOk, OnErr};
ghost use Rattle.fax_timers.specs.Moments.{is_due};
ghost use Rattle.fax_gateway.specs.Restored.{RestoredCall};
ghost use Rattle.fax_wires.specs.holding.Holding.{IsToldTime};
ghost use Rattle.fax_line.specs.Actions.{Asks, BeginsWith, Frees, Wakes, leg_begun};
ghost use Rattle.fax_line.specs.LegPeers.{peers_after};
ghost use Rattle.fax_line.specs.Places.{BeginsInPlace, GoesInPlace, IsAwakeAfter, StaysHeld, TellsOrRests, TellsVisit, WaitsStill, actions_by, is_at_rest, visit_at, visit_of};
ghost use Rattle.fax_line.specs.Settling.{EndsTurn, HandsOver, SetsAsideIf, is_to_store};

use crate::asked::{LineAnswer, LineRequest};
use crate::line::Line;
use crate::settling::PageToStore;
use fax_gateway::{Buffer, TurnReport};
use fax_wires::repeat::TimedWire;
use std::alloc::{AllocError, Global};
use std::marker::Model;

/// A line in its slot, and when it is left at rest. What is looked at in each turn stands here, so that a line at rest costs
/// a look at a few octets; the line itself lies elsewhere.
pub(crate) struct Place<W: TimedWire + Drop> {
    /// From which moment on something is due on it. `None`: nothing is until something comes.
    due: Option<u64>,
    /// Whether it was woken, and not turned since.
    is_awake: bool,
    /// Whether it was turned in the last turn of its slot.
    has_turned: bool,
    /// Whether it was turned, and does nothing until what is to be stored of that turn is stored.
    waits: bool,
    line: Box<Line<W>>,
}

impl<W: TimedWire + Drop> Drop for Place<W> {
    fn drop(self) {
        let Place {
            due: _due,
            is_awake: _is_awake,
            has_turned: _has_turned,
            waits: _waits,
            line: _line,
        } = self;
    }
}

impl<W: TimedWire + Drop> Model for Place<W> {
    ghost use Rattle.fax_line.specs.Places.{IsDueOn, PlaceValue};

    ghost Value = { PlaceValue };

    ghost view = { λ p. record {
      line = p.line.value;
      due = p.due;
      awake = p.is_awake;
      turned = p.has_turned;
      waits = p.waits;
    } };

    ghost invariant = { λ p. IsDueOn p.due p.line.value };
}

impl<W: TimedWire + Drop> Place<W> {
    /// The place of a line, which is turned in the first turn of its slot. It takes memory for the line.
    pub fn new(alloc: Global, line: Line<W>) -> Result<Self, AllocError>
        ensures line { IfOk result (λ place. place.line ≡ line) }
        ensures awake { IfOk result (λ place. place.awake ≡ true) }
        ensures waits { IfOk result (λ place. place.waits ≡ false) }
        ensures begins { (calls : List RestoredCall)
            → BeginsWith calls line → IfOk result (λ place. BeginsInPlace calls place) }
    {
        let due = line.next_due();
        let line = Box::new(alloc, line)?;
        Ok(Place {
            due,
            is_awake: true,
            has_turned: false,
            waits: false,
            line,
        })
    }

    /// The line.
    pub fn line(&self) -> &Line<W>
        ensures { result.now ≡ self.now.line }
    {
        &self.line
    }

    /// Whether it was turned in the last turn of its slot.
    pub fn has_turned(&self) -> bool
        ensures { result ≡ self.now.turned }
    {
        self.has_turned
    }

    /// Whether nothing is due on it at this moment, and nothing has woken it.
    pub fn is_at_rest(&self, now: u64) -> bool
        ensures { result ≡ is_at_rest now self.now }
    {
        !self.is_awake && !has_come(self.due, now)
    }

    /// Whether it was turned, and does nothing until what is to be stored of that turn is stored.
    pub fn waits(&self) -> bool
        ensures { result ≡ self.now.waits }
    {
        self.waits
    }

    /// The turn of its slot: it is turned, with this buffer, or left at rest; but one that waits is passed over.
    pub fn visit(&mut self, buffer: &mut Buffer, now: u64)
        ensures goes { GoesInPlace
            (actions_by (visit_at true self.old.waits (is_at_rest now self.old) now))
            self.old self.new }
        ensures tells { TellsVisit
            (visit_at true self.old.waits (is_at_rest now self.old) now) self.old self.new }
        ensures waits { WaitsStill self.old self.new }
        ensures awake { IsAwakeAfter
            (actions_by (visit_at true self.old.waits (is_at_rest now self.old) now))
            self.old self.new }
    {
        if !self.waits {
            self.turn_or_rest(buffer, now);
        }
    }

    /// It is turned, or left at rest.
    fn turn_or_rest(&mut self, buffer: &mut Buffer, now: u64)
        ensures goes { GoesInPlace (visit_of now (is_at_rest now self.old) ∷ []) self.old self.new }
        ensures turned { self.new.turned ≡ not (is_at_rest now self.old) }
        ensures tells { TellsOrRests now (is_at_rest now self.old) self.old self.new }
        ensures rests { is_at_rest now self.old ≡ true → self.new.line ≡ self.old.line }
        ensures waits { self.new.waits ≡ self.old.waits }
        ensures awake { IsAwakeAfter
            (visit_of now (is_at_rest now self.old) ∷ []) self.old self.new }
    {
        if self.is_at_rest(now) {
            self.has_turned = false;
        } else {
            self.line.turn(buffer, now);
            self.due = self.line.next_due();
            self.is_awake = false;
            self.has_turned = true;
        }
    }

    /// Its wire is told the time, between two turns, where something is due, and it does not wait.
    pub fn tell_time(&mut self, now: u64)
        ensures goes { GoesInPlace [] self.old self.new }
        ensures time { self.old.waits ≡ false → is_due self.old.due now ≡ true
            → IsToldTime now self.old.line.holding self.new.line.holding }
        ensures waits { WaitsStill self.old self.new }
        ensures awake { self.new.awake ≡ self.old.awake }
        ensures stays { StaysHeld self.old self.new }
        ensures turned { self.new.turned ≡ self.old.turned }
    {
        if !self.waits && has_come(self.due, now) {
            self.line.tell_time(now);
            self.due = self.line.next_due();
        }
    }

    /// This is asked of it.
    pub fn ask(&mut self, what: LineRequest, now: u64) -> LineAnswer
        ensures goes { GoesInPlace (Asks now what (Some result) ∷ []) self.old self.new }
        ensures frees { Frees (leg_begun (Some result))
            self.old.line.holding self.new.line.holding }
        ensures peers { self.new.line.peers ≡ peers_after what (Some result) self.old.line.peers }
        ensures turned { self.new.turned ≡ self.old.turned }
        ensures waits { self.new.waits ≡ self.old.waits }
        ensures awake { self.new.awake ≡ self.old.awake }
    {
        let answer = self.line.ask(what, now);
        self.due = self.line.next_due();
        answer
    }

    /// Something may have come over its wire.
    pub fn wake(&mut self)
        ensures goes { GoesInPlace (Wakes ∷ []) self.old self.new }
        ensures woken { self.new ≡ record self.old { awake = true } }
    {
        self.is_awake = true;
    }

    /// After a turn of its slot: where something of a turn of the line is to be stored it waits; what another gave goes out. One that
    /// waits does so still.
    pub fn set_aside(&mut self)
        ensures goes { GoesInPlace [] self.old self.new }
        ensures aside { SetsAsideIf self.old.turned
            self.old.waits (is_to_store self.old.line.turned) self.old self.new }
    {
        if !self.has_turned || self.waits {
            return;
        }
        if is_to_store(self.line.turned()) {
            self.waits = true;
        } else {
            self.end_turn(false);
        }
    }

    /// What was to be stored of its turn is stored, where it waited for that.
    pub fn free(&mut self)
        ensures goes { GoesInPlace [] self.old self.new }
        ensures frees { self.new ≡ record self.old { waits = false } }
    {
        self.waits = false;
    }

    /// The page that the turn of the line confirmed joins those that are to be stored, as that of the line of this number, where it waits
    /// for that. Where it confirmed none, or memory was refused for it, the turn ends at once.
    pub fn hand_over(&mut self, alloc: Global, number: usize, pages: &mut Vec<PageToStore>)
        ensures goes { GoesInPlace [] self.old self.new }
        ensures waits { self.new.waits ≡ self.old.waits }
        ensures awake { self.new.awake ≡ self.old.awake }
        ensures hands { HandsOver self.old.waits
            number self.old self.new pages.old.items pages.new.items }
    {
        if !self.waits {
            return;
        }
        if let Ok(Some(page)) = self.line.page_to_store(alloc, number)
            && pages.push(page).is_ok()
        {
            return;
        }
        self.end_turn(false);
    }

    /// The end of a turn of the line, whose page is stored or not, where it confirmed one.
    pub fn end_turn(&mut self, is_stored: bool)
        ensures ends { EndsTurn is_stored self.old.line self.new.line }
        ensures goes { GoesInPlace [] self.old self.new }
        ensures turned { self.new.turned ≡ self.old.turned }
        ensures waits { self.new.waits ≡ self.old.waits }
        ensures awake { self.new.awake ≡ self.old.awake }
    {
        self.line.end_turn(is_stored);
        self.due = self.line.next_due();
    }

    /// The end of a turn of the line, where pages are not stored.
    pub fn let_out(&mut self)
        ensures ends { EndsTurn true self.old.line self.new.line }
        ensures goes { GoesInPlace [] self.old self.new }
        ensures turned { self.new.turned ≡ self.old.turned }
        ensures waits { self.new.waits ≡ self.old.waits }
        ensures awake { self.new.awake ≡ self.old.awake }
    {
        self.line.let_out();
        self.due = self.line.next_due();
    }
}

/// Whether something of a turn that told this is to be stored.
fn is_to_store(told: TurnReport) -> bool
    ensures { result ≡ is_to_store told }
{
    told.kept.is_some() || told.report.is_some()
}

/// Whether a moment has come, where there is one.
fn has_come(moment: Option<u64>, now: u64) -> bool
    ensures { result ≡ is_due moment now }
{
    match moment {
        None => false,
        Some(moment) => moment <= now,
    }
}
