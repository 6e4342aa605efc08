//! The ladders of lines that clients watch: what comes to such a line is played on a gateway beside it, and told in the words of
//! `faxgate explain`.

use crate::seen::SeenLines;
use crate::telling::Teller;
use fax_bits::{NoMemory, Octets};
use fax_descriptions::{Lane, Tale};
use fax_explain::LiveLadder;
use fax_gateway::{Leg, Settings};
use fax_line::{LineAnswer, LineRequest, Order};
use fax_trace::ScriptEvent;
use std::alloc::Global;

/// The most lines that are watched at one time.
const MOST_WATCHED: usize = 8;

/// What is told where memory is refused.
const LOST: &str = "memory is refused: no more is told until the line has no call and no job";

/// A line that is watched.
struct WatchedLine {
    line: usize,
    /// Its ladder. `None`: it begins once the line has no call and no job.
    ladder: Option<LiveLadder>,
    /// How many datagrams and ticks the line had refused as the ladder began.
    refusals: u64,
}

impl Drop for WatchedLine {
    fn drop(self) {
        let WatchedLine {
            line: _line,
            ladder: _ladder,
            refusals: _refusals,
        } = self;
    }
}

/// The lines that are watched, and what was ordered last.
pub(crate) struct Ladders {
    alloc: Global,
    /// The settings of the gateway of each line.
    settings: Vec<Settings>,
    watched: Vec<WatchedLine>,
    /// The latest moment of an order: that at which the lines do it.
    latest: u64,
    /// What a line was asked last.
    asked: Option<LineRequest>,
}

impl Drop for Ladders {
    fn drop(self) {
        let Ladders {
            alloc: _alloc,
            settings: _settings,
            watched: _watched,
            latest: _latest,
            asked: _asked,
        } = self;
    }
}

impl Ladders {
    /// None is watched of the lines whose gateways have these settings.
    pub(crate) fn new(alloc: Global, settings: Vec<Settings>) -> Self {
        Ladders {
            alloc,
            settings,
            watched: Vec::new(alloc),
            latest: 0,
            asked: None,
        }
    }

    /// This is ordered.
    pub(crate) fn note(&mut self, order: Option<Order>) {
        match order {
            Some(Order::Turn { now }) => self.latest = self.latest.max(now),
            Some(Order::Ask { now, what, .. }) => {
                self.latest = self.latest.max(now);
                self.asked = Some(what);
            }
            Some(Order::Wake { .. }) | None => {}
        }
    }

    /// Whether line i is watched.
    pub(crate) fn has(&self, i: usize) -> bool {
        self.watched.iter().any(|watched| watched.line == i)
    }

    /// From now on line i is watched. Its ladder begins at once where it has no call and no job. An `Err`: there is no memory for it, or as
    /// many are watched as may be.
    pub(crate) fn watch<L: SeenLines>(&mut self, i: usize, seen: &L) -> Result<(), NoMemory> {
        if self.has(i) {
            return Ok(());
        }
        if self.watched.len() >= MOST_WATCHED {
            return Err(NoMemory);
        }
        let mut watched = WatchedLine {
            line: i,
            ladder: None,
            refusals: 0,
        };
        self.begin(&mut watched, seen);
        self.watched.push(watched)?;
        tap(i, true, seen);
        Ok(())
    }

    /// The ladder of a line that has no call and no job begins.
    fn begin<L: SeenLines>(&self, watched: &mut WatchedLine, seen: &L) {
        if !seen.is_idle(watched.line) {
            return;
        }
        if let Some(settings) = self.settings.get(watched.line) {
            watched.refusals = seen.refusals(watched.line);
            watched.ladder = LiveLadder::new(self.alloc, settings.within_limits()).ok();
        }
    }

    /// The line of this name, line i, answered this to what it was asked.
    pub(crate) fn done(
        &mut self,
        i: usize,
        name: &str,
        answer: Option<LineAnswer>,
        teller: &mut Teller,
    ) {
        let Some(event) = done_event(self.asked, answer, self.latest) else {
            return;
        };
        let at = self.latest;
        if let Some(mut watched) = self.take(i) {
            watched.play(&event, at, name, teller);
            let _ = self.watched.push(watched);
        }
    }

    /// The line of this name, line i, had its turn, or was left at rest in it. Where nobody watches it any more its ladder is let go.
    pub(crate) fn see<L: SeenLines>(
        &mut self,
        i: usize,
        name: &str,
        seen: &L,
        teller: &mut Teller,
    ) {
        let Some(mut watched) = self.take(i) else {
            return;
        };
        if !teller.is_watched(i) {
            tap(i, false, seen);
            return;
        }
        if seen.has_turned(i) {
            watched.play_turn(self.alloc, self.latest, name, seen, teller);
        }
        if watched.ladder.is_none() {
            self.begin(&mut watched, seen);
        }
        let _ = self.watched.push(watched);
    }

    /// Takes line i out of those that are watched.
    fn take(&mut self, i: usize) -> Option<WatchedLine> {
        let k = self.watched.iter().position(|watched| watched.line == i)?;
        Some(self.watched.swap_remove(k))
    }
}

impl WatchedLine {
    /// An event is played on its ladder, and what happened is told.
    fn play(&mut self, event: &ScriptEvent, at: u64, name: &str, teller: &mut Teller) {
        let Some(ladder) = &mut self.ladder else {
            return;
        };
        match ladder.play(event, at) {
            Ok(tale) => tell_tale(self.line, name, at, &tale, teller),
            Err(NoMemory) => self.lose(at, name, teller),
        }
    }

    /// Its ladder ends, since memory was refused for it or for the line.
    fn lose(&mut self, at: u64, name: &str, teller: &mut Teller) {
        self.ladder = None;
        teller.tell_frame(self.line, name, at, Lane::Inside.name(), LOST);
    }

    /// What came in its turn is played: the datagrams of the calling leg, those of the called leg, and then the tick.
    fn play_turn<L: SeenLines>(
        &mut self,
        alloc: Global,
        at: u64,
        name: &str,
        seen: &L,
        teller: &mut Teller,
    ) {
        if self.ladder.is_none() {
            return;
        }
        if seen.refusals(self.line) != self.refusals {
            self.lose(at, name, teller);
            return;
        }
        self.play_leg(alloc, Leg::Calling, at, name, seen, teller);
        self.play_leg(alloc, Leg::Called, at, name, seen, teller);
        self.play(&ScriptEvent::Tick(at), at, name, teller);
    }

    /// The datagrams that came on a leg in its turn are played.
    fn play_leg<L: SeenLines>(
        &mut self,
        alloc: Global,
        leg: Leg,
        at: u64,
        name: &str,
        seen: &L,
        teller: &mut Teller,
    ) {
        let Some(datagrams) = seen.tapped(self.line, leg) else {
            self.lose(at, name, teller);
            return;
        };
        for octets in datagrams {
            match came(alloc, leg, octets) {
                Ok(event) => self.play(&event, at, name, teller),
                Err(NoMemory) => self.lose(at, name, teller),
            }
        }
    }
}

/// What each leg of line i hands out is copied from now on, or no more.
fn tap<L: SeenLines>(i: usize, is_tapped: bool, seen: &L) {
    seen.set_tapped(i, Leg::Calling, is_tapped);
    seen.set_tapped(i, Leg::Called, is_tapped);
}

/// A datagram came on a leg.
fn came(alloc: Global, leg: Leg, octets: &Octets) -> Result<ScriptEvent, NoMemory> {
    let octets = Octets::from_vec(octets.as_slice().to_vec(alloc)?);
    match leg {
        Leg::Calling => Ok(ScriptEvent::FromCalling(octets)),
        Leg::Called => Ok(ScriptEvent::FromCalled(octets)),
    }
}

/// What came to the gateway of a line that was asked this at a moment, and answered this: nothing where it refused.
fn done_event(
    asked: Option<LineRequest>,
    answer: Option<LineAnswer>,
    at: u64,
) -> Option<ScriptEvent> {
    match answer {
        Some(LineAnswer::Rung(Ok(_))) => Some(ScriptEvent::Ring),
        Some(LineAnswer::Placed(Ok(()))) => match asked {
            Some(LineRequest::NotConnected) => Some(ScriptEvent::NotConnected(at)),
            Some(_) => Some(ScriptEvent::Connected(at)),
            None => None,
        },
        _ => None,
    }
}

/// What happened on line i, of this name, is told those who watch it.
fn tell_tale(i: usize, name: &str, at: u64, tale: &Tale, teller: &mut Teller) {
    for k in 0..usize::MAX {
        let Some(told) = tale.told(k) else {
            return;
        };
        teller.tell_frame(i, name, at, told.lane.name(), told.words);
    }
}
