//! One line.
ghost use Rattle.std.specs.Prelude.{◌≡◌, List, [], ◌∷◌, ℕ, Some, None, IfOk, OnErr, OnOk, Err, IsTrue, ◌↔◌, ◌<◌, ◌≤◌, false, true, length, is_some, option_copied, map, slice_get};
ghost use Rattle.fax_timers.specs.Moments.{earlier};
ghost use Rattle.fax_gateway.specs.CallingLegs.{calling_leg, idle_after};
ghost use Rattle.fax_gateway.specs.Due.{due_at};
ghost use Rattle.fax_gateway.specs.Driving.{Entry, HasMade, failed_in_a_row, most_failed, receipts};
ghost use Rattle.fax_gateway.specs.Events.{Placed, rings};
ghost use Rattle.fax_gateway.specs.EachTrace.{Advances, EachTrace, OfJobAsked};
ghost use Rattle.fax_gateway.specs.Setups.{AreAllowed};
ghost use Rattle.fax_gateway.specs.BothLegs.{job_asked};
ghost use Rattle.fax_gateway.specs.Turns.{call_asked, call_dialled, call_ended, call_if_new, call_of_rep};
ghost use Rattle.fax_gateway.specs.Restored.{call_shown};
ghost use Rattle.fax_line.specs.Actions.{Asks, BeginsWith, Drives, Frees, Goes, IsNew, IsPlacing, IsRefused, Placing, TellsTurn, TellsWire, Turns, leg_begun, no_turn};
ghost use Rattle.fax_line.specs.LegPeers.{cut_if, peers_after, settled_both};
ghost use Rattle.fax_line.specs.declared.asked.LineAnswer.TheVariants as answered;
ghost use Rattle.fax_line.specs.declared.asked.LineRequest.{LineRequest as AskedShown};
ghost use Rattle.fax_line.specs.declared.asked.LineRequest.TheVariants as asked;
ghost use Rattle.fax_line.specs.declared.asked.ConnectRequest.{ConnectRequest as ConnectingShown};
ghost use Rattle.fax_line.specs.declared.asked.RingRequest.{RingRequest as RingingShown};
ghost use Rattle.fax_gateway.specs.declared.leg.Leg.TheVariants as leg_shown;
ghost use Rattle.fax_wires.specs.holding.Holding.{Ceases, IsToldTime, Stays, as_told, due_on};
ghost use Rattle.fax_wires.specs.repeat.Peers.{bounded, change_on, cut_off, gone, no_bounds, peer_on, said, settled, state_of};
ghost use Rattle.fax_wires.specs.repeat.Policies.{due_of};
ghost use Rattle.fax_line.specs.Settling.{EndsTurn, IsOfTurnIf};

use crate::asked::{ConnectRequest, HangingUp, LineAnswer, LineRequest, PeerRequest, RingRequest};
use crate::settling::{PageToStore, page_to_store};
use fax_bits::NoMemory;
use fax_gateway::{
    Buffer, Engine, Gateway, Leg, PlaceFault, RestoredCall, RingFault, Settings, TurnReport,
};
use fax_jobs::{Job, Report};
use fax_pagestore::PackedRows;
use fax_timers::earlier;
use fax_wires::holding::{HoldingWire, StoreFault, end_turn};
use fax_wires::repeat::{Bounds, LegState, LegWire, NoRoute, Peer, TimedWire};
use std::alloc::Global;
use std::marker::Model;

/// A gateway, what drives it, and its wire.
pub struct Line<W: TimedWire + Drop> {
    gateway: Gateway<PackedRows>,
    engine: Engine,
    wire: HoldingWire<W>,
    /// What the last turn told.
    turned: TurnReport,
}

impl<W: TimedWire + Drop> Drop for Line<W> {
    fn drop(self) {
        let Line {
            gateway: _gateway,
            engine: _engine,
            wire: _wire,
            turned: _turned,
        } = self;
    }
}

impl<W: TimedWire + Drop> Model for Line<W> {
    ghost use Rattle.fax_wires.specs.repeat.Policies.{due_of};
    ghost use Rattle.fax_wires.specs.holding.Holding.{as_told, due_on};
    ghost use Rattle.fax_line.specs.Actions.{LineValue, TellsWhether};

    ghost Value = { LineValue };

    ghost view = { λ l. record {
      gateway = l.gateway;
      driver = l.engine;
      wire = as_told l.wire;
      wire_due = due_of due_on l.wire;
      holding = l.wire;
      peers = l.wire.peers;
      turned = l.turned;
    } };

    ghost invariant = { λ l. TellsWhether l.turned.goes_on l.engine };
}

impl<W: TimedWire + Drop> Line<W> {
    /// A line to which nothing came, with these settings. It takes memory for its gateway.
    pub fn new(alloc: Global, settings: Settings, wire: HoldingWire<W>) -> Result<Self, NoMemory>
        requires { AreAllowed settings }
        ensures new { IfOk result (λ line. IsNew line) }
        ensures settings { IfOk result (λ line. line.gateway.settings ≡ settings) }
        ensures wire { IfOk result (λ line. line.wire ≡ as_told wire) }
        ensures wire_due { IfOk result (λ line. line.wire_due ≡ due_of due_on wire) }
        ensures holding { IfOk result (λ line. line.holding ≡ wire) }
        ensures peers { IfOk result (λ line. line.peers ≡ wire.peers) }
        ensures turned { IfOk result (λ line. line.turned ≡ no_turn) }
    {
        Line::restore(alloc, settings, Vec::new(alloc), wire)
    }

    /// The same after a crash: it begins with the pages that an earlier life of it confirmed and whose jobs had not ended, the
    /// oldest call first, and takes a ring at once.
    pub fn restore(
        alloc: Global,
        settings: Settings,
        calls: Vec<RestoredCall<PackedRows>>,
        wire: HoldingWire<W>,
    ) -> Result<Self, NoMemory>
        requires { AreAllowed settings }
        ensures begins { IfOk result (λ line. BeginsWith (map call_shown calls.items) line) }
        ensures settings { IfOk result (λ line. line.gateway.settings ≡ settings) }
        ensures wire { IfOk result (λ line. line.wire ≡ as_told wire) }
        ensures wire_due { IfOk result (λ line. line.wire_due ≡ due_of due_on wire) }
        ensures holding { IfOk result (λ line. line.holding ≡ wire) }
        ensures peers { IfOk result (λ line. line.peers ≡ wire.peers) }
        ensures turned { IfOk result (λ line. line.turned ≡ no_turn) }
    {
        let gateway = Gateway::restore(alloc, settings, calls)?;
        Ok(Line {
            gateway,
            engine: Engine::new(),
            wire,
            turned: TurnReport {
                goes_on: true,
                report: None,
                kept: None,
                refused: None,
                ended: None,
                gave_up: None,
                dialled: None,
                asked: None,
            },
        })
    }

    /// A turn: both legs are settled, the wire is told the time, and the gateway is driven, with this buffer. What it told is stored
    /// until the next. Where a job was reported the called leg is cut.
    pub fn turn(&mut self, buffer: &mut Buffer, now: u64)
        ensures goes { Goes (Turns now ∷ []) self.old self.new }
        ensures tells { TellsTurn now self.old self.new }
        ensures ended { self.new.turned.ended ≡ call_ended (call_of_rep self.old.gateway.calling)
            (call_of_rep self.new.gateway.calling) }
        ensures dialled { self.new.turned.dialled
            ≡ call_dialled (is_some self.old.gateway.book.sending) self.new.gateway.book.sending }
        ensures asked { self.new.turned.asked ≡ call_if_new
            (call_asked (job_asked self.old.gateway.settings.asks self.old.gateway.book))
            (call_asked (job_asked self.new.gateway.settings.asks self.new.gateway.book)) }
    {
        self.settle_peers();
        self.drive(buffer, now);
        let has_report = self.has_report();
        self.cut_if(Leg::Called, has_report);
    }

    /// The wire is told the time, and the gateway is driven.
    fn drive(&mut self, buffer: &mut Buffer, now: u64)
        ensures goes { Goes (Turns now ∷ []) self.old self.new }
        ensures drives { Drives now self.old self.new }
        ensures ended { self.new.turned.ended ≡ call_ended (call_of_rep self.old.gateway.calling)
            (call_of_rep self.new.gateway.calling) }
        ensures dialled { self.new.turned.dialled
            ≡ call_dialled (is_some self.old.gateway.book.sending) self.new.gateway.book.sending }
        ensures asked { self.new.turned.asked ≡ call_if_new
            (call_asked (job_asked self.old.gateway.settings.asks self.old.gateway.book))
            (call_asked (job_asked self.new.gateway.settings.asks self.new.gateway.book)) }
    {
        self.wire.go_on(now);
        self.turned = self
            .engine
            .turn(buffer, &mut self.gateway, &mut self.wire, now);
    }

    /// Of the calls of its peers no more is known where no call is on.
    fn settle_peers(&mut self)
        ensures tells { TellsWire self.old self.new }
        ensures peers { self.new.peers
            ≡ settled_both (is_some (call_of_rep self.old.gateway.calling))
            (is_some self.old.gateway.book.sending) self.old.peers }
    {
        let is_on = self.is_on();
        let is_sending = self.is_sending();
        self.settle(Leg::Calling, is_on);
        self.settle(Leg::Called, is_sending);
    }

    /// Whether the last turn reported a job.
    fn has_report(&self) -> bool
        ensures { result ≡ is_some self.now.turned.report }
    {
        self.turned.report.is_some()
    }

    /// Whether a call is on on the calling leg.
    fn is_on(&self) -> bool
        ensures { result ≡ is_some (call_of_rep self.now.gateway.calling) }
    {
        self.call().is_some()
    }

    /// Whether a job is being sent.
    fn is_sending(&self) -> bool
        ensures { result ≡ is_some self.now.gateway.book.sending }
    {
        self.sending().is_some()
    }

    /// A leg is cut, or not.
    fn cut_if(&mut self, leg: Leg, is_cut: bool)
        ensures tells { TellsWire self.old self.new }
        ensures peers { self.new.peers ≡ cut_if leg is_cut self.old.peers }
    {
        if is_cut {
            self.cut(leg);
        }
    }

    /// From now on a leg has this peer. An `Err`: there is no way to it, and the leg has the peer that it had.
    fn set_peer(&mut self, leg: Leg, peer: Peer) -> Result<(), NoRoute>
        ensures tells { TellsWire self.old self.new }
        ensures said { OnOk result (self.new.peers ≡ change_on leg (said peer) self.old.peers) }
        ensures err { OnErr result (self.new.peers ≡ self.old.peers) }
    {
        self.wire.set_peer(leg, peer)
    }

    /// From now on a leg has no peer, but where the line has one for ever.
    fn cut(&mut self, leg: Leg)
        ensures tells { TellsWire self.old self.new }
        ensures peers { self.new.peers ≡ change_on leg cut_off self.old.peers }
    {
        self.wire.cut(leg);
    }

    /// A call begins on a leg, whose datagrams are bounded so.
    fn begin(&mut self, leg: Leg, bounds: Bounds)
        ensures tells { TellsWire self.old self.new }
        ensures peers { self.new.peers ≡ change_on leg (bounded bounds) self.old.peers }
    {
        self.wire.begin(leg, bounds);
    }

    /// The call of the peer of a leg is gone.
    fn hang_up(&mut self, leg: Leg)
        ensures tells { TellsWire self.old self.new }
        ensures peers { self.new.peers ≡ change_on leg gone self.old.peers }
    {
        self.wire.hang_up(leg);
    }

    /// A turn begins, and the call of a leg is on or not.
    fn settle(&mut self, leg: Leg, is_on: bool)
        ensures tells { TellsWire self.old self.new }
        ensures peers { self.new.peers ≡ change_on leg (settled is_on) self.old.peers }
    {
        self.wire.settle(leg, is_on);
    }

    /// The wire is told the time, between two turns.
    pub fn tell_time(&mut self, moment: u64)
        ensures goes { Goes [] self.old self.new }
        ensures time { IsToldTime moment self.old.holding self.new.holding }
        ensures stays { Stays self.old.holding self.new.holding }
        ensures peers { self.new.peers ≡ self.old.peers }
        ensures turned { self.new.turned ≡ self.old.turned }
    {
        self.wire.go_on(moment);
    }

    /// This is asked of it. Where a call begins, what was handed over on its leg before is sent no more; where none does, nothing
    /// changes but the peers of its legs, where it was told of them.
    pub fn ask(&mut self, what: LineRequest, now: u64) -> LineAnswer
        ensures goes { Goes (Asks now what (Some result) ∷ []) self.old self.new }
        ensures frees { Frees (leg_begun (Some result)) self.old.holding self.new.holding }
        ensures peers { self.new.peers ≡ peers_after what (Some result) self.old.peers }
        ensures refused { leg_begun (Some result) ≡ None → IsRefused what self.old self.new }
        ensures turned { self.new.turned ≡ self.old.turned }
    {
        match what {
            LineRequest::Ring(ringing) => LineAnswer::Rung(self.ring(ringing, now)),
            LineRequest::Peer(peering) => self.take_peer(peering, now),
            LineRequest::Connect(connecting) => self.connect(connecting, now),
            LineRequest::NotConnected => LineAnswer::Placed(self.not_connected(now)),
            LineRequest::HangUp(hanging_up) => self.hear_gone(hanging_up, now),
        }
    }

    /// From now on a leg has this peer.
    fn take_peer(&mut self, peering: PeerRequest, now: u64) -> LineAnswer
        ensures goes { Goes (Asks now (asked.Peer peering) (Some result) ∷ []) self.old self.new }
        ensures begun { leg_begun (Some result) ≡ None }
        ensures peers { self.new.peers
            ≡ peers_after (asked.Peer peering) (Some result) self.old.peers }
        ensures tells { TellsWire self.old self.new }
    {
        match self.set_peer(peering.leg, peering.peer) {
            Ok(()) => LineAnswer::Done,
            Err(NoRoute) => LineAnswer::NoRoute,
        }
    }

    /// The call of the peer of a leg is gone.
    fn hear_gone(&mut self, hanging_up: HangingUp, now: u64) -> LineAnswer
        ensures goes { Goes (Asks now (asked.HangUp hanging_up) (Some result)
            ∷ []) self.old self.new }
        ensures begun { leg_begun (Some result) ≡ None }
        ensures peers { self.new.peers
            ≡ peers_after (asked.HangUp hanging_up) (Some result) self.old.peers }
        ensures tells { TellsWire self.old self.new }
    {
        self.hang_up(hanging_up.leg);
        LineAnswer::Done
    }

    /// A ring. It answers the number of the call that begins; what was handed over on the calling leg before is sent no more.
    pub fn ring(&mut self, ringing: RingRequest, now: u64) -> Result<u32, RingFault>
        ensures goes { Goes (Asks now (asked.Ring ringing) (Some (answered.Rung result))
            ∷ []) self.old self.new }
        ensures busy { EachTrace self.old.gateway (λ setup writes trace. result ≡ Err RingFault.Busy
            ↔ (idle_after (calling_leg setup trace) ≡ false)) }
        ensures no_number { EachTrace self.old.gateway
            (λ setup writes trace. idle_after (calling_leg setup trace) ≡ true
            → result ≡ Err RingFault.NoNumber ↔ (4294967296 ≤ rings trace)) }
        ensures freed { OnOk result
            (Ceases leg_shown.Calling self.old.holding self.new.holding) }
        ensures peers { self.new.peers
            ≡ peers_after (asked.Ring ringing) (Some (answered.Rung result)) self.old.peers }
        ensures err { OnErr result (self.new ≡ self.old) }
        ensures turned { self.new.turned ≡ self.old.turned }
    {
        match self.accept_ring(now) {
            Ok(number) => {
                self.cut_if(Leg::Calling, ringing.forgets_peer);
                self.begin(Leg::Calling, ringing.bounds);
                Ok(number)
            }
            Err(fault) => Err(fault),
        }
    }

    /// The gateway rings, and the wire is told that a call begins.
    fn accept_ring(&mut self, now: u64) -> Result<u32, RingFault>
        ensures goes { (ringing : RingingShown)
            → Goes (Asks now (asked.Ring ringing) (Some (answered.Rung result))
            ∷ []) self.old self.new }
        ensures busy { EachTrace self.old.gateway (λ setup writes trace. result ≡ Err RingFault.Busy
            ↔ (idle_after (calling_leg setup trace) ≡ false)) }
        ensures no_number { EachTrace self.old.gateway
            (λ setup writes trace. idle_after (calling_leg setup trace) ≡ true
            → result ≡ Err RingFault.NoNumber ↔ (4294967296 ≤ rings trace)) }
        ensures freed { OnOk result
            (Ceases leg_shown.Calling self.old.holding self.new.holding) }
        ensures peers { self.new.peers ≡ self.old.peers }
        ensures err { OnErr result (self.new ≡ self.old) }
        ensures turned { self.new.turned ≡ self.old.turned }
    {
        match self.gateway.ring(now) {
            Ok(number) => {
                self.wire.cease(Leg::Calling);
                Ok(number)
            }
            Err(fault) => Err(fault),
        }
    }

    /// The called machine of the job whose call is asked for has answered, and is this peer: the call begins, and what was handed
    /// over on the called leg before is sent no more. Where there is no way to the peer nothing is done; where no call begins the leg
    /// has no peer after it.
    pub fn connect(&mut self, connecting: ConnectRequest, now: u64) -> LineAnswer
        ensures goes { Goes (Asks now (asked.Connect connecting) (Some result)
            ∷ []) self.old self.new }
        ensures not_asked { (placed : Placing)
            → result ≡ answered.Placed placed → OfJobAsked self.old.gateway
            (λ job. placed ≡ Err PlaceFault.NotAsked ↔ (job ≡ None)) }
        ensures frees { Frees (leg_begun (Some result)) self.old.holding self.new.holding }
        ensures peers { self.new.peers
            ≡ peers_after (asked.Connect connecting) (Some result) self.old.peers }
        ensures refused { leg_begun (Some result) ≡ None → TellsWire self.old self.new }
        ensures turned { self.new.turned ≡ self.old.turned }
    {
        match self.set_peer(Leg::Called, connecting.peer) {
            Ok(()) => LineAnswer::Placed(self.place_to_peer(now)),
            Err(NoRoute) => LineAnswer::NoRoute,
        }
    }

    /// The call of the job that is asked for begins, to the peer that the called leg has. Where none does the leg is cut.
    fn place_to_peer(&mut self, now: u64) -> Result<(), PlaceFault>
        ensures goes { (connecting : ConnectingShown)
            → Goes (Asks now (asked.Connect connecting) (Some (answered.Placed result))
            ∷ []) self.old self.new }
        ensures not_asked { OfJobAsked self.old.gateway
            (λ job. result ≡ Err PlaceFault.NotAsked ↔ (job ≡ None)) }
        ensures freed { OnOk result
            (Ceases leg_shown.Called self.old.holding self.new.holding) }
        ensures ok { OnOk result (self.new.peers
            ≡ change_on leg_shown.Called (bounded no_bounds) self.old.peers) }
        ensures cut { OnErr result (self.new.peers
            ≡ change_on leg_shown.Called cut_off self.old.peers) }
        ensures err { OnErr result (TellsWire self.old self.new) }
        ensures turned { self.new.turned ≡ self.old.turned }
    {
        match self.place(true, now) {
            Ok(()) => {
                let bounds = Bounds {
                    redundancy: None,
                    octets: None,
                };
                self.begin(Leg::Called, bounds);
                Ok(())
            }
            Err(fault) => {
                self.cut(Leg::Called);
                Err(fault)
            }
        }
    }

    /// The called machine of the job whose call is asked for could not be reached: the call is over as it begins, and the next turn
    /// reports the job as `NotPlaced`. What was handed over on the called leg before is sent no more, and the leg has no peer.
    pub fn not_connected(&mut self, now: u64) -> Result<(), PlaceFault>
        ensures goes { Goes (Asks now asked.NotConnected (Some (answered.Placed result))
            ∷ []) self.old self.new }
        ensures not_asked { OfJobAsked self.old.gateway
            (λ job. result ≡ Err PlaceFault.NotAsked ↔ (job ≡ None)) }
        ensures freed { OnOk result
            (Ceases leg_shown.Called self.old.holding self.new.holding) }
        ensures peers { self.new.peers
            ≡ peers_after asked.NotConnected (Some (answered.Placed result)) self.old.peers }
        ensures err { OnErr result (self.new ≡ self.old) }
        ensures turned { self.new.turned ≡ self.old.turned }
    {
        match self.place(false, now) {
            Ok(()) => {
                self.cut(Leg::Called);
                Ok(())
            }
            Err(fault) => Err(fault),
        }
    }

    /// The call of the job that is asked for is placed, or could not be.
    fn place(&mut self, connected: bool, now: u64) -> Result<(), PlaceFault>
        ensures goes { (what : AskedShown) → IsPlacing connected what
            → Goes (Asks now what (Some (answered.Placed result)) ∷ []) self.old self.new }
        ensures not_asked { OfJobAsked self.old.gateway
            (λ job. result ≡ Err PlaceFault.NotAsked ↔ (job ≡ None)) }
        ensures freed { OnOk result
            (Ceases leg_shown.Called self.old.holding self.new.holding) }
        ensures peers { self.new.peers ≡ self.old.peers }
        ensures err { OnErr result (self.new ≡ self.old) }
        ensures turned { self.new.turned ≡ self.old.turned }
    {
        match place(&mut self.gateway, connected, now) {
            Ok(()) => {
                self.wire.cease(Leg::Called);
                Ok(())
            }
            Err(fault) => Err(fault),
        }
    }

    /// From which moment on something is due: a tick before it gives nothing, and the wire has nothing to do. `None`: nothing is
    /// due until something comes.
    pub fn next_due(&self) -> Option<u64>
        ensures { EachTrace self.now.gateway (λ setup writes trace.
            result ≡ earlier (due_at setup writes trace) self.now.wire_due) }
    {
        earlier(self.gateway.next_due(), self.wire.next_due())
    }

    /// Whether one of the last 100 receives did not fail.
    pub fn goes_on(&self) -> bool
        ensures same { result ≡ self.now.turned.goes_on }
        ensures goes_on { (made : List Entry) → HasMade made self.now.driver
            → IsTrue result ↔ (failed_in_a_row (receipts made) < most_failed) }
    {
        self.turned.goes_on
    }

    /// What the last turn told. Before the first one: that it goes on, and nothing else.
    pub fn turned(&self) -> TurnReport
        ensures { result ≡ self.now.turned }
    {
        self.turned
    }

    /// The number of the call that is on on the calling leg.
    pub fn call(&self) -> Option<u32>
        ensures { result ≡ call_of_rep self.now.gateway.calling }
    {
        self.gateway.call()
    }

    /// The job that is being sent: its call is on on the called leg.
    pub fn sending(&self) -> Option<&Job<PackedRows>>
        ensures { option_copied result ≡ self.now.gateway.book.sending }
    {
        self.gateway.sending()
    }

    /// The number of the call whose job is asked for: it waits for its own call to be placed.
    pub fn asked(&self) -> Option<u32>
        ensures asked { result
            ≡ call_asked (job_asked self.now.gateway.settings.asks self.now.gateway.book) }
        ensures told { OfJobAsked self.now.gateway (λ job. result ≡ call_asked job) }
    {
        self.gateway.asked()
    }

    /// That job.
    pub fn job_asked(&self) -> Option<&Job<PackedRows>>
        ensures { option_copied result
            ≡ job_asked self.now.gateway.settings.asks self.now.gateway.book }
    {
        self.gateway.job_asked()
    }

    /// Report i of those that are stored, counted from 0, the oldest.
    pub fn report(&self, i: usize) -> Option<Report>
        ensures { result ≡ slice_get self.now.gateway.book.reports i }
    {
        self.gateway.report(i)
    }

    /// How many jobs wait.
    pub fn waiting(&self) -> usize
        ensures { result ≡ length self.now.gateway.book.waiting }
    {
        self.gateway.waiting()
    }

    /// How many datagrams and ticks were refused for want of memory; the count stops at the greatest.
    pub fn refusals(&self) -> u64
        ensures { result ≡ self.now.gateway.refusals }
    {
        self.gateway.refusals()
    }

    /// What is known of the peer of a leg.
    pub fn leg_state(&self, leg: Leg) -> LegState
        ensures { result ≡ state_of (peer_on leg self.now.peers) }
    {
        self.wire.leg_state(leg)
    }

    /// Its wire.
    pub fn wire(&self) -> &HoldingWire<W>
        ensures { result.now ≡ self.now.holding }
    {
        &self.wire
    }

    /// The page that its last turn confirmed, as that of the line of this number; none where it confirmed none. An `Err`: it confirmed
    /// one, and memory was refused for its text.
    pub fn page_to_store(
        &self,
        alloc: Global,
        number: usize,
    ) -> Result<Option<PageToStore>, StoreFault>
        ensures ok { IfOk result (IsOfTurnIf number self.now) }
        ensures err { OnErr result (is_some self.now.turned.kept ≡ true) }
    {
        match self.turned.kept {
            None => Ok(None),
            Some(kept) => match page_to_store(alloc, number, &self.gateway, kept) {
                Ok(page) => Ok(Some(page)),
                Err(fault) => Err(fault),
            },
        }
    }

    /// The end of a turn, whose page is stored or not, where it confirmed one: what it gave on the calling leg goes out, but where its
    /// page was not stored; then the leg is silenced until the next call begins on it, and the page's job is sent all the same. The line
    /// goes through nothing in it.
    pub fn end_turn(&mut self, is_stored: bool)
        ensures ends { EndsTurn is_stored self.old self.new }
        ensures goes { Goes [] self.old self.new }
        ensures turned { self.new.turned ≡ self.old.turned }
    {
        end_turn(&mut self.wire, self.turned.kept.is_some(), is_stored);
    }

    /// The end of a turn where pages are not stored: what it gave on the calling leg goes out, as where its page is stored. The line goes
    /// through nothing in it.
    pub fn let_out(&mut self)
        ensures ends { EndsTurn true self.old self.new }
        ensures goes { Goes [] self.old self.new }
        ensures turned { self.new.turned ≡ self.old.turned }
    {
        self.end_turn(true);
    }
}

/// The call of the job that a gateway asks for is placed, or could not be.
fn place(gateway: &mut Gateway<PackedRows>, connected: bool, now: u64) -> Result<(), PlaceFault>
    ensures placed { OnOk result (Advances gateway.old (Placed now connected) gateway.new) }
    ensures not_asked { OfJobAsked gateway.old
        (λ job. result ≡ Err PlaceFault.NotAsked ↔ (job ≡ None)) }
    ensures err { OnErr result (gateway.new ≡ gateway.old) }
    ensures refusals { gateway.new.refusals ≡ gateway.old.refusals }
{
    if connected {
        gateway.connect(now)
    } else {
        gateway.not_connected(now)
    }
}
