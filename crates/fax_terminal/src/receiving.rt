//! A terminal that answers a call and has each page kept that it confirms.
ghost use Rattle.std.specs.Prelude.{◌≡◌, ◌↔◌, [], Some, None, IsTrue, IfErr, IfOk, OnErr, OnOk};
ghost use Rattle.fax_answer.specs.declared.state.State.TheVariants as State;
ghost use Rattle.fax_gateway.specs.CallingLegs.{idle_after};
ghost use Rattle.fax_gateway.specs.Driving.{most_datagrams};
ghost use Rattle.fax_gateway.specs.Setups.{AreAllowed, HasSettings, Setup};
ghost use Rattle.fax_gateway.specs.Wires.{Grows};
ghost use Rattle.fax_terminal.specs.Calls.{AnswersCall, StoresConfirmed, StoresWholeCall};
ghost use Rattle.fax_terminal.specs.Ends.{traffic_of};
ghost use Rattle.fax_terminal.specs.Stores.{AreGiven, page_in, pages_of, stored_all};
ghost use Rattle.fax_terminal.specs.Terminals.{rung_once};
ghost use Rattle.fax_terminal.specs.Turns.{AnswererHears, AnswererListens, AnswererStops, AnswererTurned, EachAnswering, IsAnswering, MayBeRung, handed_if};

use crate::end::{End, MOST_OCTETS, WireEnd, hand_over};
use crate::fault::TerminalFault;
use crate::pace::Pace;
use crate::store::PageStore;
use fax_answer::{Confirmed, Step, Unwatched};
use fax_bits::NoMemory;
use fax_gateway::{AnswererEndpoint, Settings};
use fax_pagestore::{Page, RowStore};
use fax_wires::repeat::TimedWire;
use std::alloc::Global;
use std::marker::Model;

/// The most datagrams that are heard in a turn.
pub(crate) const MOST_DATAGRAMS: u8 = 16;

/// A terminal that is called. The first datagram that comes rings it.
#[derive(Drop)]
pub struct ReceivingTerminal<S: RowStore> {
    endpoint: AnswererEndpoint<S>,
    redundancy: u8,
    has_rung: bool,
}

impl<S: RowStore> Model for ReceivingTerminal<S> {
    ghost use Rattle.std.specs.Prelude.{◌≤◌};
    ghost use Rattle.fax_udptl.specs.Sending.{most_redundancy};
    ghost use Rattle.fax_terminal.specs.Turns.{ReceivingValue};

    ghost Value = { ReceivingValue };

    ghost view = { λ t. record {
      endpoint = t.endpoint;
      redundancy = t.redundancy;
      has_rung = t.has_rung;
    } };

    ghost invariant = { λ t. t.redundancy ≤ most_redundancy };
}

/// Answers the call that this datagram begins, until it is over. Each page that is confirmed is kept before its MCF is sent;
/// where it is not kept, its MCF is not sent, and the call goes no further. After the call the wire may have to send again what may
/// have been lost.
pub fn receive_call<S: RowStore, W: TimedWire + Drop, P: Pace, K: PageStore<S>>(
    alloc: Global,
    pace: &mut P,
    end: &mut WireEnd<W>,
    first: &[u8],
    store: &mut K,
    settings: Settings,
) -> Result<(), TerminalFault>
    requires { AreAllowed settings }
    ensures kept { StoresConfirmed K.keeps settings.preamble_ms
        (stored_all result) store.old store.new }
    ensures whole { OnOk result (StoresWholeCall K.keeps settings.preamble_ms store.old store.new) }
    ensures carried { OnOk result (AnswersCall K.keeps settings first.now
        (traffic_of (W.known end.old.wire)) (traffic_of (W.known end.new.wire))
        store.old store.new) }
{
    let Some(start) = pace.wait() else {
        return Err(TerminalFault::Clock);
    };
    let mut terminal: ReceivingTerminal<S> = ReceivingTerminal::new(alloc, settings)?;
    terminal.hear_one(first, start)?;
    for _ in 0..u64::MAX {
        let Some(now) = pace.wait() else {
            return Err(TerminalFault::Clock);
        };
        end.wire.go_on(now);
        let _ = terminal.turn(end, store, now)?;
        if terminal.is_over() {
            return Ok(());
        }
    }
    Err(TerminalFault::Clock)
}

impl<S: RowStore> ReceivingTerminal<S> {
    /// A terminal that no datagram has reached, with these settings.
    pub fn new(alloc: Global, settings: Settings) -> Result<Self, NoMemory>
        requires { AreAllowed settings }
        ensures { IfOk result (λ terminal. (setup : Setup)
            → HasSettings setup settings → IsAnswering setup None terminal) }
    {
        let endpoint = AnswererEndpoint::new(alloc, settings)?;
        Ok(ReceivingTerminal {
            endpoint,
            redundancy: settings.redundancy,
            has_rung: false,
        })
    }

    /// Its turn: it hears what has come over its end, by the first of which it is rung, time goes on, and it has the page kept that is
    /// confirmed, and then sends what it has to. It answers that page. Where it is not stored, nothing is sent. Where memory is refused,
    /// one datagram is lost at most, and time does not go on: a later turn may.
    pub fn turn<E: End, K: PageStore<S>>(
        &mut self,
        end: &mut E,
        store: &mut K,
        now: u64,
    ) -> Result<Option<Page<S>>, TerminalFault>
        ensures { EachAnswering self.old (λ setup leg. AnswererTurned K.keeps result setup leg now
            (E.told end.old) (E.told end.new) store.old store.new self.new) }
    {
        self.hear(end, now)?;
        self.endpoint.reserve()?;
        let step = self.endpoint.tick(now);
        store_and_send(store, end, step)
    }

    /// It hears a datagram, which rings it where none has before. An `Err`: it does not hear it, and it may have been rung.
    pub fn hear_one(&mut self, octets: &[u8], now: u64) -> Result<(), NoMemory>
        ensures heard { OnOk result (EachAnswering self.old (λ setup leg.
            AnswererListens setup (rung_once setup now leg) now octets.now self.new)) }
        ensures err { OnErr result (EachAnswering self.old
            (λ setup leg. MayBeRung setup leg now self.new)) }
    {
        self.ring_once(now)?;
        self.endpoint.hear(octets, now, u128::MAX, &mut Unwatched)?;
        Ok(())
    }

    /// Whether no call is on.
    pub fn is_over(&self) -> bool
        ensures over { EachAnswering self.now (λ setup leg. result ≡ idle_after leg) }
        ensures state { IsTrue result ↔ (self.now.endpoint.kept.procedure.state ≡ State.Idle) }
    {
        self.endpoint.is_idle()
    }

    /// It hears what has come.
    fn hear<E: End>(&mut self, end: &mut E, now: u64) -> Result<(), NoMemory>
        ensures sent { Grows [] (E.told end.old).sent (E.told end.new).sent }
        ensures heard { OnOk result (EachAnswering self.old (λ setup leg.
            AnswererHears setup leg now most_datagrams (E.told end.old) (E.told end.new)
            self.new)) }
        ensures err { OnErr result (EachAnswering self.old (λ setup leg.
            AnswererStops setup leg now most_datagrams (E.told end.old) (E.told end.new)
            self.new)) }
    {
        let mut buffer = [0; MOST_OCTETS];
        for _i in 0..MOST_DATAGRAMS {
            match end.receive(buffer.as_mut_slice()) {
                None => return Ok(()),
                Some(count) => self.hear_one(&buffer[..count], now)?,
            }
        }
        Ok(())
    }

    /// It is rung, but where it was.
    fn ring_once(&mut self, now: u64) -> Result<(), NoMemory>
        ensures rung { OnOk result (EachAnswering self.old (λ setup leg.
            IsAnswering setup (Some (rung_once setup now leg)) self.new)) }
        ensures err { OnErr result (self.new ≡ self.old) }
    {
        if !self.has_rung && self.is_over() {
            self.endpoint.ring(0, self.redundancy, now)?;
            self.has_rung = true;
        }
        Ok(())
    }
}

/// Has the page kept that a step confirms, where it does, and then sends what the step gives. It answers the page. Where that is not
/// stored, nothing is sent.
fn store_and_send<S: RowStore, E: End, K: PageStore<S>>(
    store: &mut K,
    end: &mut E,
    step: Step<S>,
) -> Result<Option<Page<S>>, TerminalFault>
    ensures page { IfOk result (λ page. page ≡ page_in step.confirmed) }
    ensures given { AreGiven K.keeps (stored_all result)
        (pages_of (page_in step.confirmed)) store.old store.new }
    ensures received { Grows [] (E.told end.old).received (E.told end.new).received }
    ensures sent { Grows (handed_if (stored_all result) step.packet)
        (E.told end.old).sent (E.told end.new).sent }
    ensures fault { IfErr result (λ fault. fault ≡ TerminalFault.Storing) }
{
    let Step {
        packet,
        confirmed,
        ..
    } = step;
    let page = match confirmed {
        None => None,
        Some(Confirmed { page, .. }) => {
            store.keep(&page)?;
            Some(page)
        }
    };
    hand_over(end, packet);
    Ok(page)
}
