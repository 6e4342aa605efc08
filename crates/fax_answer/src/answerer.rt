//! The answerer.
ghost use Rattle.std.specs.Prelude.{◌≡◌, ◌<◌, ◌≤◌, ◌^◌, List, [], None, IsSome, IfSome, IfOk, OnOk, OnErr, length, if◌then◌else◌};
ghost use Rattle.fax_answer.specs.Calls.{new_answering, rung, ticked};
ghost use Rattle.fax_answer.specs.Due.{due_at};
ghost use Rattle.fax_answer.specs.EachCall.{EachCall};
ghost use Rattle.fax_answer.specs.Octets.{octets_confirmed, octets_of_answerer};
ghost use Rattle.fax_answer.specs.Reached.{IsReached};
ghost use Rattle.fax_answer.specs.Shown.{IsStep, confirmed_shown};
ghost use Rattle.fax_answer.specs.Watching.{acting};

use crate::State;
use crate::image::Image;
use crate::pending::{Pending, Reply};
use crate::procedure::Procedure;
use crate::refusal::Refusal;
use crate::room::Room;
use crate::step::{Confirmed, Step};
use crate::timers::ActingTimer;
use fax_bits::NoMemory;
use fax_frames::Plain;
use fax_ifp::Signals;
use fax_pagestore::RowStore;
use std::alloc::Global;
use std::marker::Model;

/// The answerer of the calls of a leg, one after another (ITU-T T.30, phases B to D of a called terminal). Seen as
/// what a call has led to: its contracts are told over every history of slots, pieces and ticks.
pub struct Answerer<S: RowStore> {
    pub(crate) alloc: Global,
    pub(crate) signals: Signals,
    pub(crate) procedure: Procedure,
    pub(crate) image: Image<S>,
    /// The page that the MCF confirms that waits.
    pub(crate) confirmed: Option<Confirmed<S>>,
    /// Why a page is refused, where the RTN waits.
    pub(crate) refused: Option<Refusal>,
    /// The room for the packet of the next tick.
    pub(crate) room: Room,
}

impl<S: RowStore> Drop for Answerer<S> {
    fn drop(self) {
        let Answerer {
            alloc: _alloc,
            signals: _signals,
            procedure: _procedure,
            image: _image,
            confirmed: _confirmed,
            refused: _refused,
            room: _room,
        } = self;
    }
}

impl<S: RowStore> Model for Answerer<S> {
    ghost use Rattle.fax_answer.specs.Reached.{Rep};
    ghost use Rattle.fax_answer.specs.Shown.{confirmed_shown};

    ghost Value = { Rep };

    ghost view = { λ a. record {
      tracked = a.signals;
      procedure = a.procedure;
      image = a.image;
      confirmed = confirmed_shown a.confirmed;
      refused = a.refused;
      spare = a.room;
    } };
}

impl<S: RowStore> Answerer<S> {
    /// An answerer on whose leg no call was. The packet after a preamble is given so many milliseconds later, at most
    /// 2,000. It takes no memory.
    pub fn new(alloc: Global, preamble_ms: u16) -> Self
        ensures { IsReached [] (new_answering preamble_ms) result }
    {
        Answerer {
            alloc,
            signals: Signals::new(alloc),
            procedure: Procedure::new(preamble_ms),
            image: Image::new(alloc),
            confirmed: None,
            refused: None,
            room: Room::none(),
        }
    }

    /// A ring, where no call is on: CED and our DIS wait, and T1 is set. It takes no memory.
    pub fn ring(&mut self, now: u64)
        requires { self.old.procedure.state ≡ State.Idle }
        ensures rung { EachCall self.old (λ heard core. IsReached [] (rung core now) self.new) }
        ensures spare { self.new.spare ≡ self.old.spare }
    {
        self.signals = Signals::new(self.alloc);
        self.procedure.ring(now);
        self.image = Image::new(self.alloc);
        self.confirmed = None;
        self.refused = None;
    }

    /// Where the call stands.
    pub fn state(&self) -> State
        ensures { result ≡ self.now.procedure.state }
    {
        self.procedure.state
    }

    /// The first moment at which a tick may give something or change the call: an earlier tick does nothing. `None`: none
    /// does until something comes.
    pub fn next_due(&self) -> Option<u64>
        ensures { EachCall self.now (λ heard core. result ≡ due_at core) }
    {
        self.procedure.next_due()
    }

    /// The timer that acts in a tick at this moment, before a packet may be given. `None`: none does, as while a packet waits.
    pub fn acting(&self, now: u64) -> Option<ActingTimer>
        ensures { EachCall self.now (λ heard core. result ≡ acting core now) }
    {
        self.procedure.acting(now)
    }

    /// How many octets it holds in memory of pages, as far as their lengths say: what the images in Page came to, and the page
    /// of the MCF that waits. It takes no memory.
    pub fn held(&self) -> u128
        ensures octets { result ≡ octets_of_answerer self.now }
        ensures few { result < 2 ^ 94 }
    {
        self.image.held() + held_by(&self.confirmed)
    }

    /// Reserves memory, where none is reserved: after an `Ok` the next tick takes none. An `Err` changes nothing.
    pub fn reserve(&mut self) -> Result<(), NoMemory>
        ensures room { OnOk result (1 ≤ self.new.spare) }
        ensures reached { EachCall self.old (λ heard core. IsReached heard core self.new) }
        ensures same { self.new ≡ record self.old { spare = self.new.spare } }
        ensures err { OnErr result (self.new ≡ self.old) }
    {
        self.room.reserve(self.alloc)
    }

    /// Time goes on: where no packet waits a timer that is due acts, and then at most one packet is given, where one waits
    /// and the pace allows. The MCF that confirms a page is given with the page, and an RTN with the reason for it, each time
    /// that one is given. It takes memory for the packet where none is reserved, and none where no packet is given. A packet
    /// has at most 12 octets. An `Err` changes nothing.
    pub fn tick(&mut self, now: u64) -> Result<Step<S>, NoMemory>
        ensures ticked { IfOk result (λ step. EachCall self.old (λ heard core.
            IsReached heard (ticked core now).core self.new × IsStep (ticked core now) step)) }
        ensures err { OnErr result (self.new ≡ self.old) }
        ensures memory { OnErr result (EachCall self.old
            (λ heard core. IsSome (ticked core now).given)) }
        ensures spared { OnErr result (self.old.spare ≡ 0) }
        ensures short { IfOk result (λ step. IfSome step.packet (λ packet. length packet ≤ 12)) }
    {
        let mut procedure = self.procedure;
        procedure.act(now);
        if !procedure.gives(now) {
            self.procedure = procedure;
            return Ok(Step {
                packet: None,
                confirmed: None,
                refused: None,
                ended: false,
            });
        }
        let room = self.room.take(self.alloc)?;
        let packet = procedure.pending.packet(room);
        let refused = self.refusal_in(procedure.pending);
        let ended = procedure.give(now);
        let confirmed = take_if(&mut self.confirmed, !procedure.is_waiting());
        self.procedure = procedure;
        Ok(Step {
            packet: Some(packet),
            confirmed,
            refused,
            ended,
        })
    }

    /// Why a page is refused, where this is the packet of the RTN frame.
    fn refusal_in(&self, pending: Pending) -> Option<Refusal>
        ensures rtn { pending ≡ Pending.Frame (Reply.Plain Plain.Rtn) → result ≡ self.now.refused }
        ensures other { (pending ≡ Pending.Frame (Reply.Plain Plain.Rtn) → ⊥) → result ≡ None }
    {
        match pending {
            Pending::Frame(Reply::Plain(Plain::Rtn)) => self.refused,
            _ => None,
        }
    }
}

/// How many octets the page of the MCF that waits holds.
fn held_by<S: RowStore>(confirmed: &Option<Confirmed<S>>) -> u128
    ensures octets { result ≡ octets_confirmed (confirmed_shown confirmed.now) }
    ensures few { result < 2 ^ 29 }
{
    match confirmed {
        None => 0,
        Some(found) => u128::from(found.page.held()),
    }
}

/// Takes the page where the packet that confirms it is given.
fn take_if<S: RowStore>(
    confirmed: &mut Option<Confirmed<S>>,
    is_given: bool,
) -> Option<Confirmed<S>>
    ensures left { confirmed.new ≡ (if is_given then None else confirmed.old) }
    ensures taken { result ≡ (if is_given then confirmed.old else None) }
{
    if is_given { confirmed.take() } else { None }
}
