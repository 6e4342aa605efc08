//! The caller.
ghost use Rattle.std.specs.Prelude.{◌≡◌, ◌≢◌, ◌<◌, ◌≤◌, Bool, false, List, [], Ok, Some, None, IsSome, IfSome, IfOk, OnOk, OnErr, length};
ghost use Rattle.fax_ifp.specs.Elements.{Slot as SlotShown};
ghost use Rattle.fax_jobs.specs.Jobs.{JobValue, IsJob};
ghost use Rattle.fax_call.specs.EachCall.{EachCall};
ghost use Rattle.fax_call.specs.Writings.{Writing, IsWriting};
ghost use Rattle.fax_call.specs.Calls.{CallerCore, new_calling, not_placed, started, ticked};
ghost use Rattle.fax_call.specs.Following.{IsFit, Follows, HasTextLeft, IsJobOfCall, given_by, with_turn, GivesPacket};
ghost use Rattle.fax_call.specs.Rep.{packet_of};
ghost use Rattle.fax_call.specs.Replies.{written};
ghost use Rattle.fax_frames.specs.declared.dcs.Dcs.{Dcs as DcsShown};
ghost use Rattle.fax_frames.specs.declared.writing.Plain.{Plain as PlainShown};
ghost use Rattle.fax_pagestore.specs.Writers.{HasMore};
ghost use Rattle.fax_call.specs.Due.{due_at};
ghost use Rattle.fax_call.specs.Watching.{acting};
ghost use Rattle.fax_call.specs.Reached.{IsReached, IsGiven};

use crate::State;
use crate::acting::ActingTimer;
use crate::pending::{INDICATOR_OCTETS, Pending};
use crate::procedure::{NO_FORMAT, Procedure};
use crate::room::Room;
use crate::text::{text_packet, writer_of};
use fax_bits::{NoMemory, Octets};
use fax_frames::Dcs;
use fax_ifp::Signals;
use fax_jobs::{Job, Outcome};
use fax_pagestore::{Coding, Format, PageWriter, RowStore};
use std::alloc::Global;
use std::marker::Model;

/// The caller of the calls of a leg, one after another (ITU-T T.30, phases B to D of a calling terminal). Seen as
/// what a call has led to: its contracts are told over every history of slots, pieces and ticks.
pub struct Caller {
    pub(crate) alloc: Global,
    pub(crate) signals: Signals,
    pub(crate) procedure: Procedure,
    /// Writes the text of a page, while that is given.
    pub(crate) writer: PageWriter,
    /// Room for an indicator, where it was reserved.
    room: Room,
}

impl Drop for Caller {
    fn drop(self) {
        let Caller {
            alloc: _alloc,
            signals: _signals,
            procedure: _procedure,
            writer: _writer,
            room: _room,
        } = self;
    }
}

impl Model for Caller {
    ghost use Rattle.fax_call.specs.Following.{IsFit, HasText};
    ghost use Rattle.fax_call.specs.Reached.{Rep};

    ghost Value = { Rep };

    ghost view = { λ c. record {
      tracked = c.signals;
      procedure = c.procedure;
      writer = c.writer;
      spare = c.room;
    } };

    ghost invariant = { λ c. IsFit c.procedure × HasText c.procedure.pending c.writer };
}

impl Caller {
    /// A caller on whose leg no call was. The packet after a preamble is given so many milliseconds later, at most
    /// 2,000. It takes no memory.
    pub fn new(alloc: Global, preamble_ms: u16) -> Self
        ensures reached { (writes : Writing) (job : JobValue)
            → IsReached writes job [] (new_calling preamble_ms result.procedure.format) result }
        ensures idle { result.procedure.state ≡ State.Idle }
        ensures outcome { result.procedure.outcome ≡ None }
    {
        Caller {
            alloc,
            signals: Signals::new(alloc),
            procedure: Procedure::new(preamble_ms),
            writer: writer_of_none(alloc),
            room: Room::none(alloc),
        }
    }

    /// Takes the memory of the first packet of a call, where none is spare: after it the first tick after a `start` takes
    /// none. An `Err` changes nothing.
    pub fn reserve(&mut self) -> Result<(), NoMemory>
        ensures room { OnOk result (1 ≤ self.new.spare) }
        ensures reached { EachCall self.old
            (λ writes job heard core. IsReached writes job heard core self.new) }
        ensures same { self.new ≡ record self.old { spare = self.new.spare } }
        ensures err { OnErr result (self.new ≡ self.old) }
    {
        self.room.reserve(self.alloc, INDICATOR_OCTETS)
    }

    /// The call of a job begins, of at least one page, the first of this format, where no call is on: CNG waits, and T1 is
    /// set. It takes no memory.
    pub fn start(&mut self, format: Format, pages: u32, now: u64)
        requires idle { self.old.procedure.state ≡ State.Idle }
        requires some { 1 ≤ pages }
        ensures started { (writes others : Writing) (job other : JobValue) (heard : List SlotShown)
            (core : CallerCore) → IsReached others other heard core self.old → job.format ≡ format
            → length job.pages ≡ pages → IsReached writes job [] (started core job now) self.new }
        ensures job { (job : JobValue) → IsJob job
            → job.format ≡ format → length job.pages ≡ pages → IsJobOfCall self.new.procedure job }
        ensures tone { self.new.procedure.pending ≡ Pending.Tone }
        ensures spare { self.new.spare ≡ self.old.spare }
    {
        self.signals = Signals::new(self.alloc);
        self.writer = writer_of_none(self.alloc);
        self.procedure.start(format, pages, now);
    }

    /// The call of a job of at least one page, the first of this format, could not be placed, where no call is on: it is over as
    /// it begins, with the outcome `NotPlaced`, and gives nothing. It takes no memory.
    pub fn fail_to_place(&mut self, format: Format, pages: u32)
        requires idle { self.old.procedure.state ≡ State.Idle }
        requires some { 1 ≤ pages }
        ensures not_placed { (writes others : Writing)
            (job other : JobValue) (heard : List SlotShown) (core : CallerCore)
            → IsReached others other heard core self.old → job.format ≡ format
            → length job.pages ≡ pages → IsReached writes job [] (not_placed core job) self.new }
        ensures over { self.new.procedure.state ≡ State.Idle }
        ensures spare { self.new.spare ≡ self.old.spare }
    {
        self.signals = Signals::new(self.alloc);
        self.writer = writer_of_none(self.alloc);
        self.procedure.fail_to_place(format, pages);
    }

    /// Where the call stands.
    pub fn state(&self) -> State
        ensures { result ≡ self.now.procedure.state }
    {
        self.procedure.state
    }

    /// How the last call ended: `None` before the first one, and from each start until its call is over.
    pub fn outcome(&self) -> Option<Outcome>
        ensures { result ≡ self.now.procedure.outcome }
    {
        self.procedure.outcome
    }

    /// How many pages of the job were answered MCF or RTP.
    pub fn delivered(&self) -> u32
        ensures { result ≡ self.now.procedure.counts.delivered }
    {
        self.procedure.counts.delivered
    }

    /// The first moment at which a tick may give something or change the call: an earlier tick does nothing. `None`: none
    /// does until something comes.
    pub fn next_due(&self) -> Option<u64>
        ensures { EachCall self.now (λ writes job heard core. result ≡ due_at core) }
    {
        self.procedure.next_due()
    }

    /// The timer that acts in a tick at this moment, before a packet may be given. `None`: none does, as while a packet waits.
    pub fn acting(&self, now: u64) -> Option<ActingTimer>
        ensures { EachCall self.now (λ writes job heard core. result ≡ acting core now) }
    {
        self.procedure.acting(now)
    }

    /// Time goes on: where no packet waits a timer that is due acts, and then at most one packet is given, where one waits
    /// and the pace allows. The job is the one of the call, the same at each tick: it has as many pages, and those formats
    /// that are kept of them. Where its next page is of another format, the command is EOM, and that format is kept. The
    /// text of a page is written as its packets are due. It takes memory for the packet alone, and none for CNG where it was
    /// reserved; where no call is on it takes none and gives nothing. A packet has at most 100 octets. An `Err` changes
    /// nothing.
    pub fn tick<S: RowStore>(&mut self, job: &Job<S>, now: u64) -> Result<Option<Octets>, NoMemory>
        requires { IsJobOfCall self.old.procedure job.now }
        ensures ticked { IfOk result
            (λ given. (writes : Writing) (heard : List SlotShown) (core : CallerCore)
            → IsWriting writes → IsReached writes job.now heard core self.old
            → IsReached writes job.now heard (ticked writes job.now core now).core self.new
            × IsGiven (ticked writes job.now core now) given) }
        ensures job { OnOk result (IsJobOfCall self.new.procedure job.now) }
        ensures idle { self.old.procedure.state ≡ State.Idle
            → (result ≡ Ok None) × (self.new ≡ self.old) }
        ensures err { OnErr result (self.new ≡ self.old) }
        ensures memory { OnErr result ((writes : Writing) (heard : List SlotShown)
            (core : CallerCore) → IsReached writes job.now heard core self.old
            → IsSome (ticked writes job.now core now).given) }
        ensures spared { self.old.procedure.pending ≡ Pending.Tone
            → OnErr result (self.old.spare ≡ 0) }
        ensures short { IfOk result (λ given. IfSome given (λ packet. length packet ≤ 100)) }
    {
        let mut procedure = self.procedure;
        procedure.act(now);
        if !procedure.gives(now) {
            self.procedure = procedure;
            return Ok(None);
        }
        match procedure.pending {
            Pending::Image(dcs) => self.begin_text(job, procedure, dcs, now),
            Pending::Text(dcs, _) => self.give_text(job, procedure, dcs, now),
            _ => self.give_packet(procedure, now),
        }
    }

    /// The short training indicator is given, all of the text of the page is left after it, and the next page's format is
    /// kept, where it is another. An `Err` changes nothing.
    fn begin_text<S: RowStore>(
        &mut self,
        job: &Job<S>,
        mut procedure: Procedure,
        dcs: Dcs,
        now: u64,
    ) -> Result<Option<Octets>, NoMemory>
        requires fit { IsFit procedure }
        requires page { procedure.counts.page < length job.now.pages }
        requires pending { procedure.pending ≡ Pending.Image dcs }
        ensures packet { IfOk result
            (λ given. given ≡ Some (written (packet_of procedure.pending))) }
        ensures left { OnOk result ((writes : Writing) → IsWriting writes
            → HasTextLeft writes job.now procedure.counts.page dcs 0 self.new.writer) }
        ensures same { OnOk result (self.new ≡ record {
          tracked = self.old.tracked;
          procedure = given_by (with_turn procedure job.now) false now;
          writer = self.new.writer;
          spare = self.new.spare;
        }) }
        ensures err { OnErr result (self.new ≡ self.old) }
    {
        let packet = procedure.pending.packet(self.alloc, &mut self.room)?;
        let writer = writer_of(self.alloc, job, procedure.counts.page, dcs);
        procedure.keep_turn(job);
        procedure.give(false, now);
        self.procedure = procedure;
        self.writer = writer;
        Ok(Some(packet))
    }

    /// The next packet of the text of a page is given. An `Err` changes nothing.
    fn give_text<S: RowStore>(
        &mut self,
        job: &Job<S>,
        mut procedure: Procedure,
        dcs: Dcs,
        now: u64,
    ) -> Result<Option<Octets>, NoMemory>
        requires fit { IsFit procedure }
        requires page { procedure.counts.page < length job.now.pages }
        requires pending { (asks : PlainShown) × (procedure.pending ≡ Pending.Text dcs asks) }
        requires more { HasMore self.old.writer }
        ensures given { IfOk result (λ given. (writes : Writing) (core : CallerCore)
            → Follows writes job.now core self.old.writer procedure
            → GivesPacket writes job.now core now given self.new.writer self.new.procedure) }
        ensures same { OnOk result ((last : Bool) × (self.new ≡ record {
          tracked = self.old.tracked;
          procedure = given_by procedure last now;
          writer = self.new.writer;
          spare = self.old.spare;
        })) }
        ensures short { IfOk result (λ given. IfSome given (λ packet. length packet ≤ 100)) }
        ensures err { OnErr result (self.new ≡ self.old) }
    {
        let page = &job.pages().as_slice()[procedure.counts.page as usize];
        let packet = text_packet(self.alloc, &mut self.writer, page, dcs)?;
        procedure.give(packet.is_last, now);
        self.procedure = procedure;
        Ok(Some(packet.octets))
    }

    /// The next packet is given, which is none of a text. An `Err` changes nothing.
    fn give_packet(
        &mut self,
        mut procedure: Procedure,
        now: u64,
    ) -> Result<Option<Octets>, NoMemory>
        requires fit { IsFit procedure }
        requires some { procedure.pending ≢ Pending.Nothing }
        requires no_image { (dcs : DcsShown) → procedure.pending ≢ Pending.Image dcs }
        requires no_text { (dcs : DcsShown) (asks : PlainShown)
            → procedure.pending ≢ Pending.Text dcs asks }
        ensures packet { IfOk result
            (λ given. given ≡ Some (written (packet_of procedure.pending))) }
        ensures given { OnOk result (self.new ≡ record {
          tracked = self.old.tracked;
          procedure = given_by procedure false now;
          writer = self.old.writer;
          spare = self.new.spare;
        }) }
        ensures spared { procedure.pending ≡ Pending.Tone → OnErr result (self.old.spare ≡ 0) }
        ensures err { OnErr result (self.new ≡ self.old) }
    {
        let packet = procedure.pending.packet(self.alloc, &mut self.room)?;
        procedure.give(false, now);
        self.procedure = procedure;
        Ok(Some(packet))
    }
}

/// A writer where no text is given. It takes no memory.
fn writer_of_none(alloc: Global) -> PageWriter {
    PageWriter::new(alloc, NO_FORMAT, Coding::Mh, 0)
}
