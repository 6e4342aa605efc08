//! What the caller makes of the slots that come.
ghost use Rattle.std.specs.Prelude.{◌≡◌, ℕ, List, [], ◌∷◌, Some, IsOk, OnOk, OnErr};
ghost use Rattle.fax_ifp.specs.Elements.{Slot as SlotShown};
ghost use Rattle.fax_ifp.specs.Shown.{pieces_shown};
ghost use Rattle.fax_ifp.specs.Tracked.{lost_slots};
ghost use Rattle.fax_udptl.specs.Taking.{slots_in};
ghost use Rattle.fax_jobs.specs.Jobs.{JobValue};
ghost use Rattle.fax_call.specs.EachCall.{EachCall};
ghost use Rattle.fax_call.specs.Writings.{Writing};
ghost use Rattle.fax_call.specs.Calls.{CallerCore, came_all};
ghost use Rattle.fax_call.specs.Following.{Follows, IsJobOfCall};
ghost use Rattle.fax_call.specs.Reached.{IsReached, Hears, HearsTold};
ghost use Rattle.fax_call.specs.Watching.{TellsNothing, Watches, tellings};

use crate::caller::Caller;
use crate::watcher::{Unwatched, Watcher};
use fax_bits::NoMemory;
use fax_ifp::{Piece, Pieces, Slot};
use fax_udptl::Decided;

impl Caller {
    /// Takes the slots that a datagram decides, all of them or none: frames are answered, where no packet waits. Where
    /// MCF or RTP answers an EOM, T1 is set from this moment. It takes memory for packets of more than four fields, and
    /// none where no packet is decided. An `Err` changes nothing.
    pub fn slots(&mut self, decided: &Decided<'_>, now: u64) -> Result<(), NoMemory>
        ensures heard { OnOk result (EachCall self.old (λ writes job heard core.
            Hears writes job (slots_in decided.now) now heard core self.new)) }
        ensures job { (job : JobValue)
            → IsJobOfCall self.old.procedure job → IsJobOfCall self.new.procedure job }
        ensures err { OnErr result (self.new ≡ self.old) }
        ensures no_packet { decided.now.packets ≡ [] → IsOk result }
    {
        self.slots_watched(decided, now, &mut Unwatched)
    }

    /// The same, and a watcher is told of each piece that they bring, but for lost slots, in the order of time. After an `Err` it
    /// may have been told of some.
    pub fn slots_watched<W: Watcher>(
        &mut self,
        decided: &Decided<'_>,
        now: u64,
        watcher: &mut W,
    ) -> Result<(), NoMemory>
        ensures heard { OnOk result (EachCall self.old
            (λ writes job heard core. HearsTold (Watches W.tells watcher.old watcher.new)
            writes job (slots_in decided.now) now heard core self.new)) }
        ensures job { (job : JobValue)
            → IsJobOfCall self.old.procedure job → IsJobOfCall self.new.procedure job }
        ensures err { OnErr result (self.new ≡ self.old) }
        ensures no_packet { decided.now.packets ≡ [] → IsOk result }
    {
        let signals = self.signals.copy();
        let procedure = self.procedure;
        if self.hear_slots(decided, now, watcher).is_err() {
            self.signals = signals;
            self.procedure = procedure;
            return Err(NoMemory);
        }
        Ok(())
    }

    /// Hears the slots. An `Err` leaves the writer of the text, and the room.
    fn hear_slots<W: Watcher>(
        &mut self,
        decided: &Decided<'_>,
        now: u64,
        watcher: &mut W,
    ) -> Result<(), NoMemory>
        ensures heard { OnOk result (EachCall self.old
            (λ writes job heard core. HearsTold (Watches W.tells watcher.old watcher.new)
            writes job (slots_in decided.now) now heard core self.new)) }
        ensures job { (job : JobValue)
            → IsJobOfCall self.old.procedure job → IsJobOfCall self.new.procedure job }
        ensures writer { self.new.writer ≡ self.old.writer }
        ensures spare { self.new.spare ≡ self.old.spare }
        ensures no_packet { decided.now.packets ≡ [] → IsOk result }
    {
        if let Some(packet) = decided.only() {
            return self.hear_packet(packet, now, watcher);
        }
        self.lose(decided.lost());
        let mut pieces = Pieces::new(self.alloc);
        for packet in decided.packets() {
            self.signals.slot_into(Slot::Packet(packet), &mut pieces)?;
            self.hear_all(pieces.as_slice(), now, watcher);
        }
        Ok(())
    }

    /// Hears the slot of a packet. An `Err` leaves the writer of the text, and the room.
    fn hear_packet<W: Watcher>(
        &mut self,
        packet: &[u8],
        now: u64,
        watcher: &mut W,
    ) -> Result<(), NoMemory>
        ensures heard { OnOk result (EachCall self.old (λ writes job heard core.
            HearsTold (Watches W.tells watcher.old watcher.new) writes job (Some packet.now
            ∷ []) now heard core self.new)) }
        ensures job { (job : JobValue)
            → IsJobOfCall self.old.procedure job → IsJobOfCall self.new.procedure job }
        ensures writer { self.new.writer ≡ self.old.writer }
        ensures spare { self.new.spare ≡ self.old.spare }
    {
        let mut pieces = Pieces::new(self.alloc);
        self.signals.slot_into(Slot::Packet(packet), &mut pieces)?;
        self.hear_all(pieces.as_slice(), now, watcher);
        Ok(())
    }

    /// Hears pieces, in the order of time.
    fn hear_all<W: Watcher>(&mut self, pieces: &[Piece<'_>], now: u64, watcher: &mut W)
        ensures heard { (writes : Writing) (job : JobValue) (core : CallerCore)
            → Follows writes job core self.old.writer self.old.procedure → Follows writes
            job (came_all core (pieces_shown pieces.now) now) self.new.writer self.new.procedure }
        ensures told { (writes : Writing) (job : JobValue) (core : CallerCore)
            → Follows writes job core self.old.writer self.old.procedure
            → Watches W.tells watcher.old
            watcher.new (tellings core (pieces_shown pieces.now) now) }
        ensures tracked { self.new.tracked ≡ self.old.tracked }
        ensures writer { self.new.writer ≡ self.old.writer }
        ensures spare { self.new.spare ≡ self.old.spare }
        ensures job { (job : JobValue)
            → IsJobOfCall self.old.procedure job → IsJobOfCall self.new.procedure job }
    {
        self.procedure.hear_all(pieces, now, watcher);
    }

    /// So many slots are missing.
    fn lose(&mut self, count: u16)
        ensures heard { (writes : Writing) (job : JobValue) (now : ℕ)
            (heard : List SlotShown) (core : CallerCore) → IsReached writes job heard core self.old
            → HearsTold TellsNothing writes job (lost_slots count) now heard core self.new }
        ensures procedure { self.new.procedure ≡ self.old.procedure }
        ensures writer { self.new.writer ≡ self.old.writer }
        ensures spare { self.new.spare ≡ self.old.spare }
    {
        self.signals.lose(count);
    }
}
