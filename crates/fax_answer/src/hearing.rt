//! What the answerer makes of the slots that come.
ghost use Rattle.std.specs.Prelude.{◌≡◌, ◌<◌, ◌≤◌, ◌↔◌, List, [], ◌∷◌, None, IsTrue, IsOk, IfOk, OnOk, OnErr, is_some, if◌then◌else◌};
ghost use Rattle.fax_ifp.specs.Pieces.{Frame as FrameShown, Octets as OctetsShown};
ghost use Rattle.fax_ifp.specs.Shown.{piece_of, pieces_shown};
ghost use Rattle.fax_ifp.specs.Tracked.{lost_slots, with_octets};
ghost use Rattle.fax_udptl.specs.Taking.{slots_in};
ghost use Rattle.fax_answer.specs.EachCall.{EachCall, EachCore};
ghost use Rattle.fax_answer.specs.Images.{GoesOn, TakesIn, begun};
ghost use Rattle.fax_answer.specs.Octets.{octets_of_answerer};
ghost use Rattle.fax_answer.specs.Reached.{Stands, Takes, TakesAll, Hears, HearsSo, HearsTold};
ghost use Rattle.fax_answer.specs.Watching.{TellsNothing, Watches};

use crate::State;
use crate::answerer::Answerer;
use crate::decision::Decision;
use crate::step::Confirmed;
use crate::watcher::{Unwatched, Watcher};
use fax_bits::NoMemory;
use fax_ifp::{Piece, Pieces, Slot};
use fax_pagestore::RowStore;
use fax_udptl::Decided;

impl<S: RowStore> Answerer<S> {
    /// Takes the slots that a datagram decides, all of them or none: frames are answered, the octets of an image are read
    /// as they come, and at a command the one image before it is judged. It answers whether the call has ended. It takes
    /// memory for what is read of images, for the place to go back to, and for packets of more than four fields, and none
    /// where no packet is decided. An `Err` changes nothing.
    pub fn slots(&mut self, decided: &Decided<'_>, now: u64) -> Result<bool, NoMemory>
        ensures heard { OnOk result (EachCall self.old
            (λ heard core. Hears (slots_in decided.now) now heard core self.new)) }
        ensures ended { IfOk result
            (λ ended. IsTrue ended ↔ (self.new.procedure.state ≡ State.Idle)) }
        ensures err { OnErr result (self.new ≡ self.old) }
        ensures no_packet { decided.now.packets ≡ [] → IsOk result }
        ensures spare { self.new.spare ≡ self.old.spare }
    {
        self.slots_watched(decided, now, &mut Unwatched)
    }

    /// The same, and a watcher is told of each piece that they bring, but for lost slots, in the order of time. After an `Err` it
    /// may have been told of some.
    pub fn slots_watched<W: Watcher>(
        &mut self,
        decided: &Decided<'_>,
        now: u64,
        watcher: &mut W,
    ) -> Result<bool, NoMemory>
        ensures heard { OnOk result (EachCall self.old
            (λ heard core. HearsTold (Watches W.tells watcher.old watcher.new)
            (slots_in decided.now) now heard core self.new)) }
        ensures ended { IfOk result
            (λ ended. IsTrue ended ↔ (self.new.procedure.state ≡ State.Idle)) }
        ensures err { OnErr result (self.new ≡ self.old) }
        ensures no_packet { decided.now.packets ≡ [] → IsOk result }
        ensures spare { self.new.spare ≡ self.old.spare }
    {
        self.slots_within(decided, now, u128::MAX, watcher)
    }

    /// The same where no more than so many octets of memory are to be held, as [`Answerer::held`] says it: slots that would add to
    /// what is held where more is held already are refused as for want of memory. So what adds nothing, as a command after a
    /// page, is heard however much is held.
    pub fn slots_within<W: Watcher>(
        &mut self,
        decided: &Decided<'_>,
        now: u64,
        most: u128,
        watcher: &mut W,
    ) -> Result<bool, NoMemory>
        ensures heard { OnOk result (EachCall self.old
            (λ heard core. HearsTold (Watches W.tells watcher.old watcher.new)
            (slots_in decided.now) now heard core self.new)) }
        ensures ended { IfOk result
            (λ ended. IsTrue ended ↔ (self.new.procedure.state ≡ State.Idle)) }
        ensures err { OnErr result (self.new ≡ self.old) }
        ensures no_packet { decided.now.packets ≡ [] → IsOk result }
        ensures spare { self.new.spare ≡ self.old.spare }
        ensures within { OnOk result (most ≤ octets_of_answerer self.old
            → octets_of_answerer self.new ≤ octets_of_answerer self.old) }
    {
        self.hear_whole(decided, now, most, watcher)?;
        self.settle();
        Ok(self.procedure.state == State::Idle)
    }

    /// Hears the slots, all of them or none, and adds nothing where more than so many octets are held. An `Err` changes nothing.
    fn hear_whole<W: Watcher>(
        &mut self,
        decided: &Decided<'_>,
        now: u64,
        most: u128,
        watcher: &mut W,
    ) -> Result<(), NoMemory>
        ensures heard { OnOk result (EachCall self.old
            (λ heard core. HearsSo (Watches W.tells watcher.old watcher.new)
            (slots_in decided.now) now heard core self.new)) }
        ensures err { OnErr result (self.new ≡ self.old) }
        ensures no_packet { decided.now.packets ≡ [] → IsOk result }
        ensures spare { self.new.spare ≡ self.old.spare }
        ensures within { OnOk result (most ≤ octets_of_answerer self.old
            → octets_of_answerer self.new ≤ octets_of_answerer self.old) }
    {
        let held = self.held();
        if held < most {
            if let Some(packet) = decided.only() {
                if let Some(octets) = self.signals.octets_in(packet) {
                    return self.hear_alone(octets, now, watcher);
                }
            }
        }
        if decided.is_empty() || decided.packets().next().is_none() {
            self.lose(decided.lost(), now);
            return Ok(());
        }
        let signals = self.signals.copy();
        let procedure = self.procedure;
        let refused = self.refused;
        let mark = self.image.mark()?;
        let heard = self.hear_slots(decided, now, watcher);
        if heard.is_err() || held >= most && self.held() > held {
            self.signals = signals;
            self.procedure = procedure;
            self.refused = refused;
            self.image.back(mark);
            return Err(NoMemory);
        }
        Ok(())
    }

    /// Hears the slot of a packet that gives these octets of the open image and nothing else. An `Err` changes nothing.
    fn hear_alone<W: Watcher>(
        &mut self,
        octets: &[u8],
        now: u64,
        watcher: &mut W,
    ) -> Result<(), NoMemory>
        ensures heard { OnOk result (EachCore self.old
            (λ core. TakesAll (Watches W.tells watcher.old watcher.new) (OctetsShown octets.now
            ∷ []) now core self.new)) }
        ensures tracked { OnOk result (self.new.tracked ≡ with_octets self.old.tracked) }
        ensures err { OnErr result (self.new ≡ self.old) }
        ensures spare { self.new.spare ≡ self.old.spare }
    {
        self.hear_octets(octets, now, watcher)?;
        self.signals.take_octets();
        Ok(())
    }

    /// Hears the slots. An `Err` leaves readers to go back from, and the page that is confirmed.
    fn hear_slots<W: Watcher>(
        &mut self,
        decided: &Decided<'_>,
        now: u64,
        watcher: &mut W,
    ) -> Result<(), NoMemory>
        ensures heard { OnOk result (EachCall self.old
            (λ heard core. HearsSo (Watches W.tells watcher.old watcher.new)
            (slots_in decided.now) now heard core self.new)) }
        ensures goes_on { GoesOn self.old.image.readers self.new.image.readers }
        ensures confirmed { self.new.confirmed ≡ self.old.confirmed }
        ensures spare { self.new.spare ≡ self.old.spare }
    {
        self.lose(decided.lost(), now);
        let mut pieces = Pieces::new(self.alloc);
        for packet in decided.packets() {
            self.signals.slot_into(Slot::Packet(packet), &mut pieces)?;
            self.hear_all(pieces.as_slice(), now, watcher)?;
        }
        Ok(())
    }

    /// So many slots are missing.
    fn lose(&mut self, count: u16, now: u64)
        ensures heard { EachCall self.old
            (λ heard core. HearsSo TellsNothing (lost_slots count) now heard core self.new) }
        ensures image { self.new.image ≡ self.old.image }
        ensures confirmed { self.new.confirmed ≡ self.old.confirmed }
        ensures spare { self.new.spare ≡ self.old.spare }
    {
        self.signals.lose(count);
        if count > 0 {
            self.procedure.note(&Piece::Gap, Decision::PassOver, now);
        }
    }

    /// Hears pieces, in the order of time.
    fn hear_all<W: Watcher>(
        &mut self,
        pieces: &[Piece<'_>],
        now: u64,
        watcher: &mut W,
    ) -> Result<(), NoMemory>
        ensures heard { OnOk result (EachCore self.old
            (λ core. TakesAll (Watches W.tells watcher.old watcher.new)
            (pieces_shown pieces.now) now core self.new)) }
        ensures tracked { self.new.tracked ≡ self.old.tracked }
        ensures spare { self.new.spare ≡ self.old.spare }
        ensures goes_on { GoesOn self.old.image.readers self.new.image.readers }
        ensures confirmed { self.new.confirmed ≡ self.old.confirmed }
    {
        for piece in pieces {
            self.hear(piece, now, watcher)?;
        }
        Ok(())
    }

    /// Hears a piece.
    fn hear<W: Watcher>(
        &mut self,
        piece: &Piece<'_>,
        now: u64,
        watcher: &mut W,
    ) -> Result<(), NoMemory>
        ensures heard { OnOk result (EachCore self.old (λ core. Takes (Watches W.tells watcher.old
            watcher.new) (piece_of piece.now) now core self.new)) }
        ensures tracked { self.new.tracked ≡ self.old.tracked }
        ensures spare { self.new.spare ≡ self.old.spare }
        ensures goes_on { GoesOn self.old.image.readers self.new.image.readers }
        ensures confirmed { self.new.confirmed ≡ self.old.confirmed }
    {
        match piece {
            Piece::Frame(octets) => self.hear_frame(piece, octets.as_slice(), now, watcher),
            Piece::Start(_) => {
                self.procedure.tell(piece, Decision::PassOver, watcher);
                self.procedure.note(piece, Decision::PassOver, now);
                self.begin_image()?;
            }
            Piece::Octets(octets) => self.hear_octets(octets, now, watcher)?,
            Piece::End { whole } => {
                let decision = self.judge_training(*whole);
                self.procedure.tell(piece, decision, watcher);
                self.procedure.note(piece, decision, now);
                self.begin_image()?;
            }
            Piece::Gap => self.procedure.note(piece, Decision::PassOver, now),
        }
        Ok(())
    }

    /// What comes from here on is an image of its own, which in Page has a reader.
    fn begin_image(&mut self) -> Result<(), NoMemory>
        ensures begun { OnOk result (self.new.image ≡ record self.old.image {
          readers = begun self.old.procedure.state self.old.image.readers;
          run = 0;
          longest = 0;
        }) }
        ensures readers { OnErr result (self.new.image.readers ≡ self.old.image.readers) }
        ensures same { self.new ≡ record self.old { image = self.new.image } }
    {
        self.image.restart();
        if let State::Page(dcs) = self.procedure.state {
            self.image.begin(dcs)?;
        }
        Ok(())
    }

    /// Hears octets of the image under way. An `Err` changes nothing.
    fn hear_octets<W: Watcher>(
        &mut self,
        octets: &[u8],
        now: u64,
        watcher: &mut W,
    ) -> Result<(), NoMemory>
        ensures heard { OnOk result (EachCore self.old (λ core. Takes (Watches W.tells watcher.old
            watcher.new) (OctetsShown octets.now) now core self.new)) }
        ensures goes_on { GoesOn self.old.image.readers self.new.image.readers }
        ensures err { OnErr result (self.new ≡ self.old) }
        ensures tracked { self.new.tracked ≡ self.old.tracked }
        ensures spare { self.new.spare ≡ self.old.spare }
        ensures confirmed { self.new.confirmed ≡ self.old.confirmed }
    {
        self.read_octets(octets)?;
        let piece = Piece::Octets(octets);
        self.procedure.tell(&piece, Decision::PassOver, watcher);
        self.procedure.note(&piece, Decision::PassOver, now);
        Ok(())
    }

    /// Octets of the image under way come. In Page they are read. An `Err` changes nothing.
    fn read_octets(&mut self, octets: &[u8]) -> Result<(), NoMemory>
        ensures taken { OnOk result
            (TakesIn self.old.procedure.state octets.now self.old.image self.new.image) }
        ensures err { OnErr result (self.new ≡ self.old) }
        ensures same { self.new ≡ record self.old { image = self.new.image } }
    {
        if let State::Page(_) = self.procedure.state {
            self.image.feed(octets)?;
        }
        self.image.count(octets);
        Ok(())
    }

    /// Hears a frame, which is passed over while a packet waits.
    fn hear_frame<W: Watcher>(
        &mut self,
        piece: &Piece<'_>,
        octets: &[u8],
        now: u64,
        watcher: &mut W,
    )
        requires { piece_of piece.now ≡ FrameShown octets.now }
        ensures heard { EachCore self.old (λ core. Takes (Watches W.tells watcher.old watcher.new)
            (FrameShown octets.now) now core self.new) }
        ensures tracked { self.new.tracked ≡ self.old.tracked }
        ensures spare { self.new.spare ≡ self.old.spare }
        ensures readers { self.new.image.readers ≡ self.old.image.readers }
        ensures confirmed { self.new.confirmed ≡ self.old.confirmed }
    {
        if self.procedure.is_waiting() {
            self.procedure.tell(piece, Decision::PassOver, watcher);
            self.procedure.note(piece, Decision::PassOver, now);
            return;
        }
        let answer = self.answer(octets);
        self.procedure.tell(piece, answer.decision, watcher);
        self.procedure.note(piece, answer.decision, now);
        self.image.accept(answer.found);
        self.refused = answer.refused;
    }

    /// Nothing can be refused any more: the page that is accepted is taken out of its reader, and the readers that nothing
    /// asks for are let go. It takes no memory.
    fn settle(&mut self)
        ensures stands { EachCore self.old (λ core. Stands core self.new) }
        ensures settled { self.new.image.accepted ≡ None }
        ensures procedure { self.new.procedure ≡ self.old.procedure }
        ensures tracked { self.new.tracked ≡ self.old.tracked }
        ensures spare { self.new.spare ≡ self.old.spare }
        ensures held { octets_of_answerer self.new ≤ octets_of_answerer self.old }
    {
        let found = self.image.finish();
        keep(&mut self.confirmed, found);
        self.image.keep(self.procedure.readers_wanted());
    }
}

/// Keeps a page that is found.
fn keep<S: RowStore>(kept: &mut Option<Confirmed<S>>, found: Option<Confirmed<S>>)
    ensures { kept.new ≡ (if is_some found then found else kept.old) }
{
    if found.is_some() {
        *kept = found;
    }
}
