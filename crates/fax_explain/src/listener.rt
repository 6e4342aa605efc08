//! What is read of the datagrams of one direction of a leg.
ghost use Rattle.std.specs.Prelude.{◌≡◌, ◌<◌, ◌+◌, ◌-◌, ◌≤◌, ◌++◌, ◌∷◌, [], Some, codes, decimal, drop, length, map, nat_lt, reverse, slice_get, IfOk, OnOk, string_bytes};
ghost use Rattle.fax_frames.specs.Frames.{frame_of};
ghost use Rattle.fax_udptl.specs.Datagrams.{datagram_of};
ghost use Rattle.fax_udptl.specs.Taking.{slots_in};
ghost use Rattle.fax_ifp.specs.Packets.{packet_of};
ghost use Rattle.fax_ifp.specs.Shown.{piece_of, pieces_shown};
ghost use Rattle.fax_ifp.specs.Tracked.{lost_slots};
ghost use Rattle.fax_explain.specs.FrameEnds.{AreEnds};
ghost use Rattle.fax_explain.specs.Given.{giving};
ghost use Rattle.fax_explain.specs.Heard.{AddsLine, EachCounted, EachEar, EachHeard, EachHearing, HasHeard, Hears, HearsOn, HearsSlots, HearsThese, IsEar, IsHearing, KeepsEar, Stays, TellsComing};
ghost use Rattle.fax_command.specs.Answers.{page_fault_line};
ghost use Rattle.fax_explain.specs.Listening.{StartsWith, check_text, dis_after, first_mark, image_text, in_call, is_command, is_heard, is_judged, later_marks, marked_end, marks_after, marks_left, outside, page_dcs, signal_name, strange_text, taken_text, training_text, unasked_text, verdict_name, words_after};
ghost use Rattle.fax_explain.specs.Openings.{back_openings, begins, datagram_openings, end_opening, frame_opening, head_openings, late_openings, line_if, lost_openings, marks_past, octets_counted, packet_openings, packets_openings, piece_openings, pieces_openings, start_opening, tone_at, tone_openings};

use crate::frame_ends::FrameEnds;
use crate::image::Image;
use crate::mark::{Mark, Passed, Signal};
use fax_bits::NoMemory;
use fax_descriptions::{Lane, Tale, name_of_kind, words_of_frame, words_of_numbers};
use fax_frames::{Dcs, Dis, Frame};
use fax_ifp::{Head, Ifp, IfpFault, Indicator, Piece, Signals, Slot};
use fax_pagestore::{PackedRows, Page, PageFault, RowStore};
use fax_udptl::{Decided, Packets, Receiver, read};
use std::alloc::Global;

/// What is read of the datagrams of one direction of a leg, in one call.
pub(crate) struct Listener {
    alloc: Global,
    lane: Lane,
    receiver: Receiver,
    signals: Signals,
    /// Whether no call is on, and everything is passed over.
    is_outside: bool,
    /// What each piece of the datagram that comes was taken as, and how many of these came.
    marks: Vec<Mark>,
    taken: usize,
    /// What a piece is taken as of which nothing is told.
    usual: Mark,
    /// The image that began last.
    image: Image,
    /// The last page that was read.
    page: Option<Page<PackedRows>>,
    /// The last DIS.
    dis: Option<Dis>,
    /// The frames of the last datagram that were not passed over.
    frames: Vec<Frame>,
}

impl Drop for Listener {
    fn drop(self) {
        let Listener {
            alloc: _alloc,
            lane: _lane,
            receiver: _receiver,
            signals: _signals,
            is_outside: _is_outside,
            marks: _marks,
            taken: _taken,
            usual: _usual,
            image: _image,
            page: _page,
            dis: _dis,
            frames: _frames,
        } = self;
    }
}

impl Listener {
    /// A direction on which nothing came.
    pub(crate) fn new(alloc: Global, lane: Lane) -> Self
        ensures ear { IsEar (in_call lane) result }
        ensures hearing { IsHearing [] result }
    {
        Listener {
            alloc,
            lane,
            receiver: Receiver::new(),
            signals: Signals::new(alloc),
            is_outside: false,
            marks: Vec::new(alloc),
            taken: 0,
            usual: Mark::given(Signal::Strange),
            image: Image::new(alloc, None),
            page: None,
            dis: None,
            frames: Vec::new(alloc),
        }
    }

    /// The octets of a datagram come: what it brings is told, a line for each thing, by what the pieces of it were taken as.
    pub(crate) fn hear(&mut self, octets: &[u8], tale: &mut Tale) -> Result<(), NoMemory>
        ensures told { OnOk result (TellsComing self.old (marks_left self.old)
            (datagram_of octets.now) tale.old tale.new) }
        ensures hearing { OnOk result (HearsOn self.old (datagram_of octets.now) self.new) }
        ensures ear { OnOk result (KeepsEar self.old self.new) }
    {
        self.frames.clear();
        let number = match read(octets) {
            Ok(datagram) => datagram.number(),
            Err(fault) => {
                let mut words = String::from_str(self.alloc, "a datagram that cannot be read: ")?;
                let why = format!(in self.alloc; "{fault}")?;
                words.push_str(why.as_str())?;
                return self.tell(words.as_str(), tale);
            }
        };
        let Ok(decided) = self.receiver.take(octets) else {
            return Ok(());
        };
        self.hear_decided(number, &decided, tale)
    }

    /// The octets of a datagram come whose pieces were taken as usual.
    pub(crate) fn hear_unmarked(&mut self, octets: &[u8], tale: &mut Tale) -> Result<(), NoMemory>
        ensures told { OnOk result
            (TellsComing self.old [] (datagram_of octets.now) tale.old tale.new) }
        ensures hearing { OnOk result (HearsOn self.old (datagram_of octets.now) self.new) }
        ensures ear { OnOk result (KeepsEar self.old self.new) }
    {
        self.mark(Vec::new(self.alloc));
        self.hear(octets, tale)
    }

    /// The slots come that the datagram of this number decides.
    fn hear_decided(
        &mut self,
        number: u16,
        decided: &Decided<'_>,
        tale: &mut Tale,
    ) -> Result<(), NoMemory>
        ensures told { OnOk result (EachEar self.old (λ ear. EachHeard self.old (λ slots.
            Hears ear (datagram_openings ear (marks_left self.old) slots number decided.now)
            self.old self.new tale.old tale.new))) }
        ensures heard { OnOk result
            (HearsSlots self.old (reverse (slots_in decided.now)) self.new) }
    {
        let from = decided.from();
        if decided.is_empty() {
            return self.hear_late(number, from, tale);
        }
        let lost = decided.lost();
        self.lose(from, lost, tale)?;
        let first = from.wrapping_add(lost);
        self.bring_back(first, number, tale)?;
        self.hear_packets(first, decided.packets(), tale)
    }

    /// The packets of datagrams in a row come, from that of this number on.
    fn hear_packets(
        &mut self,
        first: u16,
        packets: Packets<'_>,
        tale: &mut Tale,
    ) -> Result<(), NoMemory>
        ensures told { OnOk result (EachEar self.old (λ ear. EachHeard self.old (λ slots.
            Hears ear (packets_openings ear (marks_left self.old) slots first packets.entry)
            self.old self.new tale.old tale.new))) }
        ensures heard { OnOk result (EachHeard self.old (λ slots.
            HasHeard (reverse (map Some packets.entry) ++ slots) self.new)) }
    {
        let mut at = first;
        for packet in packets {
            self.hear_packet(at, packet, tale)?;
            at = at.wrapping_add(1);
        }
        Ok(())
    }

    /// The frames of the last datagram that were not passed over.
    pub(crate) fn frames(&self) -> &[Frame]
        ensures { result.now ≡ self.now.frames.items }
    {
        self.frames.as_slice()
    }

    /// A datagram comes next whose pieces were taken as these.
    pub(crate) fn mark(&mut self, marks: Vec<Mark>)
        ensures { self.new ≡ record self.old { marks = marks; taken = 0 } }
    {
        self.marks = marks;
        self.taken = 0;
    }

    /// From now on a piece of which nothing is told is taken as one that is given, as this signal.
    pub(crate) fn give(&mut self, signal: Signal)
        ensures { self.new ≡ giving signal self.old }
    {
        self.usual = Mark::given(signal);
    }

    /// The call is over: everything is passed over.
    pub(crate) fn end_call(&mut self)
        ensures { self.new ≡ outside self.old }
    {
        self.is_outside = true;
    }

    /// The last page that was read, where none took it.
    pub(crate) fn take_page(&mut self) -> Option<Page<PackedRows>>
        ensures page { result ≡ self.old.page }
        ensures left { self.new ≡ record self.old { page = None } }
    {
        self.page.take()
    }

    /// Something happened on this direction.
    fn tell(&self, words: &str, tale: &mut Tale) -> Result<(), NoMemory>
        ensures { OnOk result (AddsLine self.now words.now tale.old tale.new) }
    {
        tale.tell(self.lane, words)?;
        if self.is_outside {
            tale.add(", passed over: no call is on")?;
        }
        Ok(())
    }

    /// Something happened on this direction, where that holds.
    fn tell_if(&self, holds: bool, words: &str, tale: &mut Tale) -> Result<(), NoMemory>
        ensures { OnOk result
            (HearsThese (line_if holds (begins words.now)) self.now self.now tale.old tale.new) }
    {
        if holds {
            self.tell(words, tale)?;
        }
        Ok(())
    }

    /// A datagram decides nothing: one that came again says nothing new, and a late one is told.
    fn hear_late(&self, number: u16, expected: u16, tale: &mut Tale) -> Result<(), NoMemory>
        ensures { OnOk result
            (HearsThese (late_openings number expected) self.now self.now tale.old tale.new) }
    {
        if number.wrapping_add(1) == expected {
            return Ok(());
        }
        let words = format!(in self.alloc; "datagram {number} came late")?;
        self.tell(words.as_str(), tale)
    }

    /// So many datagrams from a number on are lost.
    fn lose(&mut self, from: u16, count: u16, tale: &mut Tale) -> Result<(), NoMemory>
        ensures told { OnOk result
            (HearsThese (lost_openings from count) self.old self.new tale.old tale.new) }
        ensures heard { OnOk result (HearsSlots self.old (lost_slots count) self.new) }
        ensures marks { OnOk result (marks_left self.new ≡ marks_left self.old) }
    {
        self.signals.lose(count);
        if count == 0 {
            return Ok(());
        }
        let numbers = words_of_numbers(self.alloc, from, count)?;
        let words = format!(in self.alloc; "lost: {numbers}")?;
        self.tell(words.as_str(), tale)?;
        self.miss(numbers.as_str())
    }

    /// The datagrams from a number on, up to that of the one that came, are told as brought back, where there are any.
    fn bring_back(&self, from: u16, number: u16, tale: &mut Tale) -> Result<(), NoMemory>
        ensures { OnOk result
            (HearsThese (back_openings from number) self.now self.now tale.old tale.new) }
    {
        if from == number {
            return Ok(());
        }
        let numbers = words_of_numbers(self.alloc, from, number.wrapping_sub(from))?;
        let words = format!(in self.alloc; "lost: {numbers}, brought back by {number}")?;
        self.tell(words.as_str(), tale)
    }

    /// Datagrams of these numbers are missing.
    fn miss(&mut self, numbers: &str) -> Result<(), NoMemory>
        ensures left { self.new ≡ record self.old { image = self.new.image } }
        ensures octets { self.new.image.octets ≡ self.old.image.octets }
    {
        self.image.miss(numbers)
    }

    /// The packet of the datagram of this number comes.
    fn hear_packet(&mut self, number: u16, packet: &[u8], tale: &mut Tale) -> Result<(), NoMemory>
        ensures told { OnOk result (EachEar self.old (λ ear. EachHeard self.old (λ slots.
            Hears ear (packet_openings ear (marks_left self.old) slots number packet.now)
            self.old self.new tale.old tale.new))) }
        ensures heard { OnOk result (EachHeard self.old (λ slots.
            HasHeard (Some packet.now ∷ slots) self.new)) }
        ensures marks { OnOk result (EachHeard self.old (λ slots.
            marks_left self.new ≡ marks_past slots packet.now (marks_left self.old))) }
    {
        let ends = self.hear_head(number, packet, tale)?;
        let pieces = self.signals.slot(Slot::Packet(packet))?;
        self.hear_pieces(pieces.as_slice(), tale)?;
        let lacking = ends.lacking(pieces.as_slice());
        self.tell_lacking(lacking, ends.bad, tale)
    }

    /// What the packet of the datagram of this number says before its pieces. It answers the frames that end in it.
    fn hear_head(
        &mut self,
        number: u16,
        packet: &[u8],
        tale: &mut Tale,
    ) -> Result<FrameEnds, NoMemory>
        ensures told { OnOk result (HearsThese (head_openings number (packet_of packet.now))
            self.old self.new tale.old tale.new) }
        ensures stays { OnOk result (Stays self.old self.new) }
        ensures marks { OnOk result (marks_left self.new ≡ marks_left self.old) }
        ensures ends { IfOk result (λ ends. AreEnds (packet_of packet.now) ends) }
    {
        match Ifp::read(self.alloc, packet) {
            Ok(content) => {
                self.hear_tone(tone_of(content.head()), tale)?;
                Ok(FrameEnds::of(&content))
            }
            Err(IfpFault::NoMemory) => Err(NoMemory),
            Err(fault) => {
                self.refuse_packet(number, fault, tale)?;
                Ok(FrameEnds::none())
            }
        }
    }

    /// The packet of the datagram of this number cannot be read: it is missing, but for an extension, which says nothing.
    fn refuse_packet(
        &mut self,
        number: u16,
        fault: IfpFault,
        tale: &mut Tale,
    ) -> Result<(), NoMemory>
        ensures told { OnOk result (HearsThese (begins (codes "packet " ++ (decimal number
            ++ codes " cannot be read: ")) ∷ []) self.old self.new tale.old tale.new) }
        ensures stays { OnOk result (Stays self.old self.new) }
        ensures marks { OnOk result (marks_left self.new ≡ marks_left self.old) }
    {
        let mut words = format!(in self.alloc; "packet {number} cannot be read: ")?;
        let why = format!(in self.alloc; "{fault}")?;
        words.push_str(why.as_str())?;
        self.tell(words.as_str(), tale)?;
        if fault == IfpFault::Extension {
            return Ok(());
        }
        let numbers = words_of_numbers(self.alloc, number, 1)?;
        self.miss(numbers.as_str())
    }

    /// So many frames have ended in which something is missing, and so many with a wrong check sequence.
    fn tell_lacking(&self, lacking: usize, bad: usize, tale: &mut Tale) -> Result<(), NoMemory>
        ensures { OnOk result (HearsThese (line_if (nat_lt 0 lacking)
            (begins (codes "a frame in which something is missing, passed over")) ++ line_if
            (nat_lt 0 bad) (begins (codes "a frame with a wrong check sequence, passed over")))
            self.now self.now tale.old tale.new) }
    {
        self.tell_if(
            lacking > 0,
            "a frame in which something is missing, passed over",
            tale,
        )?;
        self.tell_if(
            bad > 0,
            "a frame with a wrong check sequence, passed over",
            tale,
        )
    }

    /// CNG and CED are told.
    fn hear_tone(&mut self, indicator: Option<Indicator>, tale: &mut Tale) -> Result<(), NoMemory>
        ensures told { OnOk result
            (HearsThese (tone_openings indicator) self.old self.new tale.old tale.new) }
        ensures stays { Stays self.old self.new }
        ensures marks { marks_left self.new ≡ marks_left self.old }
    {
        let name = match indicator {
            Some(Indicator::Cng) => "CNG",
            Some(Indicator::Ced) => "CED",
            _ => return Ok(()),
        };
        self.tell(name, tale)
    }

    /// Pieces come.
    fn hear_pieces(&mut self, pieces: &[Piece<'_>], tale: &mut Tale) -> Result<(), NoMemory>
        ensures told { OnOk result (EachEar self.old (λ ear. EachCounted self.old (λ before.
            Hears ear (pieces_openings ear (marks_left self.old) before (pieces_shown pieces.now))
            self.old self.new tale.old tale.new))) }
        ensures counted { OnOk result (EachCounted self.old (λ before.
            self.new.image.octets ≡ octets_counted (reverse (pieces_shown pieces.now) ++ before))) }
        ensures marks { OnOk result (marks_left self.new
            ≡ later_marks (pieces_shown pieces.now) (marks_left self.old)) }
        ensures signals { OnOk result (self.new.signals ≡ self.old.signals) }
    {
        for piece in pieces {
            self.hear_piece(piece, tale)?;
        }
        Ok(())
    }

    /// A piece comes.
    fn hear_piece(&mut self, piece: &Piece<'_>, tale: &mut Tale) -> Result<(), NoMemory>
        ensures told { OnOk result (EachEar self.old (λ ear. EachCounted self.old
            (λ before. Hears ear (piece_openings ear (first_mark ear.usual (marks_left self.old))
            before (piece_of piece.now)) self.old self.new tale.old tale.new))) }
        ensures counted { OnOk result (EachCounted self.old (λ before.
            self.new.image.octets ≡ octets_counted (piece_of piece.now ∷ before))) }
        ensures marks { OnOk result (marks_left self.new
            ≡ marks_after (piece_of piece.now) (marks_left self.old)) }
        ensures signals { OnOk result (self.new.signals ≡ self.old.signals) }
    {
        match piece {
            Piece::Frame(octets) => self.hear_frame(octets.as_slice(), tale),
            Piece::Start(kind) => self.begin_image(*kind, tale),
            Piece::Octets(octets) => self.image.feed(octets),
            Piece::End { whole } => self.end_image(*whole, tale),
            Piece::Gap => Ok(()),
        }
    }

    /// What the next piece was taken as.
    fn next_mark(&mut self) -> Mark
        ensures mark { result ≡ first_mark self.old.usual (marks_left self.old) }
        ensures marks { marks_left self.new ≡ drop 1 (marks_left self.old) }
        ensures left { self.new ≡ record self.old { taken = self.new.taken } }
    {
        if self.taken < self.marks.len() {
            let mark = self.marks[self.taken];
            self.taken += 1;
            mark
        } else {
            self.usual
        }
    }

    /// A frame comes, and what it was taken as is told.
    fn hear_frame(&mut self, octets: &[u8], tale: &mut Tale) -> Result<(), NoMemory>
        ensures told { OnOk result (EachEar self.old
            (λ ear. Hears ear (frame_opening (first_mark ear.usual (marks_left self.old))
            ear.lane octets.now ∷ []) self.old self.new tale.old tale.new)) }
        ensures marks { OnOk result (marks_left self.new ≡ drop 1 (marks_left self.old)) }
        ensures stays { OnOk result (Stays self.old self.new) }
    {
        let mark = self.next_mark();
        let frame = Frame::read(octets);
        let mut words = self.words_of(octets)?;
        words.push_str(words_of_taking(mark, self.lane, frame))?;
        self.tell(words.as_str(), tale)?;
        self.take(frame, mark.passed)
    }

    /// What a frame says. A DIS like the one before is not told again.
    fn words_of(&mut self, octets: &[u8]) -> Result<String, NoMemory>
        ensures words { IfOk result (λ words.
            string_bytes words ≡ words_after self.old.dis octets.now (frame_of octets.now)) }
        ensures dis { self.new
            ≡ record self.old { dis = dis_after self.old.dis (frame_of octets.now) } }
    {
        let Some(Frame::Dis(dis)) = Frame::read(octets) else {
            return words_of_frame(self.alloc, octets);
        };
        let last = self.dis;
        self.dis = Some(dis);
        if last == Some(dis) {
            Ok(String::from_str(self.alloc, "DIS as before")?)
        } else {
            words_of_frame(self.alloc, octets)
        }
    }

    /// A frame is kept that was not passed over.
    fn take(&mut self, frame: Option<Frame>, passed: Passed) -> Result<(), NoMemory>
        ensures { self.new ≡ record self.old { frames = self.new.frames } }
    {
        if let (Some(frame), Passed::Heard) = (frame, passed) {
            self.frames.push(frame)?;
        }
        Ok(())
    }

    /// An image begins, by this type of data.
    fn begin_image(&mut self, kind: u8, tale: &mut Tale) -> Result<(), NoMemory>
        ensures told { OnOk result (EachEar self.old
            (λ ear. Hears ear (start_opening (first_mark ear.usual (marks_left self.old)) kind
            ∷ []) self.old self.new tale.old tale.new)) }
        ensures marks { OnOk result (marks_left self.new ≡ drop 1 (marks_left self.old)) }
        ensures octets { self.new.image.octets ≡ 0 }
        ensures signals { self.new.signals ≡ self.old.signals }
    {
        let signal = self.next_mark().signal;
        self.image = Image::new(self.alloc, page_of(signal));
        let signal = name_of_signal(signal);
        let name = name_of_kind(kind);
        let words = format!(in self.alloc; "{signal} begins, {name}")?;
        self.tell(words.as_str(), tale)
    }

    /// The image under way ends.
    fn end_image(&mut self, whole: bool, tale: &mut Tale) -> Result<(), NoMemory>
        ensures told { OnOk result (EachEar self.old (λ ear. Hears ear (end_opening (first_mark
            ear.usual (marks_left self.old)) ear.lane ear.is_outside self.old.image.octets whole
            ∷ []) self.old self.new tale.old tale.new)) }
        ensures marks { OnOk result (marks_left self.new ≡ drop 1 (marks_left self.old)) }
        ensures stays { OnOk result (Stays self.old self.new) }
    {
        let words = self.words_of_end(whole)?;
        self.tell(words.as_str(), tale)
    }

    /// What the image under way was.
    fn words_of_end(&mut self, whole: bool) -> Result<String, NoMemory>
        ensures words { IfOk result
            (λ words. StartsWith (marked_end (first_mark self.old.usual (marks_left self.old))
            self.old.lane self.old.is_outside self.old.image.octets whole) (string_bytes words)) }
        ensures marks { marks_left self.new ≡ drop 1 (marks_left self.old) }
        ensures lane { self.new.lane ≡ self.old.lane }
        ensures outside { self.new.is_outside ≡ self.old.is_outside }
        ensures usual { self.new.usual ≡ self.old.usual }
        ensures receiver { self.new.receiver ≡ self.old.receiver }
        ensures stays { Stays self.old self.new }
    {
        let mark = self.next_mark();
        let octets = self.image.octets();
        match mark.signal {
            Signal::Check(dcs) => self.words_of_check(whole, dcs, whole && mark.is_good),
            Signal::Page(_) => {
                let meaning = self.end_page()?;
                self.words_of_image(whole, meaning.as_str())
            }
            Signal::Late => self.words_of_image(whole, "not read, since no DCS came after EOM"),
            signal => {
                let why = why_strange(signal, self.is_outside);
                Ok(format!(in self.alloc; "a signal of {octets} octets{why}")?)
            }
        }
    }

    /// An image, and what it means.
    fn words_of_image(&self, whole: bool, meaning: &str) -> Result<String, NoMemory>
        ensures { IfOk result
            (λ words. StartsWith (image_text self.now.image.octets whole) (string_bytes words)) }
    {
        let octets = self.image.octets();
        let wholeness = self.image.wholeness(whole)?;
        Ok(format!(in self.alloc; "image of {octets} octets, {wholeness}: {meaning}")?)
    }

    /// What a training check was. One of the caller's is answered by CFR or FTT: a quarter of a second of zeros at least is
    /// wanted, and that it is whole, and nothing missing since the DCS.
    fn words_of_check(&self, whole: bool, dcs: Dcs, is_good: bool) -> Result<String, NoMemory>
        ensures { IfOk result (λ words.
            StartsWith (check_text (is_judged self.now.lane) is_good) (string_bytes words)) }
    {
        let longest = self.image.longest();
        if !is_judged(self.lane) {
            return Ok(format!(in self.alloc; "training check, {longest} zero octets in a row")?);
        }
        let wanted = dcs.rate.bits() / 8;
        let wholeness = self.image.wholeness(whole)?;
        let verdict = verdict_of(is_good);
        let after = if whole && !is_good && longest >= u64::from(wanted) {
            ", something missing since the DCS"
        } else {
            ""
        };
        Ok(format!(in self.alloc;
            "training check {verdict}: {longest} zero octets in a row of {wanted} wanted, {wholeness}{after}"
        )?)
    }

    /// An image ends that is a page, or should be. It answers what it means.
    fn end_page(&mut self) -> Result<String, NoMemory>
        ensures left { self.new ≡ record self.old { image = self.new.image; page = self.new.page } }
        ensures octets { self.new.image.octets ≡ self.old.image.octets }
    {
        match self.image.finish() {
            Some(Ok(page)) => {
                let rows = page.rows().len();
                self.page = Some(page);
                Ok(format!(in self.alloc; "a page, rows: {rows}")?)
            }
            Some(Err(fault)) => {
                let fault = words_of_fault(self.alloc, fault)?;
                Ok(format!(in self.alloc; "no page, {fault}")?)
            }
            None => Ok(String::from_str(self.alloc, "no page, it began before CFR")?),
        }
    }
}

/// What a signal is called.
fn name_of_signal(signal: Signal) -> &'static str
    ensures { result.now ≡ signal_name signal }
{
    match signal {
        Signal::Strange | Signal::Unasked | Signal::Outside | Signal::Ending => "a signal",
        Signal::Check(_) => "training check",
        Signal::Page(_) | Signal::Late => "image",
    }
}

/// The DCS under which a signal is read as a page, where it is.
fn page_of(signal: Signal) -> Option<Dcs>
    ensures { result ≡ page_dcs signal }
{
    match signal {
        Signal::Page(dcs) => Some(dcs),
        _ => None,
    }
}

/// Whether the gateway judges what comes on this way: the training checks of the caller.
fn is_judged(lane: Lane) -> bool
    ensures { result ≡ is_judged lane }
{
    matches!(lane, Lane::FromCaller)
}

/// What a training check was.
fn verdict_of(is_good: bool) -> &'static str
    ensures { result.now ≡ verdict_name is_good }
{
    if is_good { "good" } else { "bad" }
}

/// Why a signal is passed over, after its words. Where no call is on, each line says that.
fn why_strange(signal: Signal, is_outside: bool) -> &'static str
    ensures { result.now ≡ strange_text signal is_outside }
{
    match signal {
        Signal::Outside => ", passed over: no call is on",
        Signal::Ending => ", passed over while the gateway sends",
        Signal::Unasked => ", passed over: it answers nothing",
        _ if is_outside => "",
        _ => ", passed over: no DCS is before it, or FTT answered it",
    }
}

/// What a frame was taken as that came on this way, after its words: why it is passed over, or that a training goes out again. A frame
/// that is heard in no state of a call is passed over without a word.
fn words_of_taking(mark: Mark, lane: Lane, frame: Option<Frame>) -> &'static str
    ensures { result.now ≡ taken_text mark lane frame }
{
    let Some(frame) = frame else {
        return "";
    };
    match mark.passed {
        Passed::Heard => words_of_training(mark.trains_again, frame),
        Passed::Outside => ", passed over: no call is on",
        Passed::Sending if is_heard(frame) => ", passed over while the gateway sends",
        Passed::Unasked if is_heard(frame) => why_unasked(lane, frame),
        Passed::Sending | Passed::Unasked => "",
    }
}

/// That a training goes out again, where it does for a DIS.
fn words_of_training(trains_again: bool, frame: Frame) -> &'static str
    ensures { result.now ≡ training_text trains_again frame }
{
    match frame {
        Frame::Dis(_) if trains_again => ", and no answer: the training goes out again",
        _ => "",
    }
}

/// Why a frame is passed over of which nothing is awaited.
fn why_unasked(lane: Lane, frame: Frame) -> &'static str
    ensures { result.now ≡ unasked_text lane frame }
{
    if lane != Lane::FromCaller {
        return ", passed over: it answers nothing";
    }
    if is_command(frame) {
        ", passed over: no page is due"
    } else {
        ", passed over: it is no command"
    }
}

/// The fault of a page, as `faxgate page` tells it.
fn words_of_fault(alloc: Global, fault: PageFault) -> Result<String, NoMemory>
    ensures { IfOk result (λ words. string_bytes words ++ 10 ∷ [] ≡ page_fault_line fault) }
{
    let words = match fault {
        PageFault::NoEol => "fault 1 NoEol",
        PageFault::BadLine(number) => return Ok(format!(in alloc; "fault 2 BadLine {number}")?),
        PageFault::NoRtc => "fault 3 NoRtc",
        PageFault::Empty => "fault 4 Empty",
        PageFault::TooManyRows => "fault 5 TooManyRows",
        PageFault::NoMemory => return Err(NoMemory),
    };
    Ok(String::from_str(alloc, words)?)
}

/// Whether a frame is a command after a page.
fn is_command(frame: Frame) -> bool
    ensures { result ≡ is_command frame }
{
    matches!(frame, Frame::Mps | Frame::Eom | Frame::Eop)
}

/// Whether a frame is one that is heard in some state of a call.
fn is_heard(frame: Frame) -> bool
    ensures { result ≡ is_heard frame }
{
    !matches!(
        frame,
        Frame::Csi | Frame::Nsf | Frame::Tsi | Frame::Crp | Frame::Other
    )
}

/// The tone that a packet tells, where it tells one.
fn tone_of(head: Head) -> Option<Indicator>
    ensures { result ≡ tone_at head }
{
    match head {
        Head::Indicator(code) => Indicator::from_code(code),
        Head::Message { .. } => None,
    }
}
