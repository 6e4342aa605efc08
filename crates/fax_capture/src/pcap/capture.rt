//! A capture, read record by record, as its octets come.
ghost use Rattle.std.specs.Prelude.{◌≡◌, ◌≢◌, ◌<◌, IfOk, IfErr, IfSome, OnErr, length};
ghost use Rattle.fax_capture.specs.pcap.Blocks.{block_shown};
ghost use Rattle.fax_capture.specs.pcap.Captures.{FailsAs, FailsBlock, ReadsAs, ReadsBlock, block_record, fault_of_end, head_record, packet_record, pcap_record, pcapng_record, read_of, record_at, section_record, untold_head};

use crate::pcap::fault::CaptureFault;
use crate::pcap::fields::{ByteOrder, read_16, read_32, split_front};
use crate::pcap::interface::{Interface, read_interface};
use crate::pcap::link::LinkType;
use crate::pcap::packet::{CapturedPacket, read_packet};
use crate::pcap::pcap::{PcapFile, read_pcap_packet, unit_of};
use crate::pcap::pcapng::{
    Block, read_block, read_enhanced, read_old_packet, read_section, read_simple,
};
use std::alloc::Global;
use std::marker::Model;

/// The type of the block that begins a section, the same in either byte order.
const SECTION: u32 = 0x0a0d_0d0a;

/// The types of the blocks that are read.
const INTERFACE: u32 = 1;

const OLD_PACKET: u32 = 2;

const SIMPLE_PACKET: u32 = 3;

const ENHANCED_PACKET: u32 = 6;

/// The form of a file.
#[derive(Clone, Copy, PartialEq, Eq)]
pub(crate) enum FileKind {
    /// Its head was not read.
    Unopened,
    Pcap(PcapFile),
    Pcapng,
}

/// What was told of a capture by the records that were read. Who reads keeps the octets: a record is read once they are all
/// there, so that a capture may have any size, and be cut into pieces in any way.
pub struct Capture {
    kind: FileKind,
    /// The byte order and the interfaces of the section that is read.
    order: ByteOrder,
    interfaces: Vec<Interface>,
}

impl Drop for Capture {
    fn drop(self) {
        let Capture {
            kind: _kind,
            order: _order,
            interfaces: _interfaces,
        } = self;
    }
}

impl Model for Capture {
    ghost use Rattle.fax_capture.specs.pcap.Captures.{HeadValue};

    ghost Value = { HeadValue };

    ghost view = { λ c. record { kind = c.kind; order = c.order; interfaces = c.interfaces.items } };
}

/// A record that was read: the datagram that it has, or the fragment of one, where it has either; and the octets after it.
#[derive(Drop)]
pub struct RecordRead<'a> {
    pub found: Option<CapturedPacket<'a>>,
    pub after: &'a [u8],
}

impl Capture {
    /// A capture of which nothing was read. It takes no memory.
    pub fn new(alloc: Global) -> Self
        ensures { result ≡ untold_head }
    {
        Capture {
            kind: FileKind::Unopened,
            order: ByteOrder::Big,
            interfaces: Vec::new(alloc),
        }
    }

    /// Reads the record at the front of octets that follow those that were read: the head of pcap in either byte order, with
    /// microseconds or nanoseconds, or of pcapng; a packet; a block. `None` says that the octets end inside the record: with
    /// more of them it is read. It and an `Err` change nothing: `NoCapture` says that the octets begin as no capture does,
    /// `Snapped` that a packet was captured up to a place inside its headers, and `Damaged` that a record contradicts itself or
    /// has more than 16,777,216 octets. It takes memory for what pcapng describes of an interface.
    pub fn read_record<'a>(
        &mut self,
        octets: &'a [u8],
    ) -> Result<Option<RecordRead<'a>>, CaptureFault>
        ensures ok { IfOk result (λ read. IfSome read
            (λ r. ReadsAs (record_at self.old octets.now) r.found self.new r.after.now)) }
        ensures more { IfOk result (λ read. read ≡ None
            → read_of (record_at self.old octets.now) ≡ Err CaptureFault.Cut) }
        ensures unread { IfOk result (λ read. read ≡ None → self.new ≡ self.old) }
        ensures err { IfErr result (λ e. FailsAs (record_at self.old octets.now) e) }
        ensures uncut { result ≢ Err CaptureFault.Cut }
        ensures same { OnErr result (self.new ≡ self.old) }
        ensures shorter { IfOk result
            (λ read. IfSome read (λ r. length r.after.now < length octets.now)) }
    {
        match self.read_whole(octets) {
            Ok(read) => Ok(Some(read)),
            Err(CaptureFault::Cut) => Ok(None),
            Err(fault) => Err(fault),
        }
    }

    /// What is wrong where the capture ends with these octets, inside a record, or before its head; None after a record.
    #[tactic(auto, unfolding(crate::specs::pcap::Captures::fault_of_end))]
    pub fn fault_at_end(&self, left: &[u8]) -> Option<CaptureFault>
        ensures { result ≡ fault_of_end self.now.kind left.now }
    {
        match self.kind {
            FileKind::Unopened if left.len() < 4 => Some(CaptureFault::NoCapture),
            FileKind::Unopened => Some(CaptureFault::Cut),
            FileKind::Pcap(_) | FileKind::Pcapng => {
                if left.is_empty() {
                    None
                } else {
                    Some(CaptureFault::Cut)
                }
            }
        }
    }

    /// Reads the record at the front of octets. `Cut` says that they end inside it.
    #[tactic(auto, unfolding(crate::specs::pcap::Captures::record_of_kind))]
    fn read_whole<'a>(&mut self, octets: &'a [u8]) -> Result<RecordRead<'a>, CaptureFault>
        ensures ok { IfOk result
            (λ r. ReadsAs (record_at self.old octets.now) r.found self.new r.after.now) }
        ensures err { IfErr result (λ e. FailsAs (record_at self.old octets.now) e) }
        ensures same { OnErr result (self.new ≡ self.old) }
        ensures shorter { IfOk result (λ r. length r.after.now < length octets.now) }
    {
        match self.kind {
            FileKind::Unopened => self.read_head(octets),
            FileKind::Pcap(file) => self.read_packet_of(file, octets),
            FileKind::Pcapng => self.read_pcapng(octets),
        }
    }

    /// Reads a packet of a pcap file.
    #[tactic(auto, unfolding(crate::specs::pcap::Captures::packet_record, crate::specs::pcap::Captures::read_of, crate::specs::pcap::Captures::read_of_record))]
    fn read_packet_of<'a>(
        &mut self,
        file: PcapFile,
        octets: &'a [u8],
    ) -> Result<RecordRead<'a>, CaptureFault>
        ensures ok { IfOk result
            (λ r. ReadsAs (packet_record self.old file octets.now) r.found self.new r.after.now) }
        ensures err { IfErr result (λ e. FailsAs (packet_record self.old file octets.now) e) }
        ensures same { self.new ≡ self.old }
        ensures shorter { IfOk result (λ r. length r.after.now < length octets.now) }
    {
        let (packet, after) = read_pcap_packet(file, octets)?;
        Ok(RecordRead {
            found: read_packet(&packet)?,
            after,
        })
    }

    /// Reads the head of a file.
    #[tactic(auto, unfolding(crate::specs::pcap::Captures::head_record, crate::specs::pcap::Captures::read_of, crate::specs::pcap::Fields::front_of))]
    fn read_head<'a>(&mut self, octets: &'a [u8]) -> Result<RecordRead<'a>, CaptureFault>
        ensures ok { IfOk result
            (λ r. ReadsAs (head_record octets.now) r.found self.new r.after.now) }
        ensures err { IfErr result (λ e. FailsAs (head_record octets.now) e) }
        ensures same { OnErr result (self.new ≡ self.old) }
        ensures shorter { IfOk result (λ r. length r.after.now < length octets.now) }
    {
        let (magic, _) = split_front(CaptureFault::Cut, 4, octets)?;
        let number = read_32(ByteOrder::Big, magic, 0);
        if number == SECTION {
            return self.begin_section(octets);
        }
        if let Some(unit) = unit_of(number) {
            return self.open_pcap(ByteOrder::Big, unit, octets);
        }
        match unit_of(read_32(ByteOrder::Little, magic, 0)) {
            Some(unit) => self.open_pcap(ByteOrder::Little, unit, octets),
            None => Err(CaptureFault::NoCapture),
        }
    }

    /// Reads the head of a section of pcapng, in which no interface is described so far.
    #[tactic(auto, unfolding(crate::specs::pcap::Captures::section_record, crate::specs::pcap::Captures::read_of, crate::specs::pcap::Captures::read_of_record))]
    fn begin_section<'a>(&mut self, octets: &'a [u8]) -> Result<RecordRead<'a>, CaptureFault>
        ensures ok { IfOk result
            (λ r. ReadsAs (section_record octets.now) r.found self.new r.after.now) }
        ensures err { IfErr result (λ e. FailsAs (section_record octets.now) e) }
        ensures same { OnErr result (self.new ≡ self.old) }
        ensures shorter { IfOk result (λ r. length r.after.now < length octets.now) }
    {
        let (order, after) = read_section(octets)?;
        self.kind = FileKind::Pcapng;
        self.order = order;
        self.interfaces.clear();
        Ok(RecordRead { found: None, after })
    }

    /// Reads the head of a pcap file, whose magic number told its byte order and the unit of fractions of a second.
    #[tactic(auto, unfolding(crate::specs::pcap::Captures::pcap_record, crate::specs::pcap::Captures::pcap_of, crate::specs::pcap::Captures::read_of, crate::specs::pcap::Captures::read_of_record, crate::specs::pcap::Fields::front_of))]
    fn open_pcap<'a>(
        &mut self,
        order: ByteOrder,
        unit: u16,
        octets: &'a [u8],
    ) -> Result<RecordRead<'a>, CaptureFault>
        ensures ok { IfOk result
            (λ r. ReadsAs (pcap_record order unit octets.now) r.found self.new r.after.now) }
        ensures err { IfErr result (λ e. FailsAs (pcap_record order unit octets.now) e) }
        ensures same { OnErr result (self.new ≡ self.old) }
        ensures shorter { IfOk result (λ r. length r.after.now < length octets.now) }
    {
        let (head, after) = split_front(CaptureFault::Cut, 24, octets)?;
        if read_16(order, head, 4) != 2 || read_16(order, head, 6) != 4 {
            return Err(CaptureFault::NoCapture);
        }
        // The link type has the low 16 bits of its field.
        let link = (read_32(order, head, 20) % 65_536) as u16;
        self.kind = FileKind::Pcap(PcapFile {
            order,
            link: LinkType::from_number(link),
            unit,
        });
        self.order = order;
        self.interfaces.clear();
        Ok(RecordRead { found: None, after })
    }

    /// Reads a record of pcapng: the head of a section, or a block of the section.
    #[tactic(auto, unfolding(crate::specs::pcap::Captures::pcapng_record, crate::specs::pcap::Captures::read_of, crate::specs::pcap::Fields::front_of))]
    fn read_pcapng<'a>(&mut self, octets: &'a [u8]) -> Result<RecordRead<'a>, CaptureFault>
        ensures ok { IfOk result
            (λ r. ReadsAs (pcapng_record self.old octets.now) r.found self.new r.after.now) }
        ensures err { IfErr result (λ e. FailsAs (pcapng_record self.old octets.now) e) }
        ensures same { OnErr result (self.new ≡ self.old) }
        ensures shorter { IfOk result (λ r. length r.after.now < length octets.now) }
    {
        let (kind, _) = split_front(CaptureFault::Cut, 4, octets)?;
        if read_32(ByteOrder::Big, kind, 0) == SECTION {
            return self.begin_section(octets);
        }
        let block = read_block(self.order, octets)?;
        let found = self.take_block(&block)?;
        Ok(RecordRead {
            found,
            after: block.after,
        })
    }

    /// Takes a block of the section: that of an interface, or one of a packet, or one that is passed over.
    #[tactic(auto, unfolding(crate::specs::pcap::Captures::block_record, crate::specs::pcap::Captures::read_of_record))]
    fn take_block<'a>(
        &mut self,
        block: &Block<'a>,
    ) -> Result<Option<CapturedPacket<'a>>, CaptureFault>
        ensures ok { IfOk result
            (λ found. ReadsBlock (block_record self.old (block_shown block.now)) found self.new) }
        ensures err { IfErr result
            (λ e. FailsBlock (block_record self.old (block_shown block.now)) e) }
        ensures same { OnErr result (self.new ≡ self.old) }
    {
        let found = match block.kind {
            INTERFACE => {
                let interface = read_interface(self.order, block.body)?;
                if self.interfaces.push(interface).is_err() {
                    return Err(CaptureFault::NoMemory);
                }
                None
            }
            OLD_PACKET => {
                let packet = read_old_packet(self.order, self.interfaces.as_slice(), block.body)?;
                read_packet(&packet)?
            }
            SIMPLE_PACKET => {
                let packet = read_simple(self.order, self.interfaces.as_slice(), block.body)?;
                read_packet(&packet)?
            }
            ENHANCED_PACKET => {
                let packet = read_enhanced(self.order, self.interfaces.as_slice(), block.body)?;
                read_packet(&packet)?
            }
            _ => None,
        };
        Ok(found)
    }
}
