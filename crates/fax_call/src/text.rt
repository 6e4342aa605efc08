//! The text of a page, packet by packet.
ghost use Rattle.std.specs.Prelude.{ℕ, List, false, ◌≡◌, ◌<◌, ◌≤◌, drop, length, nat_le, IfOk, OnOk, OnErr};
ghost use Rattle.fax_pagestore.specs.Writers.{HasLeft, HasMore};
ghost use Rattle.fax_call.specs.Replies.{written, part_length};
ghost use Rattle.fax_call.specs.Rep.{text_part};
ghost use Rattle.fax_call.specs.Following.{HasTextLeft};
ghost use Rattle.fax_call.specs.Writings.{Writing, IsWriting};

use crate::pending::part_length;
use fax_bits::{NoMemory, Octets};
use fax_frames::Dcs;
use fax_ifp::put_image;
use fax_jobs::Job;
use fax_pagestore::{Page, PageWriter, RowStore};
use std::alloc::Global;

/// A packet of the text of a page.
#[derive(Drop)]
pub(crate) struct TextPacket {
    pub octets: Octets,
    /// Whether nothing is left of the text after it.
    pub is_last: bool,
}

/// How many octets a packet has more than the image's own.
const IMAGE_HEAD: usize = 5;

/// A writer of the text of a page of a job, counted from 0, under a DCS: in its coding, with its least bits of a line. It
/// takes no memory.
pub(crate) fn writer_of<S: RowStore>(alloc: Global, job: &Job<S>, page: u32, dcs: Dcs) -> PageWriter
    requires { page < length job.now.pages }
    ensures left { (writes : Writing)
        → IsWriting writes → HasTextLeft writes job.now page dcs 0 result }
    ensures more { HasMore result }
{
    let format = job.pages().as_slice()[page as usize].format();
    PageWriter::new(alloc, format, dcs.coding(), dcs.least_bits())
}

/// The next packet of the text of a page that is given under a DCS. Its memory is taken before the writer moves on, so that
/// an `Err` changes nothing.
pub(crate) fn text_packet<S: RowStore>(
    alloc: Global,
    writer: &mut PageWriter,
    page: &Page<S>,
    dcs: Dcs,
) -> Result<TextPacket, NoMemory>
    requires { HasMore writer.old }
    ensures packet { IfOk result (λ packet. (left : List ℕ)
        → HasLeft page.now left writer.old → packet.octets ≡ written (text_part dcs left)) }
    ensures last { IfOk result (λ packet. (left : List ℕ) → HasLeft page.now left writer.old
        → packet.is_last ≡ nat_le (length left) (part_length dcs)) }
    ensures left { OnOk result ((left : List ℕ) → HasLeft page.now left writer.old
        → HasLeft page.now (drop (part_length dcs) left) writer.new) }
    ensures more { IfOk result (λ packet. packet.is_last ≡ false → HasMore writer.new) }
    ensures short { IfOk result (λ packet. length packet.octets ≤ 100) }
    ensures err { OnErr result (writer.new ≡ writer.old) }
{
    let part = usize::from(part_length(dcs));
    let mut packet = Vec::with_capacity(alloc, IMAGE_HEAD + part)?;
    let octets = writer.next(page, part)?;
    let is_last = writer.ended();
    put_image(&mut packet, dcs.rate.kind(), is_last, octets.as_slice());
    Ok(TextPacket {
        octets: Octets::from_vec(packet),
        is_last,
    })
}
