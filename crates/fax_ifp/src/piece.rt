//! Slots of a call, and the pieces that they give.
ghost use Rattle.std.specs.Prelude.{◌≡◌, []};

use fax_frames::FrameBytes;
use smallvec::SmallVec;
use std::alloc::Global;
use std::default::MadeWith;
use std::marker::Model;

/// The place of one packet of a call (ITU-T T.38).
#[derive(Clone, Copy)]
pub enum Slot<'a> {
    /// The packet is lost.
    Lost,
    /// The packet's octets.
    Packet(&'a [u8]),
}

/// A piece of a call.
#[derive(Drop)]
pub enum Piece<'a> {
    /// A frame whose check sequence is right, of 1 to 256 octets.
    Frame(FrameBytes),
    /// A training indicator, at which an image begins, with the data type of its octets.
    Start(u8),
    /// Octets of the image, one at least, lent by the packet.
    Octets(&'a [u8]),
    /// The end of an image that has an octet. It is whole where nothing is missing in it and no other
    /// field stands in it.
    End { whole: bool },
    /// Something is missing here.
    Gap,
}

impl<'a> MadeWith<Global> for Piece<'a> {
    fn made_with(_alloc: Global) -> Piece<'a> {
        Piece::Gap
    }
}

/// Pieces in a list that grows. Five of them take no memory: one of each of four fields, and an image's end.
pub(crate) type PieceList<'a> = SmallVec<Piece<'a>, 5>;

/// The pieces of a slot, in the order of time. It keeps its room from one slot to the next.
#[derive(Drop)]
pub struct Pieces<'a> {
    pub(crate) list: PieceList<'a>,
}

impl<'a> Model for Pieces<'a> {
    ghost use Rattle.std.specs.Prelude.{List};
    ghost use Rattle.fax_ifp.specs.Pieces.{Piece as PieceShown};
    ghost use Rattle.fax_ifp.specs.Shown.{pieces_shown};

    ghost Value = { List PieceShown };

    ghost view = { λ p. pieces_shown p.list.items };
}

impl<'a> Pieces<'a> {
    ghost use Rattle.fax_ifp.specs.Shown.{pieces_shown};

    /// No pieces. It takes no memory.
    pub fn new(alloc: Global) -> Self
        ensures { result ≡ [] }
    {
        Pieces {
            list: SmallVec::new(alloc),
        }
    }

    /// The pieces in order.
    pub fn as_slice(&self) -> &[Piece<'a>]
        ensures { pieces_shown result.now ≡ self.now }
    {
        self.list.as_slice()
    }
}
