//! The packets that wait.
ghost use Rattle.std.specs.Prelude.{◌≡◌, ◌≢◌, ◌≤◌, [], length, vec_capacity};
ghost use Rattle.fax_answer.specs.Pending.{frame_text, packet_text};
ghost use Rattle.fax_answer.specs.Replies.{is_preamble};

use fax_bits::Octets;
use fax_frames::{FrameBytes, OUR_DIS, Plain, write_dis, write_plain};
use fax_ifp::{Indicator, put_frame, put_indicator};

/// How many octets the longest packet of the answerer has: that of our DIS.
pub(crate) const LONGEST: usize = 12;

/// A frame that the answerer gives.
#[derive(Clone, Copy, PartialEq, Eq)]
pub(crate) enum Reply {
    /// Our own DIS.
    Dis,
    /// A frame with no information field.
    Plain(Plain),
}

impl Reply {
    /// The octets of the frame.
    fn frame(self) -> FrameBytes
        ensures text { result.items ≡ frame_text self }
        ensures some { 1 ≤ length result.items }
        ensures few { length result.items ≤ 6 }
    {
        match self {
            Reply::Dis => write_dis(&OUR_DIS),
            Reply::Plain(plain) => write_plain(plain, false),
        }
    }
}

/// The packet that is given next. A frame stands after its preamble, and the DIS that answers a ring after the tone
/// of a called terminal.
#[derive(Clone, Copy, PartialEq, Eq)]
pub(crate) enum Pending {
    Nothing,
    Tone,
    Preamble(Reply),
    Frame(Reply),
}

impl Pending {
    /// Whether the packet that is given next is the preamble of a frame.
    pub fn is_preamble(self) -> bool
        ensures { result ≡ is_preamble (packet_text self) }
    {
        matches!(self, Pending::Preamble(_))
    }

    /// The packet that is given next, put into a list with room for any. It takes no memory.
    pub fn packet(self, mut octets: Vec<u8>) -> Octets
        requires some { self ≢ Pending.Nothing }
        requires empty { octets.items ≡ [] }
        requires enough { LONGEST ≤ vec_capacity octets }
        ensures { result ≡ packet_text self }
    {
        match self {
            Pending::Nothing => unreachable!(),
            Pending::Tone => put_indicator(&mut octets, Indicator::Ced.code()),
            Pending::Preamble(_) => put_indicator(&mut octets, Indicator::V21Preamble.code()),
            Pending::Frame(reply) => put_frame(&mut octets, reply.frame().as_slice()),
        }
        Octets::from_vec(octets)
    }
}
