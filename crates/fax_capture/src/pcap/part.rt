//! Which part of a datagram of IP a packet carries.
ghost use Rattle.std.specs.Prelude.{◌≡◌};
ghost use Rattle.fax_capture.specs.pcap.Frames.{fault_of_part, fragments_of};

use crate::pcap::frame::FrameFault;

/// A part of a datagram of IP: the number that its fragments share, its place, which counts eight octets each, and whether more
/// fragments follow.
#[derive(Clone, Copy, PartialEq, Eq)]
pub(crate) struct Part {
    pub number: u32,
    pub place: u16,
    pub is_followed: bool,
}

impl Part {
    /// The number of the fragments of which it is the first, where there are more.
    pub fn fragments(self) -> Option<u32>
        ensures { result ≡ fragments_of self }
    {
        if self.is_followed {
            Some(self.number)
        } else {
            None
        }
    }

    /// What it means that octets end inside a header of it.
    pub fn fault(self) -> FrameFault
        ensures { result ≡ fault_of_part self }
    {
        if self.place == 0 {
            FrameFault::Short
        } else {
            FrameFault::Other
        }
    }
}
