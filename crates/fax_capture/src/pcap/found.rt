//! What is found in a packet.
ghost use Rattle.std.specs.Prelude.{◌≡◌};
ghost use Rattle.fax_capture.specs.pcap.Captures.{lacks_octets};

use crate::pcap::datagram::Datagram;
use crate::pcap::fragment::Fragment;

/// What is found in a packet.
#[derive(Drop)]
pub enum Found<'a> {
    /// A datagram, or what was captured of one, or what its first fragment has of it.
    Datagram(Datagram<'a>),
    /// A later fragment of one.
    Fragment(Fragment<'a>),
}

impl<'a> Found<'a> {
    /// Whether it is a datagram whose header counts more octets than there are.
    pub(crate) fn lacks_octets(&self) -> bool
        ensures { result ≡ lacks_octets self.now }
    {
        match self {
            Found::Datagram(datagram) => !datagram.is_whole && datagram.fragments.is_none(),
            Found::Fragment(_) => false,
        }
    }
}
