//! Types of links.
ghost use Rattle.std.specs.Prelude.{◌≡◌};
ghost use Rattle.fax_capture.specs.pcap.Frames.{link_of};

/// What a packet was captured on, which tells how its octets begin.
#[derive(Clone, Copy, PartialEq, Eq)]
pub enum LinkType {
    Ethernet,
    /// What Linux captures on all interfaces, in its first form.
    LinuxCooked,
    /// The same, in its second form.
    LinuxCooked2,
    /// A loopback interface of BSD and its kin.
    Loopback,
    /// No header before that of IP.
    RawIp,
    /// Another one, whose packets are not read.
    Unread,
}

impl LinkType {
    /// The link type of a number of the registry.
    #[tactic(auto, unfolding(crate::specs::pcap::Frames::link_of))]
    pub(crate) fn from_number(number: u16) -> Self
        ensures { result ≡ link_of number }
    {
        match number {
            1 => LinkType::Ethernet,
            113 => LinkType::LinuxCooked,
            276 => LinkType::LinuxCooked2,
            0 | 108 => LinkType::Loopback,
            12 | 14 | 101 | 228 | 229 => LinkType::RawIp,
            _ => LinkType::Unread,
        }
    }
}
