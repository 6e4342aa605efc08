//! Captures of networks: the UDP datagrams in pcap and pcapng files, and their fragments, whatever the size of a file, and however
//! its octets come. Every octet is read safely, and memory is taken only for what pcapng describes of an interface.

mod capture;
mod datagram;
mod fault;
mod fields;
mod found;
mod fragment;
mod frame;
mod interface;
mod ip;
mod link;
mod packet;
mod part;
mod pcap;
mod pcapng;

pub use capture::{Capture, RecordRead};
pub use datagram::{Datagram, Endpoint};
pub use fault::CaptureFault;
pub use found::Found;
pub use fragment::Fragment;
pub use packet::CapturedPacket;
