//! Why a server does not begin, or does not go on.
use fax_bits::NoMemory;
use fax_control::Leg;
use fax_spool_folder::FolderFault;
use std::alloc::{AllocError, AllocFailed};
use std::net::SocketAddr;
use std::{fmt, io};

/// Why a server does not begin, or does not go on.
#[derive(Debug, Drop)]
pub enum ServeFault {
    /// A leg of the line of this name: its socket, or its peer.
    Leg(String, Leg, io::Error),
    /// The control socket.
    Control(io::Error),
    /// Another process serves on the control socket.
    Served,
    /// The address at which it is to be looked at over HTTP.
    Http(SocketAddr, io::Error),
    /// The address of SIP, or that of audio.
    Sip(SocketAddr, io::Error),
    /// The file of the password of the trunk of this name.
    Password(String, io::Error),
    /// A route that is none.
    Route,
    /// The system gives nothing random.
    Random(io::Error),
    /// The clock.
    Clock(io::Error),
    /// The folder of the spool.
    Spool(FolderFault),
    NoMemory,
}

/// Prints one line, without a line feed.
impl fmt::Display for ServeFault {
    fn fmt<W: fmt::Write>(&self, f: &mut fmt::Formatter<W>) -> fmt::Result {
        match self {
            ServeFault::Leg(name, leg, error) => {
                let leg = leg.name();
                write!(f, "line {name:?}: {leg}: {error}")
            }
            ServeFault::Control(error) => write!(f, "control: {error}"),
            ServeFault::Served => write!(f, "control: another process serves there"),
            ServeFault::Http(address, error) => write!(f, "http: {address}: {error}"),
            ServeFault::Sip(address, error) => write!(f, "sip: {address}: {error}"),
            ServeFault::Password(name, error) => {
                write!(f, "trunk {name:?}: password_file: {error}")
            }
            ServeFault::Route => write!(f, "routes: one is no route"),
            ServeFault::Random(error) => write!(f, "nothing random: {error}"),
            ServeFault::Clock(error) => write!(f, "no clock: {error}"),
            ServeFault::Spool(fault) => write!(f, "spool: {fault}"),
            ServeFault::NoMemory => write!(f, "memory was refused"),
        }
    }
}

impl From<FolderFault> for ServeFault {
    fn from(fault: FolderFault) -> Self {
        match fault {
            FolderFault::NoMemory => ServeFault::NoMemory,
            FolderFault::Busy | FolderFault::Io(_) | FolderFault::Foreign => ServeFault::Spool(
                fault,
            ),
        }
    }
}

impl From<NoMemory> for ServeFault {
    fn from(_: NoMemory) -> Self {
        ServeFault::NoMemory
    }
}

impl From<AllocError> for ServeFault {
    fn from(_: AllocError) -> Self {
        ServeFault::NoMemory
    }
}

impl<T: Drop> From<AllocFailed<T>> for ServeFault {
    fn from(_: AllocFailed<T>) -> Self {
        ServeFault::NoMemory
    }
}
