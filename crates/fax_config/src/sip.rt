//! What a configuration tells of SIP.
use fax_trunks::Network;
use std::net::SocketAddr;

/// The most trunks, and the most routes.
pub const MOST_TRUNKS: usize = 64;

pub const MOST_ROUTES: usize = 1_000;

/// The least and the most that a call waits from its INVITE to its answer, in seconds.
pub const LEAST_RING_SECONDS: u32 = 1;

pub const MOST_RING_SECONDS: u32 = 600;

/// The least and the most calls at a time that a trunk may have.
pub const LEAST_CALLS: u32 = 1;

pub const MOST_CALLS: u32 = 4_000;

/// The most octets that are cut off the front of a number.
pub const MOST_STRIP: u32 = 32;

/// What a call of ours offers first. Where it is refused by 488, the other is offered.
#[derive(Clone, Copy)]
pub enum CallWith {
    T38,
    Audio,
}

/// A trunk: who is called, and who may call from there.
pub struct TrunkConfig {
    pub name: String,
    /// Where requests are sent to.
    pub address: SocketAddr,
    /// Who may call beside that address.
    pub allow: Vec<Network>,
    /// As whom it is called and registered with.
    pub user: Option<String>,
    /// The file that has the password of that user in its first line.
    pub password_file: Option<String>,
    /// Whether that user is registered there.
    pub registers: bool,
    pub call_with: CallWith,
    /// The most calls at a time, 1 to 4,000.
    pub calls: u32,
}

impl Drop for TrunkConfig {
    fn drop(self) {
        let TrunkConfig {
            name: _name,
            address: _address,
            allow: _allow,
            user: _user,
            password_file: _password_file,
            registers: _registers,
            call_with: _call_with,
            calls: _calls,
        } = self;
    }
}

/// Numbers that begin with a prefix are placed over a trunk.
pub struct RouteConfig {
    /// An optional `+` and digits.
    pub prefix: String,
    /// The place of its trunk.
    pub trunk: usize,
    /// So many octets are cut off the front of a number, 0 to 32.
    pub strip: u8,
    /// What is put in front of the rest: an optional `+` and digits, or nothing.
    pub add: String,
}

impl Drop for RouteConfig {
    fn drop(self) {
        let RouteConfig {
            prefix: _prefix,
            trunk: _trunk,
            strip: _strip,
            add: _add,
        } = self;
    }
}

/// How SIP is spoken.
pub struct SipConfig {
    /// The address of SIP.
    pub local: SocketAddr,
    /// The address of all audio.
    pub audio: SocketAddr,
    /// How long a call of ours waits for its answer, 1 to 600 seconds.
    pub ring_seconds: u32,
    pub trunks: Vec<TrunkConfig>,
    pub routes: Vec<RouteConfig>,
}

impl Drop for SipConfig {
    fn drop(self) {
        let SipConfig {
            local: _local,
            audio: _audio,
            ring_seconds: _ring_seconds,
            trunks: _trunks,
            routes: _routes,
        } = self;
    }
}
