//! What a configuration tells.
use crate::sip::SipConfig;
use std::net::SocketAddr;

/// The most lines of a configuration.
pub const MOST_LINES: usize = 4000;

/// The most octets of a line's name.
pub const MOST_NAME_OCTETS: usize = 64;

/// The least and the most that is waited for an answer where the call of a job is asked for, in seconds.
pub const LEAST_DIAL_SECONDS: u32 = 1;

pub const MOST_DIAL_SECONDS: u32 = 3_600;

/// The least, the usual and the most octets that a line may hold of pages: 1 MiB, 16 MiB and 1 GiB.
pub const LEAST_LINE_MEMORY: u32 = 1_048_576;

pub const USUAL_LINE_MEMORY: u32 = 16_777_216;

pub const MOST_LINE_MEMORY: u32 = 1_073_741_824;

/// The least and the most octets that all lines together may hold of pages: 16 MiB and 1 TiB.
pub const LEAST_MEMORY: u64 = 16_777_216;

pub const MOST_MEMORY: u64 = 1_099_511_627_776;

/// The least, and the usual and the most pages that may wait on a line.
pub const LEAST_WAITING: u32 = 1;

pub const MOST_WAITING: u32 = 1_000_000;

/// The longest stop, in seconds: a day.
pub const MOST_STOP_SECONDS: u32 = 86_400;

/// The most times at which a job that could not be delivered is tried again.
pub const MOST_RETRIES: usize = 16;

/// The least and the most that it waits for one of them, in seconds: a second, and a week.
pub const LEAST_RETRY_SECONDS: u32 = 1;

pub const MOST_RETRY_SECONDS: u32 = 604_800;

/// Which datagrams are sent again.
#[derive(Clone, Copy, PartialEq, Eq)]
pub enum Repeat {
    /// Each once again, and the last one of a leg five times after that.
    Full,
    /// The last one of a leg, once.
    Last,
    /// None.
    None,
}

/// A leg: where its datagrams come to, and where its peer is, if that is known.
#[derive(Clone, Copy, PartialEq, Eq)]
pub struct LegConfig {
    pub local: SocketAddr,
    pub peer: Option<SocketAddr>,
}

/// A line.
#[derive(PartialEq, Eq)]
pub struct LineConfig {
    pub name: String,
    pub calling: LegConfig,
    pub called: LegConfig,
    /// How many earlier packets a datagram repeats, 0 to 8.
    pub redundancy: u16,
    /// How long the packet after a preamble waits, 40 to 2,000 milliseconds.
    pub preamble_ms: u16,
    pub repeat: Repeat,
    /// How long an answer is waited for where the call of a job is asked for, 1 to 3,600 seconds.
    pub dial_seconds: u32,
    /// How many octets its call and its jobs may hold of pages, 1,048,576 to 1,073,741,824.
    pub line_memory: u32,
    /// While so many pages of it wait, or more, it takes no call: 1 to 1,000,000.
    pub most_waiting: u32,
}

impl Drop for LineConfig {
    fn drop(self) {
        let LineConfig {
            name: _name,
            calling: _calling,
            called: _called,
            redundancy: _redundancy,
            preamble_ms: _preamble_ms,
            repeat: _repeat,
            dial_seconds: _dial_seconds,
            line_memory: _line_memory,
            most_waiting: _most_waiting,
        } = self;
    }
}

/// A redial line: a line without a calling leg, over which jobs that could not be delivered are tried again.
pub struct RedialConfig {
    pub name: String,
    pub called: LegConfig,
}

impl Drop for RedialConfig {
    fn drop(self) {
        let RedialConfig {
            name: _name,
            called: _called,
        } = self;
    }
}

/// When a job that could not be delivered is tried again.
pub struct RetryConfig {
    /// How long after its end, for each time in turn: at most 16, each 1 to 604,800 seconds.
    pub after_seconds: Vec<u32>,
}

impl Drop for RetryConfig {
    fn drop(self) {
        let RetryConfig {
            after_seconds: _after_seconds,
        } = self;
    }
}

/// A configuration.
pub struct Config {
    /// The path of the control socket.
    pub control: Option<String>,
    /// The folder of the pages that wait.
    pub spool: Option<String>,
    /// The address at which it is looked at over HTTP.
    pub http: Option<SocketAddr>,
    /// How long a stop waits for calls and jobs, in seconds.
    pub stop_seconds: u32,
    /// How many octets all lines together may hold of pages, 16,777,216 to 1,099,511,627,776. `None`: as many as each for itself.
    pub memory: Option<u64>,
    pub lines: Vec<LineConfig>,
    pub retry: RetryConfig,
    pub redial: Vec<RedialConfig>,
    /// How SIP is spoken, where it is.
    pub sip: Option<SipConfig>,
}

impl Drop for Config {
    fn drop(self) {
        let Config {
            control: _control,
            spool: _spool,
            http: _http,
            stop_seconds: _stop_seconds,
            memory: _memory,
            lines: _lines,
            retry: _retry,
            redial: _redial,
            sip: _sip,
        } = self;
    }
}
