//! How many descriptors of the system a server wants, and how many it can have.
ghost use Rattle.std.specs.Prelude.{◌≡◌, ◌≤◌, length};
ghost use Rattle.fax_program.specs.Descriptors.{most_descriptors};

use fax_clients::MOST_CLIENTS;
use fax_config::Config;
use fax_http::visitors::MOST_VISITORS;
use libc::types::rlimit;
use libc::{RLIMIT_NOFILE, getrlimit};

/// What is open whatever is served: the standard streams, what the sockets are waited for by, and one that is let go as another one
/// comes.
const ALWAYS_OPEN: usize = 5;

/// The files of a spool, and those of what could not be delivered.
const SPOOL_FILES: usize = 4;

/// The socket of SIP, and that of all audio.
const SIP_SOCKETS: usize = 2;

/// How many descriptors a server of this configuration has open at one time, at most.
pub fn most_descriptors(config: &Config) -> usize
    requires few { length config.now.lines.items ≤ 4000 }
    requires few_redials { length config.now.redial.items ≤ 4000 }
    ensures { result ≡ most_descriptors config.now }
{
    let mut most = 2 * config.lines.len() + config.redial.len() + ALWAYS_OPEN;
    if config.control.is_some() {
        most += 1 + MOST_CLIENTS;
    }
    if config.http.is_some() {
        most += 1 + MOST_VISITORS;
    }
    if config.spool.is_some() {
        most += SPOOL_FILES;
    }
    if config.sip.is_some() {
        most += SIP_SOCKETS;
    }
    most
}

/// How many descriptors this process can have open (getrlimit(2)). `None`: the system does not say it.
pub(crate) fn descriptor_limit() -> Option<u64> {
    let mut limit = rlimit {
        rlim_cur: 0,
        rlim_max: 0,
    };
    if getrlimit(RLIMIT_NOFILE, &mut limit) == 0 {
        Some(limit.rlim_cur)
    } else {
        None
    }
}
