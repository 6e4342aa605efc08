//! What is to come out, in its order.
ghost use Rattle.std.specs.Prelude.{◌≡◌, []};
ghost use Rattle.fax_user_agent.specs.Agents.{Extends};

use crate::out::{Count, Datagram, Told};
use std::alloc::{AllocError, Global};
use std::net::SocketAddr;

/// What is to come out, in its order.
pub(crate) struct Outbox {
    pub datagrams: Vec<Datagram>,
    pub told: Vec<Told>,
}

impl Drop for Outbox {
    fn drop(self) {
        let Outbox {
            datagrams: _datagrams,
            told: _told,
        } = self;
    }
}

impl Outbox {
    /// Nothing.
    pub fn new(alloc: Global) -> Self
        ensures datagrams { result.datagrams.items ≡ [] }
        ensures told { result.told.items ≡ [] }
    {
        Outbox {
            datagrams: Vec::new(alloc),
            told: Vec::new(alloc),
        }
    }

    /// A copy of these octets is to be sent.
    pub fn send(&mut self, alloc: Global, to: SocketAddr, octets: &[u8]) -> Result<(), AllocError> {
        let octets = Vec::from_slice(alloc, octets)?;
        self.datagrams.push(Datagram { to, octets })?;
        Ok(())
    }

    /// All that is to come out of another is taken over, after what is here.
    pub fn append(&mut self, other: &mut Outbox) -> Result<(), AllocError>
        ensures datagrams { Extends self.old.datagrams.items self.new.datagrams.items }
        ensures told { Extends self.old.told.items self.new.told.items }
    {
        self.datagrams.append(&mut other.datagrams)?;
        self.told.append(&mut other.told)
    }
}

/// Counts an answer with this status: one that was sent, or one that came.
pub(crate) fn count(counts: &mut Vec<Count>, status: u16, is_sent: bool) {
    for count in counts.iter_mut() {
        if count.status == status {
            if is_sent {
                count.sent = count.sent.saturating_add(1);
            } else {
                count.came = count.came.saturating_add(1);
            }
            return;
        }
    }
    let _ = counts.push(Count {
        status,
        sent: u64::from(is_sent),
        came: u64::from(!is_sent),
    });
}
