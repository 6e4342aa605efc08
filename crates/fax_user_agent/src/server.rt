//! The server transactions, each with its key and its last answer.
use fax_sip::Key;
use fax_transactions::Serving;
use std::alloc::{AllocError, Global};
use std::net::SocketAddr;

/// A server transaction.
pub(crate) struct Server {
    /// Its number: no other has it.
    pub name: u64,
    pub branch: Vec<u8>,
    pub sent_by: Vec<u8>,
    pub method: Vec<u8>,
    pub serving: Serving,
    /// Where its answers go.
    pub to: SocketAddr,
}

impl Drop for Server {
    fn drop(self) {
        let Server {
            name: _name,
            branch: _branch,
            sent_by: _sent_by,
            method: _method,
            serving: _serving,
            to: _to,
        } = self;
    }
}

impl Server {
    /// The transaction of a request with this key.
    pub fn new(
        alloc: Global,
        name: u64,
        key: &Key<'_>,
        serving: Serving,
        to: SocketAddr,
    ) -> Result<Self, AllocError> {
        let branch = Vec::from_slice(alloc, key.branch)?;
        let sent_by = Vec::from_slice(alloc, key.sent_by)?;
        let method = Vec::from_slice(alloc, key.method)?;
        Ok(Server {
            name,
            branch,
            sent_by,
            method,
            serving,
            to,
        })
    }

    /// Whether a request with this key belongs to it.
    pub fn takes(&self, request: &Key<'_>) -> bool {
        let key = Key {
            branch: self.branch.as_slice(),
            sent_by: self.sent_by.as_slice(),
            method: self.method.as_slice(),
        };
        key.takes(request)
    }
}
