//! What all calls share: transactions, what is random, what is to come out.
use crate::call::CallState;
use crate::client::{Client, Machine, Purpose};
use crate::lane::Lane;
use crate::out::{Count, Progress, Told};
use crate::outbox::{Outbox, count};
use crate::profile::Profile;
use crate::random::Random;
use crate::server::Server;
use fax_requests::{Branch, reason_of};
use fax_sip::{Field, Key, Message, Reply, WriteFault, write_answer};
use fax_transactions::{ClientInvite, ClientRequest, ServerAction, Serving};
use std::alloc::{AllocError, Global};
use std::net::SocketAddr;
use std::str;

/// The most transactions of either side. Requests beyond them are answered without one; ours are not sent.
pub(crate) const MOST_TRANSACTIONS: usize = 4_096;
/// How long their INVITE may wait for an answer, in milliseconds.
pub(crate) const ANSWER_MS: u64 = 64_000;

/// What all calls share.
pub(crate) struct Desk {
    pub alloc: Global,
    pub now: u64,
    pub random: Random,
    pub made: Outbox,
    pub counts: Vec<Count>,
    pub clients: Vec<Client>,
    pub servers: Vec<Server>,
    pub lanes: Vec<Lane>,
    /// The number of the next server transaction.
    pub next_server: u64,
    /// Whether calls are taken.
    pub is_open: bool,
}

impl Drop for Desk {
    fn drop(self) {
        let Desk {
            alloc: _alloc,
            now: _now,
            random: _random,
            made: _made,
            counts: _counts,
            clients: _clients,
            servers: _servers,
            lanes: _lanes,
            next_server: _next_server,
            is_open: _is_open,
        } = self;
    }
}

/// Octets that were written; none where a text may not stand in them.
pub(crate) fn written(octets: Result<Vec<u8>, WriteFault>) -> Result<Option<Vec<u8>>, AllocError> {
    match octets {
        Ok(octets) => Ok(Some(octets)),
        Err(WriteFault::NoMemory) => Err(AllocError),
        Err(_) => Ok(None),
    }
}

impl Desk {
    /// The octets of an answer to a request, with this tag of ours.
    pub fn answer_octets(
        &mut self,
        request: &Message<'_>,
        status: u16,
        tag: &[u8],
        fields: &[Field<'_>],
        body: &[u8],
    ) -> Result<Option<Vec<u8>>, AllocError> {
        let Ok(tag) = str::from_utf8(tag) else {
            return Ok(None);
        };
        count(&mut self.counts, status, true);
        let reply = Reply {
            status,
            reason: reason_of(status),
            tag,
            fields,
            body,
        };
        written(write_answer(self.alloc, request, &reply))
    }

    /// A server transaction more, where there is room: its number.
    pub fn serve(
        &mut self,
        key: &Key<'_>,
        serving: Serving,
        to: SocketAddr,
    ) -> Result<Option<u64>, AllocError> {
        if self.servers.len() >= MOST_TRANSACTIONS {
            return Ok(None);
        }
        let name = self.next_server;
        let server = Server::new(self.alloc, name, key, serving, to)?;
        self.servers.push(server)?;
        self.next_server = self.next_server.wrapping_add(1);
        Ok(Some(name))
    }

    /// The place of the server transaction that takes a request.
    pub fn server_of(&self, key: &Key<'_>) -> Option<usize> {
        self.servers.iter().position(|server| server.takes(key))
    }

    /// The server transaction of this number answers with these octets; where it is gone they are sent all the same.
    pub fn answer_as(
        &mut self,
        name: u64,
        to: SocketAddr,
        status: u16,
        octets: Vec<u8>,
    ) -> Result<(), AllocError> {
        let now = self.now;
        for server in self.servers.iter_mut() {
            if server.name == name {
                let copy = Vec::from_slice(self.alloc, octets.as_slice())?;
                if server.serving.answer(now, status, copy) == ServerAction::Send {
                    self.made.send(self.alloc, to, octets.as_slice())?;
                }
                return Ok(());
            }
        }
        self.made.send(self.alloc, to, octets.as_slice())
    }

    /// A request is answered at once, by a transaction of its own.
    pub fn answer_now(
        &mut self,
        request: &Message<'_>,
        key: &Key<'_>,
        to: SocketAddr,
        status: u16,
        fields: &[Field<'_>],
    ) -> Result<(), AllocError> {
        let tag = self.random.token();
        let octets = self.answer_octets(request, status, tag.as_slice(), fields, b"")?;
        let Some(octets) = octets else {
            return Ok(());
        };
        let limit = self.now.saturating_add(ANSWER_MS);
        let serving = if key.method == b"INVITE".as_slice() {
            Serving::of_invite(limit, Vec::new(self.alloc))
        } else {
            Serving::of_request(limit, self.alloc)
        };
        match self.serve(key, serving, to)? {
            Some(name) => self.answer_as(name, to, status, octets),
            None => self.made.send(self.alloc, to, octets.as_slice()),
        }
    }

    /// A request of ours is sent, in a transaction of its own. Not where there are too many.
    pub fn ask(
        &mut self,
        purpose: Purpose,
        machine: Machine,
        branch: Branch,
        to: SocketAddr,
        octets: Vec<u8>,
    ) -> Result<bool, AllocError> {
        if self.clients.len() >= MOST_TRANSACTIONS {
            return Ok(false);
        }
        self.made.send(self.alloc, to, octets.as_slice())?;
        self.clients.push(Client {
            purpose,
            machine,
            branch,
            to,
            octets,
            ack: Vec::new(self.alloc),
            is_to_cancel: false,
        })?;
        Ok(true)
    }

    /// The machine of a request that is no INVITE.
    pub fn request_machine(&self) -> Machine {
        Machine::Request(ClientRequest::begin(self.now))
    }

    /// The machine of an INVITE, which is given up after as long as it may ring and be cancelled.
    pub fn invite_machine(&self, profile: &Profile) -> Machine {
        let limit = self
            .now
            .saturating_add(profile.ring_ms)
            .saturating_add(ANSWER_MS);
        Machine::Invite(ClientInvite::begin(self.now, limit))
    }

    /// The place of the client transaction that an answer belongs to.
    pub fn client_of(&self, key: &Key<'_>) -> Option<usize> {
        self.clients
            .iter()
            .position(|client| client.is_answered_by(key))
    }

    /// Something of a call is told.
    pub fn tell(&mut self, call: &CallState, progress: Progress) -> Result<(), AllocError> {
        self.made.told.push(Told::Call(call.told(progress)))?;
        Ok(())
    }

    /// A place for one more call over a trunk is taken, where there is one.
    pub fn take_place(&mut self, trunk: usize) -> bool {
        match self.lanes.get_mut(trunk) {
            Some(lane) => lane.calls.take(),
            None => false,
        }
    }

    /// The place of a call over a trunk is let go of.
    pub fn release_place(&mut self, trunk: usize) {
        if let Some(lane) = self.lanes.get_mut(trunk) {
            lane.calls.release();
        }
    }

    /// Transactions that are over are let go of.
    pub fn sweep(&mut self) {
        self.clients.retain(|client| client.next_due().is_some());
        self.servers
            .retain(|server| server.serving.next_due().is_some());
    }
}
