//! The client transactions, each with its request.
use fax_requests::Branch;
use fax_sip::Key;
use fax_transactions::{ClientAction, ClientEvent, ClientInvite, ClientRequest};
use std::net::SocketAddr;

/// What a request of ours is for.
#[derive(Clone, Copy, PartialEq)]
pub(crate) enum Purpose {
    /// An INVITE of this call.
    Invite(u64),
    /// The BYE of this call.
    Bye(u64),
    /// The CANCEL of an INVITE.
    Cancel,
    /// A REGISTER with the trunk at this place.
    Register(usize),
}

/// A client transaction, of either kind.
#[derive(Clone, Copy)]
pub(crate) enum Machine {
    /// Of an INVITE.
    Invite(ClientInvite),
    /// Of another request.
    Request(ClientRequest),
}

/// A client transaction and its request.
pub(crate) struct Client {
    pub purpose: Purpose,
    pub machine: Machine,
    pub branch: Branch,
    pub to: SocketAddr,
    /// The request.
    pub octets: Vec<u8>,
    /// The ACK of the refusal of an INVITE; empty while there is none.
    pub ack: Vec<u8>,
    /// Whether a CANCEL is to be sent as soon as it may.
    pub is_to_cancel: bool,
}

impl Drop for Client {
    fn drop(self) {
        let Client {
            purpose: _purpose,
            machine: _machine,
            branch: _branch,
            to: _to,
            octets: _octets,
            ack: _ack,
            is_to_cancel: _is_to_cancel,
        } = self;
    }
}

impl Purpose {
    /// The method of the request.
    pub fn method(self) -> &'static [u8] {
        match self {
            Purpose::Invite(_) => b"INVITE",
            Purpose::Bye(_) => b"BYE",
            Purpose::Cancel => b"CANCEL",
            Purpose::Register(_) => b"REGISTER",
        }
    }
}

impl Client {
    /// Whether an answer with this key belongs to it.
    pub fn is_answered_by(&self, answer: &Key<'_>) -> bool {
        let key = Key {
            branch: self.branch.as_slice(),
            sent_by: answer.sent_by,
            method: self.purpose.method(),
        };
        key.is_answered_by(answer)
    }

    /// Something happens at a moment: what is to be done.
    pub fn step(&mut self, now: u64, event: ClientEvent) -> ClientAction {
        match self.machine {
            Machine::Invite(mut invite) => {
                let action = invite.step(now, event);
                self.machine = Machine::Invite(invite);
                action
            }
            Machine::Request(mut request) => {
                let action = request.step(now, event);
                self.machine = Machine::Request(request);
                action
            }
        }
    }

    /// The moment from which something is due although nothing else happens.
    pub fn next_due(&self) -> Option<u64> {
        match self.machine {
            Machine::Invite(invite) => invite.next_due(),
            Machine::Request(request) => request.next_due(),
        }
    }

    /// Whether it is an INVITE to which a provisional answer came, and no other.
    pub fn is_proceeding(&self) -> bool {
        matches!(
            self.machine,
            Machine::Invite(ClientInvite::Proceeding { .. })
        )
    }
}
