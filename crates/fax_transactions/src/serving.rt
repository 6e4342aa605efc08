//! A server transaction with the octets of its last answer.
ghost use Rattle.std.specs.Prelude.{◌≡◌, ◌≢◌, []};
ghost use Rattle.fax_transactions.specs.Servings.{begun_by_invite, begun_by_request, due_of, served};

use crate::server::{ServerAction, ServerEvent};
use crate::server_invite::ServerInvite;
use crate::server_request::ServerRequest;
use std::alloc::Global;
use std::marker::Model;

/// A server transaction, of either kind.
#[derive(Clone, Copy, PartialEq, Eq)]
pub enum Server {
    /// Of an INVITE.
    Invite(ServerInvite),
    /// Of another request.
    Request(ServerRequest),
}

impl Server {
    /// The next state, and what is to be done.
    fn after(self, now: u64, event: ServerEvent) -> (Self, ServerAction)
        ensures { result ≡ served self now event }
    {
        match self {
            Server::Invite(mut invite) => {
                let action = invite.step(now, event);
                (Server::Invite(invite), action)
            }
            Server::Request(mut request) => {
                let action = request.step(now, event);
                (Server::Request(request), action)
            }
        }
    }
}

/// A server transaction, and the octets of the answer that it sent last.
pub struct Serving {
    server: Server,
    answer: Vec<u8>,
}

impl Drop for Serving {
    fn drop(self) {
        let Serving {
            server: _server,
            answer: _answer,
        } = self;
    }
}

impl Model for Serving {
    ghost use Rattle.fax_transactions.specs.Servings.{ServingValue};

    ghost Value = { ServingValue };

    ghost view = { λ serving. record { server = serving.server; answer = serving.answer.items } };
}

impl Serving {
    /// An INVITE came, and this answer, 100, was sent (RFC 3261, 17.2.1). The user answers before `limit`.
    pub fn of_invite(limit: u64, trying: Vec<u8>) -> Self
        ensures server { result.server ≡ begun_by_invite limit }
        ensures answer { result.answer ≡ trying.items }
    {
        Serving {
            server: Server::Invite(ServerInvite::begin(limit)),
            answer: trying,
        }
    }

    /// Another request came. The user answers before `limit`.
    pub fn of_request(limit: u64, alloc: Global) -> Self
        ensures server { result.server ≡ begun_by_request limit }
        ensures answer { result.answer ≡ [] }
    {
        Serving {
            server: Server::Request(ServerRequest::begin(limit)),
            answer: Vec::new(alloc),
        }
    }

    /// The user answers with this status and these octets. They are the last answer from now on where they are to be sent, and are let
    /// go of where they are not.
    pub fn answer(&mut self, now: u64, status: u16, octets: Vec<u8>) -> ServerAction
        ensures server { self.new.server
            ≡ (served self.old.server now (ServerEvent.Answered status)).0 }
        ensures action { result ≡ (served self.old.server now (ServerEvent.Answered status)).1 }
        ensures sent { result ≡ ServerAction.Send → self.new.answer ≡ octets.items }
        ensures stays { result ≢ ServerAction.Send → self.new.answer ≡ self.old.answer }
    {
        let (server, action) = self.server.after(now, ServerEvent::Answered(status));
        self.server = server;
        if let ServerAction::Send = action {
            self.answer = octets;
        }
        action
    }

    /// Something else happens at a moment: what is to be done. The last answer stays.
    pub fn hear(&mut self, now: u64, event: ServerEvent) -> ServerAction
        ensures server { self.new.server ≡ (served self.old.server now event).0 }
        ensures action { result ≡ (served self.old.server now event).1 }
        ensures answer { self.new.answer ≡ self.old.answer }
    {
        let (server, action) = self.server.after(now, event);
        self.server = server;
        action
    }

    /// The octets of the answer that was sent last: none where none was.
    pub fn last_answer(&self) -> &[u8]
        ensures { result.now ≡ self.now.answer }
    {
        self.answer.as_slice()
    }

    /// The moment from which something is due although nothing else happens.
    pub fn next_due(&self) -> Option<u64>
        ensures { result ≡ due_of self.now.server }
    {
        match self.server {
            Server::Invite(invite) => invite.next_due(),
            Server::Request(request) => request.next_due(),
        }
    }
}
