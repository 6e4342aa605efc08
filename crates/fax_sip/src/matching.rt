//! What a message belongs to: the transaction of its branch.
ghost use Rattle.std.specs.Prelude.{◌≡◌, option_map};
ghost use Rattle.fax_sip.specs.Matching.{has_cookie as begins_with_cookie, is_answer_to, is_for, key_of, key_text};
ghost use Rattle.fax_sip.specs.Messages.{message_text};

use crate::message::Message;
use crate::name::Name;
use crate::parts::{parameter, read_via};
use crate::text::{same_text, same_word};

/// What the transaction of a message is known by: its first hop, and its method.
#[derive(Clone, Copy)]
pub struct Key<'a> {
    /// The branch of the first hop.
    pub branch: &'a [u8],
    /// Who sent it, as the first hop says.
    pub sent_by: &'a [u8],
    /// The method of `CSeq`.
    pub method: &'a [u8],
}

impl<'a> Message<'a> {
    /// What the transaction of a message is known by; none where its first hop is none, or has no branch.
    pub fn key(&self) -> Option<Key<'a>>
        ensures { option_map key_text result ≡ key_of (message_text self.now) }
    {
        let hop = self.elements(Name::Via).next()?;
        let branch = parameter(hop, "branch")?;
        let via = read_via(hop)?;
        Some(Key {
            branch,
            sent_by: via.sent_by,
            method: self.sequence.method,
        })
    }
}

impl Key<'_> {
    /// Whether an answer of this key belongs to the client transaction of a request of that key (RFC 3261, 17.1.3): it has the same branch
    /// and the same method.
    pub fn is_answered_by(&self, answer: &Key<'_>) -> bool
        ensures { result ≡ is_answer_to (key_text self.now) (key_text answer.now) }
    {
        same_word(answer.branch, self.branch) && same_text(answer.method, self.method)
    }

    /// Whether a request belongs to the server transaction of a request of this key (17.2.3): it has the same branch, which begins with
    /// `z9hG4bK`, of the same sender, and the same method, or is the ACK of an INVITE. Requests of RFC 2543, whose branch does not
    /// begin so, belong to none.
    pub fn takes(&self, request: &Key<'_>) -> bool
        ensures { result ≡ is_for (key_text self.now) (key_text request.now) }
    {
        has_cookie(request.branch)
            && same_word(request.branch, self.branch)
            && same_word(request.sent_by, self.sent_by)
            && (same_text(request.method, self.method)
                || (same_text(request.method, b"ACK") && same_text(self.method, b"INVITE")))
    }
}

/// Whether a branch is one of RFC 3261 (8.1.1.7).
fn has_cookie(branch: &[u8]) -> bool
    ensures { result ≡ begins_with_cookie branch.now }
{
    branch.len() >= 7 && same_word(&branch[..7], b"z9hG4bK")
}
