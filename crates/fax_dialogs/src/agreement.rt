//! What both ends of a session agree on: its interval, and who refreshes it.
ghost use Rattle.std.specs.Prelude.{◌≡◌, max};
ghost use Rattle.fax_dialogs.specs.Agreements.{agreement, refresher_by};

use crate::refresher::Refresher;

/// The least interval that we agree on, in seconds (RFC 4028, 4 and 5): our `Min-SE`.
pub const MIN_SE: u32 = 90;

/// Who refreshes a session, as `refresher` of `Session-Expires` tells it of the request that asks for it.
#[derive(Clone, Copy, PartialEq, Eq)]
pub enum Agent {
    /// Who sends the request.
    Uac,
    /// Who answers it.
    Uas,
}

impl Agent {
    /// Who it is, of a request of ours or of theirs.
    pub fn refresher(self, is_ours: bool) -> Refresher
        ensures { result ≡ refresher_by self is_ours }
    {
        match self {
            Agent::Uac if is_ours => Refresher::We,
            Agent::Uac => Refresher::They,
            Agent::Uas if is_ours => Refresher::They,
            Agent::Uas => Refresher::We,
        }
    }
}

/// What an INVITE that asks for an interval is answered.
#[derive(Clone, Copy, PartialEq, Eq)]
pub enum Agreement {
    /// 422 (Session Interval Too Small), with our `Min-SE`.
    TooSmall,
    /// A 2xx without an interval.
    Without,
    /// A 2xx with that interval, which this agent refreshes.
    With(Agent),
}

/// What an INVITE is answered that asks for an interval of so many seconds (RFC 4028, 9), maybe for who is to refresh, and whose sender
/// supports that (`Supported: timer`) or does not.
pub fn agree_on(seconds: u32, asked: Option<Agent>, is_supported: bool) -> Agreement
    ensures { result ≡ agreement seconds asked is_supported }
{
    if seconds < MIN_SE {
        if is_supported {
            Agreement::TooSmall
        } else {
            Agreement::Without
        }
    } else if is_supported {
        Agreement::With(asked.unwrap_or(Agent::Uac))
    } else {
        Agreement::With(Agent::Uas)
    }
}

/// The interval with which an INVITE of ours goes out again that was answered 422 with this `Min-SE` (RFC 4028, 7.3).
pub fn longer_interval(seconds: u32, least: u32) -> u32
    ensures { result ≡ max seconds least }
{
    seconds.max(least)
}
