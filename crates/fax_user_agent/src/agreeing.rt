//! What is agreed on of the interval of a session (RFC 4028).
ghost use Rattle.std.specs.Prelude.{◌≡◌, codes, is_some};
ghost use Rattle.fax_dialogs.specs.Timers.{row};
ghost use Rattle.fax_requests.specs.Seconds.{least_in};
ghost use Rattle.fax_sip.specs.Messages.{message_text};
ghost use Rattle.fax_sip.specs.Texts.{is_word};
ghost use Rattle.fax_user_agent.specs.Intervals.{agreed_in, agreement_in, kept_of, raised_by, supports_timers as supported_in, timer_event, with_agreed};

use crate::call::CallState;
use fax_dialogs::{Agent, Agreement, TimerEvent, agree_on};
use fax_requests::{least_told, read_refresher, read_seconds};
use fax_sip::{Message, Name};

/// What an INVITE of theirs asks of the session's interval, and what it is answered.
pub(crate) fn agreement_on(invite: &Message<'_>) -> Option<(u32, Agreement)>
    ensures { result ≡ agreement_in (message_text invite.now) }
{
    let value = invite.value(Name::SessionExpires)?;
    let seconds = read_seconds(value)?;
    let agreement = agree_on(seconds, read_refresher(value), supports_timers(invite));
    Some((seconds, agreement))
}

/// Whether the sender of a message supports that sessions have an interval.
fn supports_timers(message: &Message<'_>) -> bool
    ensures { result ≡ supported_in (message_text message.now) }
{
    for word in message.elements(Name::Supported) {
        if is_timer(word) {
            return true;
        }
    }
    false
}

/// Whether a word is the name of that extension.
fn is_timer(word: &[u8]) -> bool
    ensures { result ≡ is_word word.now (codes "timer") }
{
    word.eq_ignore_ascii_case(b"timer")
}

/// The interval that an INVITE of theirs asks for and we agree on, with who refreshes.
pub(crate) fn agreed_on(invite: &Message<'_>) -> Option<(u32, Agent)>
    ensures { result ≡ kept_of (agreement_in (message_text invite.now)) }
{
    match agreement_on(invite) {
        Some((seconds, Agreement::With(agent))) => Some((seconds, agent)),
        Some((_, Agreement::TooSmall | Agreement::Without)) | None => None,
    }
}

/// The interval that a 2xx to an INVITE of ours has, with who refreshes: we, where it does not say.
pub(crate) fn agreed_by(answer: &Message<'_>) -> Option<(u32, Agent)>
    ensures { result ≡ agreed_in (message_text answer.now) }
{
    let value = answer.value(Name::SessionExpires)?;
    let seconds = read_seconds(value)?;
    let agent = read_refresher(value).unwrap_or(Agent::Uac);
    Some((seconds, agent))
}

impl CallState {
    /// The least interval of a message is heard, of a 422 to our INVITE or of their INVITE: whether it tells one.
    pub fn hear_least(&mut self, message: &Message<'_>) -> bool
        ensures interval { self.new.interval
            ≡ raised_by (least_in (message_text message.now)) self.old.interval }
        ensures told { result ≡ is_some (least_in (message_text message.now)) }
    {
        let Some(least) = least_told(message) else {
            return false;
        };
        self.interval.raise(least);
        true
    }

    /// A 2xx to an INVITE, of ours or of theirs, has this interval and who refreshes, or none.
    pub fn agree(&mut self, now: u64, agreed: Option<(u32, Agent)>, is_ours: bool)
        ensures interval { self.new.interval ≡ with_agreed agreed self.old.interval }
        ensures timer { self.new.timer ≡ (row self.old.timer now (timer_event agreed is_ours)).0 }
    {
        let event = match agreed {
            Some((seconds, agent)) => {
                self.interval.agree(seconds);
                TimerEvent::Agreed(seconds, agent.refresher(is_ours))
            }
            None => TimerEvent::NotAgreed,
        };
        self.timer.step(now, event);
    }
}
