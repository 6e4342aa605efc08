//! The interval of a session, as our INVITEs ask for it.
ghost use Rattle.std.specs.Prelude.{◌≡◌, ◌++◌, IfOk, OnOk, decimal, map, max, string_bytes};
ghost use Rattle.fax_dialogs.specs.Within.{field_text};
ghost use Rattle.fax_requests.specs.Seconds.{least_in};
ghost use Rattle.fax_sip.specs.Messages.{message_text};

use crate::seconds::read_seconds;
use fax_dialogs::{MIN_SE, longer_interval};
use fax_sip::{Field, Message, Name};
use std::alloc::{AllocError, Global};

/// The `Min-SE` of a message, in seconds.
pub fn least_told(message: &Message<'_>) -> Option<u32>
    ensures { result ≡ least_in (message_text message.now) }
{
    read_seconds(message.value(Name::MinSe)?)
}

/// What is known of the interval of a call's session before an INVITE of ours (RFC 4028, 7.4), in seconds.
#[derive(Clone, Copy, PartialEq, Eq)]
pub struct Interval {
    /// The interval that was agreed on last; until then the one that we wish for.
    pub current: u32,
    /// The least interval: our own, or the longest `Min-SE` that was told in the call.
    pub least: u32,
}

impl Interval {
    /// Nothing was told: an interval that we wish for.
    pub fn new(wished: u32) -> Self
        ensures { result ≡ record { current = wished; least = 90 } }
    {
        Interval {
            current: wished,
            least: MIN_SE,
        }
    }

    /// A 2xx to an INVITE of either side has this interval.
    pub fn agree(&mut self, seconds: u32)
        ensures { self.new ≡ record self.old { current = seconds } }
    {
        self.current = seconds;
    }

    /// A 422 to an INVITE of ours has this `Min-SE`, or an INVITE of theirs.
    pub fn raise(&mut self, least: u32)
        ensures { self.new ≡ record self.old { least = max self.old.least least } }
    {
        self.least = longer_interval(self.least, least);
    }

    /// The interval that our next INVITE asks for: the one that the session has, or the least one where that is longer.
    pub fn asked(self) -> u32
        ensures { result ≡ max self.current self.least }
    {
        longer_interval(self.current, self.least)
    }
}

/// An interval in words.
pub struct IntervalText {
    /// What is told.
    pub interval: Interval,
    /// The interval that is asked for.
    pub asked: String,
    /// The least interval.
    pub least: String,
    ghost asked_is: { string_bytes asked ≡ decimal (max interval.current interval.least) },
    ghost least_is: { string_bytes least ≡ decimal interval.least },
}

impl Drop for IntervalText {
    fn drop(self) {
        let IntervalText {
            interval: _interval,
            asked: _asked,
            least: _least,
        } = self;
    }
}

impl IntervalText {
    ghost use Rattle.fax_requests.specs.Intervals.{interval_lines};

    /// The words of an interval.
    pub fn new(alloc: Global, interval: Interval) -> Result<Self, AllocError>
        ensures { IfOk result (λ text. text.interval ≡ interval) }
    {
        let (seconds, shortest) = (interval.asked(), interval.least);
        let asked = format!(in alloc; "{seconds}")?;
        let least = format!(in alloc; "{shortest}")?;
        Ok(IntervalText {
            interval,
            asked,
            least,
        })
    }

    /// Puts the lines of an INVITE that ask for the interval.
    pub fn put<'a>(&'a self, fields: &mut Vec<Field<'a>>) -> Result<(), AllocError>
        ensures { OnOk result (map field_text fields.new.items
            ≡ map field_text fields.old.items ++ interval_lines self.now.interval) }
    {
        fields.push(Field {
            name: Name::Supported,
            value: b"timer",
        })?;
        fields.push(Field {
            name: Name::SessionExpires,
            value: self.asked.as_bytes(),
        })?;
        fields.push(Field {
            name: Name::MinSe,
            value: self.least.as_bytes(),
        })?;
        Ok(())
    }
}
