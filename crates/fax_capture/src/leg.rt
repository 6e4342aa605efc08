//! The leg of the caller, and which of its calls is on.
ghost use Rattle.std.specs.Prelude.{◌≡◌};
ghost use Rattle.fax_capture.specs.Calls.{begins_anew, is_asked, is_silence, kept, lateness, leg_with, number_of, silent_leg, starts_over};

use crate::address::Role;

/// How many numbers late a datagram comes at most.
const MOST_LATE: u32 = 8;

/// How many numbers there are.
const NUMBERS: u32 = 65_536;

/// How long a machine waits at most in a call, in nanoseconds: 60 s (ITU-T T.30, T5).
const LONGEST_WAIT: u128 = 60_000_000_000;

/// What was heard last on the calling leg: the UDPTL numbers of a datagram from the caller, and of one to it, in the call that is
/// on; and when one was captured, in nanoseconds since 1970, where that is known.
#[derive(Clone, Copy, PartialEq, Eq)]
pub(crate) struct CallingLeg {
    from_caller: Option<u16>,
    to_caller: Option<u16>,
    time: Option<u128>,
}

impl CallingLeg {
    /// A leg on which nothing was heard.
    pub fn new() -> CallingLeg
        ensures { result ≡ silent_leg }
    {
        CallingLeg {
            from_caller: None,
            to_caller: None,
            time: None,
        }
    }

    /// Whether a call begins anew with a datagram of this role, number and time.
    pub fn begins_anew(&self, role: Role, number: Option<u16>, time: Option<u128>) -> bool
        ensures { result ≡ begins_anew self.now role number time }
    {
        match (role, number) {
            (Role::FromCaller, Some(number)) => {
                starts_over(self.from_caller, number) || is_silence(self.time, time)
            }
            (Role::ToCaller, Some(number)) => {
                starts_over(self.to_caller, number) || is_silence(self.time, time)
            }
            _ => false,
        }
    }

    /// The leg after a datagram of this role, number and time, with which a call begins anew, or not.
    pub fn with(
        self,
        role: Role,
        number: Option<u16>,
        time: Option<u128>,
        begins: bool,
    ) -> CallingLeg
        ensures { result ≡ leg_with self role number time begins }
    {
        match (role, number) {
            (Role::FromCaller, Some(number)) => CallingLeg {
                from_caller: Some(number),
                to_caller: kept(begins, self.to_caller),
                time,
            },
            (Role::ToCaller, Some(number)) => CallingLeg {
                from_caller: kept(begins, self.from_caller),
                to_caller: Some(number),
                time,
            },
            _ => self,
        }
    }
}

/// The number of a datagram, where it reads as UDPTL.
pub(crate) fn number_of(octets: &[u8]) -> Option<u16>
    ensures { result ≡ number_of octets.now }
{
    match fax_udptl::read(octets) {
        Ok(datagram) => Some(datagram.number()),
        Err(_) => None,
    }
}

/// The last number of the other way, unless a call begins anew.
fn kept(begins: bool, last: Option<u16>) -> Option<u16>
    ensures { result ≡ kept begins last }
{
    if begins { None } else { last }
}

/// Whether a number is none that comes after the last one in a call, however late.
fn starts_over(last: Option<u16>, number: u16) -> bool
    ensures { result ≡ starts_over last number }
{
    let Some(last) = last else {
        return false;
    };
    let last = u32::from(last);
    let number = u32::from(number);
    number + lateness(number) < last && last < number + (NUMBERS - MOST_LATE)
}

/// By how many numbers a datagram comes late at most; the first of a call does not.
fn lateness(number: u32) -> u32
    ensures { result ≡ lateness number }
{
    if number == 0 { 0 } else { MOST_LATE }
}

/// Whether more time passed than a machine waits in a call.
fn is_silence(last: Option<u128>, time: Option<u128>) -> bool
    ensures { result ≡ is_silence last time }
{
    match (last, time) {
        (Some(last), Some(time)) => LONGEST_WAIT < time.saturating_sub(last),
        _ => false,
    }
}

/// Whether the call of a number is asked for.
pub(crate) fn is_asked(asked: Option<u64>, call: u64) -> bool
    ensures { result ≡ is_asked asked call }
{
    match asked {
        Some(asked) => asked == call,
        None => true,
    }
}
