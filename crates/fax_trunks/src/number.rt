//! Numbers that are called, or that call.
ghost use Rattle.std.specs.Prelude.{◌≡◌, ◌<◌, ◌≤◌, length, option_map};
ghost use Rattle.std.specs.Char.{is_ascii_digit};
ghost use Rattle.std.specs.List.{list_all};
ghost use Rattle.fax_trunks.specs.Numbers.{digits_of, reading, reading_of_user};

use crate::number_fault::NumberFault;
use arrayvec::ArrayVec;
use std::marker::Model;

/// The most octets of a number.
pub const MOST_OCTETS: usize = 32;

/// A number: an optional `+`, which marks an international one (ITU-T E.123), and digits, one at least; 32 octets at most (this
/// project's profile: an international number has 15 digits, ITU-T E.164).
pub struct Number {
    octets: ArrayVec<u8, MOST_OCTETS>,
}

impl Drop for Number {
    fn drop(self) {
        let Number { octets: _octets } = self;
    }
}

/// Contracts see the octets.
impl Model for Number {
    ghost use Rattle.std.specs.Prelude.{ℕ, List, IsTrue};
    ghost use Rattle.fax_trunks.specs.Numbers.{is_number};

    ghost Value = { List ℕ };

    ghost view = { λ number. number.octets.items };

    ghost invariant = { λ number. IsTrue (is_number number.octets.items) };
}

impl Number {
    /// Reads a number.
    pub fn read(octets: &[u8]) -> Result<Self, NumberFault>
        ensures { result ≡ reading octets.now }
    {
        let mut kept = ArrayVec::new();
        if kept.try_extend_from_slice(octets).is_err() {
            return Err(NumberFault::TooLong);
        }
        let digits = after_plus(octets);
        if digits.is_empty() {
            return Err(NumberFault::NoDigits);
        }
        if !has_digits_alone(digits) {
            return Err(NumberFault::NotADigit);
        }
        Ok(Number { octets: kept })
    }

    /// Reads the user of a `sip` or `sips` address (RFC 3261, 19.1.1), as `user_of` of `fax_sip` gives it: without its parameters and
    /// without a password.
    pub fn of_user(user: Option<&[u8]>) -> Result<Self, NumberFault>
        ensures { result ≡ reading_of_user (option_map (λ user. user.now) user.entry) }
    {
        match user {
            Some(user) => Number::read(user),
            None => Err(NumberFault::NoUser),
        }
    }

    /// Its octets.
    pub fn as_bytes(&self) -> &[u8]
        ensures octets { result.now ≡ self.now }
        ensures some { 0 < length result.now }
        ensures few { length result.now ≤ 32 }
    {
        self.octets.as_slice()
    }
}

/// Octets without a `+` in front.
pub(crate) fn after_plus(octets: &[u8]) -> &[u8]
    ensures { result.now ≡ digits_of octets.now }
{
    match octets {
        [b'+', digits @ ..] => digits,
        _ => octets,
    }
}

/// Whether each octet is a digit.
pub(crate) fn has_digits_alone(octets: &[u8]) -> bool
    ensures { result ≡ list_all is_ascii_digit octets.now }
{
    octets.iter().all(|octet| octet.is_ascii_digit())
}
