//! Routes: which trunk a number is placed over, and what is dialled there.
ghost use Rattle.std.specs.Prelude.{◌≡◌, length};
ghost use Rattle.fax_trunks.specs.Routes.{dialled as dialled_by, fit_of, route_of};

use crate::number::{MOST_OCTETS, Number, after_plus, has_digits_alone};
use crate::number_fault::NumberFault;
use arrayvec::ArrayVec;
use std::marker::Model;

/// A route: the numbers that begin with its prefix are placed over its trunk. Its prefix has a digit, so that no route takes all
/// numbers.
pub struct Route {
    prefix: Number,
    trunk: usize,
    strip: u8,
    add: ArrayVec<u8, MOST_OCTETS>,
}

impl Drop for Route {
    fn drop(self) {
        let Route {
            prefix: _prefix,
            trunk: _trunk,
            strip: _strip,
            add: _add,
        } = self;
    }
}

impl Model for Route {
    ghost use Rattle.fax_trunks.specs.RouteValues.{RouteValue};

    ghost Value = { RouteValue };

    ghost view = { λ route. record {
      prefix = route.prefix;
      trunk = route.trunk;
      strip = route.strip;
      add = route.add.items;
    } };
}

impl Route {
    /// A route over the trunk at this place of the list of trunks: of a number that is dialled there the first `strip` octets are cut
    /// off, and `add` is put in front, which is an optional `+` and digits, or nothing. It is refused as a number is.
    pub fn new(prefix: Number, trunk: usize, strip: u8, add: &[u8]) -> Result<Self, NumberFault>
        ensures { result ≡ route_of prefix trunk strip add.now }
    {
        let mut kept = ArrayVec::new();
        if kept.try_extend_from_slice(add).is_err() {
            return Err(NumberFault::TooLong);
        }
        if !has_digits_alone(after_plus(add)) {
            return Err(NumberFault::NotADigit);
        }
        Ok(Route {
            prefix,
            trunk,
            strip,
            add: kept,
        })
    }

    /// The place of its trunk in the list of trunks.
    pub fn trunk(&self) -> usize
        ensures { result ≡ self.now.trunk }
    {
        self.trunk
    }

    /// How many octets of a number its prefix takes: all of its own where the number begins with it, and else none.
    pub fn fit(&self, number: &Number) -> usize
        ensures { result ≡ fit_of number.now self.now.prefix }
    {
        let prefix = self.prefix.as_bytes();
        if number.as_bytes().starts_with(prefix) {
            prefix.len()
        } else {
            0
        }
    }

    /// What is dialled on its trunk for a number. Refused where nothing of the number is left, where more than 32 octets result, and
    /// where a `+` would stand after a digit.
    pub fn dialled(&self, number: &Number) -> Result<Number, NumberFault>
        ensures { result ≡ dialled_by self.now number.now }
    {
        let octets = number.as_bytes();
        let strip = usize::from(self.strip);
        if octets.len() <= strip {
            return Err(NumberFault::NoDigits);
        }
        let mut dialled = ArrayVec::<u8, MOST_OCTETS>::new();
        if dialled.try_extend_from_slice(self.add.as_slice()).is_err()
            || dialled.try_extend_from_slice(&octets[strip..]).is_err()
        {
            return Err(NumberFault::TooLong);
        }
        Number::read(dialled.as_slice())
    }
}
