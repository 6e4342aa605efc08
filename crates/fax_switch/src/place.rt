//! Legs of lines, and the calls on them.
ghost use Rattle.std.specs.Prelude.{◌≡◌};
ghost use Rattle.fax_switch.specs.Places.{called_place, calling_place, is_leg, same_leg as are_on_one_leg, same_place as are_one_call};

/// A leg of a line.
#[derive(Clone, Copy, PartialEq, Eq, Debug)]
pub enum Leg {
    /// On which a peer calls us.
    Calling,
    /// On which we call.
    Called,
}

impl Leg {
    /// Whether two legs are one.
    fn is_same(self, other: Self) -> bool
        ensures { result ≡ is_leg self other }
    {
        matches!(
            (self, other),
            (Leg::Calling, Leg::Calling) | (Leg::Called, Leg::Called)
        )
    }
}

/// A call of a line, as its events name it.
#[derive(Clone, Copy, PartialEq, Eq)]
pub struct LineCall {
    /// The line.
    pub line: u32,
    /// The number of its call.
    pub call: u32,
}

impl LineCall {
    /// Its place, where it is a call on the calling leg.
    pub fn on_calling_leg(self) -> Place
        ensures { result ≡ calling_place self }
    {
        Place {
            leg: Leg::Calling,
            line: self.line,
            call: self.call,
        }
    }

    /// Its place, where it is a call on the called leg.
    pub fn on_called_leg(self) -> Place
        ensures { result ≡ called_place self }
    {
        Place {
            leg: Leg::Called,
            line: self.line,
            call: self.call,
        }
    }
}

/// A call on a leg of a line.
#[derive(Clone, Copy, PartialEq, Eq)]
pub struct Place {
    /// The leg.
    pub leg: Leg,
    /// The line.
    pub line: u32,
    /// The number of its call.
    pub call: u32,
}

impl Place {
    /// Whether two are on one leg of one line.
    pub fn is_on_leg_of(self, other: Self) -> bool
        ensures { result ≡ are_on_one_leg self other }
    {
        self.leg.is_same(other.leg) && self.line == other.line
    }

    /// Whether two are one call.
    pub fn is_same(self, other: Self) -> bool
        ensures { result ≡ are_one_call self other }
    {
        self.is_on_leg_of(other) && self.call == other.call
    }
}
