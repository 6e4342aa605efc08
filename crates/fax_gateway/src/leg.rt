//! Which leg.
ghost use Rattle.std.specs.Prelude.{◌≡◌};
ghost use Rattle.fax_gateway.specs.LegNames.{leg_text};

/// A leg of the gateway, as a wire and a control word name it.
#[derive(Clone, Copy, PartialEq, Eq, Debug)]
pub enum Leg {
    /// The leg on which the gateway is called: its peer sends pages.
    Calling,
    /// The leg on which it calls: its peer receives pages.
    Called,
}

impl Leg {
    /// The leg's name: `calling` or `called`.
    pub fn name(self) -> &'static str
        ensures { result.now ≡ leg_text self }
    {
        match self {
            Leg::Calling => "calling",
            Leg::Called => "called",
        }
    }
}
