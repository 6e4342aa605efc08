//! Where a thing happened.
ghost use Rattle.std.specs.Prelude.{◌≡◌};
ghost use Rattle.fax_descriptions.specs.Tales.{lane_name, lane_picture};

/// Where a thing happened: on the way between two machines, or in the gateway itself.
#[derive(Clone, Copy, PartialEq, Eq)]
pub enum Lane {
    FromCaller,
    ToCaller,
    ToCalled,
    FromCalled,
    Inside,
}

impl Lane {
    /// Its picture, 29 columns wide.
    pub fn picture(self) -> &'static str
        ensures { result.now ≡ lane_picture self }
    {
        match self {
            Lane::FromCaller => "caller --> gateway           ",
            Lane::ToCaller => "caller <-- gateway           ",
            Lane::ToCalled => "           gateway --> called",
            Lane::FromCalled => "           gateway <-- called",
            Lane::Inside => "           gateway           ",
        }
    }

    /// Its name.
    pub fn name(self) -> &'static str
        ensures { result.now ≡ lane_name self }
    {
        match self {
            Lane::FromCaller => "FromCaller",
            Lane::ToCaller => "ToCaller",
            Lane::ToCalled => "ToCalled",
            Lane::FromCalled => "FromCalled",
            Lane::Inside => "Inside",
        }
    }
}
