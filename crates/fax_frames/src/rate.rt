//! The rates at which an image is sent.
ghost use Rattle.std.specs.Prelude.{◌≡◌};

/// A modulation of the image signal and its rate in bits a second (ITU-T T.30, Table 2).
#[derive(Clone, Copy, PartialEq, Eq)]
pub enum Rate {
    V27At2400,
    V27At4800,
    V29At7200,
    V29At9600,
    V17At7200,
    V17At9600,
    V17At12000,
    V17At14400,
}

impl Rate {
    ghost use Rattle.fax_frames.specs.Rates.{bits_a_second, training_of, kind_of};

    /// The rate in bits a second.
    pub fn bits(self) -> u16
        ensures { result ≡ bits_a_second self }
    {
        match self {
            Rate::V27At2400 => 2400,
            Rate::V27At4800 => 4800,
            Rate::V29At7200 | Rate::V17At7200 => 7200,
            Rate::V29At9600 | Rate::V17At9600 => 9600,
            Rate::V17At12000 => 12_000,
            Rate::V17At14400 => 14_400,
        }
    }

    /// The indicator of its training, 4 to 15 (ITU-T T.38 of 1998, T30_INDICATOR). V.27ter and V.29 have
    /// one, V.17 a long and a short one.
    pub fn training(self, long: bool) -> u8
        ensures { result ≡ training_of self long }
    {
        match (self, long) {
            (Rate::V27At2400, _) => 4,
            (Rate::V27At4800, _) => 5,
            (Rate::V29At7200, _) => 6,
            (Rate::V29At9600, _) => 7,
            (Rate::V17At7200, false) => 8,
            (Rate::V17At7200, true) => 9,
            (Rate::V17At9600, false) => 10,
            (Rate::V17At9600, true) => 11,
            (Rate::V17At12000, false) => 12,
            (Rate::V17At12000, true) => 13,
            (Rate::V17At14400, false) => 14,
            (Rate::V17At14400, true) => 15,
        }
    }

    /// The type of its data, 1 to 8 (ITU-T T.38 of 1998, T30_DATA).
    pub fn kind(self) -> u8
        ensures { result ≡ kind_of self }
    {
        match self {
            Rate::V27At2400 => 1,
            Rate::V27At4800 => 2,
            Rate::V29At7200 => 3,
            Rate::V29At9600 => 4,
            Rate::V17At7200 => 5,
            Rate::V17At9600 => 6,
            Rate::V17At12000 => 7,
            Rate::V17At14400 => 8,
        }
    }
}
