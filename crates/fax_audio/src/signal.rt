//! What is sounded when.
ghost use Rattle.std.specs.Prelude.{◌≡◌};
ghost use Rattle.fax_audio.specs.Sounds.{sounds_at, table_of};

use crate::coding::Coding;
use crate::tones::{CED_A_LAW, CED_MU_LAW, CNG_A_LAW, CNG_MU_LAW};

/// CED begins after so many packets, and ends after so many: 2 s and 5 s.
const CED_FROM: u64 = 100;

const CED_TO: u64 = 250;

/// CNG is sounded for so many packets of so many: 0.5 s of 3.5 s.
const CNG_ON: u64 = 25;

const CNG_PERIOD: u64 = 175;

/// What a machine sounds (ITU-T T.30, tonal signals).
#[derive(Clone, Copy, PartialEq, Eq)]
pub enum Signal {
    /// The tone of a machine that is called: 2,100 Hz for 2.6 to 4 s, from 1.8 to 2.5 s after it is connected.
    Ced,
    /// The tone of a machine that calls: 1,100 Hz for 0.5 s, and silence for 3 s, again and again.
    Cng,
}

impl Signal {
    /// Whether the tone sounds in the packet after so many.
    pub(crate) fn sounds(self, after: u64) -> bool
        ensures { result ≡ sounds_at self after }
    {
        match self {
            Signal::Ced => CED_FROM <= after && after < CED_TO,
            Signal::Cng => after % CNG_PERIOD < CNG_ON,
        }
    }

    /// Half of the samples of a packet in which it sounds.
    pub(crate) fn table(self, coding: Coding) -> &'static [u8; 80]
        ensures { result.now ≡ table_of self coding }
    {
        match (self, coding) {
            (Signal::Ced, Coding::MuLaw) => &CED_MU_LAW,
            (Signal::Ced, Coding::ALaw) => &CED_A_LAW,
            (Signal::Cng, Coding::MuLaw) => &CNG_MU_LAW,
            (Signal::Cng, Coding::ALaw) => &CNG_A_LAW,
        }
    }
}
