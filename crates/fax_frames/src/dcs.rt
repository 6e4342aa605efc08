//! What a page is sent with.
ghost use Rattle.std.specs.Prelude.{◌≡◌};

use crate::rate::Rate;
use fax_runcodes::{Coding, Format, Width};

/// The greatest length of a page (ITU-T T.30, Table 2, bits 19 and 20).
#[derive(Clone, Copy, PartialEq, Eq)]
pub enum Length {
    A4,
    A4AndB4,
    Unlimited,
}

/// The digital command signal: what the calling machine sends by (ITU-T T.30, Table 2).
#[derive(Clone, Copy, PartialEq, Eq)]
pub struct Dcs {
    pub rate: Rate,
    /// 7.7 lines per mm in place of 3.85.
    pub fine: bool,
    /// Two-dimensional coding in place of one-dimensional.
    pub two_d: bool,
    pub width: Width,
    pub length: Length,
    /// The least time of a line in milliseconds.
    pub scan_ms: u8,
}

impl Dcs {
    ghost use Rattle.fax_frames.specs.Capabilities.{format_of, coding_of, least_bits_of};

    /// The format of its pages.
    pub fn format(&self) -> Format
        ensures { result ≡ format_of self.now }
    {
        Format {
            width: self.width,
            fine: self.fine,
        }
    }

    /// The coding of their lines.
    pub fn coding(&self) -> Coding
        ensures { result ≡ coding_of self.now }
    {
        if self.two_d { Coding::Mr } else { Coding::Mh }
    }

    /// The least bits of a line with its fill and EOL: as many as are sent in its least time, rounded down.
    pub fn least_bits(&self) -> u32
        ensures { result ≡ least_bits_of self.now }
    {
        u32::from(self.rate.bits()) * u32::from(self.scan_ms) / 1000
    }
}
