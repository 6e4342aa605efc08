//! What a machine can receive.
ghost use Rattle.std.specs.Prelude.{⊤, ◌≡◌, [], ◌∷◌, codes};

use crate::dcs::Length;
use crate::field_bits::code_at;
use crate::rate::Rate;
use bitflags::{Flag, Flags, bitflag_items};
use fax_runcodes::Width;

/// Bits 1 to 24 of a DIS (ITU-T T.30, Table 2), as one number: bit n is the mask `1 << (24 - n)`. The 8
/// bits above have no meaning: a DIS that is read has none of them, and none is written.
#[derive(Clone, Copy, PartialEq, Eq)]
pub struct Caps(pub u32);

bitflag_items! {
    impl Caps: u32 {
        /// Bit 10: it receives.
        const RECEIVER = 0x00_40_00;
        /// Bit 11, the first of four that tell the rates: 0000 V.27ter at 2400 alone, 0100 V.27ter, 1000
        /// V.29, 1100 both, 1101 both and V.17.
        const RATE_BIT_11 = 0x00_20_00;
        /// Bit 12, the second of four that tell the rates.
        const RATE_BIT_12 = 0x00_10_00;
        /// Bit 13, the third of four that tell the rates.
        const RATE_BIT_13 = 0x00_08_00;
        /// Bit 14, the last of four that tell the rates.
        const RATE_BIT_14 = 0x00_04_00;
        /// Bit 15: 7.7 lines per mm as well as 3.85.
        const FINE = 0x00_02_00;
        /// Bit 16: two-dimensional coding as well as one-dimensional.
        const TWO_DIMENSIONAL = 0x00_01_00;
        /// Bit 17: rows of up to 2048 elements.
        const WIDTH_2048 = 0x00_00_80;
        /// Bit 18: rows of up to 2432 elements.
        const WIDTH_2432 = 0x00_00_40;
        /// Bit 19: pages as long as B4.
        const LENGTH_B4 = 0x00_00_20;
        /// Bit 20: pages of any length.
        const LENGTH_UNLIMITED = 0x00_00_10;
        /// Bit 21, the first of three that tell the least time of a line.
        const SCAN_TIME_BIT_21 = 0x00_00_08;
        /// Bit 22, the second of three that tell the least time of a line.
        const SCAN_TIME_BIT_22 = 0x00_00_04;
        /// Bit 23, the last of three that tell the least time of a line.
        const SCAN_TIME_BIT_23 = 0x00_00_02;
        /// Bit 24: a further octet of capabilities follows.
        const EXTEND = 0x00_00_01;
    }
}

impl Flags for Caps {
    type Bits = u32;

    ghost exact = { ⊤ };

    ghost table = { (
      codes "RECEIVER",
      0x40_00,
    ) ∷ (codes "RATE_BIT_11", 0x20_00) ∷ (
      codes "RATE_BIT_12",
      0x10_00,
    ) ∷ (codes "RATE_BIT_13", 0x08_00) ∷ (codes "RATE_BIT_14", 0x04_00)
        ∷ (codes "FINE", 0x02_00) ∷ (codes "TWO_DIMENSIONAL", 0x01_00) ∷ (
          codes "WIDTH_2048",
          0x80,
        ) ∷ (codes "WIDTH_2432", 0x40) ∷ (codes "LENGTH_B4", 0x20) ∷ (
          codes "LENGTH_UNLIMITED",
          0x10,
        ) ∷ (codes "SCAN_TIME_BIT_21", 0x08) ∷ (
          codes "SCAN_TIME_BIT_22",
          0x04,
        ) ∷ (codes "SCAN_TIME_BIT_23", 0x02) ∷ (codes "EXTEND", 0x01) ∷ [] };

    ghost set_of = { λ caps. caps.0 };

    fn flags<'a>() -> &'a [Flag<Caps>] {
        Caps::FLAGS
    }

    fn bits(&self) -> u32 {
        self.0
    }

    fn from_bits_retain(bits: u32) -> Caps {
        Caps(bits)
    }
}

/// The digital identification signal: what the called machine can do.
#[derive(Clone, Copy, PartialEq, Eq)]
pub struct Dis {
    pub caps: Caps,
}

impl Dis {
    ghost use Rattle.fax_frames.specs.FieldBits.{has_bit};
    ghost use Rattle.fax_frames.specs.Capabilities.{rates_in, has_width, length_in, scan_time, IsScanTime};

    /// Whether it receives (bit 10).
    pub fn is_receiver(&self) -> bool
        ensures { result ≡ has_bit 10 self.now.caps.0 }
    {
        self.caps.contains(Caps::RECEIVER)
    }

    /// Whether it receives 7.7 lines per mm (bit 15).
    pub fn has_fine(&self) -> bool
        ensures { result ≡ has_bit 15 self.now.caps.0 }
    {
        self.caps.contains(Caps::FINE)
    }

    /// Whether it receives two-dimensional coding (bit 16).
    pub fn has_two_d(&self) -> bool
        ensures { result ≡ has_bit 16 self.now.caps.0 }
    {
        self.caps.contains(Caps::TWO_DIMENSIONAL)
    }

    /// Whether it receives rows of a width (bits 17 and 18).
    pub fn has_width(&self, width: Width) -> bool
        ensures { result ≡ has_width width self.now.caps.0 }
    {
        match width {
            Width::W1728 => true,
            Width::W2048 => code_at(self.caps.0, 17, 18) != 0b00,
            Width::W2432 => matches!(code_at(self.caps.0, 17, 18), 0b01 | 0b11),
        }
    }

    /// The rates that it receives, in the order in which they are tried (bits 11 to 14).
    pub fn rates(&self) -> &'static [Rate]
        ensures { result.now ≡ rates_in self.now.caps.0 }
    {
        match code_at(self.caps.0, 11, 14) {
            0b0100 => V27TER,
            0b1000 => V29,
            0b1101 => V17_AND_V27TER,
            0b1100 | 0b1110 | 0b1111 => V29_AND_V27TER,
            _ => V27TER_FALLBACK,
        }
    }

    /// The greatest length of a page that it receives (bits 19 and 20).
    pub fn length(&self) -> Length
        ensures { result ≡ length_in self.now.caps.0 }
    {
        match code_at(self.caps.0, 19, 20) {
            0b10 => Length::A4AndB4,
            0b01 => Length::Unlimited,
            _ => Length::A4,
        }
    }

    /// The least time of a line in milliseconds, at 3.85 or, for fine pages, at 7.7 lines per mm (bits 21
    /// to 23): 0, 5, 10, 20 or 40.
    pub fn scan_ms(&self, fine: bool) -> u8
        ensures time { result ≡ scan_time self.now.caps.0 fine }
        ensures writable { IsScanTime result }
    {
        let (standard_ms, fine_ms) = match code_at(self.caps.0, 21, 23) {
            0b000 => (20, 20),
            0b001 => (40, 40),
            0b010 => (10, 10),
            0b100 => (5, 5),
            0b011 => (10, 5),
            0b110 => (20, 10),
            0b101 => (40, 20),
            _ => (0, 0),
        };
        if fine { fine_ms } else { standard_ms }
    }
}

const V27TER_FALLBACK: &[Rate] = &[Rate::V27At2400];

const V27TER: &[Rate] = &[Rate::V27At4800, Rate::V27At2400];

const V29: &[Rate] = &[Rate::V29At9600, Rate::V29At7200];

const V29_AND_V27TER: &[Rate] = &[
    Rate::V29At9600,
    Rate::V29At7200,
    Rate::V27At4800,
    Rate::V27At2400,
];

const V17_AND_V27TER: &[Rate] = &[
    Rate::V17At14400,
    Rate::V17At12000,
    Rate::V17At9600,
    Rate::V17At7200,
    Rate::V27At4800,
    Rate::V27At2400,
];

/// Our own DIS, of the octets `00 77 5E` (this project's profile): it receives by V.27ter, V.29 and V.17,
/// both resolutions, both codings, all widths, any length, with no least time of a line.
pub const OUR_DIS: Dis = Dis {
    caps: Caps(0x00_77_5E),
};
