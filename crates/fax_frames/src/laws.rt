//! Laws of the definitions: functions that do nothing, each of whose contracts is a theorem.
ghost use Rattle.std.specs.Prelude.{◌≡◌, [], ◌∷◌};
ghost use Rattle.fax_frames.specs.FieldBits.{octets_of};
ghost use Rattle.fax_frames.specs.Capabilities.{our_dis};
ghost use Rattle.fax_frames.specs.Laws.{masks_of, WrittenDcsAreRead, WrittenDisAreRead, WrittenDisAreThemselves, ReadDisHas24Bits, WrittenPlainAreRead, DisBitsStandInOrder, BitsStandInOrder, CodesAreSpelt};

use crate::dis::{Caps, OUR_DIS};

/// The constants of `Caps`, in their order, are bits 10 to 24 of a DIS (ITU-T T.30, Table 2).
pub fn caps_are_bits()
    ensures signalling { Caps.RECEIVER.0 ∷ Caps.RATE_BIT_11.0 ∷ Caps.RATE_BIT_12.0
        ∷ Caps.RATE_BIT_13.0 ∷ Caps.RATE_BIT_14.0 ∷ []
        ≡ masks_of (10 ∷ 11 ∷ 12 ∷ 13 ∷ 14 ∷ []) }
    ensures coding { Caps.FINE.0 ∷ Caps.TWO_DIMENSIONAL.0 ∷ [] ≡ masks_of (15 ∷ 16 ∷ []) }
    ensures sizes { Caps.WIDTH_2048.0 ∷ Caps.WIDTH_2432.0
        ∷ Caps.LENGTH_B4.0 ∷ Caps.LENGTH_UNLIMITED.0 ∷ [] ≡ masks_of (17 ∷ 18 ∷ 19 ∷ 20 ∷ []) }
    ensures times { Caps.SCAN_TIME_BIT_21.0 ∷ Caps.SCAN_TIME_BIT_22.0 ∷ Caps.SCAN_TIME_BIT_23.0 ∷ []
        ≡ masks_of (21 ∷ 22 ∷ 23 ∷ []) }
    ensures extend { Caps.EXTEND.0 ∷ [] ≡ masks_of (24 ∷ []) }
{}

/// The octets of our own DIS are `00 77 5E` (this project's profile), and it has no other bits.
pub fn our_dis_has_its_octets()
    ensures octets { octets_of OUR_DIS.caps.0 ≡ 0x00 ∷ 0x77 ∷ 0x5E ∷ [] }
    ensures number { OUR_DIS.caps.0 ≡ 0x00_77_5E }
    ensures named { OUR_DIS ≡ our_dis }
{}

/// A written DCS is read with the rate, format, coding and least time of a line that it was written with.
pub fn written_dcs_are_read()
    ensures { WrittenDcsAreRead }
{}

/// A written DIS is read as its bits 1 to 24: as itself where it has no others, as no DIS has that was
/// read.
pub fn written_dis_are_read()
    ensures written { WrittenDisAreRead }
    ensures themselves { WrittenDisAreThemselves }
    ensures read { ReadDisHas24Bits }
{}

/// A written frame with no information field is read as itself.
pub fn written_plain_are_read()
    ensures { WrittenPlainAreRead }
{}

/// Bit n of a DIS, and of the number that a DCS is read from, is bit n of the information field.
pub fn bits_stand_in_order()
    ensures dis { DisBitsStandInOrder }
    ensures bits { BitsStandInOrder }
{}

/// A code of several bits is spelt by them, the first one the most significant.
pub fn codes_are_spelt()
    ensures { CodesAreSpelt }
{}
