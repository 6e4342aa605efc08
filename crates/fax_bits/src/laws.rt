//! Laws of the definitions: functions that do nothing, each of whose contracts is a theorem.
ghost use Rattle.fax_bits.specs.Laws.{BitsStandInOrder, PaddingIsUnique};

/// Bit i of octets, counted from 0, is bit 7 - i mod 8 of octet i div 8.
pub fn bits_stand_in_order()
    ensures { BitsStandInOrder }
{}

/// Bits are padded to one list of octets only.
pub fn padding_is_unique()
    ensures { PaddingIsUnique }
{}
