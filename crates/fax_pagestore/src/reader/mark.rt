//! A mark of what a reader was.

use super::settled::Settled;
use crate::{Coding, Format};
use std::marker::Model;

/// What a reader was at some time, but for its rows, of which it has the number.
#[derive(Drop)]
pub struct Mark {
    pub(super) format: Format,
    pub(super) coding: Coding,
    pub(super) count: u32,
    pub(super) octets: Vec<u8>,
    pub(super) used: u32,
    pub(super) tag: Option<bool>,
    pub(super) zeros: u32,
    pub(super) settled: Option<Settled>,
}

impl Model for Mark {
    ghost use Rattle.std.specs.Prelude.{◌≡◌, ◌<◌, ◌≤◌, ◌*◌, Some, drop, length};
    ghost use Rattle.fax_bits.specs.Bits.{bits_of};
    ghost use Rattle.fax_pagestore.specs.declared.reader.settled.Settled.TheVariants.{Page};
    ghost use Rattle.fax_pagestore.specs.Readers.{MarkValue, most_octets};

    ghost Value = { MarkValue };

    ghost view = { λ m. record {
      format = m.format;
      coding = m.coding;
      count = m.count;
      tag = m.tag;
      left = drop m.used (bits_of m.octets.items);
      zeros = m.zeros;
      settled = m.settled;
    } };

    ghost invariant = { λ m. (m.used ≤ 8 * length m.octets.items)
        × (m.settled ≡ Some Page → 0 < m.count)
        × (m.used < 8) × (length m.octets.items ≤ most_octets) };
}
