//! Changing places of a row.
ghost use Rattle.std.specs.Prelude.{◌≡◌, slice_index_or};

/// The changing place of an index, or the width where there is none.
#[inline]
pub(crate) fn place_at(changes: &[u16], index: usize, width: u16) -> u16
    ensures { result ≡ slice_index_or changes.now index width }
{
    changes.get(index).copied().unwrap_or(width)
}
