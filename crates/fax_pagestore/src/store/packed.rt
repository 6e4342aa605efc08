//! Rows kept side by side, in two vectors for all of them.
ghost use Rattle.std.specs.Prelude.{◌≡◌, ◌++◌, OnOk, OnErr};

use super::{ENTRY, PLACE, RowStore};
use fax_bits::NoMemory;
use fax_runcodes::{Row, RowRef};
use std::alloc::{AllocError, Global};
use std::marker::Model;

/// A store of rows side by side. A row that is lent to it takes no memory of its own: the two vectors
/// grow by doubling.
pub struct PackedRows {
    /// The changing places of all rows, row after row.
    places: Vec<u16>,
    extents: Vec<Extent>,
}

impl Drop for PackedRows {
    fn drop(self) {
        let PackedRows {
            places: _places,
            extents: _extents,
        } = self;
    }
}

/// Where a row's changing places stand, and its width in elements.
#[derive(Clone, Copy)]
struct Extent {
    start: usize,
    count: u16,
    width: u16,
}

impl Model for PackedRows {
    ghost use Rattle.std.specs.Prelude.{List, ◌<◌, ◌^◌, All, length, map, vec_len};
    ghost use Rattle.fax_runcodes.specs.Rows.{Elements};
    ghost use Rattle.fax_pagestore.specs.PackedRows.{row_at, HasRowAt, AreInOrder, AreSideBySide};

    ghost Value = { List Elements };

    ghost view = { λ r. map (λ e. row_at r.places.items e.start e.count e.width) r.extents.items };

    ghost invariant = { λ r.
        All (λ e. HasRowAt r.places.items e.start e.count e.width) r.extents.items
        × AreInOrder r.extents.items
        × (vec_len r.extents < 2 ^ 32) × AreSideBySide 0 r.extents.items (length r.places.items) };
}

impl RowStore for PackedRows {
    ghost rows = { λ store. store };

    fn empty(alloc: Global) -> Self {
        PackedRows {
            places: Vec::new(alloc),
            extents: Vec::new(alloc),
        }
    }

    fn push(&mut self, row: Row) -> Result<(), Row> {
        if self.push_lent(&row.lend()).is_err() {
            return Err(row);
        }
        Ok(())
    }

    #[inline(always)]
    fn push_lent(&mut self, row: &RowRef<'_>) -> Result<(), NoMemory> {
        if self.extents.len() >= u32::MAX as usize {
            return Err(NoMemory);
        }
        self.extents.reserve(1)?;
        let start = self.places.len();
        let (changes, width) = (row.changes(), row.width());
        append(&mut self.places, changes)?;
        self.extents.push_reserved(Extent {
            start,
            count: changes.len() as u16,
            width,
        });
        Ok(())
    }

    fn len(&self) -> u32 {
        self.extents.len() as u32
    }

    fn row(&self, i: u32) -> Result<Row, NoMemory> {
        self.lend(i).to_row(*self.places.allocator())
    }

    fn lend(&self, i: u32) -> RowRef<'_> {
        let Extent {
            start,
            count,
            width,
        } = self.extents[i as usize];
        RowRef::from_changes(&self.places[start..start + usize::from(count)], width)
    }

    fn cut(&mut self, n: u32) {
        let n = n as usize;
        if n < self.extents.len() {
            // the places of the rows that stay stand before those of the others
            let Extent { start, .. } = self.extents[n];
            self.places.truncate(start);
            self.extents.truncate(n);
        }
    }

    fn held(&self) -> u64 {
        ENTRY * self.extents.len() as u64 + PLACE * self.places.len() as u64
    }
}

/// Adds the changing places of a row. A white row has none, and needs no copy.
#[inline]
fn append(places: &mut Vec<u16>, changes: &[u16]) -> Result<(), AllocError>
    ensures items { OnOk result (places.new.items ≡ places.old.items ++ changes.now) }
    ensures err { OnErr result (places.new.items ≡ places.old.items) }
{
    if changes.is_empty() {
        return Ok(());
    }
    append_some(places, changes)
}

/// Adds them, out of the way of white rows.
#[inline(never)]
fn append_some(places: &mut Vec<u16>, changes: &[u16]) -> Result<(), AllocError>
    ensures items { OnOk result (places.new.items ≡ places.old.items ++ changes.now) }
    ensures err { OnErr result (places.new.items ≡ places.old.items) }
{
    places.extend_from_slice(changes)
}
