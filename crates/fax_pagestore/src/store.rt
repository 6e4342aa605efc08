//! Pages, over any store of rows.
ghost use Rattle.std.specs.Prelude.{List, [], ◌≡◌, ◌<◌, ◌≤◌, ◌^◌, ◌++◌, ◌∷◌, length, take, vec_len, slice_get, Some, OnOk, OnErr, IfErr, IfOk};
ghost use Rattle.fax_runcodes.specs.Rows.{Elements};
ghost use Rattle.fax_runcodes.specs.Widths.{elements_of};
ghost use Rattle.fax_pagestore.specs.Octets.{octets_of_page, octets_of_row};
ghost use Rattle.fax_pagestore.specs.PageRows.{AreRows};

mod packed;

use crate::Format;
use fax_bits::NoMemory;
use fax_runcodes::{Row, RowRef};
pub use packed::PackedRows;
use std::alloc::Global;
use std::marker::Model;

/// How many octets the entry of a row takes.
const ENTRY: u64 = 16;

/// How many octets a changing place takes.
const PLACE: u64 = 2;

/// Rows in order, fewer than 2^32 of them.
pub trait RowStore: Drop + Sized {
    ghost use Rattle.std.specs.Prelude.{List, [], ◌≡◌, ◌<◌, ◌≤◌, ◌^◌, ◌++◌, ◌∷◌, length, take, vec_len, slice_get, Some, OnOk, OnErr, IfErr, IfOk};
    ghost use Rattle.fax_runcodes.specs.Rows.{Elements};
    ghost use Rattle.fax_pagestore.specs.Octets.{octets_of_rows};

    /// The rows that it has.
    ghost rows: { Self → List Elements };

    /// A store of no rows. It takes no memory.
    fn empty(alloc: Global) -> Self
        ensures { rows result ≡ [] };

    /// Adds a row, or hands it back for want of memory or where it would be the 2^32nd.
    fn push(&mut self, row: Row) -> Result<(), Row>
        ensures pushed { OnOk result (rows self.new ≡ rows self.old ++ row ∷ []) }
        ensures back { IfErr result (λ back. back ≡ row) }
        ensures err { OnErr result (rows self.new ≡ rows self.old) };

    /// Adds a row that is lent, or leaves the store as it was for want of memory or where it would be the
    /// 2^32nd.
    fn push_lent(&mut self, row: &RowRef<'_>) -> Result<(), NoMemory>
        ensures pushed { OnOk result (rows self.new ≡ rows self.old ++ row.now ∷ []) }
        ensures err { OnErr result (rows self.new ≡ rows self.old) };

    /// How many rows it has. It takes no memory.
    fn len(&self) -> u32
        ensures { result ≡ length (rows self.now) };

    /// Row i, counted from 0.
    fn row(&self, i: u32) -> Result<Row, NoMemory>
        requires { i < length (rows self.now) }
        ensures { IfOk result (λ row. slice_get (rows self.now) i ≡ Some row) };

    /// Row i, counted from 0, lent. It takes no memory.
    fn lend(&self, i: u32) -> RowRef<'_>
        requires { i < length (rows self.now) }
        ensures { slice_get (rows self.now) i ≡ Some result };

    /// Keeps the first n rows. It takes no memory.
    fn cut(&mut self, n: u32)
        requires { n ≤ length (rows self.old) }
        ensures { rows self.new ≡ take n (rows self.old) };

    /// How many octets its rows take in memory where they stand side by side, as far as their lengths say: 16 each, and 2
    /// for each changing place. It takes no memory.
    fn held(&self) -> u64
        ensures { result ≡ octets_of_rows (rows self.now) };
}

/// A store of rows one by one.
#[derive(Drop)]
pub struct PlainRows {
    rows: Vec<Row>,
    ghost few: { vec_len rows < 2 ^ 32 },
}

impl RowStore for PlainRows {
    ghost rows = { λ store. store.rows.items };

    fn empty(alloc: Global) -> Self {
        PlainRows {
            rows: Vec::new(alloc),
        }
    }

    fn push(&mut self, row: Row) -> Result<(), Row> {
        if self.rows.len() >= u32::MAX as usize {
            return Err(row);
        }
        self.rows.push(row).map_err(|refused| refused.value)
    }

    fn push_lent(&mut self, row: &RowRef<'_>) -> Result<(), NoMemory> {
        let row = row.to_row(*self.rows.allocator())?;
        self.push(row).map_err(|_| NoMemory)
    }

    fn len(&self) -> u32 {
        self.rows.len() as u32
    }

    fn row(&self, i: u32) -> Result<Row, NoMemory> {
        self.rows[i as usize].copy()
    }

    fn lend(&self, i: u32) -> RowRef<'_> {
        self.rows[i as usize].lend()
    }

    fn cut(&mut self, n: u32) {
        self.rows.truncate(n as usize);
    }

    /// It goes over all rows.
    fn held(&self) -> u64 {
        let mut held = 0;
        for row in &self.rows {
            held += held_by_row(&row.lend());
        }
        held
    }
}

/// How many octets a row takes where it stands beside others.
fn held_by_row(row: &RowRef<'_>) -> u64
    ensures octets { result ≡ octets_of_row row.now }
    ensures few { result ≤ 4880 }
{
    // what it ensures bounds the number of changing places
    let _ = row.width();
    ENTRY + PLACE * row.changes().len() as u64
}

/// A page: a format, and 1 to 65,535 rows of its width. Seen as these, whatever the store.
pub struct Page<S: RowStore> {
    format: Format,
    rows: S,
}

impl<S: RowStore> Drop for Page<S> {
    fn drop(self) {
        let Page {
            format: _format,
            rows: _rows,
        } = self;
    }
}

impl<S: RowStore> Model for Page<S> {
    ghost use Rattle.fax_runcodes.specs.Widths.{elements_of};
    ghost use Rattle.fax_pagestore.specs.PageRows.{AreRows};
    ghost use Rattle.fax_pagestore.specs.Pages.{PageValue};

    ghost Value = { PageValue };

    ghost view = { λ page. record { format = page.format; rows = S.rows page.rows } };

    ghost invariant = { λ page. AreRows (elements_of page.format.width) (S.rows page.rows) };
}

impl<S: RowStore> Page<S> {
    /// The page of these rows.
    pub fn new(format: Format, rows: S) -> Self
        requires { AreRows (elements_of format.width) (S.rows rows) }
        ensures { result ≡ record { format = format; rows = S.rows rows } }
    {
        Page { format, rows }
    }

    /// Its format.
    pub fn format(&self) -> Format
        ensures { result ≡ self.now.format }
    {
        self.format
    }

    /// Its store of rows.
    pub fn rows(&self) -> &S
        ensures same { S.rows result.now ≡ self.now.rows }
        ensures are_rows { AreRows (elements_of self.now.format.width) self.now.rows }
    {
        &self.rows
    }

    /// How many octets it holds in memory, as [`RowStore::held`] says it. It takes no memory.
    pub fn held(&self) -> u64
        ensures octets { result ≡ octets_of_page self.now }
        ensures few { result < 2 ^ 29 }
    {
        self.rows.held()
    }
}
