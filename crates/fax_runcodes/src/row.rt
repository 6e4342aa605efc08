//! Rows, kept as their changing places.
ghost use Rattle.std.specs.Prelude.{◌≡◌, ℕ, List, IfNone, take, ◌+◌, ◌<◌, ◌≤◌, ◌^◌, ◌++◌, [], ◌⊎◌, length, replicate, drop, sum, All, slice_get, Some, IfOk, IfSome, IsSome, IsNone, IsTrue, ◌↔◌};
ghost use Rattle.fax_runcodes.specs.Rows.{IsWidth, AreRunsOfRow};
ghost use Rattle.fax_runcodes.specs.declared.Colour.TheVariants.{White, Black};
ghost use Rattle.fax_runcodes.specs.Painted.{painted, changes_between, AreRising};

mod painting;
mod pixels;
mod turning;

use crate::{Colour, RowFault};
use fax_bits::NoMemory;
use std::alloc::{AllocError, Global};
use std::marker::Model;

/// The longest row, in elements.
pub const MOST_ELEMENTS: u16 = 2432;

/// A row of a page.
pub struct Row {
    changes: Vec<u16>,
    width: u16,
}

impl Drop for Row {
    fn drop(self) {
        let Row {
            changes: _changes,
            width: _width,
        } = self;
    }
}

impl Model for Row {
    ghost use Rattle.fax_runcodes.specs.Rows.{Elements, IsWidth};
    ghost use Rattle.fax_runcodes.specs.Painted.{painted, AreRising};
    ghost use Rattle.fax_runcodes.specs.declared.Colour.TheVariants.{White};

    ghost Value = { Elements };

    ghost view = { λ r. painted White 0 r.changes.items r.width };

    ghost invariant = { λ r. AreRising 0 r.changes.items r.width × IsWidth r.width };
}

/// Run lengths, which contracts see as their list.
pub struct Runs {
    runs: Vec<u16>,
}

impl Drop for Runs {
    fn drop(self) {
        let Runs { runs: _runs } = self;
    }
}

impl Model for Runs {
    ghost use Rattle.std.specs.Prelude.{List, ℕ};

    ghost Value = { List ℕ };

    ghost view = { λ r. r.runs.items };
}

impl Runs {
    /// The lengths in order. It takes no memory.
    pub fn as_slice(&self) -> &[u16]
        ensures { result.now ≡ self.now }
    {
        self.runs.as_slice()
    }
}

impl Row {
    ghost use Rattle.fax_runcodes.specs.Rows.{AreRuns, AreChanges, stretches};
    ghost use Rattle.fax_runcodes.specs.declared.Colour.TheVariants.{White};

    /// The row of such run lengths, white first. They are judged before any memory is taken, and the
    /// row is made in one allocation of just its size.
    pub fn from_runs(alloc: Global, runs: &[u16]) -> Result<Row, RowFault>
        ensures ok { IfOk result (λ row. AreRunsOfRow runs.now × (row ≡ stretches White runs.now)) }
        ensures made { AreRunsOfRow runs.now
            → (result ≡ Ok (stretches White runs.now)) ⊎ (result ≡ Err RowFault.NoMemory) }
        ensures refused { (AreRunsOfRow runs.now → ⊥) → result ≡ Err RowFault.BadRuns }
    {
        let width = width_of(runs).ok_or(RowFault::BadRuns)?;
        let changes = changes_of(alloc, runs)?;
        Ok(Row { changes, width })
    }

    /// The lengths of its runs, white first: alternating, and none but the first is 0.
    pub fn runs(&self) -> Result<Runs, NoMemory>
        ensures { IfOk result (λ runs. AreRuns runs self.now) }
    {
        let mut runs = Vec::with_capacity(*self.changes.allocator(), self.changes.len() + 1)?;
        let mut from = 0;
        for place in &self.changes {
            runs.push_reserved(*place - from);
            from = *place;
        }
        runs.push_reserved(self.width - from);
        Ok(Runs { runs })
    }

    /// The places at which the colour changes, rising. It takes no memory.
    pub fn changes(&self) -> &[u16]
        ensures rising { AreRising 0 result.now (length self.now) }
        ensures painted { self.now ≡ painted White 0 result.now (length self.now) }
        ensures changes { AreChanges result.now self.now }
    {
        self.changes.as_slice()
    }

    /// The colour of element i.
    pub fn colour_at(&self, i: u16) -> Colour
        requires { i < length self.now }
        ensures { slice_get self.now i ≡ Some result }
    {
        Colour::after_changes(self.changes.as_slice().partition_point(|place| *place <= i))
    }

    /// An equal row.
    pub fn copy(&self) -> Result<Row, NoMemory>
        ensures { IfOk result (λ row. row ≡ self.now) }
    {
        Ok(Row {
            changes: Vec::from_slice(*self.changes.allocator(), self.changes.as_slice())?,
            width: self.width,
        })
    }

    /// The row, lent. It takes no memory.
    #[inline]
    pub fn lend(&self) -> RowRef<'_>
        ensures { result ≡ self.now }
    {
        RowRef {
            places: self.changes.as_slice(),
            elements: self.width,
        }
    }

    /// How many elements it has: 1728, 2048 or 2432.
    pub fn width(&self) -> u16
        ensures len { result ≡ length self.now }
        ensures is_width { IsWidth result }
    {
        self.width
    }
}

/// A row that is lent by what keeps it.
#[derive(Drop)]
pub struct RowRef<'a> {
    places: &'a [u16],
    elements: u16,
}

impl<'a> Model for RowRef<'a> {
    ghost use Rattle.fax_runcodes.specs.Rows.{Elements, IsWidth};
    ghost use Rattle.fax_runcodes.specs.Painted.{painted, AreRising};
    ghost use Rattle.fax_runcodes.specs.declared.Colour.TheVariants.{White};

    ghost Value = { Elements };

    ghost view = { λ r. painted White 0 r.places.now r.elements };

    ghost invariant = { λ r. AreRising 0 r.places.now r.elements × IsWidth r.elements };
}

impl<'a> RowRef<'a> {
    ghost use Rattle.fax_runcodes.specs.Rows.{AreRuns, AreChanges};
    ghost use Rattle.fax_runcodes.specs.declared.Colour.TheVariants.{White};

    /// The row of these places at which the colour changes, rising, and of this width.
    #[inline]
    pub fn from_changes(changes: &'a [u16], width: u16) -> Self
        requires rising { AreRising 0 changes.now width }
        requires is_width { IsWidth width }
        ensures { result ≡ painted White 0 changes.now width }
    {
        RowRef {
            places: changes,
            elements: width,
        }
    }

    /// The places at which the colour changes, rising.
    #[inline]
    pub fn changes(&self) -> &'a [u16]
        ensures rising { AreRising 0 result.now (length self.now) }
        ensures painted { self.now ≡ painted White 0 result.now (length self.now) }
        ensures changes { AreChanges result.now self.now }
    {
        self.places
    }

    /// How many elements it has: 1728, 2048 or 2432.
    #[inline]
    pub fn width(&self) -> u16
        ensures len { result ≡ length self.now }
        ensures is_width { IsWidth result }
    {
        self.elements
    }

    /// An equal row, in memory of just its size.
    pub fn to_row(&self, alloc: Global) -> Result<Row, NoMemory>
        ensures { IfOk result (λ row. row ≡ self.now) }
    {
        Ok(Row {
            changes: Vec::from_slice(alloc, self.places)?,
            width: self.elements,
        })
    }

    /// Puts the lengths of its runs, white first, at the start of a slice, and answers how many they are;
    /// `None` where the slice has no room for them. It takes no memory.
    pub fn put_runs(&self, runs: &mut [u16]) -> Option<usize>
        ensures some { IfSome result
            (λ count. AreRuns (take count runs.new) self.now × (count ≤ length runs.old)) }
        ensures after { IfSome result (λ count. drop count runs.new ≡ drop count runs.old) }
        ensures same_room { length runs.new ≡ length runs.old }
        ensures none { IfNone result ((list : List ℕ)
            × AreRuns list self.now × (length runs.old < length list)) }
        ensures untouched { IsNone result → runs.new ≡ runs.old }
    {
        let places = self.places;
        if runs.len() <= places.len() {
            return None;
        }
        let mut from = 0;
        for i in 0..places.len() {
            let place = places[i];
            runs[i] = place - from;
            from = place;
        }
        runs[places.len()] = self.elements - from;
        Some(places.len() + 1)
    }
}

/// A row that is being made, from left to right. It has room for any row from the start on, and one
/// builder serves row after row.
pub struct RowBuilder {
    changes: Vec<u16>,
    len: u16,
}

impl Drop for RowBuilder {
    fn drop(self) {
        let RowBuilder {
            changes: _changes,
            len: _len,
        } = self;
    }
}

impl Model for RowBuilder {
    ghost use Rattle.std.specs.Prelude.{◌≤◌, vec_capacity};
    ghost use Rattle.fax_runcodes.specs.Rows.{Elements};
    ghost use Rattle.fax_runcodes.specs.Painted.{painted, AreRising};
    ghost use Rattle.fax_runcodes.specs.declared.Colour.TheVariants.{White};

    ghost Value = { Elements };

    ghost view = { λ r. painted White 0 r.changes.items r.len };

    // There is room for a change at each element.
    ghost invariant = { λ r. AreRising 0 r.changes.items r.len
        × (r.len ≤ 2432) × (2432 ≤ vec_capacity r.changes) };
}

impl RowBuilder {
    /// A builder of no elements, with room for the longest row.
    pub fn new(alloc: Global) -> Result<Self, NoMemory>
        ensures { IfOk result (λ row. row ≡ []) }
    {
        Ok(RowBuilder {
            changes: Vec::with_capacity(alloc, usize::from(MOST_ELEMENTS))?,
            len: 0,
        })
    }

    /// How many elements it has so far.
    #[inline]
    pub fn len(&self) -> u16
        ensures len { result ≡ length self.now }
        ensures few { result ≤ 2432 }
    {
        self.len
    }

    /// Adds n elements of a colour. It takes no memory.
    #[inline]
    pub fn paint(&mut self, colour: Colour, n: u16)
        requires { length self.old + n ≤ 2432 }
        ensures { self.new ≡ self.old ++ replicate n colour }
    {
        if n == 0 {
            return;
        }
        if colour != Colour::after_changes(self.changes.len()) {
            self.changes.push_reserved(self.len);
        }
        self.len += n;
    }

    /// Adds a white run and a black one after it, neither of them empty. It takes no memory.
    #[inline]
    pub fn paint_pair(&mut self, white: u16, black: u16)
        requires white { 0 < white }
        requires black { 0 < black }
        requires room { length self.old + white + black ≤ 2432 }
        ensures { self.new ≡ (self.old ++ replicate white White) ++ replicate black Black }
    {
        if Colour::after_changes(self.changes.len()) == Colour::Black {
            self.changes.push_reserved(self.len);
        }
        self.changes.push_reserved(self.len + white);
        self.len += white + black;
    }

    /// Takes away all elements. It takes no memory.
    #[inline]
    pub fn clear(&mut self)
        ensures { self.new ≡ [] }
    {
        self.changes.clear();
        self.len = 0;
    }

    /// The row so far, lent, once it has a width. It takes no memory.
    #[inline]
    pub fn lend(&self) -> RowRef<'_>
        requires { IsWidth (length self.now) }
        ensures { result ≡ self.now }
    {
        RowRef {
            places: self.changes.as_slice(),
            elements: self.len,
        }
    }

    /// The row so far, in memory of just its size, once it has a width. The builder stays as it is.
    pub fn row(&self) -> Result<Row, NoMemory>
        requires { IsWidth (length self.now) }
        ensures { IfOk result (λ row. row ≡ self.now) }
    {
        let changes = Vec::from_slice(*self.changes.allocator(), self.changes.as_slice())?;
        Ok(Row {
            changes,
            width: self.len,
        })
    }
}

/// The width of the row of such run lengths, or `None` where they are no row's.
fn width_of(runs: &[u16]) -> Option<u16>
    ensures judged { IsSome result ↔ AreRunsOfRow runs.now }
    ensures width { IfSome result (λ width. width ≡ sum runs.now) }
{
    let width = sum_of(runs)?;
    (is_width(width) && are_filled(runs)).then_some(width)
}

/// Whether rows are so wide.
fn is_width(n: u16) -> bool
    ensures { IsTrue result ↔ IsWidth n }
{
    matches!(n, 1728 | 2048 | 2432)
}

/// Whether no run but the first is 0.
fn are_filled(runs: &[u16]) -> bool
    ensures { IsTrue result ↔ All (λ n. 0 < n) (drop 1 runs.now) }
{
    runs.iter().skip(1).all(|run| *run > 0)
}

/// The sum of run lengths, or `None` where it is more than a `u16` holds.
fn sum_of(runs: &[u16]) -> Option<u16>
    ensures some { IfSome result (λ total. total ≡ sum runs.now) }
    ensures none { IsNone result → 2 ^ 16 ≤ sum runs.now }
{
    let mut total: u16 = 0;
    for run in runs {
        total = total.checked_add(*run)?;
    }
    Some(total)
}

/// The places at which the colour changes in the row of such run lengths: where each run but the last
/// ends.
fn changes_of(alloc: Global, runs: &[u16]) -> Result<Vec<u16>, AllocError>
    requires { AreRunsOfRow runs.now }
    ensures { IfOk result (λ changes. changes.items ≡ changes_between 0 runs.now) }
{
    let mut changes = Vec::with_capacity(alloc, runs.len() - 1)?;
    let mut place = 0;
    for run in &runs[..runs.len() - 1] {
        place += *run;
        changes.push_reserved(place);
    }
    Ok(changes)
}
