//! Rows made of run lengths, one after the other.
ghost use Rattle.std.specs.Prelude.{◌≡◌, ◌≤◌, ◌<◌, ◌++◌, List, [], ℕ, length, take, drop, sum, All, IfSome, IfNone, IsNone, vec_capacity};
ghost use Rattle.fax_runcodes.specs.Rows.{Elements, IsWidth, AreRuns, AreRunsOfRow};
ghost use Rattle.fax_runcodes.specs.Widths.{elements_of};
ghost use Rattle.fax_runcodes.specs.Painted.{changes_between};

use crate::{RowBuilder, Width};

impl RowBuilder {
    /// Makes the row of a width whose run lengths, white first, stand in front of these, in place of what
    /// was painted, and answers how many they are; `None` where those of no such row do, and then it has
    /// no elements. It takes no memory.
    pub fn paint_row(&mut self, runs: &[u16], width: Width) -> Option<usize>
        ensures runs { IfSome result
            (λ count. AreRuns (take count runs.now) self.new × (count ≤ length runs.now)) }
        ensures width { IfSome result (λ _. length self.new ≡ elements_of width) }
        ensures none { IfNone result ((row : Elements) (first more : List ℕ)
            → length row ≡ elements_of width → AreRuns first row → runs.now ≡ first ++ more → ⊥) }
        ensures empty { IsNone result → self.new ≡ [] }
    {
        self.clear();
        let elements = width.elements();
        match push_ends(&mut self.changes, runs, elements) {
            Some(count) => {
                self.len = elements;
                Some(count)
            }
            None => {
                self.changes.clear();
                None
            }
        }
    }
}

/// Pushes where each run but the last ends, of the runs in front that add to a width, and answers how
/// many runs they are; `None` where no runs in front do, or one of them but the first is 0.
#[inline]
fn push_ends(ends: &mut Vec<u16>, runs: &[u16], width: u16) -> Option<usize>
    requires empty { ends.old.items ≡ [] }
    requires room { width ≤ vec_capacity ends.old }
    requires is_width { IsWidth width }
    ensures runs { IfSome result (λ count. AreRunsOfRow (take count runs.now)
        × (sum (take count runs.now) ≡ width) × (count ≤ length runs.now)) }
    ensures ends { IfSome result
        (λ count. ends.new.items ≡ changes_between 0 (take count runs.now)) }
    ensures none { IfNone result ((count : ℕ) → sum (take count runs.now) ≡ width
        → All (λ n. 0 < n) (drop 1 (take count runs.now)) → ⊥) }
    ensures room { vec_capacity ends.old ≤ vec_capacity ends.new }
{
    let mut place = 0;
    for i in 0..runs.len() {
        let run = runs[i];
        if run > width - place || (run == 0 && i > 0) {
            return None;
        }
        place += run;
        if place == width {
            return Some(i + 1);
        }
        ends.push_reserved(place);
    }
    None
}
