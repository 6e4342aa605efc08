//! The code words of ITU-T T.4, the runs that they spell, the rows of a page, and its format and coding.
#![tactic(auto)]

mod fault;
mod format;
pub mod laws;
mod pair;
mod row;
mod run;
mod tables;
mod writing;

pub use fault::{RowFault, RunFault};
pub use format::{Coding, Format};
pub use pair::pair_at;
pub use row::{Row, RowBuilder, RowRef, Runs};
pub use run::{LONGEST_WRITTEN_RUN, read_run, word_at, write_run};
pub use tables::{CodeWord, WordPair};
pub use writing::{put_run, put_two_runs};

/// The colour of an element.
#[derive(Clone, Copy, PartialEq, Eq)]
pub enum Colour {
    White,
    Black,
}

impl Colour {
    ghost use Rattle.std.specs.Prelude.{◌≡◌};
    ghost use Rattle.fax_runcodes.specs.Rows.{other};
    ghost use Rattle.fax_runcodes.specs.Painted.{colour_after_changes};

    /// The other colour.
    #[inline]
    pub fn other(self) -> Colour
        ensures { result ≡ other self }
    {
        match self {
            Colour::White => Colour::Black,
            Colour::Black => Colour::White,
        }
    }

    /// The colour after so many changes of colour, white first.
    #[inline]
    pub fn after_changes(changes: usize) -> Colour
        ensures { result ≡ colour_after_changes changes }
    {
        if changes % 2 == 0 {
            Colour::White
        } else {
            Colour::Black
        }
    }
}

/// The width of a row (ITU-T T.4, 2.1 and 2.2): 1728, 2048 or 2432 elements.
#[derive(Clone, Copy, PartialEq, Eq)]
pub enum Width {
    W1728,
    W2048,
    W2432,
}

impl Width {
    ghost use Rattle.std.specs.Prelude.{◌≡◌};
    ghost use Rattle.fax_runcodes.specs.Widths.{elements_of};

    /// How many elements a row of this width has.
    #[inline]
    pub fn elements(self) -> u16
        ensures { result ≡ elements_of self }
    {
        match self {
            Width::W1728 => 1728,
            Width::W2048 => 2048,
            Width::W2432 => 2432,
        }
    }
}
