//! What a run of `faxgate page` is told to do.
use fax_pagestore::{Coding, Format};

/// What is made of an input.
#[derive(Clone, Copy, PartialEq, Eq)]
pub enum Output {
    /// The run lengths of a page's rows, a line a row. The input is the page's octets as hex text.
    Runs,
    /// The page as a picture (PBM). The input is the same.
    Picture,
    /// The octets of a page as hex text. The input is the lines of its rows.
    Octets,
}

/// What a run is told to do.
#[derive(Clone, Copy, PartialEq, Eq)]
pub struct PageOptions {
    /// The width of the page's rows, and its resolution.
    pub format: Format,
    /// How its lines are coded.
    pub coding: Coding,
    /// The least number of bits that a line is written with, fill and EOL included.
    pub least_bits: u32,
    pub output: Output,
}
