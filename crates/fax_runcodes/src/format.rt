//! What kind of page rows belong to.
use crate::Width;

/// The width of a page's rows, and whether its resolution is the fine one (ITU-T T.4, 2).
#[derive(Clone, Copy, PartialEq, Eq)]
pub struct Format {
    pub width: Width,
    pub fine: bool,
}

/// How lines are coded.
#[derive(Clone, Copy, PartialEq, Eq)]
pub enum Coding {
    /// Each line in one dimension (ITU-T T.4, 4.1).
    Mh,
    /// Some lines in two dimensions; a tag bit after each EOL tells which (ITU-T T.4, 4.2).
    Mr,
}
