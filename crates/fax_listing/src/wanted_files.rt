//! What is made of pages that wait.

/// What is made of pages that wait.
#[derive(Clone, Copy)]
pub enum WantedFiles<'a> {
    /// Nothing: they are listed alone.
    Nothing,
    /// A picture of each, in a file whose name begins so.
    Pictures(&'a str),
    /// One TIFF of all of them, in a file of this name.
    Tiff(&'a str),
}
