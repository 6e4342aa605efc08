//! The code words of each colour: by the bits that begin with them, and by the runs that they stand for.
pub(crate) mod black;
pub(crate) mod pairs;
pub(crate) mod white;
pub(crate) mod written;

/// A code word: the run that it stands for, in elements, and how many bits it has.
#[derive(Clone, Copy, PartialEq, Eq)]
pub struct CodeWord {
    pub run: u16,
    pub bits: u16,
}

/// The run of an answer that there is no word: longer than that of each word.
pub(crate) const NO_RUN: u16 = 4095;

/// What stands where no word begins the bits.
pub(crate) const NO_WORD: CodeWord = CodeWord {
    run: NO_RUN,
    bits: 0,
};

impl CodeWord {
    ghost use Rattle.std.specs.Prelude.{◌≡◌, ◌↔◌, IsTrue};
    ghost use Rattle.fax_runcodes.specs.Lookups.{no_run};

    /// Whether it is the answer that there is no word.
    #[inline]
    pub fn is_none(self) -> bool
        ensures { IsTrue result ↔ (self.run ≡ no_run) }
    {
        self.run == NO_RUN
    }
}

/// A white word with a black one after it, both of runs that are short and not empty: how many bits both
/// words have, and the lengths of the runs, in elements. It is loaded as four octets, and its bits stand in
/// the lowest, since the next look-up waits for them.
#[derive(Clone, Copy, PartialEq, Eq)]
pub struct WordPair {
    pub bits: u8,
    pub white: u8,
    pub black: u16,
}
