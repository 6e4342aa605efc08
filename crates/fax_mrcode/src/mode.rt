//! The modes of two-dimensional coding (ITU-T T.4, 4.2.1.3, table 4/T.4).

/// How far a1 lies from b1, in elements.
#[derive(Clone, Copy, PartialEq, Eq)]
pub enum Offset {
    Left3,
    Left2,
    Left1,
    Zero,
    Right1,
    Right2,
    Right3,
}

impl Offset {
    ghost use Rattle.std.specs.Prelude.{◌≡◌, ◌≤◌, ◌+◌, ◌↔◌, ℕ};
    ghost use Rattle.fax_mrcode.specs.Modes.{IsAt};

    /// How far it lies right of `Left3`, in elements.
    #[inline]
    pub(crate) fn right_of_left3(self) -> u16
        ensures at { (a1 b1 : ℕ) → IsAt self a1 b1 ↔ (a1 + 3 ≡ b1 + result) }
        ensures few { result ≤ 6 }
    {
        match self {
            Offset::Left3 => 0,
            Offset::Left2 => 1,
            Offset::Left1 => 2,
            Offset::Zero => 3,
            Offset::Right1 => 4,
            Offset::Right2 => 5,
            Offset::Right3 => 6,
        }
    }
}

/// A mode of two-dimensional coding.
#[derive(Clone, Copy, PartialEq, Eq)]
pub enum Mode {
    Pass,
    Horizontal,
    Vertical(Offset),
}
