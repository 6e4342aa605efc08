//! Laws of the definitions: functions that do nothing, each of whose contracts is a theorem.
ghost use Rattle.fax_mhcode.specs.Laws.{TextsAreUnique, LinesDontFail, FaultsAreUnique, LinesAreReadOrFail, WrittenLinesAreSpelt, WrittenLinesAreUnique, RowsAreWritten};

/// A text spells at most one row of a width, and is no proper front of another row's text.
pub fn texts_are_unique()
    ensures { TextsAreUnique }
{}

/// Reading what begins with a line meets no fault.
pub fn lines_dont_fail()
    ensures { LinesDontFail }
{}

/// Reading a line meets at most one fault.
pub fn faults_are_unique()
    ensures { FaultsAreUnique }
{}

/// Any bits begin with a line of a width, or reading one meets a fault.
pub fn lines_are_read_or_fail()
    ensures { LinesAreReadOrFail }
{}

/// The bits in which a row is written spell it.
pub fn written_lines_are_spelt()
    ensures { WrittenLinesAreSpelt }
{}

/// A row that has an element is written in one way only.
pub fn written_lines_are_unique()
    ensures { WrittenLinesAreUnique }
{}

/// A row is written in some way.
pub fn rows_are_written()
    ensures { RowsAreWritten }
{}
