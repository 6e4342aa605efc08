//! Laws of the definitions: functions that do nothing, each of whose contracts is a theorem.
ghost use Rattle.fax_runcodes.specs.RowLaws.{RunsOfRowsAreUnique};
ghost use Rattle.fax_runcodes.specs.Laws.{WordsArePrefixFree, RunsAreUnique, RunsAreReadOrFail, WrittenRunsAreSpelt};

/// No code word of a colour begins another one of it.
pub fn words_are_prefix_free()
    ensures { WordsArePrefixFree }
{}

/// Bits spell at most one run of a colour.
pub fn runs_are_unique()
    ensures { RunsAreUnique }
{}

/// Of any bits a run is read, or reading one meets a fault.
pub fn runs_are_read_or_fail()
    ensures { RunsAreReadOrFail }
{}

/// The bits in which a run below 2624 is written spell it.
pub fn written_runs_are_spelt()
    ensures { WrittenRunsAreSpelt }
{}

/// A row has one list of runs.
pub fn runs_of_rows_are_unique()
    ensures { RunsOfRowsAreUnique }
{}
