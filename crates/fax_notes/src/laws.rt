//! Laws of what is noted: functions that do nothing, each of whose contracts is a theorem.
ghost use Rattle.fax_notes.specs.Notes.{KeepsAnswers, KeepsCalls};

/// Notes of an answerer's pieces are of what was told, in its order: a note for each frame, each signal that begins and each that
/// ends, and no other, where memory was not lacking.
pub fn keeps_answers()
    ensures { KeepsAnswers }
{}

/// The same of a caller's.
pub fn keeps_calls()
    ensures { KeepsCalls }
{}
