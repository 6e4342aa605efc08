//! Laws of the definitions: functions that do nothing, each of whose contracts is a theorem.
ghost use Rattle.fax_say.specs.Laws.{AnswersAreKnown, NoneIsPassedOver, OneAnswer};

/// Each answer of a server is known as the last line that it is.
pub fn answers_are_known()
    ensures { AnswersAreKnown }
{}

/// What comes has one answer at its front.
pub fn one_answer()
    ensures { OneAnswer }
{}

/// Where one stands there, what comes is not without an answer.
pub fn none_is_passed_over()
    ensures { NoneIsPassedOver }
{}
