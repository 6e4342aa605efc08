//! Laws of the definitions: functions that do nothing, each of whose contracts is a theorem.
ghost use Rattle.fax_desk.specs.Laws.{AnsweredOnce, AnswersWhatWasDone, NoCallEndsForAReload, NoRingBeyondTheMemory, NoRingOnAFullLine, NoRingWhileStopping, NoRingWithoutASpool, OrdersTheNamed};

/// Each word is answered once, in the order in which they came.
pub fn words_are_answered_once()
    ensures { AnsweredOnce }
{}

/// Who is answered after an order gave it by the word just before, and is answered what its line answered to it.
pub fn answers_are_what_was_done()
    ensures { AnswersWhatWasDone }
{}

/// An order goes to the line that was named.
pub fn orders_go_to_the_named_line()
    ensures { OrdersTheNamed }
{}

/// No ring is ordered by a server that stops, or whose lines take no call any more, since another run is to serve them.
pub fn no_ring_while_stopping()
    ensures { NoRingWhileStopping }
{}

/// No ring is ordered while the spool takes no page.
pub fn no_ring_without_a_spool()
    ensures { NoRingWithoutASpool }
{}

/// No ring is ordered of a line of which as many pages wait as may.
pub fn no_ring_on_a_full_line()
    ensures { NoRingOnAFullLine }
{}

/// No ring is ordered whose line may come to hold more than the others leave of what all together may hold.
pub fn no_ring_beyond_the_memory()
    ensures { NoRingBeyondTheMemory }
{}

/// No call ends for it that the configuration is to be served by another run.
pub fn no_call_ends_for_a_reload()
    ensures { NoCallEndsForAReload }
{}
