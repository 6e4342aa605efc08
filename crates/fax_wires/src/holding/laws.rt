//! Laws of lines whose pages are stored: functions that do nothing, each of whose contracts is a theorem.
ghost use Rattle.std.specs.Prelude.{ℕ, List, ◌∷◌, Option, None, Some};
ghost use Rattle.fax_gateway.specs.declared.leg.Leg.TheVariants as leg_shown;
ghost use Rattle.fax_wires.specs.repeat.Policies.{IsToldAs};
ghost use Rattle.fax_wires.specs.holding.Holding.{HoldingValue, Loses, Holds, HandsOn, Speaks};
ghost use Rattle.fax_wires.specs.holding.Storing.{HasDone, HoldsAfter, LegAction, LogsAreHeld, SilencedUntilTheNextCall, StoredFirst};
ghost use Rattle.fax_wires.specs.holding.Storing.{Begins as BeginsAction};

/// What a turn gives on the calling leg goes out only where each page that it confirms is stored.
pub fn pages_are_stored_first()
    ensures { StoredFirst }
{}

/// Where a page was not stored, nothing goes out on the calling leg until the next call begins, whatever turns follow.
pub fn silenced_until_the_next_call()
    ensures { SilencedUntilTheNextCall }
{}

/// In a turn a wire holds what it is handed on the calling leg, and what it hands on on the called leg changes nothing of that.
pub fn turns_are_held()
    ensures nothing { (actions : List LegAction) (wire : HoldingValue)
        → HasDone actions wire → HoldsAfter actions None wire }
    ensures given { (actions : List LegAction) (octets : List ℕ) (old new : HoldingValue)
        → HasDone actions old → Holds octets old new → HoldsAfter actions (Some octets) new }
    ensures lost { (actions : List LegAction) (old new : HoldingValue)
        → HasDone actions old → Loses old new → HoldsAfter actions None new }
    ensures beside { (actions : List LegAction)
        (given : Option (List ℕ)) (octets : List ℕ) (old new : HoldingValue)
        → HoldsAfter actions given old → HandsOn octets old new → HoldsAfter actions given new }
{}

/// As a turn ends a wire that holds back holds what the turn handed over on the calling leg, unless it is silenced, or the datagram was lost for
/// want of memory; and none of that went out. So it is over any log: its receives and sends are all that is done with the wire.
pub fn logs_are_held()
    ensures { LogsAreHeld }
{}

/// The next call begins after the actions so far.
pub fn calls_begin()
    ensures { (actions : List LegAction) (old new : HoldingValue)
        → HasDone actions old → Speaks leg_shown.Calling old new
        → IsToldAs old.wire new.wire → HasDone (BeginsAction ∷ actions) new }
{}
