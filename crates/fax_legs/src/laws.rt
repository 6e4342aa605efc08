//! Laws of the definitions: functions that do nothing, each of whose contracts is a theorem.
ghost use Rattle.fax_legs.specs.BoundingLaws.{DatagramsAreCut, NoneIsTooLong, OthersGoAsTheyAre};
ghost use Rattle.fax_legs.specs.HandingLaws.{NothingOldIsSent};
ghost use Rattle.fax_legs.specs.HangUps.{GoodbyesAreExpected};

/// Whatever datagrams came in a call, a goodbye has the number that its receiver expects.
pub fn goodbyes_are_expected()
    ensures { GoodbyesAreExpected }
{}

/// Of each datagram as many packets before its own are sent as the bounds allow, the nearest first.
pub fn datagrams_are_cut()
    ensures { DatagramsAreCut }
{}

/// Octets that are no datagram of a sender go as they are.
pub fn others_go_as_they_are()
    ensures { OthersGoAsTheyAre }
{}

/// No datagram is longer than its bound, but one that has its own packet alone.
pub fn none_is_too_long()
    ensures { NoneIsTooLong }
{}

/// No datagram that goes to a peer has a packet that was handed over while there was none: a peer who comes late hears nothing old.
pub fn nothing_old_is_sent()
    ensures { NothingOldIsSent }
{}
