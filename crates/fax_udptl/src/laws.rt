//! Laws of the definitions: functions that do nothing, each of whose contracts is a theorem.
ghost use Rattle.std.specs.Prelude.{[], ◌≡◌};
ghost use Rattle.fax_udptl.specs.Laws.{NewestOfDecided, NewestSlotsGoOn, OneIntegerIsNearest, SlotsAreDecided, SlotsGoOn, WrittenIsRead};
ghost use Rattle.fax_udptl.specs.Schedules.{SendersSendTheirList, SlotsAreAPart, SlotsAreSent};
ghost use Rattle.fax_udptl.specs.Slots.{newest_slots};

/// What is nearest to an expected integer agrees with the number modulo 65,536 and lies near, and nothing
/// else does.
pub fn one_integer_is_nearest()
    ensures { OneIntegerIsNearest }
{}

/// Each slot up to the greatest integer is decided, and no other.
pub fn slots_are_decided()
    ensures { SlotsAreDecided }
{}

/// One more datagram adds slots after those that were decided.
pub fn slots_go_on()
    ensures { SlotsGoOn }
{}

/// What one more datagram decides stands before the slots so far where the newest slot comes first, and
/// there is none before the first datagram.
pub fn newest_slots_go_on()
    ensures at_first { newest_slots [] ≡ [] }
    ensures one_more { NewestSlotsGoOn }
{}

/// Where the newest slot comes first, the packets that are decided stand before the slots that are missing.
pub fn decided_are_lost_then_packets()
    ensures { NewestOfDecided }
{}

/// A written datagram is read as itself.
pub fn written_is_read()
    ensures { WrittenIsRead }
{}

/// Over every honest schedule each slot that is decided is missing or is the sender's packet of its place, where all places
/// are shifted by one multiple of 65,536; and the slots are a part of the sender's list, one place after the other, from
/// its first packet on where the first datagram reaches back to that.
pub fn slots_are_sent()
    ensures each { SlotsAreSent }
    ensures in_a_row { SlotsAreAPart }
{}

/// The datagrams that a sender gives are those of its list of packets, each at its place, whatever its redundancy.
pub fn senders_send_their_list()
    ensures { SendersSendTheirList }
{}
