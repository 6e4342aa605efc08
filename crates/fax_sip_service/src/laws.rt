//! Laws of the definitions: functions that do nothing, each of whose contracts is a theorem.
ghost use Rattle.fax_sip_service.specs.Laws.{EachWordIsSaid};
ghost use Rattle.fax_sip_service.specs.Peers.{PeersAreOfTheirJobs};

/// Whatever happens to the service, what its switch has to say to lines is said at the desk, each word once and in its order, while no memory is refused.
pub fn each_word_is_said()
    ensures { EachWordIsSaid }
{}

/// A page goes to the machine that its job's number calls: whatever happens to the service, each peer that it says of a called leg was
/// described by a message in the call that the newest dial of that line began, over the route of the number in the tag of that job.
pub fn peers_are_of_their_jobs()
    ensures { PeersAreOfTheirJobs }
{}
