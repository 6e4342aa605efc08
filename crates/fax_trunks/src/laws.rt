//! Laws of the definitions: functions that do nothing, each of whose contracts is a theorem.
ghost use Rattle.fax_trunks.specs.RegistrationLaws.{CredentialsAreSentOnce, RefreshLeavesTime, RefreshesInTime, RefusalsAreTriedAgain, RegistersApart, RegistrationEnds, RegistrationRests};
ghost use Rattle.fax_trunks.specs.SlowHostLaws.{FailureIsRemembered, FailureKeepsOthers, SuccessIsForgotten, SuccessKeepsOthers};

/// While answers come a registration does not lapse: whatever happens after a grant, a REGISTER goes out before that is over.
pub fn a_registration_is_refreshed()
    ensures sent { RefreshesInTime }
    ensures time { RefreshLeavesTime }
{}

/// Two REGISTERs, but for those that answer a challenge, are the least pause apart, whatever happens, where time does not go back.
pub fn registers_are_apart()
    ensures { RegistersApart }
{}

/// A challenge is answered once for each REGISTER, and once more where its nonce alone was too old, whatever a registrar says.
pub fn credentials_are_sent_once()
    ensures { CredentialsAreSentOnce }
{}

/// After a refusal the next REGISTER is due within 30 minutes, and after 30 s at least, whatever happened before.
pub fn refusals_are_tried_again()
    ensures { RefusalsAreTriedAgain }
{}

/// A registration ends within 64 s of its end, whatever happens.
pub fn a_registration_ends()
    ensures { RegistrationEnds }
{}

/// Before what is due next, time changes nothing in a registration.
pub fn a_registration_rests()
    ensures { RegistrationRests }
{}

/// Whatever was remembered of hosts, what is remembered of one whose credentials were refused is this failure, with its pause. What is
/// remembered of others stays, where there is room.
pub fn a_failure_is_remembered()
    ensures failure { FailureIsRemembered }
    ensures others { FailureKeepsOthers }
{}

/// After its success nothing is remembered of a host, and of others what was.
pub fn a_success_is_forgotten()
    ensures success { SuccessIsForgotten }
    ensures others { SuccessKeepsOthers }
{}
