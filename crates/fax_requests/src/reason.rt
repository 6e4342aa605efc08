//! What statuses mean, in words.
ghost use Rattle.std.specs.Prelude.{◌≡◌};
ghost use Rattle.fax_requests.specs.Reasons.{reason};

/// What a status means, in words (RFC 3261, 21; RFC 4028, 6): of one that we never answer, none.
pub fn reason_of(status: u16) -> &'static str
    ensures { result.now ≡ reason status }
{
    match status {
        100 => "Trying",
        200 => "OK",
        400 => "Bad Request",
        403 => "Forbidden",
        404 => "Not Found",
        405 => "Method Not Allowed",
        408 => "Request Timeout",
        415 => "Unsupported Media Type",
        420 => "Bad Extension",
        422 => "Session Interval Too Small",
        480 => "Temporarily Unavailable",
        481 => "Call/Transaction Does Not Exist",
        486 => "Busy Here",
        487 => "Request Terminated",
        488 => "Not Acceptable Here",
        491 => "Request Pending",
        500 => "Server Internal Error",
        501 => "Not Implemented",
        503 => "Service Unavailable",
        _ => "Refused",
    }
}
