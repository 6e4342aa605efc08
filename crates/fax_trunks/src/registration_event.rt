//! What happens in a registration, and what is to be done.

/// What happens in a registration. A final answer to the REGISTER that is under way comes once, or none does.
#[derive(Clone, Copy)]
pub enum RegistrationEvent {
    /// Time passed.
    TimePassed,
    /// A 2xx came, and our contact is registered for so many seconds: `expires` of its `Contact`, or else `Expires` (RFC 3261, 10.2.4).
    Granted(u32),
    /// A 401 or 407 came. Whether the challenge says that its nonce alone was too old, `stale=true` (RFC 7616, 3.3).
    Challenged(bool),
    /// A 423 came, and the registrar wants so many seconds at least: `Min-Expires` (RFC 3261, 10.2.8).
    TooBrief(u32),
    /// Another final answer came, none came in time, or the REGISTER could not be sent.
    Refused,
    /// The registration is to end.
    Ended,
}

/// What is to be done in a registration.
#[derive(Clone, Copy, PartialEq)]
pub enum RegistrationAction {
    /// Nothing.
    Nothing,
    /// A REGISTER is sent that asks for so many seconds.
    Register(u32),
    /// The same, with credentials that answer the challenge.
    RegisterWithCredentials(u32),
    /// A REGISTER is sent that ends the registration: it asks for 0 seconds (RFC 3261, 10.2.2).
    Unregister,
    /// The same, with credentials that answer the challenge.
    UnregisterWithCredentials,
}
