//! Why a dialog does not begin, or is not changed.

/// Why a dialog does not begin, or is not changed.
#[derive(Clone, Copy, PartialEq, Eq, Debug)]
pub enum DialogFault {
    /// What is to begin it is no INVITE.
    NoInvite,
    /// The answer is no 2xx to our INVITE.
    OtherCall,
    /// The INVITE is one within a dialog: its `To` has a tag.
    HasTag,
    /// There is no `Contact`.
    NoContact,
    /// A Call-ID, a tag or an address is longer than 256 octets.
    LongText,
    /// `Record-Route` has more than 8 addresses.
    ManyRoutes,
    /// The number of a request is below that of one before it: it is answered 500 (RFC 3261, 12.2.2).
    LowNumber,
    /// No number below 2^31 is left for a request of ours.
    NumbersSpent,
}
