//! What is asked within a dialog.
use fax_sip::Field;

/// What is asked within a dialog.
#[derive(Clone, Copy)]
pub struct Within<'a> {
    /// What it asks, in capitals: a token.
    pub method: &'a [u8],
    /// Its number, below 2^31: a new one, or that of the INVITE whose ACK it is (RFC 3261, 13.2.2.4).
    pub number: u32,
    /// Who sends it: a host, and a port where it is not 5060.
    pub sent_by: &'a [u8],
    /// The branch of its transaction: a token that begins with `z9hG4bK`.
    pub branch: &'a [u8],
    /// Further header lines, but for `Route`, whose values have no control character but tabs.
    pub fields: &'a [Field<'a>],
    /// The body.
    pub body: &'a [u8],
}
