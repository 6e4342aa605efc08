//! What an `a=` line says.
ghost use Rattle.std.specs.Prelude.{◌≡◌};
ghost use Rattle.fax_sdp.specs.Texts.{number};
ghost use Rattle.fax_sdp.specs.Attributes.{attribute, bound, correction, flag, management, valued};

use crate::lines::{cut, is_either, number_of, same_word};
use crate::medium::{Direction, ErrorCorrection, RateManagement};

/// What an `a=` line says, as far as it concerns a fax.
#[derive(Clone, Copy)]
pub enum Attribute {
    /// Which way media go.
    Goes(Direction),
    /// `T38FaxVersion`.
    Version(u32),
    /// `T38MaxBitRate`.
    BitRate(u32),
    /// `T38FaxRateManagement`.
    Management(RateManagement),
    /// `T38FaxUdpEC`.
    Correction(ErrorCorrection),
    /// `T38FaxMaxBuffer`.
    MaxBuffer(u32),
    /// `T38FaxMaxDatagram`.
    MaxDatagram(u32),
    /// Another, or one whose value says nothing.
    Other,
}

/// What the text after `a=` says.
pub fn attribute_of(text: &str) -> Attribute
    ensures { result ≡ attribute text.now }
{
    match cut(text, ':') {
        None => flag_of(text),
        Some((name, value)) => valued_of(name, value.trim_ascii_start()),
    }
}

/// What an attribute with no value says.
fn flag_of(text: &str) -> Attribute
    ensures { result ≡ flag text.now }
{
    if same_word(text, "sendrecv") {
        Attribute::Goes(Direction::SendReceive)
    } else if same_word(text, "sendonly") {
        Attribute::Goes(Direction::SendOnly)
    } else if same_word(text, "recvonly") {
        Attribute::Goes(Direction::ReceiveOnly)
    } else if same_word(text, "inactive") {
        Attribute::Goes(Direction::Inactive)
    } else {
        Attribute::Other
    }
}

/// What an attribute with this name and value says.
fn valued_of(name: &str, value: &str) -> Attribute
    ensures { result ≡ valued name.now value.now }
{
    if same_word(name, "T38FaxVersion") {
        match number_of(value) {
            Some(number) => Attribute::Version(number),
            None => Attribute::Other,
        }
    } else if same_word(name, "T38FaxRateManagement") {
        management_of(value)
    } else if same_word(name, "T38FaxUdpEC") {
        correction_of(value)
    } else {
        bound_of(name, value)
    }
}

/// What the value of `T38FaxRateManagement` says.
fn management_of(value: &str) -> Attribute
    ensures { result ≡ management value.now }
{
    if same_word(value, "transferredTCF") {
        Attribute::Management(RateManagement::Transferred)
    } else if same_word(value, "localTCF") {
        Attribute::Management(RateManagement::Local)
    } else {
        Attribute::Other
    }
}

/// What the value of `T38FaxUdpEC` says.
fn correction_of(value: &str) -> Attribute
    ensures { result ≡ correction value.now }
{
    if same_word(value, "t38UDPRedundancy") {
        Attribute::Correction(ErrorCorrection::Redundancy)
    } else if same_word(value, "t38UDPFEC") {
        Attribute::Correction(ErrorCorrection::Parity)
    } else if same_word(value, "t38UDPNoEC") {
        Attribute::Correction(ErrorCorrection::Nothing)
    } else {
        Attribute::Other
    }
}

/// What an attribute that bounds a rate, a buffer or a datagram says. Two misspelt names are in use.
fn bound_of(name: &str, value: &str) -> Attribute
    ensures { result ≡ bound name.now (number value.now) }
{
    let Some(number) = number_of(value) else {
        return Attribute::Other;
    };
    if is_either(name, "T38FaxMaxDatagram", "T38MaxDatagram") {
        Attribute::MaxDatagram(number)
    } else if same_word(name, "T38FaxMaxBuffer") {
        Attribute::MaxBuffer(number)
    } else if is_either(name, "T38MaxBitRate", "T38FaxMaxRate") {
        Attribute::BitRate(number)
    } else {
        Attribute::Other
    }
}
