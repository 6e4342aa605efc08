//! What is wrong with what a configuration tells of SIP.
use crate::fault::{Flaw, LineName};
use std::alloc::{AllocError, AllocFailed};
use std::fmt;

/// What is wrong with `[sip]`, `[[trunks]]` and `[[routes]]`.
#[derive(Drop)]
pub enum SipMisfit {
    /// This key is there, and `sip` is not.
    WithoutSip(&'static str),
    /// What lies in the table of `sip`.
    Sip(Flaw),
    /// Audio is at the address of SIP.
    OneAddress,
    /// The address at this key of `sip` is the local one of a leg.
    Taken(&'static str),
    /// What lies at a key of the document.
    Top(Flaw),
    /// What lies in a trunk's table.
    Trunk(LineName, Flaw),
    /// Two trunks have this name.
    DoubledTrunk(String),
    /// There are more than 64 trunks, or more than 1,000 routes.
    TooManyTrunks,
    TooManyRoutes,
    /// What lies in the table of the route after so many others.
    Route(usize, Flaw),
    /// The route after so many others is over a trunk that is not there.
    UnknownTrunk(usize, String),
    NoMemory,
}

/// Tells of a trunk in a fault.
fn write_trunk<W: fmt::Write>(name: &LineName, f: &mut fmt::Formatter<W>) -> fmt::Result {
    match name {
        LineName::Named(name) => write!(f, "trunk {name:?}"),
        LineName::After(0) => f.write_str("the first trunk"),
        LineName::After(count) => write!(f, "the trunk after {count} others"),
    }
}

/// Tells of a route in a fault.
fn write_route<W: fmt::Write>(after: usize, f: &mut fmt::Formatter<W>) -> fmt::Result {
    match after {
        0 => f.write_str("the first route"),
        count => write!(f, "the route after {count} others"),
    }
}

/// Prints one line, without a line feed.
impl fmt::Display for SipMisfit {
    fn fmt<W: fmt::Write>(&self, f: &mut fmt::Formatter<W>) -> fmt::Result {
        match self {
            SipMisfit::WithoutSip(key) => write!(f, "{key} wants sip"),
            SipMisfit::Sip(flaw) => write!(f, "sip: {flaw}"),
            SipMisfit::OneAddress => f.write_str("sip: audio is the address of local"),
            SipMisfit::Taken(key) => write!(f, "sip: {key} is the local address of a leg"),
            SipMisfit::Top(flaw) => write!(f, "{flaw}"),
            SipMisfit::Trunk(name, flaw) => {
                write_trunk(name, f)?;
                write!(f, ": {flaw}")
            }
            SipMisfit::DoubledTrunk(name) => write!(
                f,
                "trunk {name:?}: name is that of an earlier trunk"
            ),
            SipMisfit::TooManyTrunks => f.write_str("trunks has more than 64"),
            SipMisfit::TooManyRoutes => f.write_str("routes has more than 1000"),
            SipMisfit::Route(after, flaw) => {
                write_route(*after, f)?;
                write!(f, ": {flaw}")
            }
            SipMisfit::UnknownTrunk(after, name) => {
                write_route(*after, f)?;
                write!(f, ": no trunk has the name {name:?}")
            }
            SipMisfit::NoMemory => f.write_str("memory was refused"),
        }
    }
}

impl From<AllocError> for SipMisfit {
    ghost use Rattle.std.specs.Prelude.{◌≡◌};
    ghost use Rattle.fax_config.specs.declared.sip_fault.SipMisfit.TheVariants as faults;

    ghost from_gives = { λ _ e. e ≡ faults.NoMemory };

    fn from(_: AllocError) -> Self {
        SipMisfit::NoMemory
    }
}

impl<T: Drop> From<AllocFailed<T>> for SipMisfit {
    ghost use Rattle.std.specs.Prelude.{◌≡◌};
    ghost use Rattle.fax_config.specs.declared.sip_fault.SipMisfit.TheVariants as faults;

    ghost from_gives = { λ _ e. e ≡ faults.NoMemory };

    fn from(_: AllocFailed<T>) -> Self {
        SipMisfit::NoMemory
    }
}
