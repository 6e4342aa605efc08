//! What is wrong with a configuration.
use crate::sip_fault::SipMisfit;
use fax_control::Leg;
use std::alloc::{AllocError, AllocFailed};
use std::fmt;

/// What is wrong with the value at a key.
#[derive(Clone, Copy)]
pub enum Trouble {
    Absent,
    NotText,
    NotNumber,
    NotTable,
    NotTables,
    NotNumbers,
    /// It has more items than this.
    TooMany(u32),
    /// An item of it is less than the least that it may be, or more than the most.
    ItemOutOfRange(u32, u32),
    NotAddress,
    /// It is neither true nor false.
    NotTruth,
    /// It is no list of networks.
    NotNetworks,
    /// It is no user of an address of SIP.
    NotUser,
    NotCallWith,
    /// It is no number that can be called.
    NotCalled,
    /// It cannot be put in front of a number.
    NotDialled,
    /// Its port is 0, at which nothing is heard.
    NoPort,
    Empty,
    NotRepeat,
    NotName,
    /// The least and the most that it may be.
    OutOfRange(u64, u64),
}

/// What is wrong with a table.
#[derive(Drop)]
pub enum Flaw {
    /// It has a key that means nothing there.
    Unknown(String),
    /// The value at a key.
    At(&'static str, Trouble),
    /// The value at a key wants one at another, where there is none.
    Wants(&'static str, &'static str),
    /// The peer of a leg is the leg's own address.
    OwnPeer,
    NoMemory,
}

/// Which line of the configuration.
#[derive(Drop)]
pub enum LineName {
    Named(String),
    /// It has no name that can be read: so many lines stand before it.
    After(usize),
}

/// Why a text tells no configuration.
#[derive(Drop)]
pub enum ConfigFault {
    /// It is no TOML, at this line of it.
    NotToml(usize, toml::de::Error),
    /// It is TOML, and something in it is wrong.
    Misfit(Misfit),
}

/// What is wrong with a TOML document.
#[derive(Drop)]
pub enum Misfit {
    /// What does not lie in a line's table.
    Top(Flaw),
    /// What tells of SIP.
    Sip(SipMisfit),
    /// What lies in a line's table.
    Line(LineName, Flaw),
    /// What lies in the table of a line's leg.
    Leg(LineName, Leg, Flaw),
    /// What lies in the table that says when jobs are tried again.
    Retry(Flaw),
    /// What lies in a redial line's table.
    Redial(LineName, Flaw),
    /// What lies in the table of a redial line's leg.
    RedialLeg(LineName, Flaw),
    /// Two lines have this name, redial lines among them.
    DoubledName(String),
    /// The local address of this line's leg is one of an earlier leg too.
    DoubledAddress(LineName, Leg),
    /// There are more than 4,000 lines.
    TooManyLines,
    /// There are more than 4,000 redial lines.
    TooManyRedials,
    NoMemory,
}

impl fmt::Display for Trouble {
    fn fmt<W: fmt::Write>(&self, f: &mut fmt::Formatter<W>) -> fmt::Result {
        match self {
            Trouble::Absent => f.write_str("is absent"),
            Trouble::NotText => f.write_str("is no text"),
            Trouble::NotNumber => f.write_str("is no number"),
            Trouble::NotTable => f.write_str("is no table"),
            Trouble::NotTables => f.write_str("is no list of tables"),
            Trouble::NotNumbers => f.write_str("is no list of numbers"),
            Trouble::TooMany(most) => write!(f, "has more than {most} items"),
            Trouble::ItemOutOfRange(least, most) => {
                write!(f, "has an item that is not from {least} to {most}")
            }
            Trouble::NotAddress => f.write_str("is no address with a port"),
            Trouble::NotTruth => f.write_str("is neither true nor false"),
            Trouble::NotNetworks => f.write_str("is no list of networks as 192.0.2.0/28"),
            Trouble::NotUser => f.write_str("is no user of 1 to 64 letters, digits, -, _, . and +"),
            Trouble::NotCallWith => f.write_str("is neither t38 nor audio"),
            Trouble::NotCalled => f.write_str(
                "is no number: an optional + and digits, 32 octets at most",
            ),
            Trouble::NotDialled => f.write_str(
                "is neither empty nor an optional + and digits, 32 octets at most",
            ),
            Trouble::NoPort => f.write_str("has port 0"),
            Trouble::Empty => f.write_str("is empty"),
            Trouble::NotRepeat => f.write_str("is none of full, last and none"),
            Trouble::NotName => f.write_str(
                "is no name of 1 to 64 octets without a space, or is any",
            ),
            Trouble::OutOfRange(least, most) => write!(f, "is not from {least} to {most}"),
        }
    }
}

impl fmt::Display for Flaw {
    fn fmt<W: fmt::Write>(&self, f: &mut fmt::Formatter<W>) -> fmt::Result {
        match self {
            Flaw::Unknown(key) => write!(f, "the key {key:?} is not known"),
            Flaw::At(key, trouble) => write!(f, "{key} {trouble}"),
            Flaw::Wants(key, other) => write!(f, "{key} wants {other}"),
            Flaw::OwnPeer => f.write_str("peer is the leg's own address"),
            Flaw::NoMemory => f.write_str("memory was refused"),
        }
    }
}

impl fmt::Display for LineName {
    fn fmt<W: fmt::Write>(&self, f: &mut fmt::Formatter<W>) -> fmt::Result {
        match self {
            LineName::Named(name) => write!(f, "line {name:?}"),
            LineName::After(0) => f.write_str("the first line"),
            LineName::After(count) => write!(f, "the line after {count} others"),
        }
    }
}

/// Prints one line, without a line feed.
impl fmt::Display for ConfigFault {
    fn fmt<W: fmt::Write>(&self, f: &mut fmt::Formatter<W>) -> fmt::Result {
        match self {
            ConfigFault::NotToml(line, error) => {
                let message = error.message();
                write!(f, "line {line} of the text is no TOML: {message}")
            }
            ConfigFault::Misfit(misfit) => write!(f, "{misfit}"),
        }
    }
}

/// Prints one line, without a line feed.
impl fmt::Display for Misfit {
    fn fmt<W: fmt::Write>(&self, f: &mut fmt::Formatter<W>) -> fmt::Result {
        match self {
            Misfit::Top(flaw) => write!(f, "{flaw}"),
            Misfit::Sip(misfit) => write!(f, "{misfit}"),
            Misfit::Line(name, flaw) => write!(f, "{name}: {flaw}"),
            Misfit::Leg(name, leg, flaw) => {
                let leg = leg.name();
                write!(f, "{name}: {leg}: {flaw}")
            }
            Misfit::Retry(flaw) => write!(f, "retry: {flaw}"),
            Misfit::Redial(name, flaw) => write!(f, "redial: {name}: {flaw}"),
            Misfit::RedialLeg(name, flaw) => write!(f, "redial: {name}: called: {flaw}"),
            Misfit::DoubledName(name) => write!(
                f,
                "line {name:?}: name is that of an earlier line"
            ),
            Misfit::DoubledAddress(name, leg) => {
                let leg = leg.name();
                write!(f, "{name}: {leg}: local is that of an earlier leg")
            }
            Misfit::TooManyLines => f.write_str("lines has more than 4000"),
            Misfit::TooManyRedials => f.write_str("redial has more than 4000"),
            Misfit::NoMemory => f.write_str("memory was refused"),
        }
    }
}

impl From<AllocError> for Flaw {
    ghost use Rattle.std.specs.Prelude.{◌≡◌};
    ghost use Rattle.fax_config.specs.declared.fault.Flaw.TheVariants as flaws;

    ghost from_gives = { λ _ e. e ≡ flaws.NoMemory };

    fn from(_: AllocError) -> Self {
        Flaw::NoMemory
    }
}

impl<T: Drop> From<AllocFailed<T>> for Flaw {
    ghost use Rattle.std.specs.Prelude.{◌≡◌};
    ghost use Rattle.fax_config.specs.declared.fault.Flaw.TheVariants as flaws;

    ghost from_gives = { λ _ e. e ≡ flaws.NoMemory };

    fn from(_: AllocFailed<T>) -> Self {
        Flaw::NoMemory
    }
}

impl From<AllocError> for Misfit {
    ghost use Rattle.std.specs.Prelude.{◌≡◌};
    ghost use Rattle.fax_config.specs.declared.fault.Misfit.TheVariants as faults;

    ghost from_gives = { λ _ e. e ≡ faults.NoMemory };

    fn from(_: AllocError) -> Self {
        Misfit::NoMemory
    }
}

impl<T: Drop> From<AllocFailed<T>> for Misfit {
    ghost use Rattle.std.specs.Prelude.{◌≡◌};
    ghost use Rattle.fax_config.specs.declared.fault.Misfit.TheVariants as faults;

    ghost from_gives = { λ _ e. e ≡ faults.NoMemory };

    fn from(_: AllocFailed<T>) -> Self {
        Misfit::NoMemory
    }
}
