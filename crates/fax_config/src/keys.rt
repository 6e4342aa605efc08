//! The keys that a table may have.
ghost use Rattle.std.specs.Prelude.{◌↔◌, IsTrue, Contains, OnOk, IfErr};
ghost use Rattle.toml.specs.View.{table_view};
ghost use Rattle.fax_config.specs.Faults.{HasFlaw};
ghost use Rattle.fax_config.specs.Members.{HasKnownKeys, known_keys};

use crate::fault::Flaw;
use std::alloc::Global;
use toml::Table;

/// What a table of a configuration tells.
#[derive(Clone, Copy)]
pub enum Level {
    /// The whole configuration.
    Top,
    Line,
    Leg,
    /// When jobs are tried again.
    Retry,
    /// A redial line.
    Redial,
    Sip,
    Trunk,
    Route,
}

impl Level {
    /// Whether a table of this level may have the key.
    fn knows(self, key: &str) -> bool
        ensures { IsTrue result ↔ Contains (known_keys self) key.now }
    {
        match self {
            Level::Top => [
                "control",
                "spool",
                "http",
                "stop_seconds",
                "memory",
                "lines",
                "retry",
                "redial",
                "sip",
                "trunks",
                "routes",
            ]
            .contains(&key),
            Level::Line => [
                "name",
                "calling",
                "called",
                "redundancy",
                "preamble_ms",
                "repeat",
                "dial_seconds",
                "line_memory",
                "most_waiting",
            ]
            .contains(&key),
            Level::Leg => ["local", "peer"].contains(&key),
            Level::Retry => ["after_seconds"].contains(&key),
            Level::Redial => ["name", "called"].contains(&key),
            Level::Sip => ["local", "audio", "ring_seconds"].contains(&key),
            Level::Trunk => [
                "name",
                "address",
                "allow",
                "user",
                "password_file",
                "register",
                "call_with",
                "calls",
            ]
            .contains(&key),
            Level::Route => ["prefix", "trunk", "strip", "add"].contains(&key),
        }
    }
}

/// Refuses a table with a key that is not known at its level.
pub fn only_known_keys(alloc: Global, table: &Table, level: Level) -> Result<(), Flaw>
    ensures ok { OnOk result (HasKnownKeys level (table_view table.now)) }
    ensures fault { IfErr result (HasFlaw level (table_view table.now)) }
{
    for key in table.keys() {
        if !level.knows(key.as_str()) {
            return Err(Flaw::Unknown(String::from_str(alloc, key.as_str())?));
        }
    }
    Ok(())
}
