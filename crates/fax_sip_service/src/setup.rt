//! A user agent of a configuration.
use fax_config::{CallWith, RouteConfig, SipConfig, TrunkConfig};
use fax_switch::Offer;
use fax_trunks::{Network, Number, Route};
use fax_user_agent::{Settings, Trunk};
use std::alloc::{AllocError, AllocFailed, Global};
use std::fmt;

/// The most calls over all trunks: one for each leg of 4,000 lines.
const MOST_CALLS: usize = 8_000;

/// Why there is no user agent of a configuration.
#[derive(Clone, Copy, PartialEq, Eq, Debug)]
pub enum SetupFault {
    /// A route whose prefix is no number, or which puts something else in front of numbers.
    Route,
    NoMemory,
}

/// Prints it without a line feed.
impl fmt::Display for SetupFault {
    fn fmt<W: fmt::Write>(&self, f: &mut fmt::Formatter<W>) -> fmt::Result {
        match self {
            SetupFault::Route => write!(f, "a route is none"),
            SetupFault::NoMemory => write!(f, "memory was refused"),
        }
    }
}

impl From<AllocError> for SetupFault {
    fn from(_: AllocError) -> Self {
        SetupFault::NoMemory
    }
}

impl<T: Drop> From<AllocFailed<T>> for SetupFault {
    fn from(_: AllocFailed<T>) -> Self {
        SetupFault::NoMemory
    }
}

/// The passwords of the trunks, in their order; empty: none. They are told nobody.
pub struct Passwords {
    pub of_trunks: Vec<String>,
}

impl Drop for Passwords {
    fn drop(self) {
        let Passwords {
            of_trunks: _of_trunks,
        } = self;
    }
}

/// What is set for the user agent.
pub(crate) fn settings_of(
    alloc: Global,
    config: &SipConfig,
    passwords: &Passwords,
) -> Result<Settings, SetupFault> {
    let mut trunks = Vec::new(alloc);
    let mut calls = 0usize;
    for (i, trunk) in config.trunks.iter().enumerate() {
        let password = match passwords.of_trunks.get(i) {
            Some(password) => password.as_str(),
            None => "",
        };
        calls = calls.saturating_add(trunk.calls as usize);
        trunks.push(trunk_of(alloc, trunk, password)?)?;
    }
    Ok(Settings {
        local: config.local,
        audio: config.audio,
        ring_seconds: config.ring_seconds,
        calls: calls.min(MOST_CALLS),
        trunks,
        routes: routes_of(alloc, config.routes.as_slice())?,
    })
}

/// A trunk whose user has this password.
fn trunk_of(alloc: Global, config: &TrunkConfig, password: &str) -> Result<Trunk, AllocError> {
    let user = match &config.user {
        Some(user) => user.as_str(),
        None => "",
    };
    Ok(Trunk {
        address: config.address,
        allow: Vec::<Network>::from_slice(alloc, config.allow.as_slice())?,
        user: String::from_str(alloc, user)?,
        password: String::from_str(alloc, password)?,
        registers: config.registers,
        first_offer: match config.call_with {
            CallWith::T38 => Offer::Fax,
            CallWith::Audio => Offer::Audio,
        },
        calls: config.calls,
    })
}

/// The routes of a configuration.
pub(crate) fn routes_of(alloc: Global, configs: &[RouteConfig]) -> Result<Vec<Route>, SetupFault> {
    let mut routes = Vec::new(alloc);
    for config in configs {
        routes.push(route_of(config)?)?;
    }
    Ok(routes)
}

/// A route of a configuration.
fn route_of(config: &RouteConfig) -> Result<Route, SetupFault> {
    let Ok(prefix) = Number::read(config.prefix.as_bytes()) else {
        return Err(SetupFault::Route);
    };
    match Route::new(prefix, config.trunk, config.strip, config.add.as_bytes()) {
        Ok(route) => Ok(route),
        Err(_) => Err(SetupFault::Route),
    }
}
