//! A fault as it is told: with the path or the address, as the configuration has it.
use crate::fault::ServeFault;
use fax_config::Config;
use fax_control::Leg;
use std::fmt;
use std::net::SocketAddr;

/// Why a server of this configuration does not begin.
#[derive(Drop)]
pub struct NamedFault<'a> {
    pub fault: &'a ServeFault,
    pub config: &'a Config,
}

/// Prints one line, without a line feed.
impl fmt::Display for NamedFault<'_> {
    fn fmt<W: fmt::Write>(&self, f: &mut fmt::Formatter<W>) -> fmt::Result {
        let fault = self.fault;
        match fault {
            ServeFault::Control(error) => {
                let path = text_of(&self.config.control);
                write!(f, "control: {path}: {error}")
            }
            ServeFault::Served => {
                let path = text_of(&self.config.control);
                write!(f, "control: {path}: another process serves there")
            }
            ServeFault::Spool(why) => {
                let folder = text_of(&self.config.spool);
                write!(f, "spool: {folder}: {why}")
            }
            ServeFault::Leg(name, leg, error) => {
                let (kind, leg_name) = (kind_of(self.config, name.as_str()), leg.name());
                match local_of(self.config, name.as_str(), *leg) {
                    Some(local) => write!(f, "{kind} {name:?}: {leg_name}: {local}: {error}"),
                    None => write!(f, "{kind} {name:?}: {leg_name}: {error}"),
                }
            }
            _ => write!(f, "{fault}"),
        }
    }
}

/// A text of a configuration, where there is one.
fn text_of(text: &Option<String>) -> &str {
    match text {
        Some(text) => text.as_str(),
        None => "",
    }
}

/// What is called so: a redial line, or a line.
fn kind_of(config: &Config, name: &str) -> &'static str {
    if config.redial.iter().any(|it| it.name.as_str() == name) {
        "redial"
    } else {
        "line"
    }
}

/// The address at which a leg of this name hears its peer.
fn local_of(config: &Config, name: &str, leg: Leg) -> Option<SocketAddr> {
    if let Some(it) = config.redial.iter().find(|it| it.name.as_str() == name) {
        return Some(it.called.local);
    }
    let line = config.lines.iter().find(|it| it.name.as_str() == name)?;
    Some(match leg {
        Leg::Calling => line.calling.local,
        Leg::Called => line.called.local,
    })
}
