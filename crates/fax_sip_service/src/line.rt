//! Lines, as SIP knows them.
ghost use Rattle.std.specs.Prelude.{◌≡◌};
ghost use Rattle.fax_sip_service.specs.Services.{leg_address};

use fax_config::{LineConfig, RedialConfig};
use fax_switch::Leg;
use std::alloc::{AllocError, Global};
use std::net::SocketAddr;

/// A line: its name, and where its legs are heard.
pub struct SipLine {
    pub name: String,
    pub calling: SocketAddr,
    pub called: SocketAddr,
}

impl Drop for SipLine {
    fn drop(self) {
        let SipLine {
            name: _name,
            calling: _calling,
            called: _called,
        } = self;
    }
}

impl SipLine {
    /// Where a leg of it is heard.
    pub(crate) fn leg(&self, leg: Leg) -> SocketAddr
        ensures { result ≡ leg_address leg self.now }
    {
        match leg {
            Leg::Calling => self.calling,
            Leg::Called => self.called,
        }
    }
}

/// The lines of a configuration, and after them its redial lines, whose calling legs nobody rings.
pub(crate) fn lines_of(
    alloc: Global,
    configs: &[LineConfig],
    redials: &[RedialConfig],
) -> Result<Vec<SipLine>, AllocError> {
    let mut lines = Vec::new(alloc);
    for config in configs {
        lines.push(SipLine {
            name: String::from_str(alloc, config.name.as_str())?,
            calling: config.calling.local,
            called: config.called.local,
        })?;
    }
    add_redials(alloc, redials, &mut lines)?;
    Ok(lines)
}

/// Adds redial lines.
fn add_redials(
    alloc: Global,
    redials: &[RedialConfig],
    lines: &mut Vec<SipLine>,
) -> Result<(), AllocError> {
    for config in redials {
        lines.push(SipLine {
            name: String::from_str(alloc, config.name.as_str())?,
            calling: config.called.local,
            called: config.called.local,
        })?;
    }
    Ok(())
}
