//! Trunks, as they are counted.
use fax_config::TrunkConfig;
use fax_user_agent::{CallTold, Direction, Progress};
use std::alloc::{AllocError, Global};

/// What is counted of the calls of one direction.
#[derive(Clone, Copy, Default)]
pub(crate) struct CallCounts {
    /// Whose INVITE came, or was sent.
    pub begun: u64,
    /// Whose INVITE was answered with a 2xx.
    pub answered: u64,
    /// Whose INVITE was refused.
    pub refused: u64,
}

impl CallCounts {
    /// A call has come so far.
    fn count(&mut self, progress: Progress) {
        match progress {
            Progress::Begun => self.begun = self.begun.saturating_add(1),
            Progress::Answered => self.answered = self.answered.saturating_add(1),
            Progress::Refused(_) => self.refused = self.refused.saturating_add(1),
            Progress::Over => {}
        }
    }
}

/// A trunk: its name, and what is known of it.
pub(crate) struct SipTrunk {
    pub name: String,
    /// Whether it is to be registered with, and whether it is.
    pub registers: bool,
    pub is_registered: bool,
    pub calls_in: CallCounts,
    pub calls_out: CallCounts,
}

impl Drop for SipTrunk {
    fn drop(self) {
        let SipTrunk {
            name: _name,
            registers: _registers,
            is_registered: _is_registered,
            calls_in: _calls_in,
            calls_out: _calls_out,
        } = self;
    }
}

impl SipTrunk {
    /// Counts what is told of a call.
    pub fn count(&mut self, told: &CallTold) {
        match told.direction {
            Direction::In => self.calls_in.count(told.progress),
            Direction::Out => self.calls_out.count(told.progress),
        }
    }
}

/// The trunks of a configuration.
pub(crate) fn trunks_of(
    alloc: Global,
    configs: &[TrunkConfig],
) -> Result<Vec<SipTrunk>, AllocError> {
    let mut trunks = Vec::new(alloc);
    for config in configs {
        trunks.push(SipTrunk {
            name: String::from_str(alloc, config.name.as_str())?,
            registers: config.registers,
            is_registered: false,
            calls_in: CallCounts::default(),
            calls_out: CallCounts::default(),
        })?;
    }
    Ok(trunks)
}
