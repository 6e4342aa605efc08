//! What a tick gives.
ghost use Rattle.std.specs.Prelude.{◌≡◌, None, is_some};
ghost use Rattle.fax_gateway.specs.Due.{nothing_given};

use fax_answer::Refusal;
use fax_bits::Octets;
use fax_jobs::Report;
use fax_pagestore::Format;

/// What a tick gives: the octets of a datagram on each leg, where there is one, and the report of the job that ended in it;
/// and what it did on the calling leg.
pub struct Given {
    pub calling: Option<Octets>,
    pub called: Option<Octets>,
    pub report: Option<Report>,
    /// The page that it confirmed.
    pub kept: Option<Kept>,
    /// The page that it refused: it gives an RTN.
    pub refused: Option<RefusedPage>,
    /// The number of the calling leg's call where it ended that: T1 or T2 was due (ITU-T T.30, 5.4.3), and our DCN is given.
    pub gave_up: Option<u32>,
}

impl Drop for Given {
    fn drop(self) {
        let Given {
            calling: _calling,
            called: _called,
            report: _report,
            kept: _kept,
            refused: _refused,
            gave_up: _gave_up,
        } = self;
    }
}

/// A page that was confirmed.
#[derive(Clone, Copy, PartialEq, Eq)]
pub struct Kept {
    /// The number of the call in which it came.
    pub call: u32,
    pub format: Format,
    /// How many rows it has.
    pub rows: u32,
    /// Whether its command was EOP (ITU-T T.30, 5.3.6.1.6): the job is closed after it.
    pub closes: bool,
}

/// A page that was refused (RTN, ITU-T T.30, 5.3.6.1.7).
#[derive(Clone, Copy, PartialEq, Eq)]
pub struct RefusedPage {
    /// The number of the call in which it came.
    pub call: u32,
    pub why: Refusal,
}

/// What a tick told, beside the datagrams.
#[derive(Clone, Copy)]
pub(crate) struct TickReport {
    pub report: Option<Report>,
    pub kept: Option<Kept>,
    pub refused: Option<RefusedPage>,
    pub gave_up: Option<u32>,
}

impl TickReport {
    /// What a tick told that was refused.
    pub fn nothing() -> Self
        ensures { result ≡ record { report = None; kept = None; refused = None; gave_up = None } }
    {
        TickReport {
            report: None,
            kept: None,
            refused: None,
            gave_up: None,
        }
    }
}

impl Given {
    /// What a tick gives that does nothing.
    pub(crate) fn nothing() -> Self
        ensures { result ≡ nothing_given }
    {
        Given {
            calling: None,
            called: None,
            report: None,
            kept: None,
            refused: None,
            gave_up: None,
        }
    }

    /// Whether a job ended.
    pub fn ended(&self) -> bool
        ensures { result ≡ is_some self.now.report }
    {
        self.report.is_some()
    }

    /// What is told.
    pub(crate) fn told(&self) -> TickReport
        ensures { result ≡ record {
          report = self.now.report;
          kept = self.now.kept;
          refused = self.now.refused;
          gave_up = self.now.gave_up;
        } }
    {
        TickReport {
            report: self.report,
            kept: self.kept,
            refused: self.refused,
            gave_up: self.gave_up,
        }
    }
}
