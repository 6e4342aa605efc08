//! The choice of a DCS.
ghost use Rattle.std.specs.Prelude.{◌≡◌, IfOk};
ghost use Rattle.fax_frames.specs.Capabilities.{IsScanTime};
ghost use Rattle.fax_frames.specs.Choice.{choice};

use crate::dcs::Dcs;
use crate::dis::Dis;
use fax_runcodes::Format;
use thiserror::Error;

/// Why pages cannot be sent to a machine (this project's profile).
#[derive(Clone, Copy, PartialEq, Eq, Debug, Error)]
pub enum Refusal {
    #[error("the called machine does not receive")]
    NotReceiver,
    #[error("the called machine lacks the width")]
    WidthLacking,
    #[error("the called machine lacks the fine resolution")]
    FineLacking,
    /// The DIS has no rate at that step.
    #[error("no rate is left")]
    RatesSpent,
}

impl Refusal {
    ghost use Rattle.fax_frames.specs.Choice.{refusal_number};

    /// The refusal's number, from 1 to 4.
    pub fn number(self) -> u8
        ensures { result ≡ refusal_number self }
    {
        match self {
            Refusal::NotReceiver => 1,
            Refusal::WidthLacking => 2,
            Refusal::FineLacking => 3,
            Refusal::RatesSpent => 4,
        }
    }
}

/// The DCS for pages of a format to the machine of a DIS, at a step of its rates, counted from 0; or the
/// first refusal that holds, in the order of `Refusal` (this project's profile). It sends two-dimensional
/// lines where the DIS has them, and takes the length of a page and the least time of a line from it.
#[tactic(auto, using(std::proofs::lemmas::Option::slice_get_past))]
pub fn choose(dis: &Dis, format: Format, step: u8) -> Result<Dcs, Refusal>
    ensures chosen { result ≡ choice dis.now format step }
    ensures writable { IfOk result (λ dcs. IsScanTime dcs.scan_ms) }
{
    if !dis.is_receiver() {
        return Err(Refusal::NotReceiver);
    }
    if !dis.has_width(format.width) {
        return Err(Refusal::WidthLacking);
    }
    if format.fine && !dis.has_fine() {
        return Err(Refusal::FineLacking);
    }
    match dis.rates().get(usize::from(step)) {
        Some(rate) => Ok(Dcs {
            rate: *rate,
            fine: format.fine,
            two_d: dis.has_two_d(),
            width: format.width,
            length: dis.length(),
            scan_ms: dis.scan_ms(format.fine),
        }),
        None => Err(Refusal::RatesSpent),
    }
}
