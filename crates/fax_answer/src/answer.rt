//! What a frame is answered by.
ghost use Rattle.std.specs.Prelude.{◌≡◌, Some, None};

use crate::Command;
use crate::decision::Decision;
use crate::image::Accepted;
use crate::refusal::Refusal;

/// What is decided at a frame, with the image of the page that it confirms, or with the reason for which it refuses one.
#[derive(Clone, Copy)]
pub(crate) struct Answer {
    pub decision: Decision,
    pub found: Option<Accepted>,
    pub refused: Option<Refusal>,
}

impl Answer {
    /// No page is confirmed or refused.
    pub fn plain(decision: Decision) -> Self
        ensures { result ≡ record { decision = decision; found = None; refused = None } }
    {
        Answer {
            decision,
            found: None,
            refused: None,
        }
    }

    /// MCF to this command, with the page of this image.
    pub fn mcf(command: Command, found: Accepted) -> Self
        ensures { result
            ≡ record { decision = Decision.Mcf command; found = Some found; refused = None } }
    {
        Answer {
            decision: Decision::Mcf(command),
            found: Some(found),
            refused: None,
        }
    }

    /// RTN, for this reason.
    pub fn rtn(refusal: Refusal) -> Self
        ensures { result
            ≡ record { decision = Decision.Rtn; found = None; refused = Some refusal } }
    {
        Answer {
            decision: Decision::Rtn,
            found: None,
            refused: Some(refusal),
        }
    }
}
