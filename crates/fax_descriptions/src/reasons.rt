//! Why a page is refused, and why a job ended so.
ghost use Rattle.std.specs.Prelude.{◌≡◌};
ghost use Rattle.fax_descriptions.specs.Reasons.{ended_text, refusal_text};

use fax_answer::Refusal;
use fax_jobs::Outcome;

/// Why a page is refused.
pub fn why_refused(refusal: Refusal) -> &'static str
    ensures { result.now ≡ refusal_text refusal }
{
    match refusal {
        Refusal::Fault(_) => "the image means no page",
        Refusal::NotWhole => "the image is not whole",
        Refusal::GapAfter => "something is missing or began between the image and the command",
        Refusal::SeveralImages => "more than one image came since the last CFR or MCF",
        Refusal::NoImage => "no image came before the command",
        Refusal::Untrained => "an image came after EOM, and no DCS before it",
    }
}

/// Why a job ended so, after its line.
pub fn why_ended(outcome: Outcome) -> &'static str
    ensures { result.now ≡ ended_text outcome }
{
    match outcome {
        Outcome::Delivered => "",
        Outcome::NotReceiver => ": its DIS says that it does not receive",
        Outcome::WidthLacking => ": its DIS lacks the width of the pages",
        Outcome::FineLacking => ": its DIS lacks the fine resolution of the pages",
        Outcome::RatesSpent => ": the training failed at each rate that it has",
        Outcome::NoAnswer => ": T1, no DIS in 35 s",
        Outcome::NoReply => ": the last command had no answer",
        Outcome::PageRefused => ": it refused a page three times",
        Outcome::HungUp => ": it ended the call",
        Outcome::NotPlaced => ": it could not be reached",
    }
}
