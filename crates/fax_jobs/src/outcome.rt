//! How a job ended.
ghost use Rattle.std.specs.Prelude.{◌≡◌};

use std::fmt;

/// How a job ended.
#[derive(Clone, Copy, PartialEq, Eq)]
pub enum Outcome {
    /// All of its pages were sent, and the called machine confirmed each.
    Delivered,
    /// The called machine does not receive.
    NotReceiver,
    /// The called machine lacks the width of the pages.
    WidthLacking,
    /// The called machine lacks the fine resolution.
    FineLacking,
    /// The training failed at each rate.
    RatesSpent,
    /// No DIS came.
    NoAnswer,
    /// A command was not answered.
    NoReply,
    /// A page was refused.
    PageRefused,
    /// The called machine ended the call.
    HungUp,
    /// The called machine could not be reached: its call was not placed.
    NotPlaced,
}

impl Outcome {
    ghost use Rattle.std.specs.Prelude.{◌≡◌};
    ghost use Rattle.fax_jobs.specs.Outcomes.{outcome_number, outcome_name};

    /// The outcome's number: 0 for `Delivered`, 1 to 9 for the others.
    pub fn number(self) -> u8
        ensures { result ≡ outcome_number self }
    {
        match self {
            Outcome::Delivered => 0,
            Outcome::NotReceiver => 1,
            Outcome::WidthLacking => 2,
            Outcome::FineLacking => 3,
            Outcome::RatesSpent => 4,
            Outcome::NoAnswer => 5,
            Outcome::NoReply => 6,
            Outcome::PageRefused => 7,
            Outcome::HungUp => 8,
            Outcome::NotPlaced => 9,
        }
    }

    /// The outcome's name, which is the variant's.
    pub fn name(self) -> &'static str
        ensures { result.now ≡ outcome_name self }
    {
        match self {
            Outcome::Delivered => "Delivered",
            Outcome::NotReceiver => "NotReceiver",
            Outcome::WidthLacking => "WidthLacking",
            Outcome::FineLacking => "FineLacking",
            Outcome::RatesSpent => "RatesSpent",
            Outcome::NoAnswer => "NoAnswer",
            Outcome::NoReply => "NoReply",
            Outcome::PageRefused => "PageRefused",
            Outcome::HungUp => "HungUp",
            Outcome::NotPlaced => "NotPlaced",
        }
    }
}

/// Prints the name.
impl fmt::Display for Outcome {
    ghost use Rattle.std.specs.Prelude.{Some};
    ghost use Rattle.std.specs.Fmt.{padded};
    ghost use Rattle.fax_jobs.specs.Outcomes.{outcome_name};

    ghost output = { λ outcome. Some (outcome_name outcome) };

    ghost styled_output = { λ outcome spec. Some (padded spec (outcome_name outcome)) };

    fn fmt<W: fmt::Write>(&self, f: &mut fmt::Formatter<W>) -> fmt::Result {
        f.pad(self.name())
    }
}
