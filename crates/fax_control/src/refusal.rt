//! Why a control word was not done.
ghost use Rattle.std.specs.Prelude.{◌≡◌};
ghost use Rattle.fax_control.specs.Answers.{name_of_refusal, number_of_refusal};

use std::fmt;

/// Why a control word was not done, or a line meant none. Each has a number of its own.
#[derive(Clone, Copy, PartialEq, Eq, Debug)]
pub enum Refusal {
    /// 1: the line has a call already.
    Busy,
    /// 2: the line has no number left for a call.
    NoNumber,
    /// 3: memory was refused.
    NoMemory,
    /// 4: the calling leg has no peer yet.
    NoPeer,
    /// 5: the gateway takes no ring any more.
    Stopping,
    /// 6: the leg's call is on and has heard from its peer.
    InCall,
    /// 7: the configuration has no line of this name.
    NoLine,
    /// 8: the line of octets says no word.
    NoWord,
    /// 9: the line has more than 256 octets.
    TooLong,
    /// 10: the system does not take the address for this leg.
    NoRoute,
    /// 11: no call is on on this leg, and none is asked for.
    NoCall,
    /// 12: the configuration gives the called leg its peer, and no word changes that.
    Fixed,
    /// 13: the spool takes no page, since its disk has failed.
    NoSpool,
    /// 14: as many pages of the line wait as may.
    Full,
    /// 15: the configuration that is in its file cannot be served by another run.
    NoReload,
}

impl Refusal {
    /// The number of the refusal, from 1 on.
    pub fn number(self) -> u8
        ensures { result ≡ number_of_refusal self }
    {
        match self {
            Refusal::Busy => 1,
            Refusal::NoNumber => 2,
            Refusal::NoMemory => 3,
            Refusal::NoPeer => 4,
            Refusal::Stopping => 5,
            Refusal::InCall => 6,
            Refusal::NoLine => 7,
            Refusal::NoWord => 8,
            Refusal::TooLong => 9,
            Refusal::NoRoute => 10,
            Refusal::NoCall => 11,
            Refusal::Fixed => 12,
            Refusal::NoSpool => 13,
            Refusal::Full => 14,
            Refusal::NoReload => 15,
        }
    }

    /// The name of the refusal.
    pub fn name(self) -> &'static str
        ensures { result.now ≡ name_of_refusal self }
    {
        match self {
            Refusal::Busy => "Busy",
            Refusal::NoNumber => "NoNumber",
            Refusal::NoMemory => "NoMemory",
            Refusal::NoPeer => "NoPeer",
            Refusal::Stopping => "Stopping",
            Refusal::InCall => "InCall",
            Refusal::NoLine => "NoLine",
            Refusal::NoWord => "NoWord",
            Refusal::TooLong => "TooLong",
            Refusal::NoRoute => "NoRoute",
            Refusal::NoCall => "NoCall",
            Refusal::Fixed => "Fixed",
            Refusal::NoSpool => "NoSpool",
            Refusal::Full => "Full",
            Refusal::NoReload => "NoReload",
        }
    }
}

impl fmt::Display for Refusal {
    ghost use Rattle.std.specs.Prelude.{Some};
    ghost use Rattle.fax_control.specs.Answers.{refusal_text};

    ghost output = { λ refusal. Some (refusal_text refusal) };

    fn fmt<W: fmt::Write>(&self, f: &mut fmt::Formatter<W>) -> fmt::Result {
        let number = self.number();
        let name = self.name();
        write!(f, "{number} {name}")
    }
}
