//! How samples are coded.
ghost use Rattle.std.specs.Prelude.{◌≡◌};
ghost use Rattle.fax_audio.specs.Packets.{payload_type, silence};

/// How samples are coded (ITU-T G.711).
#[derive(Clone, Copy, PartialEq, Eq)]
pub enum Coding {
    /// PCMU.
    MuLaw,
    /// PCMA.
    ALaw,
}

impl Coding {
    /// The payload type (RFC 3551, section 6).
    pub(crate) fn payload_type(self) -> u8
        ensures { result ≡ payload_type self }
    {
        match self {
            Coding::MuLaw => 0,
            Coding::ALaw => 8,
        }
    }

    /// The sample of least size.
    pub(crate) fn silence(self) -> u8
        ensures { result ≡ silence self }
    {
        match self {
            Coding::MuLaw => 0xff,
            Coding::ALaw => 0xd5,
        }
    }
}
