//! How a REGISTER that is under way was sent.
ghost use Rattle.std.specs.Prelude.{◌≡◌};
ghost use Rattle.fax_trunks.specs.Registrations.{next_stage};

/// How a REGISTER that is under way was sent.
#[derive(Clone, Copy)]
pub enum Stage {
    /// As it was due.
    First,
    /// Again, with credentials that answer a challenge.
    Answering,
    /// Once more, with credentials over a new nonce.
    Renewing,
}

impl Stage {
    /// How it is sent once a challenge came. None: it is not, since the credentials were refused.
    pub(crate) fn challenged(self, stale: bool) -> Option<Self>
        ensures { result ≡ next_stage self stale }
    {
        match self {
            Stage::First => Some(Stage::Answering),
            Stage::Answering => { if stale { Some(Stage::Renewing) } else { None } }
            Stage::Renewing => None,
        }
    }
}
