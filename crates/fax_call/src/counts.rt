//! What is counted of a call.
ghost use Rattle.std.specs.Prelude.{◌≡◌, ◌+◌, ◌<◌, ◌^◌};
ghost use Rattle.fax_call.specs.Rep.{counts_shown};
ghost use Rattle.fax_call.specs.Table.{no_counts, first_try, next_try, next_step, next_page, next_exchange, one_delivered, one_refused};

/// What is counted of a call.
#[derive(Clone, Copy)]
pub(crate) struct Counts {
    /// The page that is due, from 0.
    pub page: u32,
    /// The step of the DIS's rates, from 0.
    pub step: u8,
    /// The trainings or commands that were sent for the same wait.
    pub tries: u8,
    /// The RTNs for the page.
    pub refused: u8,
    /// The pages that were answered MCF or RTP.
    pub delivered: u32,
}

impl Counts {
    /// Those of a call that begins.
    pub fn new() -> Self
        ensures { counts_shown result ≡ no_counts }
    {
        Counts {
            page: 0,
            step: 0,
            tries: 0,
            refused: 0,
            delivered: 0,
        }
    }

    /// The first try of a wait.
    pub fn first_try(self) -> Self
        ensures { counts_shown result ≡ first_try (counts_shown self) }
    {
        Counts { tries: 1, ..self }
    }

    /// One more try of the same wait.
    pub fn next_try(self) -> Self
        requires { self.tries < 3 }
        ensures { counts_shown result ≡ next_try (counts_shown self) }
    {
        Counts {
            tries: self.tries + 1,
            ..self
        }
    }

    /// The next step of the rates.
    pub fn next_step(self) -> Self
        requires { self.step < 6 }
        ensures { counts_shown result ≡ next_step (counts_shown self) }
    {
        Counts {
            step: self.step + 1,
            tries: 1,
            ..self
        }
    }

    /// The next page, the one before being answered well.
    pub fn next_page(self) -> Self
        requires page { self.page + 1 < 2 ^ 32 }
        requires delivered { self.delivered ≡ self.page }
        ensures { counts_shown result ≡ next_page (counts_shown self) }
    {
        Counts {
            page: self.page + 1,
            step: self.step,
            tries: 1,
            refused: 0,
            delivered: self.page + 1,
        }
    }

    /// The next page, for which the rates of a DIS begin anew.
    pub fn next_exchange(self) -> Self
        requires page { self.page + 1 < 2 ^ 32 }
        requires delivered { self.delivered ≡ self.page }
        ensures { counts_shown result ≡ next_exchange (counts_shown self) }
    {
        Counts {
            step: 0,
            ..self.next_page()
        }
    }

    /// The page is answered well.
    pub fn one_delivered(self) -> Self
        requires page { self.page + 1 < 2 ^ 32 }
        requires delivered { self.delivered ≡ self.page }
        ensures { counts_shown result ≡ one_delivered (counts_shown self) }
    {
        Counts {
            delivered: self.page + 1,
            ..self
        }
    }

    /// One more RTN for the page.
    pub fn one_refused(self) -> Self
        requires { self.refused < 2 }
        ensures { counts_shown result ≡ one_refused (counts_shown self) }
    {
        Counts {
            tries: 1,
            refused: self.refused + 1,
            ..self
        }
    }
}
