//! What keeps the pages of a call.
ghost use Rattle.std.specs.Prelude.{◌≡◌, Bool};
ghost use Rattle.fax_command.specs.Streams.{failed_after_write};

use fax_gateway::Leg;
use fax_pagestore::{PackedRows, Page};

/// Where a page stood: on the calling leg, where it was confirmed, or on the called leg, where it was sent.
#[derive(Clone, Copy, PartialEq, Eq)]
pub struct Place {
    pub leg: Leg,
    /// The number of the call that the page came in.
    pub call: u32,
    /// Its number in that call, from 1.
    pub page: u32,
}

/// A page was not stored.
#[derive(Clone, Copy, PartialEq, Eq, Debug)]
pub struct StoreFault;

/// What keeps pages.
pub trait PageStore {
    ghost use Rattle.std.specs.Prelude.{◌≡◌, Bool};
    ghost use Rattle.fax_command.specs.Streams.{failed_after_write};

    /// Whether a page was not stored.
    ghost failed: { Self → Bool };

    /// Keeps a page.
    fn keep(&mut self, place: Place, page: &Page<PackedRows>) -> Result<(), StoreFault>
        ensures { failed self.new ≡ failed_after_write (failed self.old) result };
}

/// Keeps no page, and never fails.
#[derive(Drop)]
pub struct NoPages;

impl PageStore for NoPages {
    ghost use Rattle.std.specs.Prelude.{false};

    ghost failed = { λ _. false };

    fn keep(&mut self, _place: Place, _page: &Page<PackedRows>) -> Result<(), StoreFault> {
        Ok(())
    }
}
