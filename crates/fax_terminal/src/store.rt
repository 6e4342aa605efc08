//! What keeps the pages that a terminal confirms.
ghost use Rattle.std.specs.Prelude.{Bool, is_ok};
ghost use Rattle.fax_pagestore.specs.Pages.{PageValue};

use fax_pagestore::{Page, RowStore};

/// A page was not stored.
#[derive(Clone, Copy, PartialEq, Eq, Debug)]
pub struct StoreFault;

/// What keeps pages.
pub trait PageStore<S: RowStore> {
    ghost use Rattle.std.specs.Prelude.{Bool, is_ok};
    ghost use Rattle.fax_pagestore.specs.Pages.{PageValue};

    /// What is made of it by a page that it is to keep, which was kept or not.
    ghost keeps: { PageValue → Bool → Self → Self → Type 0 };

    /// Keeps a page.
    fn keep(&mut self, page: &Page<S>) -> Result<(), StoreFault>
        ensures { keeps page.now (is_ok result) self.old self.new };
}
