//! What keeps no pages.
use fax_pagestore::{PackedRows, Page};
use fax_terminal::{PageStore, StoreFault};

/// Pages are not kept: who plays a terminal keeps those that it answers.
#[derive(Drop)]
pub(crate) struct Unstored;

impl PageStore<PackedRows> for Unstored {
    ghost keeps = { λ page is_kept old new. Unit {0} };

    fn keep(&mut self, _page: &Page<PackedRows>) -> Result<(), StoreFault> {
        Ok(())
    }
}
