//! A list of pages.
ghost use Rattle.std.specs.Prelude.{◌≡◌, ◌<◌, ◌∷◌, ◌++◌, [], length, vec_len, vec_capacity, OnOk, OnErr, IfErr};

use fax_pagestore::{Page, RowStore};
use std::marker::Model;
use std::mem;

/// Pages in a vector, which contracts see as their list.
pub struct Pages<S: RowStore> {
    pages: Vec<Page<S>>,
}

impl<S: RowStore> Drop for Pages<S> {
    fn drop(self) {
        let Pages { pages: _pages } = self;
    }
}

impl<S: RowStore> Model for Pages<S> {
    ghost use Rattle.std.specs.Prelude.{List};
    ghost use Rattle.fax_pagestore.specs.Pages.{PageValue};

    ghost Value = { List PageValue };

    ghost view = { λ p. p.pages.items };
}

impl<S: RowStore> Pages<S> {
    /// The pages of a vector. It takes no memory.
    pub fn from_vec(pages: Vec<Page<S>>) -> Self
        ensures { result ≡ pages.items }
    {
        Pages { pages }
    }

    /// The vector of them. It takes no memory.
    pub fn into_vec(self) -> Vec<Page<S>>
        ensures { result.items ≡ self }
    {
        let Pages { pages } = self;
        pages
    }

    /// The pages in order. It takes no memory.
    pub fn as_slice(&self) -> &[Page<S>]
        ensures { result.now ≡ self.now }
    {
        self.pages.as_slice()
    }

    /// Adds a page after the others, or hands it back for want of memory.
    pub(crate) fn push(&mut self, page: Page<S>) -> Result<(), Page<S>>
        ensures pushed { OnOk result (self.new ≡ self.old ++ page ∷ []) }
        ensures back { IfErr result (λ back. back ≡ page) }
        ensures err { OnErr result (self.new ≡ self.old) }
    {
        self.pages.push(page).map_err(|refused| refused.value)
    }

    /// Adds a page after the others, which move into a larger list where theirs is full: it takes no memory.
    pub(crate) fn push_within(&mut self, larger: &mut Vec<Page<S>>, page: Page<S>)
        requires empty { vec_len larger.old ≡ 0 }
        requires room { length self.old < vec_capacity larger.old }
        ensures pushed { self.new ≡ self.old ++ page ∷ [] }
        ensures empty { vec_len larger.new ≡ 0 }
    {
        if self.pages.len() == self.pages.capacity() {
            if larger.append(&mut self.pages).is_err() {
                unreachable!();
            }
            mem::swap(&mut self.pages, larger);
        }
        self.pages.push_reserved(page);
    }
}
