//! Which page of all a page is.
ghost use Rattle.std.specs.Prelude.{◌≡◌, ◌↔◌, IfOk, IsTrue};
ghost use Rattle.fax_spool.specs.Waits.{PageName as PageNameValue, name_of, ends};

use crate::{EndedRecord, PageRecord};
use std::alloc::{AllocError, Global};
use std::marker::Model;

/// Which page of all a page is: in which life and call of which line it came, and as which page of the call.
pub(crate) struct PageName {
    life: u32,
    call: u32,
    number: u32,
    line: Vec<u8>,
}

impl Drop for PageName {
    fn drop(self) {
        let PageName {
            life: _life,
            call: _call,
            number: _number,
            line: _line,
        } = self;
    }
}

impl Model for PageName {
    ghost use Rattle.fax_spool.specs.Waits.{PageName as PageNameValue};

    ghost Value = { PageNameValue };

    ghost view = { λ p.
        record { life = p.life; call = p.call; number = p.number; line = p.line.items } };
}

impl PageName {
    /// The name of a page.
    pub(crate) fn of_page(alloc: Global, page: &PageRecord<'_>) -> Result<PageName, AllocError>
        ensures { IfOk result (λ name. name ≡ name_of page.now) }
    {
        Ok(PageName {
            life: page.life,
            call: page.call,
            number: page.number,
            line: page.line.to_vec(alloc)?,
        })
    }

    /// In which life of the process it was confirmed.
    pub(crate) fn life(&self) -> u32
        ensures { result ≡ self.now.life }
    {
        self.life
    }

    /// The number of the call that it came in.
    pub(crate) fn call(&self) -> u32
        ensures { result ≡ self.now.call }
    {
        self.call
    }

    /// Which page of that call it is.
    pub(crate) fn number(&self) -> u32
        ensures { result ≡ self.now.number }
    {
        self.number
    }

    /// The name of its line.
    pub(crate) fn line(&self) -> &[u8]
        ensures { result.now ≡ self.now.line }
    {
        self.line.as_slice()
    }

    /// Whether it is the name of this page.
    pub(crate) fn is_of(&self, page: &PageRecord<'_>) -> bool
        ensures { IsTrue result ↔ (self.now ≡ name_of page.now) }
    {
        page.life == self.life
            && page.call == self.call
            && page.number == self.number
            && page.line == self.line.as_slice()
    }

    /// Whether the job that ended had this page.
    pub(crate) fn is_ended_by(&self, ended: &EndedRecord<'_>) -> bool
        ensures { result ≡ ends ended.now self.now }
    {
        ended.life == self.life
            && ended.call == self.call
            && ended.line == self.line.as_slice()
            && ended.first <= self.number
            && u64::from(self.number) < u64::from(ended.first) + u64::from(ended.pages)
    }
}

/// Whether the job that ended had this page.
pub(crate) fn had(ended: &EndedRecord<'_>, page: &PageRecord<'_>) -> bool
    ensures { result ≡ ends ended.now (name_of page.now) }
{
    ended.life == page.life
        && ended.call == page.call
        && ended.line == page.line
        && ended.first <= page.number
        && u64::from(page.number) < u64::from(ended.first) + u64::from(ended.pages)
}
