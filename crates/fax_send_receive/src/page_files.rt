//! Pages that are stored in files.
ghost use Rattle.std.specs.Prelude.{◌≡◌, ◌≤◌, string_bytes, IfOk, OnErr, OnOk};
ghost use Rattle.fax_send_receive.specs.Naming.{name_of_page, naming_of};
ghost use Rattle.fax_send_receive.specs.Storing.{BeginsCall, IsPageAdded};

use crate::named_files::{NamedFiles, write_file};
use crate::page_naming::{PageForm, PageNaming};
use crate::page_octets::octets_of;
use crate::watch::Watch;
use fax_pagestore::{PackedRows, Page};
use fax_terminal::{PageStore, StoreFault};
use std::alloc::{AllocError, Global};
use std::io;
use std::marker::Model;

/// Writes the pages of calls as pictures or as TIFFs, into files that are named for the call and for their number in it. No file that
/// is there is written over.
pub struct PageFiles<'a, F: NamedFiles + Drop> {
    files: F,
    watch: &'a Watch,
    alloc: Global,
    naming: PageNaming<'a>,
    call: u32,
    /// How many pages of the call it was given.
    pages: u32,
    /// Why the last page was not written, where the system says it.
    fault: Option<io::Error>,
}

impl<F: NamedFiles + Drop> Drop for PageFiles<'_, F> {
    fn drop(self) {
        let PageFiles {
            files: _files,
            watch: _watch,
            alloc: _alloc,
            naming: _naming,
            call: _call,
            pages: _pages,
            fault: _fault,
        } = self;
    }
}

/// Seen as the call that is on, and the files that were made.
impl<'a, F: NamedFiles + Drop> Model for PageFiles<'a, F> {
    ghost use Rattle.fax_send_receive.specs.Naming.{naming_of};
    ghost use Rattle.fax_send_receive.specs.Storing.{FilingValue};

    ghost Value = { FilingValue };

    ghost view = { λ p. record {
      naming = naming_of p.naming;
      call = p.call;
      pages = p.pages;
      made = F.made p.files;
    } };
}

impl<'a, F: NamedFiles + Drop> PageFiles<'a, F> {
    /// These files, before the first call.
    pub fn new(files: F, watch: &'a Watch, alloc: Global) -> Self
        ensures { result.made ≡ F.made files }
    {
        PageFiles {
            files,
            watch,
            alloc,
            naming: PageNaming {
                prefix: "",
                form: PageForm::Picture,
            },
            call: 0,
            pages: 0,
            fault: None,
        }
    }

    /// The next call begins, whose files are named so. It has the next number of whose first page no file is there.
    pub(crate) fn begin_call(&mut self, naming: PageNaming<'a>) -> Result<(), AllocError>
        ensures ok { OnOk result (BeginsCall (naming_of naming.entry) self.old self.new) }
        ensures err { OnErr result (self.new ≡ self.old) }
    {
        self.call = free_call(&self.files, self.alloc, naming, self.call)?;
        self.naming = naming;
        self.pages = 0;
        self.fault = None;
        Ok(())
    }

    /// The number of the call.
    pub(crate) fn call(&self) -> u32
        ensures { result ≡ self.now.call }
    {
        self.call
    }

    /// The number of the page of the call that it was given last, from 1 on.
    pub(crate) fn last(&self) -> u32
        ensures { result ≡ self.now.pages }
    {
        self.pages
    }

    /// Why that page was not written. `None`: it was, or memory was wanted.
    pub(crate) fn take_fault(&mut self) -> Option<io::Error>
        ensures { self.new ≡ self.old }
    {
        self.fault.take()
    }
}

impl<F: NamedFiles + Drop> PageStore<PackedRows> for PageFiles<'_, F> {
    ghost use Rattle.fax_send_receive.specs.Storing.{StoresPage};

    ghost keeps = { StoresPage };

    fn keep(&mut self, page: &Page<PackedRows>) -> Result<(), StoreFault> {
        let Some(number) = self.pages.checked_add(1) else {
            return Err(StoreFault);
        };
        self.pages = number;
        let (alloc, naming, call) = (self.alloc, self.naming, self.call);
        if let Err(fault) = write_page(&mut self.files, alloc, naming, call, number, page) {
            self.fault = fault;
            return Err(StoreFault);
        }
        self.watch.tell_progress("received: page", number);
        Ok(())
    }
}

/// Writes a page into the file of this number in a call, where there is none. An `Err` tells why it was not, where the system says
/// it.
fn write_page<F: NamedFiles>(
    files: &mut F,
    alloc: Global,
    naming: PageNaming<'_>,
    call: u32,
    number: u32,
    page: &Page<PackedRows>,
) -> Result<(), Option<io::Error>>
    ensures ok { OnOk result (IsPageAdded (naming_of naming.entry)
        call number page.now (F.made files.old) (F.made files.new)) }
    ensures err { OnErr result (F.made files.new ≡ F.made files.old) }
{
    let octets = match octets_of(alloc, naming.form, page) {
        Ok(octets) => octets,
        Err(fault) => return Err(fault),
    };
    let name = match path_of(alloc, naming, call, number) {
        Ok(name) => name,
        Err(error) => return Err(Some(io::Error::from(error))),
    };
    match write_file(files, name, octets.as_slice()) {
        Ok(()) => Ok(()),
        Err(error) => Err(Some(error)),
    }
}

/// The first call, from this number on, of whose first page no file is there.
fn free_call<F: NamedFiles>(
    files: &F,
    alloc: Global,
    naming: PageNaming<'_>,
    from: u32,
) -> Result<u32, AllocError>
    ensures { IfOk result (λ call. from ≤ call) }
{
    for call in from..u32::MAX {
        let path = path_of(alloc, naming, call, 1)?;
        if files.open(path.as_str()).is_err() {
            return Ok(call);
        }
    }
    Ok(u32::MAX)
}

/// The name of the file of a page.
fn path_of(
    alloc: Global,
    naming: PageNaming<'_>,
    call: u32,
    page: u32,
) -> Result<String, AllocError>
    ensures { IfOk result
        (λ path. string_bytes path ≡ name_of_page (naming_of naming.entry) call page) }
{
    let (prefix, ending) = (naming.prefix, naming.form.ending());
    format!(in alloc; "{prefix}-{call}-{page}{ending}")
}
