//! A spool over files of memory that a process left, and what they tell while nobody opens them.
use fax_runcodes::{Format, Width};
use fax_runs::restarts::open_again;
use fax_spool::{Listing, OpenedSpool, PageRecord, list_spool};
use sqlite_disk::Memory;
use std::alloc::Global;
use std::io;
use std::rt::HostRuntime;
use std::test::Fail;

/// Page 1 of call 0 of the first life; its call was on.
const PAGE: PageRecord<'_> = PageRecord {
    life: 1,
    call: 0,
    number: 1,
    format: Format {
        width: Width::W1728,
        fine: false,
    },
    closes: false,
    line: b"a1",
    tag: b"t",
    text: b"text",
};

/// Whether this page alone is told, and closes its job, as its process is gone.
fn tells_page(opened: &OpenedSpool<Memory>) -> bool {
    match opened.pages.as_slice() {
        [page] => page.life == 1 && page.number == 1 && page.closes,
        _ => false,
    }
}

/// What `open_again` promises of an `Ok` is not empty: it answers one.
#[test]
fn a_page_is_told_again(rt: HostRuntime) -> Result<(), Fail> {
    let opened = open_again(rt.alloc(), &PAGE)?;
    assert!(rt; tells_page(&opened) && opened.spool.epoch() == 2);
    Ok(())
}

/// Whether this page alone is listed, closes its job, and nothing is harmed or torn.
fn lists_page(listing: &Listing) -> bool {
    let is_whole = listing.one.damaged == 0
        && listing.other.damaged == 0
        && listing.torn.is_empty();
    match listing.pages.as_slice() {
        [page] => {
            is_whole
                && page.number == 1
                && page.closes
                && page.tag.as_slice() == PAGE.tag
                && page.text.as_slice() == PAGE.text
        }
        _ => false,
    }
}

/// Whether the files tell that, whichever of them comes first.
fn lists_it(alloc: Global) -> io::Result<[bool; 2]> {
    let (one, other) = open_again(alloc, &PAGE)?.spool.into_files();
    let listing = list_spool(alloc, one.disk.bytes(), other.disk.bytes())?;
    let turned = list_spool(alloc, other.disk.bytes(), one.disk.bytes())?;
    Ok([lists_page(&listing), lists_page(&turned)])
}

/// What `list_spool` promises of an `Ok` is not empty: the files tell the page.
#[test]
fn a_page_is_listed(rt: HostRuntime) -> Result<(), Fail> {
    assert!(rt; lists_it(rt.alloc())? == [true; 2]);
    Ok(())
}
