//! A process that puts pages until it is killed, and one that tells what it left: the two halves of `tools/crash`; and one that puts the
//! pages of four calls into two files, and one that tells what of them can be read. They do nothing but where the environment names a
//! folder.
use fax_jobs::Outcome;
use fax_runcodes::{Format, Width};
use fax_spool::{CallName, EndedRecord, PageRecord, Spool, WaitingPage};
use fax_spool_folder::{SpoolFolderFile, open_folder};
use sqlite_disk::Unknown;
use std::alloc::{AllocError, Global};
use std::test::Fail;
use std::time::Instant;
use std::{env, io};

const FORMAT: Format = Format {
    width: Width::W2048,
    fine: false,
};

/// So many pages wait at most.
const MOST_WAITING: u32 = 40;

/// A number that the environment gives, or this one.
fn number_in(rt: &HostRuntime, name: &str, or: u32) -> u32 {
    match env::var(rt, name) {
        Ok(text) => text.as_str().parse().unwrap_or(or),
        Err(_) => or,
    }
}

/// The text of the page of a number: octets that follow from it alone.
fn text_of(alloc: Global, number: u32, octets: u32) -> Result<Vec<u8>, AllocError> {
    let mut text = Vec::new(alloc);
    for at in 0..octets {
        let octet = number.wrapping_mul(31).wrapping_add(at.wrapping_mul(7)) % 251;
        text.push(octet as u8)?;
    }
    Ok(text)
}

/// Whether a page has the text of its number.
fn is_right(alloc: Global, page: &WaitingPage) -> Result<bool, AllocError> {
    let octets = page.text.len().min(0xffff_ffff) as u32;
    let text = text_of(alloc, page.number, octets)?;
    Ok(text.as_slice() == page.text.as_slice())
}

/// The page of a number is put.
fn put(
    spool: &mut Spool<SpoolFolderFile<Unknown>>,
    alloc: Global,
    life: u32,
    number: u32,
    text: &[u8],
) -> io::Result<()> {
    let page = PageRecord {
        life,
        call: 0,
        number,
        format: FORMAT,
        closes: true,
        line: b"a1",
        tag: b"t",
        text,
    };
    spool.put(alloc, &page)
}

/// The job of the page of a number ended; the files take turns.
fn end(
    spool: &mut Spool<SpoolFolderFile<Unknown>>,
    alloc: Global,
    life: u32,
    number: u32,
) -> io::Result<()> {
    let ended = EndedRecord {
        life,
        call: 0,
        first: number,
        pages: 1,
        delivered: 1,
        format: FORMAT,
        outcome: Outcome::Delivered,
        line: b"a1",
    };
    spool.end(alloc, &ended)?;
    if spool.clear()? {
        spool.change(alloc)?;
    }
    Ok(())
}

/// What waits is put again, so that the other file is cleared and taken into use; and once more into that.
fn copy_forward(spool: &mut Spool<SpoolFolderFile<Unknown>>, alloc: Global) -> io::Result<()> {
    spool.put_again(alloc, usize::MAX)?;
    spool.clear()?;
    spool.change(alloc)?;
    spool.put_again(alloc, usize::MAX)?;
    spool.clear()?;
    Ok(())
}

/// Reads the job of the page of this number of a life back, and tells how many pages came and the nanoseconds that it took.
fn read_and_tell(
    rt: &HostRuntime,
    spool: &mut Spool<SpoolFolderFile<Unknown>>,
    life: u32,
    number: u32,
) -> Result<(), Fail> {
    let ended = EndedRecord {
        life,
        call: 0,
        first: number,
        pages: 1,
        delivered: 0,
        format: FORMAT,
        outcome: Outcome::NoAnswer,
        line: b"a1",
    };
    let start = Instant::now(rt)?;
    let pages = spool.pages_ended_by(rt.alloc(), &ended)?;
    let took = start.elapsed(rt)?.as_nanos();
    println!(rt; "read {} {took}", pages.len())?;
    Ok(())
}

/// Opens a folder, reads the job of one page of it back, and tells how many pages came and the nanoseconds that it took. `SPOOL_READ`:
/// of which number the page is.
#[test]
fn reads_a_page(rt: HostRuntime) -> Result<(), Fail> {
    let Ok(folder) = env::var(&rt, "SPOOL_READS") else {
        return Ok(());
    };
    let opened = open_folder(&rt, folder.as_str(), Unknown)?;
    let mut spool = opened.spool;
    match opened.pages.as_slice() {
        [first, ..] => read_and_tell(&rt, &mut spool, first.life, number_in(&rt, "SPOOL_READ", 1)),
        [] => Ok(()),
    }
}

/// How pages are put, as the environment tells it: how many, of which length, whether their jobs end as more come, and after how many what
/// waits is copied forward.
#[derive(Clone, Copy)]
struct Puts {
    pages: u32,
    octets: u32,
    ends: bool,
    stays: u32,
}

/// As it tells it.
fn puts_in(rt: &HostRuntime) -> Puts {
    Puts {
        pages: number_in(rt, "SPOOL_PAGES", 1000),
        octets: number_in(rt, "SPOOL_OCTETS", 40_000),
        ends: number_in(rt, "SPOOL_ENDS", 1) == 1,
        stays: number_in(rt, "SPOOL_STAYS", 0),
    }
}

/// The job of the page of a number of a life ends, and that is told.
fn end_and_tell(
    rt: &HostRuntime,
    spool: &mut Spool<SpoolFolderFile<Unknown>>,
    life: u32,
    number: u32,
) -> Result<(), Fail> {
    end(spool, rt.alloc(), life, number)?;
    println!(rt; "ended {life} {number}")?;
    Ok(())
}

/// The jobs of these pages end, but for that of the first one, where it stays. It answers whether the first page is to stay that is put.
fn end_waiting(
    rt: &HostRuntime,
    spool: &mut Spool<SpoolFolderFile<Unknown>>,
    pages: &[WaitingPage],
    stays: bool,
) -> Result<bool, Fail> {
    let mut first_stays = stays;
    for page in pages {
        if first_stays {
            first_stays = false;
        } else {
            end_and_tell(rt, spool, page.life, page.number)?;
        }
    }
    Ok(first_stays)
}

/// The page of a number is put, of so many octets, and the nanoseconds are told that it took.
fn put_and_tell(
    rt: &HostRuntime,
    spool: &mut Spool<SpoolFolderFile<Unknown>>,
    life: u32,
    number: u32,
    octets: u32,
) -> Result<(), Fail> {
    let text = text_of(rt.alloc(), number, octets)?;
    let start = Instant::now(rt)?;
    put(spool, rt.alloc(), life, number, text.as_slice())?;
    let took = start.elapsed(rt)?.as_nanos();
    println!(rt; "put {number} {took}")?;
    Ok(())
}

/// What waits is copied forward, and the nanoseconds are told that it took.
fn copy_and_tell(
    rt: &HostRuntime,
    spool: &mut Spool<SpoolFolderFile<Unknown>>,
) -> Result<(), Fail> {
    let start = Instant::now(rt)?;
    copy_forward(spool, rt.alloc())?;
    let took = start.elapsed(rt)?.as_nanos();
    println!(rt; "copied {took}")?;
    Ok(())
}

/// The jobs of the pages that wait end, and page after page is put.
fn put_pages(
    rt: &HostRuntime,
    spool: &mut Spool<SpoolFolderFile<Unknown>>,
    waiting: &[WaitingPage],
) -> Result<(), Fail> {
    let puts = puts_in(rt);
    let life = spool.epoch();
    println!(rt; "life {life}")?;
    let first_stays = end_waiting(rt, spool, waiting, puts.stays > 0)?;
    for number in 1..puts.pages.saturating_add(1) {
        put_and_tell(rt, spool, life, number, puts.octets)?;
        if puts.stays > 0 && number % puts.stays == 0 {
            copy_and_tell(rt, spool)?;
        }
        let stays = first_stays && number == MOST_WAITING + 1;
        if puts.ends && number > MOST_WAITING && !stays {
            end_and_tell(rt, spool, life, number - MOST_WAITING)?;
        }
    }
    Ok(())
}

/// Ends the jobs of the pages that wait, and puts page after page, and tells each with the nanoseconds that it took. `SPOOL_PAGES`: how many; `SPOOL_OCTETS`: of which length;
/// `SPOOL_ENDS`: whether the jobs of pages end as more come; `SPOOL_STAYS`: the first page that waits stays, and after so many puts what
/// waits is copied forward.
#[test]
fn puts_pages(rt: HostRuntime) -> Result<(), Fail> {
    let Ok(folder) = env::var(&rt, "SPOOL_PUTS") else {
        return Ok(());
    };
    let opened = open_folder(&rt, folder.as_str(), Unknown)?;
    let mut spool = opened.spool;
    put_pages(&rt, &mut spool, opened.pages.as_slice())
}

/// Tells these pages, which wait.
fn tell_pages(rt: &HostRuntime, pages: &[WaitingPage]) -> Result<(), Fail> {
    for page in pages {
        let right = is_right(rt.alloc(), page)?;
        println!(rt;
            "waits {} {} {} {right}",
            page.life,
            page.number,
            page.text.len()
        )?;
    }
    Ok(())
}

/// Tells how long a spool took to open, in nanoseconds, with the number of its life, and what it was found to hold.
#[test]
fn lists_pages(rt: HostRuntime) -> Result<(), Fail> {
    let Ok(folder) = env::var(&rt, "SPOOL_LISTS") else {
        return Ok(());
    };
    let start = Instant::now(&rt)?;
    let opened = open_folder(&rt, folder.as_str(), Unknown)?;
    let took = start.elapsed(&rt)?.as_nanos();
    let damaged = (opened.older_damaged, opened.newer_damaged);
    println!(rt;
        "opened {} {took} {} {}",
        opened.spool.epoch(),
        damaged.0,
        damaged.1
    )?;
    tell_pages(&rt, opened.pages.as_slice())
}

/// A page of one of four calls, of two lines.
struct CallPage {
    line: &'static [u8],
    call: u32,
    number: u32,
    closes: bool,
}

/// Those that are put into the one file, and into the other one after it. Of call 2 the first two pages are a job, which ends; call 3 is
/// on.
const FIRST: [CallPage; 3] = [
    CallPage {
        line: b"a1",
        call: 0,
        number: 1,
        closes: false,
    },
    CallPage {
        line: b"a1",
        call: 0,
        number: 2,
        closes: false,
    },
    CallPage {
        line: b"a1",
        call: 0,
        number: 3,
        closes: true,
    },
];

const SECOND: [CallPage; 7] = [
    CallPage {
        line: b"a2",
        call: 1,
        number: 1,
        closes: false,
    },
    CallPage {
        line: b"a1",
        call: 2,
        number: 1,
        closes: false,
    },
    CallPage {
        line: b"a2",
        call: 1,
        number: 2,
        closes: true,
    },
    CallPage {
        line: b"a1",
        call: 2,
        number: 2,
        closes: true,
    },
    CallPage {
        line: b"a1",
        call: 2,
        number: 3,
        closes: true,
    },
    CallPage {
        line: b"a2",
        call: 3,
        number: 1,
        closes: false,
    },
    CallPage {
        line: b"a2",
        call: 3,
        number: 2,
        closes: false,
    },
];

/// The number that the octets of a page of a call follow from.
fn seed_of(call: u32, number: u32) -> u32 {
    call.wrapping_mul(10).wrapping_add(number)
}

/// These pages are put.
fn put_calls(
    spool: &mut Spool<SpoolFolderFile<Unknown>>,
    alloc: Global,
    life: u32,
    pages: &[CallPage],
) -> io::Result<()> {
    for page in pages {
        let text = text_of(alloc, seed_of(page.call, page.number), 40)?;
        let record = PageRecord {
            life,
            call: page.call,
            number: page.number,
            format: FORMAT,
            closes: page.closes,
            line: page.line,
            tag: b"t",
            text: text.as_slice(),
        };
        spool.put_all(alloc, &[record])?;
    }
    Ok(())
}

/// The pages of four calls are put into both files, and a job ends.
fn put_all_calls(spool: &mut Spool<SpoolFolderFile<Unknown>>, alloc: Global) -> io::Result<()> {
    let life = spool.epoch();
    put_calls(spool, alloc, life, &FIRST)?;
    spool.change(alloc)?;
    put_calls(spool, alloc, life, &SECOND)?;
    let ended = EndedRecord {
        life,
        call: 2,
        first: 1,
        pages: 2,
        delivered: 2,
        format: FORMAT,
        outcome: Outcome::Delivered,
        line: b"a1",
    };
    spool.end(alloc, &ended)
}

/// Puts the pages of four calls into both files of a new folder, and ends a job. `SPOOL_AGAIN`: whether what waits is copied forward then.
#[test]
fn puts_calls(rt: HostRuntime) -> Result<(), Fail> {
    let Ok(folder) = env::var(&rt, "SPOOL_CALLS") else {
        return Ok(());
    };
    let mut spool = open_folder(&rt, folder.as_str(), Unknown)?.spool;
    put_all_calls(&mut spool, rt.alloc())?;
    if number_in(&rt, "SPOOL_AGAIN", 0) == 1 {
        copy_forward(&mut spool, rt.alloc())?;
    }
    println!(rt; "put")?;
    Ok(())
}

/// Whether a page of a call has the text of its call and number.
fn is_right_of_call(alloc: Global, page: &WaitingPage) -> Result<bool, AllocError> {
    let text = text_of(alloc, seed_of(page.call, page.number), 40)?;
    Ok(text.as_slice() == page.text.as_slice())
}

/// Tells these pages, which wait, and these calls, which lack one.
fn tell_calls(rt: &HostRuntime, pages: &[WaitingPage], torn: &[CallName]) -> Result<(), Fail> {
    for page in pages {
        let right = is_right_of_call(rt.alloc(), page)?;
        println!(rt; "waits {} {} {} {right}", page.life, page.call, page.number)?;
    }
    for name in torn {
        println!(rt; "torn {} {}", name.life, name.call)?;
    }
    Ok(())
}

/// Tells what a spool of calls was found to hold: damaged records, octets that were passed over, the pages that wait, and the calls that
/// lack one.
#[test]
fn lists_calls(rt: HostRuntime) -> Result<(), Fail> {
    let Ok(folder) = env::var(&rt, "SPOOL_CALLS_LISTED") else {
        return Ok(());
    };
    let opened = open_folder(&rt, folder.as_str(), Unknown)?;
    let damaged = (opened.older_damaged, opened.newer_damaged);
    let passed = (opened.older_passed_over, opened.newer_passed_over);
    println!(rt;
        "damaged {} {} {} {}",
        damaged.0, damaged.1, passed.0, passed.1
    )?;
    tell_calls(&rt, opened.pages.as_slice(), opened.torn.as_slice())
}
