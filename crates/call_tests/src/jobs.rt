use fax_jobs::{Jobs, Outcome, Report};
use fax_pagestore::{Coding, Format, Page, PlainRows, RowStore, read_page};
use fax_runcodes::Width;
use std::alloc::Global;
use std::test::Fail;

/// Modified Huffman page of a white row of 1728 elements: an EOL, the row with an EOL after it, five more EOLs, and bits of 0 to
/// the octet's end. (ITU-T T.4, 4.1, tables 2/T.4 and 3a/T.4.)
const ONE_ROW: &[u8] = b"\x00\x14\xd9\xa8\x00\x80\x08\x00\x80\x08\x00\x80\x08";

/// What happens in a call: a page of the fine resolution or not is confirmed, of this call, and for EOP or not; or the call ends.
#[derive(Clone, Copy)]
enum Event {
    Confirms(u32, bool, bool),
    CallEnds,
}

/// A job as it is told: its call, whether it is fine, and how many pages it has.
type Told = (u32, bool, u32);

/// A book that was asked: the call of the job that is sent next and of the one that pages join, and how many jobs wait.
type Shown = (Option<u32>, Option<u32>, usize);

/// The format of pages of 1728 elements a row.
fn format_of(fine: bool) -> Format {
    Format {
        width: Width::W1728,
        fine,
    }
}

fn page_of(alloc: Global, fine: bool) -> Option<Page<PlainRows>> {
    read_page(alloc, ONE_ROW, format_of(fine), Coding::Mh).ok()
}

/// How a book stands.
fn shown<S: RowStore>(jobs: &Jobs<S>) -> Shown {
    let next = match jobs.first_waiting() {
        Some(job) => Some(job.call()),
        None => None,
    };
    let open = match jobs.open_job() {
        Some(job) => Some(job.call()),
        None => None,
    };
    (next, open, jobs.waiting())
}

/// Confirms a page, once more where it was handed back, which changes nothing.
fn confirm<S: RowStore>(jobs: &mut Jobs<S>, call: u32, page: Page<S>, closes: bool) -> Option<()> {
    let before = shown(jobs);
    match jobs.confirm(call, page, closes) {
        Ok(()) => Some(()),
        Err(back) if shown(jobs) == before => jobs.confirm(call, back, closes).ok(),
        Err(_) => None,
    }
}

/// Sends the job that waits first, and ends it with the first of its pages delivered.
fn send_one<S: RowStore>(jobs: &mut Jobs<S>) -> Option<Told> {
    if jobs.sending().is_some() {
        return None;
    }
    jobs.next();
    let job = jobs.sending()?;
    let told = (job.call(), job.format().fine, job.page_count());
    jobs.end(Outcome::PageRefused, 1);
    Some(told)
}

/// Tells the book what happens.
fn tell(alloc: Global, jobs: &mut Jobs<PlainRows>, event: Event) -> Option<()> {
    match event {
        Event::Confirms(call, fine, closes) => confirm(jobs, call, page_of(alloc, fine)?, closes),
        Event::CallEnds => {
            jobs.end_call();
            Some(())
        }
    }
}

/// A book to which this happened.
fn book_of(alloc: Global, events: &[Event]) -> Option<Jobs<PlainRows>> {
    let mut jobs = Jobs::new(alloc).ok()?;
    for event in events {
        tell(alloc, &mut jobs, *event)?;
    }
    Some(jobs)
}

/// How many octets the pages of a book hold.
fn held_by<S: RowStore>(jobs: &Jobs<S>) -> u128 {
    jobs.held()
}

/// How many octets the pages of jobs hold, of a white row each: 16.
fn held_of(jobs: &[Told]) -> u128 {
    let mut pages: u32 = 0;
    for (_, _, count) in jobs {
        pages = pages.saturating_add(*count);
    }
    u128::from(pages).saturating_mul(16)
}

/// Whether just these jobs wait in a book, in their order, and no job is open.
fn has_jobs<S: RowStore>(jobs: &mut Jobs<S>, wanted: &[Told]) -> bool {
    let (_, open, waiting) = shown(jobs);
    let mut all = open.is_none() && waiting == wanted.len() && held_by(jobs) == held_of(wanted);
    for told in wanted {
        let (next, _, _) = shown(jobs);
        let (call, _, _) = *told;
        all = all && next == Some(call) && send_one(jobs) == Some(*told);
    }
    all && shown(jobs) == (None, None, 0) && held_by(jobs) == 0
}

/// What is reported of the first job, where it is the only one.
fn report_of<S: RowStore>(jobs: &Jobs<S>) -> Option<Report> {
    match jobs.report(1) {
        Some(_) => None,
        None => jobs.report(0),
    }
}

/// Each outcome, its number and its name.
const OUTCOMES: &[(Outcome, u8, &str)] = &[
    (Outcome::Delivered, 0, "Delivered"),
    (Outcome::NotReceiver, 1, "NotReceiver"),
    (Outcome::WidthLacking, 2, "WidthLacking"),
    (Outcome::FineLacking, 3, "FineLacking"),
    (Outcome::RatesSpent, 4, "RatesSpent"),
    (Outcome::NoAnswer, 5, "NoAnswer"),
    (Outcome::NoReply, 6, "NoReply"),
    (Outcome::PageRefused, 7, "PageRefused"),
    (Outcome::HungUp, 8, "HungUp"),
    (Outcome::NotPlaced, 9, "NotPlaced"),
];

#[test]
fn outcomes_have_numbers_and_names(rt: HostRuntime) -> Result<(), Fail> {
    for (outcome, number, name) in OUTCOMES {
        let told = format!(in rt.alloc(); "{outcome}")?;
        assert!(rt; (outcome.number(), outcome.name(), told.as_str()) == (*number, *name, *name));
    }
    Ok(())
}

/// A book in which a job of two pages, of call 7, is opened, and closed.
fn book_of_two_pages(alloc: Global) -> Option<Jobs<PlainRows>> {
    let mut jobs = Jobs::new(alloc).ok()?;
    jobs.reserve().ok()?;
    opens(&mut jobs, page_of(alloc, true)?, page_of(alloc, false)?)?;
    Some(jobs)
}

/// Opens a job with a page, adds another one, and closes the job.
fn opens<S: RowStore>(jobs: &mut Jobs<S>, first: Page<S>, second: Page<S>) -> Option<()> {
    if jobs.open_job().is_some() {
        return None;
    }
    jobs.open(7, first).ok()?;
    jobs.add_page(second).ok()?;
    jobs.close();
    Some(())
}

#[test]
fn a_job_goes_through_the_book(rt: HostRuntime) -> Result<(), Fail> {
    let mut jobs = book_of_two_pages(rt.alloc()).ok_or("a book")?;
    let wanted = Report {
        call: 7,
        format: format_of(true),
        pages: 2,
        delivered: 1,
        outcome: Outcome::PageRefused,
    };
    assert!(rt; report_of(&jobs).is_none() && has_jobs(&mut jobs, &[(7, true, 2)]));
    assert!(rt; report_of(&jobs) == Some(wanted));
    Ok(())
}

/// Calls, and the jobs that they are cut into.
const CUTS: &[(&[Event], &[Told])] = &[
    // no page
    (&[Event::CallEnds], &[]),
    // two pages, the last of them for EOP
    (
        &[
            Event::Confirms(7, false, false),
            Event::Confirms(7, false, true),
        ],
        &[(7, false, 2)],
    ),
    // pages of other formats in mid-call: one job, of the first one's format
    (
        &[
            Event::Confirms(7, false, false),
            Event::Confirms(7, true, false),
            Event::Confirms(7, false, true),
        ],
        &[(7, false, 3)],
    ),
    // EOP in mid-call
    (
        &[
            Event::Confirms(7, false, true),
            Event::Confirms(7, false, false),
            Event::CallEnds,
        ],
        &[(7, false, 1), (7, false, 1)],
    ),
    // two calls, of which the first ends without EOP
    (
        &[
            Event::Confirms(7, true, false),
            Event::Confirms(7, true, false),
            Event::CallEnds,
            Event::Confirms(8, true, true),
            Event::CallEnds,
        ],
        &[(7, true, 2), (8, true, 1)],
    ),
    // two calls, of which the end of the first is not told
    (
        &[
            Event::Confirms(7, true, false),
            Event::Confirms(8, true, true),
        ],
        &[(7, true, 1), (8, true, 1)],
    ),
    // three jobs that wait
    (
        &[
            Event::Confirms(9, false, true),
            Event::Confirms(3, false, true),
            Event::Confirms(5, false, true),
        ],
        &[(9, false, 1), (3, false, 1), (5, false, 1)],
    ),
];

#[test]
fn cuts_calls_into_jobs(rt: HostRuntime) -> Result<(), Fail> {
    for (events, wanted) in CUTS {
        let mut jobs = book_of(rt.alloc(), events).ok_or("a book")?;
        assert!(rt; has_jobs(&mut jobs, wanted));
    }
    Ok(())
}
