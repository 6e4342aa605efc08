//! The jobs whose pages wait, and which of them are looked at.
ghost use Rattle.std.specs.Prelude.{◌≡◌, ◌++◌, IfOk, OnOk};
ghost use Rattle.std.specs.List.{count_by, filter};
ghost use Rattle.fax_spool.specs.Torn.{same_call};
ghost use Rattle.fax_listing.specs.Jobs.{is_chosen, is_first, job_of, jobs_by, jobs_of, state_name, state_of, without_cards};

use fax_spool::{CallName, WaitingPage, is_torn};
use std::alloc::{AllocError, Global};
use std::marker::Model;

/// Which state a job is in.
#[derive(Clone, Copy)]
pub enum JobState {
    /// It waits to be sent.
    Waits,
    /// A page of its call is lost, so that it is not sent.
    Torn,
    /// Its call ended otherwise than delivered: its pages are kept until a word drops them.
    Undelivered,
}

impl JobState {
    /// The state's name in the line of a job.
    pub(crate) fn name(self) -> &'static str
        ensures { result.now ≡ state_name self }
    {
        match self {
            JobState::Waits => "waits",
            JobState::Torn => "torn",
            JobState::Undelivered => "undelivered",
        }
    }
}

/// A job: those pages of one call of one line that wait.
#[derive(Drop)]
pub struct SpooledJob<'a> {
    pub state: JobState,
    /// The first of its pages that waits.
    pub first: &'a WaitingPage,
    /// How many of them wait.
    pub pages: usize,
}

/// Contracts see the first page as its record.
impl<'a> Model for SpooledJob<'a> {
    ghost use Rattle.fax_listing.specs.Jobs.{JobValue};

    ghost Value = { JobValue };

    ghost view = { λ j. record { state = j.state; first = j.first.now; pages = j.pages } };
}

/// The job that is looked at alone.
#[derive(Clone, Copy)]
pub struct Choice<'a> {
    /// The name of its line.
    pub line: &'a str,
    /// The life of the process in which its call came.
    pub life: u32,
    /// The number of that call.
    pub call: u32,
}

/// Keeps those pages alone that are chosen.
pub fn choose(pages: &mut Vec<WaitingPage>, choice: Option<Choice<'_>>)
    ensures { pages.new.items ≡ filter (is_chosen choice.entry) pages.old.items }
{
    pages.retain(|page| is_chosen(choice, page));
}

/// Drops the cards of calls, which stand among the pages of those that were not delivered: they have the number 0.
pub fn drop_cards(pages: &mut Vec<WaitingPage>)
    ensures { pages.new.items ≡ without_cards pages.old.items }
{
    pages.retain(|page| page.number != 0);
}

/// Whether a page is chosen.
fn is_chosen(choice: Option<Choice<'_>>, page: &WaitingPage) -> bool
    ensures { result ≡ is_chosen choice.entry page.now }
{
    match choice {
        Some(choice) => {
            page.life == choice.life
                && page.call == choice.call
                && page.line.as_slice() == choice.line.as_bytes()
        }
        None => true,
    }
}

/// The jobs of these pages, in the order of their first ones: in this state, but where these calls lack a page.
pub fn jobs_of<'a>(
    alloc: Global,
    pages: &'a [WaitingPage],
    torn: &[CallName],
    whole: JobState,
) -> Result<Vec<SpooledJob<'a>>, AllocError>
    ensures { IfOk result (λ jobs. jobs.items ≡ jobs_of torn.now whole pages.now) }
{
    let mut jobs = Vec::new(alloc);
    for (i, page) in pages.iter().enumerate() {
        push_if_first(&mut jobs, torn, whole, pages, &pages[..i], page)?;
    }
    Ok(jobs)
}

/// The job of a page, where that is the first one of it: these pages wait, and these before it.
fn push_if_first<'a>(
    jobs: &mut Vec<SpooledJob<'a>>,
    torn: &[CallName],
    whole: JobState,
    pages: &[WaitingPage],
    before: &[WaitingPage],
    page: &'a WaitingPage,
) -> Result<(), AllocError>
    ensures { OnOk result (jobs.new.items
        ≡ jobs.old.items ++ jobs_by torn.now whole pages.now before.now page.now) }
{
    if is_first(before, page) {
        jobs.push(job_of(page, pages, torn, whole))?;
    }
    Ok(())
}

/// Whether no page before this one came in its call.
fn is_first(before: &[WaitingPage], page: &WaitingPage) -> bool
    ensures { result ≡ is_first before.now page.now }
{
    for other in before {
        if is_of_call(page, other) {
            return false;
        }
    }
    true
}

/// The job of a page that is the first one of it, where these pages wait.
fn job_of<'a>(
    page: &'a WaitingPage,
    pages: &[WaitingPage],
    torn: &[CallName],
    whole: JobState,
) -> SpooledJob<'a>
    ensures { result ≡ job_of torn.now whole pages.now page.now }
{
    SpooledJob {
        state: state_of(torn, whole, page),
        first: page,
        pages: pages_of_call(pages, page),
    }
}

/// The state of the job of a page: this one, but where these calls lack a page.
fn state_of(torn: &[CallName], whole: JobState, page: &WaitingPage) -> JobState
    ensures { result ≡ state_of torn.now whole page.now }
{
    if is_torn(torn, page) {
        JobState::Torn
    } else {
        whole
    }
}

/// How many of these pages came in the call of one.
fn pages_of_call(pages: &[WaitingPage], page: &WaitingPage) -> usize
    ensures { result ≡ count_by (same_call page.now) pages.now }
{
    let mut count = 0;
    for other in pages {
        if is_of_call(page, other) {
            count += 1;
        }
    }
    count
}

/// Whether two pages came in one call.
fn is_of_call(page: &WaitingPage, other: &WaitingPage) -> bool
    ensures { result ≡ same_call page.now other.now }
{
    page.life == other.life
        && page.call == other.call
        && page.line.as_slice() == other.line.as_slice()
}
