//! What the octets of a spool's files tell.
ghost use Rattle.std.specs.Prelude.{◌≡◌, ◌++◌, IfOk, OnOk, flat_map, string_bytes};
ghost use Rattle.fax_listing.specs.Jobs.{chosen, jobs_of, without_cards};
ghost use Rattle.fax_listing.specs.Lines.{job_line};
ghost use Rattle.fax_listing.specs.Looks.{Looks, LooksAt, damage_told, is_found, none_told, status_of};
ghost use Rattle.fax_listing.specs.Pictures.{failed_after_look};
ghost use Rattle.fax_listing.specs.Wanted.{KeepsWanted};

use crate::fault::LookFault;
use crate::job::{Choice, JobState, choose, drop_cards, jobs_of};
use crate::job_line::write_jobs;
use crate::picture_files::PictureFiles;
use crate::pictures::keep_pictures;
use crate::telling::{tell_damage, tell_no_job};
use crate::tiffs::keep_tiff;
use crate::wanted_files::WantedFiles;
use fax_command::Status;
use fax_spool::{CallName, Listing, WaitingPage, list_spool};
use std::alloc::{AllocError, Global};

/// What is asked of a spool.
#[derive(Clone, Copy)]
pub struct SpoolOptions<'a> {
    /// Its folder.
    pub folder: &'a str,
    /// What is made of pages.
    pub wanted: WantedFiles<'a>,
    /// The job that is looked at alone, where one is chosen.
    pub choice: Option<Choice<'a>>,
}

/// What is seen of a spool.
#[derive(Drop)]
pub struct Seen {
    /// The lines of its jobs.
    pub text: Vec<u8>,
    /// Lines for the standard error.
    pub told: String,
    pub status: Status,
}

/// What the octets tell of the files `pages` and `pages-wal`, and of `undelivered` and `undelivered-wal`; and the pages that are chosen as
/// pictures, or as one TIFF, where they are wanted.
pub fn look<F: PictureFiles>(
    alloc: Global,
    one: &[u8],
    other: &[u8],
    kept_one: &[u8],
    kept_other: &[u8],
    files: &mut F,
    options: SpoolOptions<'_>,
) -> Result<Seen, LookFault>
    ensures seen { IfOk result (Looks options.entry
        one.now other.now kept_one.now kept_other.now (F.made files.old) (F.made files.new)) }
    ensures failed { F.failed files.new ≡ failed_after_look (F.failed files.old) result }
{
    let waiting = list_spool(alloc, one, other)?;
    let kept = list_spool(alloc, kept_one, kept_other)?;
    let told = tell_harms(alloc, options.folder, &waiting, &kept)?;
    look_at(alloc, waiting, kept, files, options, told)
}

/// Tells what is harmed of all files.
fn tell_harms(
    alloc: Global,
    folder: &str,
    waiting: &Listing,
    kept: &Listing,
) -> Result<String, AllocError>
    ensures { IfOk result
        (λ told. string_bytes told ≡ damage_told folder.now waiting.now kept.now) }
{
    let mut told = String::new(alloc);
    tell_damage(&mut told, folder, "pages", waiting.one)?;
    tell_damage(&mut told, folder, "pages-wal", waiting.other)?;
    tell_damage(&mut told, folder, "undelivered", kept.one)?;
    tell_damage(&mut told, folder, "undelivered-wal", kept.other)?;
    Ok(told)
}

/// What is seen of those of these pages that are chosen, where this was told before.
fn look_at<F: PictureFiles>(
    alloc: Global,
    waiting: Listing,
    kept: Listing,
    files: &mut F,
    options: SpoolOptions<'_>,
    told: String,
) -> Result<Seen, LookFault>
    ensures seen { IfOk result
        (LooksAt options.entry (chosen options.entry.choice waiting.pages.items)
        (chosen options.entry.choice (without_cards kept.pages.items)) waiting.torn.items
        kept.torn.items (string_bytes told) (F.made files.old) (F.made files.new)) }
    ensures failed { F.failed files.new ≡ failed_after_look (F.failed files.old) result }
{
    let mut pages = waiting.pages;
    let mut others = kept.pages;
    choose(&mut pages, options.choice);
    drop_cards(&mut others);
    choose(&mut others, options.choice);
    let mut text = lines_of(
        alloc,
        pages.as_slice(),
        waiting.torn.as_slice(),
        JobState::Waits,
    )?;
    let more = lines_of(
        alloc,
        others.as_slice(),
        kept.torn.as_slice(),
        JobState::Undelivered,
    )?;
    text.extend_from_slice(more.as_slice())?;
    pages.append(&mut others)?;
    let mut told = told;
    let is_found = tell_if_none(&mut told, options, pages.as_slice())?;
    let is_whole = keep_wanted(alloc, files, options.wanted, pages.as_slice(), &mut told)?;
    Ok(Seen {
        text,
        told,
        status: status_of(is_found && is_whole),
    })
}

/// The lines of the jobs of these pages: in this state, but where these calls lack a page.
fn lines_of(
    alloc: Global,
    pages: &[WaitingPage],
    torn: &[CallName],
    whole: JobState,
) -> Result<Vec<u8>, AllocError>
    ensures { IfOk result
        (λ text. text.items ≡ flat_map job_line (jobs_of torn.now whole pages.now)) }
{
    let jobs = jobs_of(alloc, pages, torn, whole)?;
    write_jobs(alloc, jobs.as_slice())
}

/// Says whether the job that is chosen has a page that waits, and tells where it has none.
fn tell_if_none(
    told: &mut String,
    options: SpoolOptions<'_>,
    pages: &[WaitingPage],
) -> Result<bool, AllocError>
    ensures found { IfOk result (λ found. found ≡ is_found options.entry pages.now) }
    ensures told { OnOk result (string_bytes told.new
        ≡ string_bytes told.old ++ none_told options.entry pages.now) }
{
    let is_found = options.choice.is_none() || !pages.is_empty();
    if !is_found {
        tell_no_job(told, options.folder)?;
    }
    Ok(is_found)
}

/// Makes pictures of pages, or one TIFF, where they are wanted, and says whether each page has one, or is in it.
fn keep_wanted<F: PictureFiles>(
    alloc: Global,
    files: &mut F,
    wanted: WantedFiles<'_>,
    pages: &[WaitingPage],
    told: &mut String,
) -> Result<bool, LookFault>
    ensures kept { IfOk result (λ is_whole. KeepsWanted wanted.entry pages.now is_whole
        (string_bytes told.old) (string_bytes told.new) (F.made files.old) (F.made files.new)) }
    ensures failed { F.failed files.new ≡ failed_after_look (F.failed files.old) result }
{
    match wanted {
        WantedFiles::Nothing => Ok(true),
        WantedFiles::Pictures(prefix) => keep_pictures(alloc, files, prefix, pages, told),
        WantedFiles::Tiff(name) => keep_tiff(alloc, files, name, pages, told),
    }
}

/// The exit status of a look, in which all was found or not.
fn status_of(is_all: bool) -> Status
    ensures { result ≡ status_of is_all }
{
    if is_all { Status::Done } else { Status::Fault }
}
