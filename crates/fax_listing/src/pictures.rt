//! Pictures of pages that wait.
ghost use Rattle.std.specs.Prelude.{◌≡◌, ℕ, List, Ok, IfOk, MatchOption, OnOk, string_bytes};
ghost use Rattle.fax_runcodes.specs.declared.format.Coding.TheVariants.{Mr};
ghost use Rattle.fax_pagestore.specs.PageTexts.{MeansPage};
ghost use Rattle.fax_pbm.specs.Pictures.{page_of};
ghost use Rattle.fax_listing.specs.Pictures.{IsAdded, KeepsPicture, KeepsPictures, MeansNone, failed_after_look, picture_name};

use crate::fault::LookFault;
use crate::picture_files::PictureFiles;
use crate::telling::tell_no_page;
use fax_bits::NoMemory;
use fax_pagestore::{PackedRows, Page, PageFault};
use fax_pbm::write_pbm;
use fax_spool::WaitingPage;
use fax_spool_folder::read_waiting_page;
use percent_encoding::{AsciiSet, NON_ALPHANUMERIC, ascii_set, percent_encode};
use std::alloc::{AllocError, Global};

/// What is escaped of a line's name in the name of a file: all but letters, digits, `-`, `.` and `_`, of ASCII.
const ESCAPED: AsciiSet = ascii_set!(NON_ALPHANUMERIC.remove(b'-').remove(b'.').remove(b'_'));

/// Makes a picture of each of these pages, in their order, under a name that begins so, and says whether each has one: a page whose text
/// means none has none, which is told.
pub fn keep_pictures<F: PictureFiles>(
    alloc: Global,
    files: &mut F,
    prefix: &str,
    pages: &[WaitingPage],
    told: &mut String,
) -> Result<bool, LookFault>
    ensures kept { IfOk result (λ is_whole. KeepsPictures prefix.now pages.now is_whole
        (string_bytes told.old) (string_bytes told.new) (F.made files.old) (F.made files.new)) }
    ensures failed { F.failed files.new ≡ failed_after_look (F.failed files.old) result }
{
    let mut is_whole = true;
    for page in pages {
        let is_made = keep_picture(alloc, files, prefix, page, told)?;
        is_whole = is_whole && is_made;
    }
    Ok(is_whole)
}

/// Makes a picture of a page, and says whether it has one.
fn keep_picture<F: PictureFiles>(
    alloc: Global,
    files: &mut F,
    prefix: &str,
    page: &WaitingPage,
    told: &mut String,
) -> Result<bool, LookFault>
    ensures kept { IfOk result (λ is_made. KeepsPicture prefix.now page.now is_made
        (string_bytes told.old) (string_bytes told.new) (F.made files.old) (F.made files.new)) }
    ensures failed { F.failed files.new ≡ failed_after_look (F.failed files.old) result }
{
    let name = picture_name(alloc, prefix, page)?;
    match page_meant(alloc, page)? {
        Some(shown) => {
            make_picture(alloc, files, name.as_str(), &shown)?;
            Ok(true)
        }
        None => {
            tell_no_page(told, name.as_str())?;
            Ok(false)
        }
    }
}

/// The page that the text of a record means, where it means one.
pub(crate) fn page_meant(
    alloc: Global,
    page: &WaitingPage,
) -> Result<Option<Page<PackedRows>>, NoMemory>
    ensures { IfOk result (λ meant. MatchOption meant (MeansNone page.now)
        (λ shown. MeansPage page.now.format Mr page.now.text shown)) }
{
    match read_waiting_page(alloc, page) {
        Ok(shown) => Ok(Some(shown)),
        Err(fault) => match fault {
            PageFault::NoMemory => Err(NoMemory),
            _ => Ok(None),
        },
    }
}

/// Makes the picture of a page, in a file of this name.
fn make_picture<F: PictureFiles>(
    alloc: Global,
    files: &mut F,
    name: &str,
    page: &Page<PackedRows>,
) -> Result<(), LookFault>
    ensures made { OnOk result ((octets : List ℕ)
        × (page_of page.now.format.fine octets ≡ Ok page.now)
        × IsAdded (F.made files.old) (F.made files.new) name.now octets) }
    ensures failed { F.failed files.new ≡ failed_after_look (F.failed files.old) result }
{
    let octets = write_pbm(alloc, page)?;
    files.make(name, octets.as_slice())?;
    Ok(())
}

/// The name of the picture of a page.
#[tactic(auto, unfolding(crate::specs::Pictures::picture_name))]
pub fn picture_name(alloc: Global, prefix: &str, page: &WaitingPage) -> Result<String, AllocError>
    ensures { IfOk result (λ name. string_bytes name ≡ picture_name prefix.now page.now) }
{
    let mut name = String::from_str(alloc, prefix)?;
    name.push('-')?;
    percent_encode(page.line.as_slice(), ESCAPED).append_to(&mut name)?;
    let (life, call, number) = (page.life, page.call, page.number);
    write!(name, "-{life}-{call}-{number}.pbm")?;
    Ok(name)
}
