//! One TIFF of pages that wait.
ghost use Rattle.std.specs.Prelude.{◌≡◌, ◌++◌, List, IfOk, string_bytes};
ghost use Rattle.fax_pagestore.specs.Pages.{PageValue};
ghost use Rattle.fax_tiff.specs.TiffLaws.{AreCodedPages};
ghost use Rattle.fax_listing.specs.Pictures.{failed_after_look};
ghost use Rattle.fax_listing.specs.Tiffs.{CodesPage, CodesPages, KeepsTiff, MakesTiff, told_fit};

use crate::fault::LookFault;
use crate::picture_files::PictureFiles;
use crate::pictures::{page_meant, picture_name};
use crate::telling::{tell_no_page, tell_too_long};
use fax_bits::NoMemory;
use fax_spool::WaitingPage;
use fax_tiff::laws::tiff_is_read_back;
use fax_tiff::{CodedPage, TiffWriteFault, write_tiff};
use std::alloc::Global;

/// Makes one TIFF of class F (RFC 2306) of these pages, in their order, in a file of this name, and says whether each is in it. A page
/// whose text means none is not, which is told; where none is left, no file is made; nor where they are too long for a TIFF, which is
/// told too.
pub fn keep_tiff<F: PictureFiles>(
    alloc: Global,
    files: &mut F,
    name: &str,
    pages: &[WaitingPage],
    told: &mut String,
) -> Result<bool, LookFault>
    ensures kept { IfOk result (λ is_whole. KeepsTiff name.now pages.now is_whole
        (string_bytes told.old) (string_bytes told.new) (F.made files.old) (F.made files.new)) }
    ensures failed { F.failed files.new ≡ failed_after_look (F.failed files.old) result }
{
    let (coded, are_all) = code_pages(alloc, pages, told)?;
    let fits = make_tiff(alloc, files, name, coded.as_slice(), told)?;
    Ok(are_all && fits)
}

/// Codes the pages whose texts mean one, and says whether all do; others are told.
fn code_pages(
    alloc: Global,
    pages: &[WaitingPage],
    told: &mut String,
) -> Result<(Vec<CodedPage>, bool), NoMemory>
    ensures { IfOk result
        (λ r. CodesPages pages.now r.0.items r.1 (string_bytes told.old) (string_bytes told.new)) }
{
    let mut coded = Vec::new(alloc);
    let mut are_all = true;
    for page in pages {
        let is_coded = code_page(alloc, page, &mut coded, told)?;
        are_all = are_all && is_coded;
    }
    Ok((coded, are_all))
}

/// Codes a page whose text means one, after others, and says whether it does; else that is told.
fn code_page(
    alloc: Global,
    page: &WaitingPage,
    coded: &mut Vec<CodedPage>,
    told: &mut String,
) -> Result<bool, NoMemory>
    ensures { IfOk result (λ is_coded. CodesPage page.now
        is_coded coded.old.items coded.new.items (string_bytes told.old) (string_bytes told.new)) }
{
    match page_meant(alloc, page)? {
        Some(shown) => {
            let one = CodedPage::new(alloc, &shown)?;
            coded.push(one)?;
            Ok(true)
        }
        None => {
            let name = picture_name(alloc, "page", page)?;
            tell_no_page(told, name.as_str())?;
            Ok(false)
        }
    }
}

/// Makes the TIFF of coded pages, where there is one, in a file of this name, and says whether they fit; else that is told.
fn make_tiff<F: PictureFiles>(
    alloc: Global,
    files: &mut F,
    name: &str,
    coded: &[CodedPage],
    told: &mut String,
) -> Result<bool, LookFault>
    ensures made { (shown : List PageValue) → AreCodedPages shown coded.now → IfOk result
        (λ fits. MakesTiff name.now shown fits (F.made files.old) (F.made files.new)) }
    ensures told { IfOk result
        (λ fits. string_bytes told.new ≡ string_bytes told.old ++ told_fit name.now fits) }
    ensures failed { F.failed files.new ≡ failed_after_look (F.failed files.old) result }
{
    tiff_is_read_back();
    match write_tiff(alloc, coded) {
        Ok(octets) => {
            files.make(name, octets.as_slice())?;
            Ok(true)
        }
        Err(TiffWriteFault::NoPages) => Ok(true),
        Err(TiffWriteFault::TooLong) => {
            tell_too_long(told, name)?;
            Ok(false)
        }
        Err(TiffWriteFault::NoMemory) => Err(LookFault::NoMemory),
    }
}
