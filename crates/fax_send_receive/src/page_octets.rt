//! The octets of the file of a page.
ghost use Rattle.std.specs.Prelude.{[], ◌∷◌, IfOk};
ghost use Rattle.fax_tiff.specs.ReadTiffs.{MeansTiff};
ghost use Rattle.fax_send_receive.specs.Naming.{HoldPage};

use crate::page_naming::PageForm;
use fax_pagestore::{PackedRows, Page};
use fax_pbm::write_pbm;
use fax_tiff::laws::tiff_is_read_back;
use fax_tiff::{CodedPage, TiffWriteFault, write_tiff};
use std::alloc::Global;
use std::io;

/// The octets of the file of a page. An `Err` tells why there are none, where it is not for want of memory.
pub(crate) fn octets_of(
    alloc: Global,
    form: PageForm,
    page: &Page<PackedRows>,
) -> Result<Vec<u8>, Option<io::Error>>
    ensures { IfOk result (λ octets. HoldPage form octets.items page.now) }
{
    match form {
        PageForm::Picture => match write_pbm(alloc, page) {
            Ok(octets) => Ok(octets),
            Err(_) => Err(None),
        },
        PageForm::Tiff => match tiff_of_page(alloc, page) {
            Ok(octets) => Ok(octets),
            Err(TiffWriteFault::NoMemory) => Err(None),
            Err(_) => Err(Some(io::Error::from(io::ErrorKind::FileTooLarge))),
        },
    }
}

/// The TIFF of a page alone.
fn tiff_of_page(alloc: Global, page: &Page<PackedRows>) -> Result<Vec<u8>, TiffWriteFault>
    ensures { IfOk result (λ octets. MeansTiff octets.items (page.now ∷ [])) }
{
    tiff_is_read_back();
    // what it ensures of the page's rows makes what is coded a page
    let _ = page.rows();
    let coded = [CodedPage::new(alloc, page)?];
    write_tiff(alloc, &coded)
}
