//! Pages, and the texts that are stored of them.
ghost use Rattle.std.specs.Prelude.{◌≡◌, ◌≢◌, ◌⊎◌, Bool, List, Ok, Err, IfOk, IfErr};
ghost use Rattle.fax_bits.specs.Writing.{IsPadded};
ghost use Rattle.fax_runcodes.specs.declared.format.Coding.{Coding as CodingShown};
ghost use Rattle.fax_runcodes.specs.Widths.{elements_of};
ghost use Rattle.fax_pagestore.specs.declared.fault.PageFault.{PageFault as FaultShown};
ghost use Rattle.fax_pagestore.specs.Pages.{PageValue};
ghost use Rattle.fax_pagestore.specs.PageTexts.{MeansPage};
ghost use Rattle.fax_pagestore.specs.PageFaults.{FailsPage};
ghost use Rattle.fax_pagestore.specs.WrittenPages.{WritesPage};

use fax_bits::{NoMemory, Octets};
use fax_pagestore::{Coding, PackedRows, Page, PageFault, RowStore, read_page, write_page};
use fax_spool::WaitingPage;
use std::alloc::Global;

/// The text of a page as its record has it: in two-dimensional coding, without fill.
pub fn write_stored_text<S: RowStore>(alloc: Global, page: &Page<S>) -> Result<Octets, NoMemory>
    ensures { IfOk result (λ octets. (text : List Bool)
        × WritesPage CodingShown.Mr page.now.format.fine 0 page.now.rows text
        × IsPadded octets text) }
{
    write_page(alloc, page, Coding::Mr, 0)
}

/// The page that the text of a record means. An `Err` but for want of memory: it means none, so the record is set aside.
pub fn read_waiting_page(alloc: Global, waits: &WaitingPage) -> Result<Page<PackedRows>, PageFault>
    ensures page { IfOk result
        (λ page. MeansPage waits.now.format CodingShown.Mr waits.now.text page) }
    ensures reads { (page : PageValue)
        → MeansPage waits.now.format CodingShown.Mr waits.now.text page
        → (result ≡ Ok page) ⊎ (result ≡ Err FaultShown.NoMemory) }
    ensures fault { IfErr result (λ fault. fault ≢ FaultShown.NoMemory
        → FailsPage (elements_of waits.now.format.width) CodingShown.Mr waits.now.text fault) }
{
    read_page(alloc, waits.text.as_slice(), waits.format, Coding::Mr)
}
