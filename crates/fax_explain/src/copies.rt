//! Pages copied.
ghost use Rattle.std.specs.Prelude.{◌≡◌, ◌++◌, IfOk, OnOk};

use fax_bits::NoMemory;
use fax_pagestore::{PackedRows, Page, RowStore};
use std::alloc::Global;

/// A page as this one.
pub(crate) fn copy_of(alloc: Global, page: &Page<PackedRows>) -> Result<Page<PackedRows>, NoMemory>
    ensures { IfOk result (λ copy. copy ≡ page.now) }
{
    let rows = page.rows();
    let mut copied = PackedRows::empty(alloc);
    add_rows(&mut copied, rows)?;
    Ok(Page::new(page.format(), copied))
}

/// Adds the rows of another store.
fn add_rows(rows: &mut PackedRows, others: &PackedRows) -> Result<(), NoMemory>
    ensures { OnOk result (rows.new ≡ rows.old ++ others.now) }
{
    for i in 0..others.len() {
        rows.push_lent(&others.lend(i))?;
    }
    Ok(())
}
