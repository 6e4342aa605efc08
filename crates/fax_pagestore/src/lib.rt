//! Pages of ITU-T T.4: what octets mean as a page, the text in which a page is written, and stores of
//! rows.
#![tactic(auto)]

mod ends;
mod fault;
mod front;
pub mod laws;
mod reader;
mod reading;
mod store;
mod white;
mod writer;
mod writing;

pub use fault::PageFault;
pub use fax_runcodes::{Coding, Format};
pub use reader::{Mark, PageReader};
pub use reading::{MOST_ROWS, read_page};
pub use store::{PackedRows, Page, PlainRows, RowStore};
pub use writer::PageWriter;
pub use writing::write_page;
