//! What is kept of confirmed pages so that it survives a crash: a file of records, each of which is on the disk before its
//! `put` answers; the seal by which a damaged record is found; and what a record says.
#![tactic(auto)]

mod file;
pub mod laws;
mod listing;
mod opening;
mod page_name;
mod placed_page;
mod reading;
mod record;
mod record_place;
mod sealing;
mod spool;
mod spool_record;
mod stored_page;
mod torn;
mod waiting;
mod waiting_page;

pub use file::{FileContents, RecordFile, recover};
pub use listing::{Harm, Listing, list_spool};
pub use opening::{OpenedSpool, open_spool};
pub use record::{
    EndedRecord, PageRecord, read_ended_record, read_page_record, write_ended_record,
    write_page_record,
};
pub use sealing::{seal, unseal};
pub use spool::Spool;
pub use spool_record::{SpoolRecord, read_spool_record};
pub use torn::{CallName, is_torn};
pub use waiting::{first_epoch, read_spool_records, waiting_pages};
pub use waiting_page::WaitingPage;
