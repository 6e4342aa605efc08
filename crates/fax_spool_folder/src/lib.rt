//! The spool of a folder: its two files, opened and locked, and the pages that its records say.
#![tactic(auto)]

mod fault;
mod folder;
mod foreign;
mod pages;

pub use fault::FolderFault;
pub use folder::{Folders, SpoolFolderFile, open_folder, open_undelivered_folder};
pub use pages::{read_waiting_page, write_stored_text};
