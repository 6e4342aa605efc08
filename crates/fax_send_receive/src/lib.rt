//! Terminals in real time, over UDP sockets, with pages in files: what `faxgate send` and `faxgate receive` run.
#![tactic(auto)]

mod clock_pace;
mod host_files;
mod job_files;
mod named_files;
mod page_files;
mod page_naming;
mod page_octets;
mod receiving;
mod run_fault;
mod sending;
mod sockets;
mod udp_leg;
mod watch;

pub use host_files::HostFiles;
pub use named_files::{NamedFiles, NewFile};
pub use page_files::PageFiles;
pub use page_naming::{PageForm, PageNaming};
pub use receiving::{ReceiveOptions, receive_pages, run_receive};
pub use run_fault::RunFault;
pub use sending::{SendOptions, run_send, send_files};
pub use watch::Watch;
