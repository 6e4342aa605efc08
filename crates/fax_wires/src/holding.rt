//! A wire that holds back what goes out on the calling leg, until the page that it confirms is stored.
//!
//! In a turn the calling leg is handed one datagram at most. It is held until it is released, which is done once the page that the
//! turn confirmed is on a disk; where that failed, the leg is silenced until the next call begins on it. So no confirmation goes out
//! of a page that is not stored. What may go out when is told in `specs/holding/Holding`; what that comes to over the whole life of a line,
//! in `specs/holding/Storing`.

mod holding;
pub mod laws;
mod storing;

pub use holding::HoldingWire;
pub use storing::{PageStore, StoreFault, end_turn, store_pages};
