//! What a tick answers.
use crate::refusal::Refusal;
use fax_bits::Octets;
use fax_pagestore::{Page, RowStore};

/// A page that is confirmed: it was read, and the MCF that confirms it is given in the same tick.
#[derive(Drop)]
pub struct Confirmed<S: RowStore> {
    pub page: Page<S>,
    /// Whether the command was EOP, after which no page follows.
    pub closes: bool,
}

/// What a tick answers: at most one packet, at most one page that it confirms, why it refuses one, and whether the call has
/// ended.
#[derive(Drop)]
pub struct Step<S: RowStore> {
    pub packet: Option<Octets>,
    pub confirmed: Option<Confirmed<S>>,
    /// Why the page is refused, where the packet is the RTN frame.
    pub refused: Option<Refusal>,
    pub ended: bool,
}
