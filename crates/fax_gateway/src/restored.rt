//! What a gateway is restored with after a crash.
use fax_answer::Confirmed;
use fax_pagestore::RowStore;

/// A call that an earlier life of the gateway answered: the pages that it confirmed there, and whose jobs had not ended.
#[derive(Drop)]
pub struct RestoredCall<S: RowStore> {
    /// The number that its ring was answered with, in its life. Calls of two lives may have one number.
    pub number: u32,
    /// Its pages in the order of their confirmations, each with whether its command was EOP.
    pub confirmed: Vec<Confirmed<S>>,
}
