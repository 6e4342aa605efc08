//! Why a page is refused.
use fax_pagestore::PageFault;

/// Why a page is refused: what is wrong with what came since the last CFR or MCF, where RTN answers the command after it
/// (ITU-T T.30, 5.3.6.1.7; the reasons are this project's profile).
#[derive(Clone, Copy, PartialEq, Eq, Debug)]
pub enum Refusal {
    /// One image came, whole and with nothing after it, and it means no page: reading it meets this fault.
    Fault(PageFault),
    /// One image came, which is not whole: a slot of it was missing.
    NotWhole,
    /// One image came, which is whole, and after it a slot was missing or a signal began.
    GapAfter,
    /// More than one image came.
    SeveralImages,
    /// No image came.
    NoImage,
    /// An image came after an EOM that was confirmed, and no training check before it: it was not read.
    Untrained,
}
