//! What numbers of C say of a page.
ghost use Rattle.std.specs.Prelude.{◌≡◌, Ok, Err, IfOk, IfErr};
ghost use Rattle.fax_runcodes.specs.Rows.{IsWidth};
ghost use Rattle.fax_runcodes.specs.Widths.{elements_of};
ghost use Rattle.fax_c.specs.Calls.{coding_by};

use crate::Refusal;
use fax_pagestore::Coding;
use fax_runcodes::Width;

/// The width of so many elements.
pub fn width_of(elements: u16) -> Result<Width, Refusal>
    ensures width { IfOk result (λ width. elements_of width ≡ elements) }
    ensures none { IfErr result (λ refusal. (refusal ≡ Refusal.Width) × (IsWidth elements → ⊥)) }
{
    match elements {
        1728 => Ok(Width::W1728),
        2048 => Ok(Width::W2048),
        2432 => Ok(Width::W2432),
        _ => Err(Refusal::Width),
    }
}

/// The coding in one dimension or in two.
pub fn coding_of(two_dimensional: bool) -> Coding
    ensures { result ≡ coding_by two_dimensional }
{
    if two_dimensional {
        Coding::Mr
    } else {
        Coding::Mh
    }
}
