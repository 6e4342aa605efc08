//! The route of a number.
ghost use Rattle.std.specs.Prelude.{IfSome, IfNone};
ghost use Rattle.fax_trunks.specs.Routes.{fits_of, IsChoice, NoneFits};

use crate::number::Number;
use crate::route::Route;

/// The place of the route that a number takes: the one with the longest prefix of it, the first where several are equally long. None:
/// no call.
pub fn choose(routes: &[Route], number: &Number) -> Option<usize>
    ensures some { IfSome result (IsChoice (fits_of routes.now number.now)) }
    ensures none { IfNone result (NoneFits (fits_of routes.now number.now)) }
{
    let mut chosen = None;
    let mut longest = 0;
    for (i, route) in routes.iter().enumerate() {
        let fit = route.fit(number);
        if fit > longest {
            chosen = Some(i);
            longest = fit;
        }
    }
    chosen
}
