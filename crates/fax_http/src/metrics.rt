//! Counts, for a monitor.
ghost use Rattle.std.specs.Prelude.{◌≡◌, ◌++◌, ◌∷◌, nat_eq, IfOk};
ghost use Rattle.std.specs.List.{starts_with};
ghost use Rattle.fax_http.specs.Metrics.{families, open_metrics};

use std::alloc::{AllocError, Global};

/// How the line ends that says the type of a counter.
const TOTAL: &[u8] = b"_total counter\n";

/// How many octets of that are left out, after the first one.
const MORE: usize = 5;

/// Counts in OpenMetrics (version 1.0.0, 5.1), from their text in Prometheus' format (version 0.0.4): the type of a counter is said of its
/// name without `_total`.
pub fn write_open_metrics(alloc: Global, text: &[u8]) -> Result<Vec<u8>, AllocError>
    ensures { IfOk result (λ octets. octets.items ≡ open_metrics text.now) }
{
    let mut octets = Vec::new(alloc);
    let mut left_out = 0;
    let mut rest = text;
    while let Some((octet, after)) = rest.split_first() {
        let ends = rest.starts_with(TOTAL);
        left_out = put_next(&mut octets, *octet, after, ends, left_out)?;
        rest = after;
    }
    Ok(octets)
}

/// Adds the next octet, before these, unless it is left out: one of so many, or the first one of such an end. It answers how many are left
/// out after it.
fn put_next(
    octets: &mut Vec<u8>,
    octet: u8,
    after: &[u8],
    ends: bool,
    left_out: usize,
) -> Result<usize, AllocError>
    requires { ends ≡ starts_with nat_eq (octet ∷ after.now) TOTAL.now }
    ensures { IfOk result (λ more. octets.new.items ++ families more after.now
        ≡ octets.old.items ++ families left_out (octet ∷ after.now)) }
{
    if left_out > 0 {
        Ok(left_out - 1)
    } else if ends {
        Ok(MORE)
    } else {
        octets.push(octet)?;
        Ok(0)
    }
}
