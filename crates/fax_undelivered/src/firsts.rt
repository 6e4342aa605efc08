//! The pages of a call that were put more than once.
ghost use Rattle.std.specs.Prelude.{◌≡◌, ◌<◌, length, take, MatchOption, slice_get};
ghost use Rattle.std.specs.List.{list_any};
ghost use Rattle.fax_undelivered.specs.Calls.{firsts, has_number};

use fax_spool::WaitingPage;

/// Keeps of the pages of one number the first one alone.
pub(crate) fn keep_first(pages: &mut Vec<WaitingPage>)
    ensures { pages.new.items ≡ firsts pages.old.items }
{
    let mut i = 0;
    while i < pages.len() {
        if is_put_again(pages.as_slice(), i) {
            let _ = pages.remove(i);
            continue;
        }
        i += 1;
    }
}

/// Whether a page before the one at place i of these has its number.
fn is_put_again(pages: &[WaitingPage], i: usize) -> bool
    requires { i < length pages.now }
    ensures { MatchOption (slice_get pages.now i) (Unit {0})
        (λ page. result ≡ list_any (has_number page.number) (take i pages.now)) }
{
    let page = &pages[i];
    has_number(&pages[..i], page.number)
}

/// Whether one of these pages has this number.
fn has_number(pages: &[WaitingPage], number: u32) -> bool
    ensures { result ≡ list_any (has_number number) pages.now }
{
    pages.iter().any(|page| page.number == number)
}
