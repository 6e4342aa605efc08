//! Octets that are taken away from the front of others.
ghost use Rattle.std.specs.Prelude.{◌≡◌, ◌≤◌, drop, length};

/// Takes away the first n octets. It takes no memory.
pub(crate) fn drop_front(octets: &mut Vec<u8>, n: usize)
    requires { n ≤ length octets.old.items }
    ensures { octets.new.items ≡ drop n octets.old.items }
{
    if n == 0 {
        return;
    }
    let left = octets.len() - n;
    if left <= n {
        let (front, back) = octets.split_at_mut(n);
        front[..left].copy_from_slice(back);
    } else {
        octets.copy_within(n.., 0);
    }
    octets.truncate(left);
}
