//! Changing places that a row has where the row before it has them.
ghost use Rattle.std.specs.Prelude.{ℕ, ◌≡◌, ◌+◌, ◌*◌, ◌^◌, ◌<◌, ◌≤◌, IsTrue, length, slice_index};

/// How many places are compared at once.
const AT_ONCE: usize = 4;

/// The most places that are counted: with four more their words would no longer fit one word of 32 bits.
const MOST: usize = 28;

/// How many places stand in both lists alike, from an index of each on: a multiple of four, at most 28.
#[inline]
pub(super) fn places_alike(changes: &[u16], index: usize, above: &[u16], over: usize) -> usize
    requires index { index ≤ length changes.now + 2 ^ 32 }
    requires over { over ≤ length above.now + 2 ^ 32 }
    ensures few { result ≤ 28 }
    ensures inside { 0 < result → index + result ≤ length changes.now }
    ensures inside_above { 0 < result → over + result ≤ length above.now }
    ensures alike { (k : ℕ)
        → k < result → slice_index changes.now (index + k) ≡ slice_index above.now (over + k) }
{
    let mut count = 0;
    while count < MOST && four_alike(changes, index + count, above, over + count) {
        count += AT_ONCE;
    }
    count
}

/// Whether four places stand in both lists alike, from an index of each on.
#[inline]
fn four_alike(changes: &[u16], index: usize, above: &[u16], over: usize) -> bool
    requires index { index ≤ length changes.now + 2 ^ 33 }
    requires over { over ≤ length above.now + 2 ^ 33 }
    ensures inside { IsTrue result → index + 4 ≤ length changes.now }
    ensures inside_above { IsTrue result → over + 4 ≤ length above.now }
    ensures alike { IsTrue result → (k : ℕ)
        → k < 4 → slice_index changes.now (index + k) ≡ slice_index above.now (over + k) }
{
    index + AT_ONCE <= changes.len()
        && over + AT_ONCE <= above.len()
        && four_at(changes, index) == four_at(above, over)
}

/// Four places, from an index on, as the digits of one number.
#[inline]
fn four_at(places: &[u16], index: usize) -> u64
    requires { index + 4 ≤ length places.now }
    ensures digits { result ≡ slice_index places.now index
        + 65536 * slice_index places.now (index + 1) + 4294967296 * slice_index places.now (index
        + 2) + 281474976710656 * slice_index places.now (index + 3) }
    ensures places { (k : ℕ) → k < 4 → slice_index places.now (index + k) < 65536 }
{
    u64::from(places[index])
        + (u64::from(places[index + 1]) << 16)
        + (u64::from(places[index + 2]) << 32)
        + (u64::from(places[index + 3]) << 48)
}
