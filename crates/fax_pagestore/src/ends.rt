//! Where in octets no EOL stands.
ghost use Rattle.std.specs.Prelude.{ℕ, ◌≡◌, ◌<◌, ◌≤◌, ◌+◌, ◌-◌, ◌*◌, IsTrue, false, drop, take, get_or, length};
ghost use Rattle.fax_bits.specs.Bits.{bits_of};
ghost use Rattle.fax_pagestore.specs.Ends.{HoldsEol, BeginNoEol, CountsNot};

use crate::reading::EOL_ZEROS;

/// Four zeros are the low half of an octet that this divides, and the high half of one below this.
const HALF: u8 = 16;

/// How many octets are looked at side by side.
pub(crate) const BLOCK: usize = 16;

/// How many octets stand after a separator before they are looked at though no EOL stands in them.
pub(crate) const LONG: usize = 4096;

/// From which octet on, at this one or after it, no EOL stands in octets: after all of them where these are many, and as
/// many again as when they were last looked at, so that a line is refused that can be none any more.
pub(crate) fn after_eols(octets: &[u8], from: usize) -> usize
    requires { from ≤ length octets.now }
    ensures within { (from ≤ result) × (result ≤ length octets.now) }
    ensures none { HoldsEol (drop (8 * result) (bits_of octets.now)) → ⊥ }
{
    let len = octets.len();
    if len >= LONG && len.leading_zeros() < from.leading_zeros() {
        return len;
    }
    after_last(octets, from)
}

/// From which octet on, at this one or after it, no EOL stands in octets. It may be a later one than need be where one
/// stands there: an octet of zeros counts as an EOL, and so do two half octets of zeros side by side in two octets, since each
/// EOL has one of them, wherever its 11 zeros begin (ITU-T T.4, 4.1.2). Zeros at the end are none, to which the 1 is missing.
fn after_last(octets: &[u8], from: usize) -> usize
    requires { from ≤ length octets.now }
    ensures within { (from ≤ result) × (result ≤ length octets.now) }
    ensures none { HoldsEol (drop (8 * result) (bits_of octets.now)) → ⊥ }
{
    let end = before_zeros(octets, from);
    if end == from {
        return from;
    }
    let place = after_counted(&octets[..end], from);
    if place > from && place_of_eol(&octets[from..end]) == end - from {
        return from;
    }
    place
}

/// From which octet on, at this one or after it, all octets are 0.
fn before_zeros(octets: &[u8], from: usize) -> usize
    requires { from ≤ length octets.now }
    ensures within { (from ≤ result) × (result ≤ length octets.now) }
    ensures zeros { (i : ℕ) → result ≤ i → get_or octets.now i 0 ≡ 0 }
    ensures some { from < result → 0 < get_or octets.now (result - 1) 0 }
{
    for place in (from..octets.len()).rev() {
        if octets[place] != 0 {
            return place + 1;
        }
    }
    from
}

/// From which octet on, at this one or after it, none counts as an EOL.
fn after_counted(octets: &[u8], from: usize) -> usize
    requires from { from < length octets.now }
    requires last { 0 < get_or octets.now (length octets.now - 1) 0 }
    ensures within { (from ≤ result) × (result ≤ length octets.now) }
    ensures none { HoldsEol (drop (8 * result) (bits_of octets.now)) → ⊥ }
{
    for place in (from..after_blocks(octets, from)).rev() {
        if counts(octets[place], octets[place + 1]) {
            return place + 1;
        }
    }
    from
}

/// The place of the last octet, or of one so many whole blocks before it that none of them has an EOL.
fn after_blocks(octets: &[u8], from: usize) -> usize
    requires from { from < length octets.now }
    requires last { 0 < get_or octets.now (length octets.now - 1) 0 }
    ensures within { (from ≤ result) × (result < length octets.now) }
    ensures none { HoldsEol (drop (8 * result) (bits_of octets.now)) → ⊥ }
    ensures some { 0 < get_or octets.now result 0 }
{
    let mut place = octets.len() - 1;
    while place - from >= BLOCK && block_is_clear(octets, place - BLOCK) {
        place -= BLOCK;
    }
    place
}

/// Whether none of the octets of the block that begins here counts as an EOL, all looked at side by side.
fn block_is_clear(octets: &[u8], first: usize) -> bool
    requires { first + 16 < length octets.now }
    ensures { IsTrue result → (i : ℕ) → first ≤ i
        → i < first + 16 → CountsNot (get_or octets.now i 0) (get_or octets.now (i + 1) 0) }
{
    let mut found = false;
    for place in first..first + BLOCK {
        found |= counts(octets[place], octets[place + 1]);
    }
    !found
}

/// Before which octet no EOL ends: that in which the first one does, which has the 1 after its 11 zeros (ITU-T T.4, 4.1.2),
/// or the end.
fn place_of_eol(octets: &[u8]) -> usize
    ensures within { result ≤ length octets.now }
    ensures none { HoldsEol (bits_of (take result octets.now)) → ⊥ }
{
    // those at the end of the octets so far, of which no more matter
    let mut zeros = 0;
    for place in 0..octets.len() {
        let octet = octets[place];
        if octet == 0 {
            zeros = (zeros + u8::BITS).min(EOL_ZEROS);
        } else if zeros + octet.leading_zeros() >= EOL_ZEROS {
            return place;
        } else {
            zeros = octet.trailing_zeros();
        }
    }
    octets.len()
}

/// The most octets that are passed at once.
const MOST_PASSED: usize = 1 << 28;

/// How many bits stand before the first EOL of octets at least. They are those of whole octets: an EOL begins in the two before
/// the one in which it ends.
pub(crate) fn bits_before_eol(octets: &[u8]) -> u32
    ensures within { result ≤ 8 * length octets.now }
    ensures none { BeginNoEol (take result (bits_of octets.now))
        (drop result (bits_of octets.now)) }
{
    let passed = place_of_eol(octets).saturating_sub(2);
    8 * passed.min(MOST_PASSED) as u32
}

/// Whether an octet counts as an EOL, before this one.
fn counts(octet: u8, after: u8) -> bool
    ensures { result ≡ false → CountsNot octet after }
{
    (octet % HALF == 0) & ((octet == 0) | (after < HALF))
}
