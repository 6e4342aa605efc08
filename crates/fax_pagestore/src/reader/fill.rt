//! Octets that come to a reader, less the zeros of long fill.
ghost use Rattle.std.specs.Prelude.{ℕ, ◌≡◌, ◌<◌, ◌≤◌, ◌+◌, ◌++◌, IsTrue, get_or, length, take, replicate, IfOk, OnOk, OnErr};
ghost use Rattle.fax_pagestore.specs.Fill.{less_fill, most_zeros, zeros_after, zeros_with};

use crate::ends::BLOCK;
use fax_bits::NoMemory;

/// The most octets of zeros that are kept side by side: they are more zeros than an EOL with its tag and a code word have bits.
const MOST_ZEROS: u32 = 4;

/// Adds a piece to octets, less its octets of zeros after four others, where so many stood before it. It answers how many
/// stand at the end then, of which four are counted. An `Err` changes nothing.
pub(super) fn append(octets: &mut Vec<u8>, zeros: u32, piece: &[u8]) -> Result<u32, NoMemory>
    ensures ok { OnOk result (octets.new.items ≡ octets.old.items ++ less_fill zeros piece.now) }
    ensures zeros { IfOk result (λ after. after ≡ zeros_after zeros piece.now) }
    ensures err { OnErr result (octets.new.items ≡ octets.old.items) }
{
    let len = octets.len();
    let mut count = zeros;
    let mut place = 0;
    while place < piece.len() {
        let front = kept_front(&piece[place..], count);
        let end = place + front.len;
        if octets.extend_from_slice(&piece[place..end]).is_err() {
            octets.truncate(len);
            return Err(NoMemory);
        }
        count = front.zeros;
        place = end + zeros_in_front(&piece[end..]);
    }
    Ok(count)
}

/// Octets in front of others of which all are kept, and how many of zeros stand at their end, of which four are counted.
#[derive(Clone, Copy)]
struct Kept {
    len: usize,
    zeros: u32,
}

/// The octets before the first one that is not kept, where so many of zeros stood before them.
fn kept_front(octets: &[u8], zeros: u32) -> Kept
    ensures within { result.len ≤ length octets.now }
    ensures kept { less_fill zeros (take result.len octets.now) ≡ take result.len octets.now }
    ensures zeros { result.zeros ≡ zeros_after zeros (take result.len octets.now) }
    ensures stops { result.len < length octets.now
        → (get_or octets.now result.len 0 ≡ 0) × (most_zeros ≤ result.zeros) }
{
    let mut place = 0;
    let mut count = zeros;
    while place < octets.len() {
        if octets.len() - place >= BLOCK && block_has_no_zeros(octets, place) {
            count = 0;
            place += BLOCK;
            continue;
        }
        let octet = octets[place];
        if octet == 0 && count >= MOST_ZEROS {
            break;
        }
        count = zeros_with(count, octet);
        place += 1;
    }
    Kept {
        len: place,
        zeros: count,
    }
}

/// Whether none of the octets of the block that begins here is 0, all looked at side by side.
fn block_has_no_zeros(octets: &[u8], first: usize) -> bool
    requires { first + 16 ≤ length octets.now }
    ensures { IsTrue result → (i : ℕ) → first ≤ i → i < first + 16 → 0 < get_or octets.now i 0 }
{
    let mut found = false;
    for place in first..first + BLOCK {
        found |= octets[place] == 0;
    }
    !found
}

/// How many octets of zeros stand in front.
fn zeros_in_front(octets: &[u8]) -> usize
    ensures within { result ≤ length octets.now }
    ensures zeros { take result octets.now ≡ replicate result 0 }
    ensures stops { result < length octets.now → 0 < get_or octets.now result 0 }
{
    for place in 0..octets.len() {
        if octets[place] != 0 {
            return place;
        }
    }
    octets.len()
}

/// How many octets of zeros stand at the end with one more octet, of which four are counted.
fn zeros_with(zeros: u32, octet: u8) -> u32
    ensures { result ≡ zeros_with zeros octet }
{
    if octet != 0 {
        0
    } else if zeros < MOST_ZEROS {
        zeros + 1
    } else {
        zeros
    }
}
