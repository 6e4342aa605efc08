//! Files in which nothing of a spool can be read.
ghost use Rattle.std.specs.Prelude.{◌≡◌, ◌≤◌, length};
ghost use Rattle.fax_spool.specs.Records.{voted};
ghost use Rattle.fax_spool_folder.specs.Foreign.{are_foreign, has_gate, has_lengths, is_foreign, is_open};

use std::alloc::Global;
use std::io::Read;
use std::rt::Files;
use std::{fs, io};

/// What a crash within the first start leaves in a file, in octets, at most: two records of 49 octets, each after its gate, and a gate.
const FIRST_START: usize = 107;

/// The octets of a file that are looked at: one more, so that a longer file is known.
const LOOKED_AT: usize = FIRST_START + 1;

/// Whether two files that begin so are no spool's: an open gate stands in neither, and one of them is longer than what a crash within the
/// first start leaves, and begins neither with a gate nor with the length of a record after one.
pub(crate) fn are_foreign(one: &[u8], other: &[u8]) -> bool
    ensures { result ≡ are_foreign one.now other.now }
{
    !is_open(one) && !is_open(other) && (is_foreign(one) || is_foreign(other))
}

/// Whether a file that begins so may be something else's.
fn is_foreign(octets: &[u8]) -> bool
    ensures { result ≡ is_foreign octets.now }
{
    octets.len() > FIRST_START && !has_gate(octets) && !has_lengths(octets)
}

/// Whether octets begin with an open gate.
fn is_open(octets: &[u8]) -> bool
    ensures { result ≡ is_open octets.now }
{
    match octets {
        [a, b, c, ..] => gate_of(*a, *b, *c) == Some(1),
        _ => false,
    }
}

/// Whether they begin with a gate, open or shut.
fn has_gate(octets: &[u8]) -> bool
    ensures { result ≡ has_gate octets.now }
{
    match octets {
        [a, b, c, ..] => match gate_of(*a, *b, *c) {
            Some(gate) => gate <= 1,
            None => false,
        },
        _ => false,
    }
}

/// The value that two of three copies of a gate have.
fn gate_of(first: u8, second: u8, third: u8) -> Option<u8>
    ensures { result ≡ voted first second third }
{
    if first == second || first == third {
        return Some(first);
    }
    if second == third {
        return Some(second);
    }
    None
}

/// Whether the same four octets stand three times after a gate: the length of a record.
fn has_lengths(octets: &[u8]) -> bool
    requires { 15 ≤ length octets.now }
    ensures { result ≡ has_lengths octets.now }
{
    octets[3..7] == octets[7..11] && octets[3..7] == octets[11..15]
}

/// The octets that a file begins with: of one that is not there none.
pub(crate) fn beginning_of<H: Files>(host: &H, alloc: Global, path: &str) -> io::Result<Vec<u8>> {
    let mut file = match fs::open(host, path) {
        Ok(file) => file,
        Err(error) if error.kind() == io::ErrorKind::NotFound => return Ok(Vec::new(alloc)),
        Err(error) => return Err(error),
    };
    let mut octets = Vec::from_elem(alloc, 0u8, LOOKED_AT)?;
    let count = read_up_to(&mut file, octets.as_mut_slice())?;
    octets.truncate(count);
    Ok(octets)
}

/// Reads until the room is full or the file ends, and answers how many octets came.
fn read_up_to<R: Read>(file: &mut R, room: &mut [u8]) -> io::Result<usize> {
    let mut count = 0;
    for _ in 0..room.len() {
        let came = file.read(&mut room[count..])?;
        if came == 0 {
            break;
        }
        count += came;
    }
    Ok(count)
}
