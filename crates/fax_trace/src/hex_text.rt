//! Hex text, read and written by loops without a branch, of which the compiler makes vectors.
ghost use Rattle.std.specs.Prelude.{ℕ, List, ◌≡◌, ◌≢◌, ◌*◌, ◌<◌, ◌++◌, length, slice_index, unwrap_or, true, false, Ok, OnOk, IfOk, IfSome, IfNone};
ghost use Rattle.hex.specs.Hex.{decode_of, encode_lower, hex_digit_value, lower_digits};

use fax_bits::{NoMemory, Octets};
use std::alloc::Global;

/// What stands for an octet that is no digit.
const NO_DIGIT: u8 = 255;

/// The octets of hex text, in either case.
pub(crate) fn octets_of_hex(alloc: Global, text: &[u8]) -> Result<Option<Octets>, NoMemory>
    ensures some { IfOk result (λ found. IfSome found (λ octets. decode_of text.now ≡ Ok octets)) }
    ensures none { IfOk result
        (λ found. IfNone found ((octets : List ℕ) → decode_of text.now ≢ Ok octets)) }
{
    if text.len() % 2 != 0 {
        return Ok(None);
    }
    let mut octets = vec![in alloc; 0; text.len() / 2]?;
    if read_digits(text, octets.as_mut_slice()) {
        Ok(Some(Octets::from_vec(octets)))
    } else {
        Ok(None)
    }
}

/// Adds the hex text of octets, in lower case.
pub(crate) fn push_hex(text: &mut Vec<u8>, octets: &[u8]) -> Result<(), NoMemory>
    ensures { OnOk result (text.new.items ≡ text.old.items ++ encode_lower octets.now) }
{
    let from = text.len();
    let Some(digits) = octets.len().checked_mul(2) else {
        return Err(NoMemory);
    };
    let Some(end) = from.checked_add(digits) else {
        return Err(NoMemory);
    };
    text.resize(end, 0)?;
    write_digits(octets, &mut text.as_mut_slice()[from..]);
    Ok(())
}

/// Reads hex text, in either case, into octets, and says whether it is such text. Where it is not, what the octets are is
/// not told.
fn read_digits(digits: &[u8], octets: &mut [u8]) -> bool
    requires { length digits.now ≡ 2 * length octets.old }
    ensures read { result ≡ true → decode_of digits.now ≡ Ok octets.new }
    ensures none { result ≡ false → (octets : List ℕ) → decode_of digits.now ≢ Ok octets }
{
    let mut most: u8 = 0;
    'octets: for i in 0..octets.len() {
        let high = value(digits[2 * i]);
        let low = value(digits[2 * i + 1]);
        most = most.max(high).max(low);
        octets[i] = high.wrapping_mul(16).wrapping_add(low);
    }
    most < 16
}

/// Writes octets as hex text, in lower case.
fn write_digits(octets: &[u8], digits: &mut [u8])
    requires { length digits.old ≡ 2 * length octets.now }
    ensures { digits.new ≡ encode_lower octets.now }
{
    'octets: for i in 0..octets.len() {
        let octet = octets[i];
        digits[2 * i] = digit(octet / 16);
        digits[2 * i + 1] = digit(octet % 16);
    }
}

/// The value of a digit.
#[inline]
fn value(digit: u8) -> u8
    ensures { result ≡ unwrap_or (hex_digit_value digit) 255 }
{
    match digit {
        b'0'..=b'9' => digit - b'0',
        b'A'..=b'F' => digit - b'A' + 10,
        b'a'..=b'f' => digit - b'a' + 10,
        _ => NO_DIGIT,
    }
}

/// The digit of a value.
#[inline]
fn digit(value: u8) -> u8
    requires { value < 16 }
    ensures { result ≡ slice_index lower_digits value }
{
    if value < 10 {
        b'0' + value
    } else {
        b'a' - 10 + value
    }
}
