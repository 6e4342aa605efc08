//! Numbers, as words write them.
ghost use Rattle.std.specs.Prelude.{◌≡◌, ℕ, ◌<◌, ◌^◌, Some, decimal, IfSome};

use itoa::Buffer;

/// The number that a text writes, in decimal digits, with no sign and no zero before it.
pub fn number_of(text: &str) -> Option<u32>
    ensures some { IfSome result (λ number. text.now ≡ decimal number) }
    ensures only { (number : ℕ)
        → number < 2 ^ 32 → text.now ≡ decimal number → result ≡ Some number }
{
    let Ok(number) = text.parse::<u32>() else {
        return None;
    };
    if Buffer::new().format(number) == text {
        Some(number)
    } else {
        None
    }
}
