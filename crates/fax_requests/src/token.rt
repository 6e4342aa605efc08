//! Names that nobody guesses: tags, Call-IDs and branches.
ghost use Rattle.std.specs.Prelude.{◌≡◌, ◌++◌, codes};
ghost use Rattle.hex.specs.Hex.{encode_lower};

use hex::encode_to_slice;

/// A name of 32 hexadecimal digits: a tag or a Call-ID.
pub type Token = [u8; 32];

/// The branch of a transaction (RFC 3261, 8.1.1.7).
pub type Branch = [u8; 39];

/// The digits of 16 octets.
pub fn token_of(octets: [u8; 16]) -> Token
    ensures { result ≡ encode_lower octets }
{
    let mut digits = [0; 32];
    let _ = encode_to_slice(octets.as_slice(), &mut digits);
    digits
}

/// The branch of a token.
pub fn branch_of(token: Token) -> Branch
    ensures { result ≡ codes "z9hG4bK" ++ token }
{
    let mut branch = *b"z9hG4bK00000000000000000000000000000000";
    branch[7..].copy_from_slice(&token);
    branch
}
