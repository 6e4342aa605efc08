//! What nobody guesses.
use fax_requests::{Token, token_of};
use rand_chacha::ChaCha20Rng;
use rand_core::{Rng, SeedableRng};

/// Random octets, of a seed.
pub(crate) struct Random {
    generator: ChaCha20Rng,
}

impl Drop for Random {
    fn drop(self) {
        let Random {
            generator: _generator,
        } = self;
    }
}

impl Random {
    /// The octets of a seed.
    pub fn new(seed: [u8; 32]) -> Self {
        Random {
            generator: ChaCha20Rng::from_seed(seed),
        }
    }

    /// A name that nobody guesses.
    pub fn token(&mut self) -> Token {
        let mut octets = [0; 16];
        self.generator.fill_bytes(&mut octets);
        token_of(octets)
    }

    /// A number.
    pub fn number(&mut self) -> u64 {
        self.generator.next_u64()
    }
}
