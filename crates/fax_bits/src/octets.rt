//! A list of octets.
ghost use Rattle.std.specs.Prelude.{◌≡◌};

use std::marker::Model;

/// Octets in a vector, which contracts see as their list.
pub struct Octets {
    octets: Vec<u8>,
}

impl Drop for Octets {
    fn drop(self) {
        let Octets { octets: _octets } = self;
    }
}

impl Model for Octets {
    ghost use Rattle.std.specs.Prelude.{List, ℕ};

    ghost Value = { List ℕ };

    ghost view = { λ o. o.octets.items };
}

impl Octets {
    /// The octets of a vector. It takes no memory.
    #[inline]
    pub fn from_vec(octets: Vec<u8>) -> Self
        ensures { result ≡ octets.items }
    {
        Octets { octets }
    }

    /// The vector of them. It takes no memory.
    #[inline]
    pub fn into_vec(self) -> Vec<u8>
        ensures { result.items ≡ self }
    {
        let Octets { octets } = self;
        octets
    }

    /// The octets in order. It takes no memory.
    #[inline]
    pub fn as_slice(&self) -> &[u8]
        ensures { result.now ≡ self.now }
    {
        self.octets.as_slice()
    }
}
