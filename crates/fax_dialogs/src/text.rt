//! A text of a dialog, kept.
ghost use Rattle.std.specs.Prelude.{◌≡◌};
ghost use Rattle.fax_dialogs.specs.Dialogs.{kept};

use crate::dialog_fault::DialogFault;
use arrayvec::ArrayVec;
use std::marker::Model;

/// The most octets of a Call-ID, a tag or an address.
pub const MOST_TEXT: usize = 256;

/// A text of at most 256 octets.
#[derive(Default)]
pub(crate) struct Text {
    octets: ArrayVec<u8, MOST_TEXT>,
}

impl Drop for Text {
    fn drop(self) {
        let Text { octets: _octets } = self;
    }
}

impl Model for Text {
    ghost use Rattle.std.specs.Prelude.{ℕ, List};

    ghost Value = { List ℕ };

    ghost view = { λ text. text.octets.items };
}

impl Text {
    /// A text, where it is not too long.
    #[tactic(auto, unfolding(crate::specs::Dialogs::kept))]
    pub(crate) fn new(text: &[u8]) -> Result<Self, DialogFault>
        ensures { result ≡ kept text.now }
    {
        let mut octets = ArrayVec::new();
        match octets.try_extend_from_slice(text) {
            Ok(()) => Ok(Text { octets }),
            Err(_) => Err(DialogFault::LongText),
        }
    }

    /// Its octets.
    pub(crate) fn as_slice(&self) -> &[u8]
        ensures { result.now ≡ self.now }
    {
        self.octets.as_slice()
    }
}
