//! What is told of the pieces that an answerer takes.
ghost use Rattle.std.specs.Prelude.{◌≡◌, ◌++◌, [], ◌∷◌, false};

use crate::came::{Came, came_in};
use fax_answer::{Decision, State, Watcher};
use fax_ifp::Piece;
use std::alloc::Global;
use std::marker::Model;

/// What a piece was taken as: where the call stood before it, whether a packet waited, what came, and what was decided at it.
#[derive(Clone, Copy, PartialEq, Eq)]
pub struct AnswerNote {
    pub state: State,
    pub waits: bool,
    pub came: Came,
    pub decision: Decision,
}

/// What is told of the pieces that an answerer takes, in the order of time. Seen as the notes, and whether memory was lacking for one.
#[derive(Drop)]
pub struct AnswerNotes {
    notes: Vec<AnswerNote>,
    is_lacking: bool,
}

impl Model for AnswerNotes {
    ghost use Rattle.fax_notes.specs.AnswerValues.{AnswerNotesValue};

    ghost Value = { AnswerNotesValue };

    ghost view = { λ kept. record { notes = kept.notes.items; is_lacking = kept.is_lacking } };
}

impl AnswerNotes {
    /// Nothing was told. It takes no memory.
    pub fn new(alloc: Global) -> Self
        ensures { result ≡ record { notes = []; is_lacking = Rattle.std.specs.Prelude.false } }
    {
        AnswerNotes {
            notes: Vec::new(alloc),
            is_lacking: false,
        }
    }

    /// The notes, in the order of time. Where memory was lacking, one is missing at least.
    pub fn as_slice(&self) -> &[AnswerNote]
        ensures { result.now ≡ self.now.notes }
    {
        self.notes.as_slice()
    }

    /// Whether memory was lacking for a note.
    pub fn is_lacking(&self) -> bool
        ensures { result ≡ self.now.is_lacking }
    {
        self.is_lacking
    }

    /// Forgets what was told.
    pub fn clear(&mut self)
        ensures { self.new ≡ record { notes = []; is_lacking = Rattle.std.specs.Prelude.false } }
    {
        self.notes.clear();
        self.is_lacking = false;
    }

    /// Notes this.
    fn note(&mut self, note: AnswerNote)
        ensures { self.new.is_lacking ≡ false
            → (self.old.is_lacking ≡ false) × (self.new.notes ≡ self.old.notes ++ note ∷ []) }
    {
        if self.notes.push(note).is_err() {
            self.is_lacking = true;
        }
    }
}

impl Watcher for AnswerNotes {
    ghost use Rattle.fax_notes.specs.Notes.{NotesAnswer};

    ghost tells = { λ telling old new. NotesAnswer telling old new };

    fn tell(&mut self, state: State, waits: bool, piece: &Piece<'_>, decision: Decision) {
        if let Some(came) = came_in(piece) {
            self.note(AnswerNote {
                state,
                waits,
                came,
                decision,
            });
        }
    }
}
