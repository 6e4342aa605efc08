//! What came.
ghost use Rattle.std.specs.Prelude.{◌≡◌};
ghost use Rattle.fax_ifp.specs.Shown.{piece_of};
ghost use Rattle.fax_notes.specs.Notes.{came_in};

use fax_ifp::Piece;

/// What came, of a piece that is noted.
#[derive(Clone, Copy, PartialEq, Eq)]
pub enum Came {
    /// A frame.
    Frame,
    /// A signal began.
    Start,
    /// A signal ended.
    End,
}

/// What came, where it is noted: octets of a signal and lost slots are not.
pub(crate) fn came_in(piece: &Piece<'_>) -> Option<Came>
    ensures { result ≡ came_in (piece_of piece.now) }
{
    match piece {
        Piece::Frame(_) => Some(Came::Frame),
        Piece::Start(_) => Some(Came::Start),
        Piece::End { .. } => Some(Came::End),
        Piece::Octets(_) | Piece::Gap => None,
    }
}
