//! Who is told what becomes of the pieces that come.
use crate::State;
use crate::decision::Decision;
use fax_ifp::Piece;

/// Who is told of each piece that a caller takes, but for lost slots: what it was taken as.
pub trait Watcher {
    ghost use Rattle.fax_ifp.specs.Shown.{piece_of};
    ghost use Rattle.fax_call.specs.Watching.{Telling};

    /// What telling it of a piece makes of it.
    ghost tells: { Telling → Self → Self → Type 0 };

    /// A piece was taken: the call stood there before it, a packet waited or none did, and this was decided at it.
    fn tell(&mut self, state: State, waits: bool, piece: &Piece<'_>, decision: Decision)
        ensures { tells (record {
          state = state;
          waits = waits;
          piece = piece_of piece.now;
          verdict = decision;
        }) self.old self.new };
}

/// Who is told and keeps nothing.
#[derive(Clone, Copy, PartialEq, Eq)]
pub struct Unwatched;

impl Watcher for Unwatched {
    ghost tells = { λ telling old new. Unit {0} };

    fn tell(&mut self, _state: State, _waits: bool, _piece: &Piece<'_>, _decision: Decision) {}
}
