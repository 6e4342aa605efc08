//! The ends of frames in a packet.
ghost use Rattle.std.specs.Prelude.{◌≡◌, ◌-◌, count_by};
ghost use Rattle.fax_ifp.specs.Shown.{piece_of, pieces_shown};
ghost use Rattle.fax_explain.specs.FrameEnds.{ends_in, ends_rightly, ends_wrongly, frames_in, is_frame};

use fax_ifp::{Field, Head, Ifp, Piece};

/// The type of V.21 data.
const V21: u8 = 0;

/// How many frames end in a packet (ITU-T T.38 of 1998, field types 2 to 5 of V.21 data).
#[derive(Clone, Copy)]
pub(crate) struct FrameEnds {
    /// Those whose check sequence is right.
    pub good: usize,
    /// Those whose check sequence is wrong.
    pub bad: usize,
}

impl FrameEnds {
    /// None ends.
    pub(crate) fn none() -> Self
        ensures { result ≡ record { good = 0; bad = 0 } }
    {
        FrameEnds { good: 0, bad: 0 }
    }

    /// Those of a packet.
    pub(crate) fn of(packet: &Ifp<'_>) -> Self
        ensures good { result.good ≡ ends_in ends_rightly packet.now }
        ensures bad { result.bad ≡ ends_in ends_wrongly packet.now }
    {
        match packet.head() {
            Head::Message { kind: V21 } => FrameEnds {
                good: count_good(packet.fields()),
                bad: count_bad(packet.fields()),
            },
            _ => FrameEnds::none(),
        }
    }

    /// How many of those that end rightly are none of these pieces: something is missing in them.
    pub(crate) fn lacking(self, pieces: &[Piece<'_>]) -> usize
        ensures { result ≡ self.good - frames_in (pieces_shown pieces.now) }
    {
        let whole = pieces.iter().filter(|piece| is_frame(piece)).count();
        self.good.saturating_sub(whole)
    }
}

/// Whether a piece is a whole frame.
fn is_frame(piece: &Piece<'_>) -> bool
    ensures { result ≡ is_frame (piece_of piece.now) }
{
    matches!(piece, Piece::Frame(_))
}

/// How many fields end a frame whose check sequence is right.
fn count_good(fields: &[Field<'_>]) -> usize
    ensures { result ≡ count_by (λ field. ends_rightly field.what) fields.now }
{
    fields
        .iter()
        .filter(|field| field.what == 2 || field.what == 4)
        .count()
}

/// How many fields end a frame whose check sequence is wrong.
fn count_bad(fields: &[Field<'_>]) -> usize
    ensures { result ≡ count_by (λ field. ends_wrongly field.what) fields.now }
{
    fields
        .iter()
        .filter(|field| field.what == 3 || field.what == 5)
        .count()
}
