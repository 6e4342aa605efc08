//! What is counted of a call in place of its history.
ghost use Rattle.std.specs.Prelude.{◌≡◌, [], ◌∷◌, List, false};
ghost use Rattle.fax_ifp.specs.Shown.{piece_of};
ghost use Rattle.fax_answer.specs.History.{Entry, since_answer};
ghost use Rattle.fax_answer.specs.Table.{is_one_image, is_quiet, is_repeat};
ghost use Rattle.fax_answer.specs.Rep.{counts_of, verdict_of};
ghost use Rattle.fax_answer.specs.Refusals.{IsReasonInAgain, IsReasonInPage};
ghost use Rattle.fax_frames.specs.declared.dcs.Dcs.{Dcs};

use crate::Command;
use crate::decision::Decision;
use crate::refusal::Refusal;
use fax_ifp::Piece;

/// How many images ended since the last CFR or MCF.
#[derive(Clone, Copy, PartialEq, Eq)]
pub(crate) enum Images {
    Zero,
    One,
    More,
}

/// What is counted of a call.
#[derive(Clone, Copy)]
pub(crate) struct Counts {
    images: Images,
    /// Whether a slot was missing or a signal began since the later of the last CFR or MCF and the last image's end.
    gap: bool,
    /// Whether the last image since then is whole.
    whole: bool,
    /// The command that the last MCF answered, where no CFR came since.
    repeat: Option<Command>,
    /// Whether a slot was missing since the DCS that trained.
    missing: bool,
}

impl Counts {
    /// What is counted of no history.
    pub fn new() -> Self
        ensures { result ≡ counts_of [] }
    {
        Counts {
            images: Images::Zero,
            gap: false,
            whole: false,
            repeat: None,
            missing: false,
        }
    }

    /// Notes a piece and what is decided at it.
    pub fn note(&mut self, piece: &Piece<'_>, decision: Decision)
        ensures { (history : List Entry) (e : Entry)
            → self.old ≡ counts_of history → piece_of piece.now ≡ e.piece
            → verdict_of e.decision ≡ decision → self.new ≡ counts_of (e ∷ history) }
    {
        self.note_missing(piece, decision);
        match decision {
            Decision::Cfr(_) => self.answer(None),
            Decision::Mcf(command) => self.answer(Some(command)),
            _ => self.note_piece(piece),
        }
    }

    /// A CFR or an MCF is decided: nothing came since, and this command may be repeated.
    fn answer(&mut self, repeat: Option<Command>)
        ensures { self.new
            ≡ record self.old {
              images = Images.Zero;
              gap = Rattle.std.specs.Prelude.false;
              whole = Rattle.std.specs.Prelude.false;
              repeat = repeat;
            } }
    {
        *self = Counts {
            images: Images::Zero,
            gap: false,
            whole: false,
            repeat,
            missing: self.missing,
        };
    }

    /// Notes whether a slot is missing since the DCS that trained.
    fn note_missing(&mut self, piece: &Piece<'_>, decision: Decision)
        ensures { (e : Entry) → piece_of piece.now ≡ e.piece → verdict_of e.decision ≡ decision
            → self.new ≡ record self.old {
              missing = Rattle.fax_answer.specs.History.missing_with
                  e.decision e.piece self.old.missing;
            } }
    {
        if let Decision::Train(_) = decision {
            self.missing = false;
        } else if let Piece::Gap = piece {
            self.missing = true;
        }
    }

    /// Notes a piece after the last CFR or MCF.
    fn note_piece(&mut self, piece: &Piece<'_>)
        ensures { self.new ≡ Rattle.fax_answer.specs.Rep.counted self.old (piece_of piece.now) }
    {
        match piece {
            Piece::Gap | Piece::Start(_) => self.gap = true,
            Piece::End { whole } => {
                self.gap = false;
                self.whole = *whole;
                self.images = match self.images {
                    Images::Zero => Images::One,
                    _ => Images::More,
                };
            }
            Piece::Frame(_) | Piece::Octets(_) => {}
        }
    }

    /// Whether one image came since the last CFR or MCF, which is whole, with neither a missing slot nor a signal after
    /// it.
    pub fn is_one_image(&self) -> bool
        ensures { (history : List Entry)
            → self.now ≡ counts_of history → result ≡ is_one_image (since_answer history) }
    {
        self.images == Images::One && self.whole && !self.gap
    }

    /// Whether no image came since the last CFR or MCF, nothing was missing and no signal began.
    pub fn is_quiet(&self) -> bool
        ensures { (history : List Entry)
            → self.now ≡ counts_of history → result ≡ is_quiet (since_answer history) }
    {
        self.images == Images::Zero && !self.gap
    }

    /// Whether the command is MPS or EOP and the one that was answered by MCF, with no image, missing slot or signal since.
    pub fn is_repeat(&self, command: Command) -> bool
        ensures { (history : List Entry)
            → self.now ≡ counts_of history → result ≡ is_repeat history command }
    {
        self.is_quiet() && is_same(self.repeat, command)
    }

    /// Why a command is refused in Page, where not one image stands before it, whole and with nothing after it.
    pub fn refusal(&self) -> Refusal
        ensures { (history : List Entry) (dcs : Dcs) → self.now ≡ counts_of history
            → is_one_image (since_answer history) ≡ false → IsReasonInPage dcs history result }
    {
        match self.images {
            Images::Zero => Refusal::NoImage,
            Images::One if self.whole => Refusal::GapAfter,
            Images::One => Refusal::NotWhole,
            Images::More => Refusal::SeveralImages,
        }
    }

    /// Why a command is refused in Again.
    pub fn refusal_again(&self) -> Refusal
        ensures { (history : List Entry)
            → self.now ≡ counts_of history → IsReasonInAgain history result }
    {
        match self.images {
            Images::Zero => Refusal::NoImage,
            Images::One | Images::More => Refusal::Untrained,
        }
    }

    /// Whether a slot was missing since the DCS that trained.
    pub fn is_missing(&self) -> bool
        ensures { (history : List Entry) → self.now ≡ counts_of history
            → result ≡ Rattle.fax_answer.specs.History.missing_in_training history }
    {
        self.missing
    }
}

/// Whether a command is MPS or EOP and the one that was answered.
fn is_same(answered: Option<Command>, command: Command) -> bool
    ensures { result ≡ Rattle.fax_answer.specs.Table.same_command answered command }
{
    match command {
        Command::Eom => false,
        Command::Mps | Command::Eop => answered == Some(command),
    }
}
