//! The calling table (ITU-T T.30, figure 5-1): what a frame or a timer brings about.
ghost use Rattle.std.specs.Prelude.{◌≡◌, ◌≢◌, ◌<◌, ℕ, Some, None};
ghost use Rattle.fax_call.specs.Table.{on_frame, on_timers, by_choice, tries_again, asks_again, after_refusal, gives_up_dis};
ghost use Rattle.fax_call.specs.Rep.{counts_shown, move_shown, AwaitsMcf, FitsMove, HasTerms};
ghost use Rattle.fax_call.specs.Following.{IsFit};
ghost use Rattle.fax_frames.specs.Choice.{choice};
ghost use Rattle.fax_call.specs.Watching.{decision_of};

use crate::State;
use crate::counts::Counts;
use crate::decision::Decision;
use crate::procedure::Procedure;
use fax_frames::{Dcs, Dis, Frame, Refusal, choose};
use fax_jobs::Outcome;
use fax_pagestore::Format;

/// What is done.
#[derive(Clone, Copy)]
pub(crate) enum Move {
    Stay,
    /// A training goes out.
    Train(Dis, Dcs, Counts),
    /// An image and its command go out.
    Send(Dis, Dcs, Counts),
    /// The command goes out again.
    AskAgain(Counts),
    /// A DIS is awaited for the next page, of this format.
    Turn(Format, Counts),
    /// DCN goes out, and the call ends so.
    Close(Outcome, Counts),
    /// The call is over.
    HangUp,
}

impl Move {
    /// What is told of it.
    pub fn decision(&self) -> Decision
        ensures { (now : ℕ) → result ≡ decision_of (move_shown now self.now) }
    {
        match self {
            Move::Stay => Decision::PassOver,
            Move::Train(..) => Decision::Train,
            Move::Send(..) => Decision::Send,
            Move::AskAgain(_) => Decision::AskAgain,
            Move::Turn(..) => Decision::Turn,
            Move::Close(outcome, _) => Decision::Close(*outcome),
            Move::HangUp => Decision::HangUp,
        }
    }
}

/// The trainings or commands that are sent for one wait.
const MOST_TRIES: u8 = 3;

/// The RTNs after which a page is sent again.
const MOST_REFUSALS: u8 = 2;

impl Procedure {
    /// What is decided at a frame, where no packet waits.
    pub fn on_frame(&self, frame: &Frame) -> Move
        requires { IsFit self.now }
        ensures decided { (now : ℕ)
            → move_shown now result ≡ on_frame now self.now.format self.now.turn
            self.now.pages self.now.state (counts_shown self.now.counts) (Some frame.now) }
        ensures fits { FitsMove self.now.pages self.now.counts.page self.now.state result }
        ensures idle { self.now.state ≡ State.Idle → result ≡ Move.Stay }
    {
        match self.state {
            State::Idle | State::Closing(_) => Move::Stay,
            State::AwaitDis => self.on_identification(frame),
            State::AwaitCfr(dis, dcs) => self.on_training_answer(dis, dcs, frame),
            State::AwaitMcf(dis, dcs) => self.on_page_answer(dis, dcs, frame),
        }
    }

    /// Await DIS.
    fn on_identification(&self, frame: &Frame) -> Move
        requires fit { IsFit self.now }
        requires state { self.now.state ≡ State.AwaitDis }
        ensures decided { (now : ℕ)
            → move_shown now result ≡ on_frame now self.now.format self.now.turn
            self.now.pages State.AwaitDis (counts_shown self.now.counts) (Some frame.now) }
        ensures fits { FitsMove self.now.pages self.now.counts.page self.now.state result }
    {
        match *frame {
            Frame::Dis(dis) => self.by_choice(dis, self.counts.first_try()),
            Frame::Dcn => Move::HangUp,
            _ => Move::Stay,
        }
    }

    /// Await CFR.
    fn on_training_answer(&self, dis: Dis, dcs: Dcs, frame: &Frame) -> Move
        requires fit { IsFit self.now }
        requires state { self.now.state ≡ State.AwaitCfr dis dcs }
        ensures decided { (now : ℕ) → move_shown now result
            ≡ on_frame now self.now.format self.now.turn self.now.pages (State.AwaitCfr dis dcs)
            (counts_shown self.now.counts) (Some frame.now) }
        ensures fits { FitsMove self.now.pages self.now.counts.page self.now.state result }
    {
        match *frame {
            Frame::Cfr => Move::Send(dis, dcs, self.counts.first_try()),
            Frame::Ftt => self.by_choice(dis, self.counts.next_step()),
            Frame::Dis(_) => self.try_again(dis, dcs),
            Frame::Dcn => Move::HangUp,
            _ => Move::Stay,
        }
    }

    /// Await MCF.
    fn on_page_answer(&self, dis: Dis, dcs: Dcs, frame: &Frame) -> Move
        requires fit { IsFit self.now }
        requires state { self.now.state ≡ State.AwaitMcf dis dcs }
        ensures decided { (now : ℕ) → move_shown now result
            ≡ on_frame now self.now.format self.now.turn self.now.pages (State.AwaitMcf dis dcs)
            (counts_shown self.now.counts) (Some frame.now) }
        ensures fits { FitsMove self.now.pages self.now.counts.page self.now.state result }
    {
        let pages = self.pages;
        let is_last = self.counts.page + 1 == pages;
        match *frame {
            Frame::Mcf | Frame::Rtp if is_last => {
                Move::Close(Outcome::Delivered, self.counts.one_delivered())
            }
            Frame::Mcf => match self.turn {
                Some(format) => Move::Turn(format, self.counts.next_exchange()),
                None => Move::Send(dis, dcs, self.counts.next_page()),
            },
            Frame::Rtp => match self.turn {
                Some(format) => Move::Turn(format, self.counts.next_exchange()),
                None => Move::Train(dis, dcs, self.counts.next_page()),
            },
            Frame::Rtn if self.counts.refused < MOST_REFUSALS => {
                Move::Train(dis, dcs, self.counts.one_refused())
            }
            Frame::Rtn => Move::Close(Outcome::PageRefused, self.counts),
            Frame::Dcn => Move::HangUp,
            _ => Move::Stay,
        }
    }

    /// A training by the DCS that is chosen at the step of these counts, or the end with the refusal.
    fn by_choice(&self, dis: Dis, counts: Counts) -> Move
        requires page { counts.page < self.now.pages }
        requires delivered { counts.delivered ≡ counts.page }
        ensures decided { (now : ℕ) → move_shown now result
            ≡ by_choice dis (counts_shown counts) (choice dis self.now.format counts.step) }
        ensures fits { FitsMove self.now.pages self.now.counts.page self.now.state result }
    {
        match choose(&dis, self.format, counts.step) {
            Ok(dcs) => Move::Train(dis, dcs, counts),
            Err(refusal) => Move::Close(outcome_of(refusal), counts),
        }
    }

    /// The training again, three times in all.
    fn try_again(&self, dis: Dis, dcs: Dcs) -> Move
        requires fit { IsFit self.now }
        requires terms { HasTerms dcs self.now.counts }
        ensures decided { (now : ℕ)
            → move_shown now result ≡ tries_again dis dcs (counts_shown self.now.counts) }
        ensures fits { FitsMove self.now.pages self.now.counts.page self.now.state result }
    {
        if self.counts.tries < MOST_TRIES {
            Move::Train(dis, dcs, self.counts.next_try())
        } else {
            Move::Close(Outcome::NoReply, self.counts)
        }
    }

    /// What is decided where timers are due, while no packet waits.
    pub fn on_timers(&self, t1_due: bool, t4_due: bool) -> Move
        requires { IsFit self.now }
        ensures decided { (now : ℕ) → move_shown now result
            ≡ on_timers t1_due t4_due self.now.state (counts_shown self.now.counts) }
        ensures fits { FitsMove self.now.pages self.now.counts.page self.now.state result }
        ensures idle { self.now.state ≡ State.Idle → result ≡ Move.Stay }
    {
        match self.state {
            State::AwaitDis if t1_due => self.give_up_dis(),
            State::AwaitCfr(dis, dcs) if t4_due => self.try_again(dis, dcs),
            State::AwaitMcf(..) if t4_due => self.ask_again(),
            _ => Move::Stay,
        }
    }

    /// The end where no DIS came in time: nobody answered, or, where a DIS was accepted before, no reply came.
    fn give_up_dis(&self) -> Move
        requires { IsFit self.now }
        ensures decided { (now : ℕ)
            → move_shown now result ≡ gives_up_dis (counts_shown self.now.counts) }
        ensures fits { FitsMove self.now.pages self.now.counts.page self.now.state result }
    {
        if self.counts.delivered == 0 {
            Move::Close(Outcome::NoAnswer, self.counts)
        } else {
            Move::Close(Outcome::NoReply, self.counts)
        }
    }

    /// The command again, three times in all.
    fn ask_again(&self) -> Move
        requires fit { IsFit self.now }
        requires state { AwaitsMcf self.now.state }
        ensures decided { (now : ℕ)
            → move_shown now result ≡ asks_again (counts_shown self.now.counts) }
        ensures fits { FitsMove self.now.pages self.now.counts.page self.now.state result }
    {
        if self.counts.tries < MOST_TRIES {
            Move::AskAgain(self.counts.next_try())
        } else {
            Move::Close(Outcome::NoReply, self.counts)
        }
    }
}

/// How a call ends where a DIS leaves no choice.
fn outcome_of(refusal: Refusal) -> Outcome
    ensures { result ≡ Rattle.fax_call.specs.Table.outcome_of refusal }
{
    match refusal {
        Refusal::NotReceiver => Outcome::NotReceiver,
        Refusal::WidthLacking => Outcome::WidthLacking,
        Refusal::FineLacking => Outcome::FineLacking,
        Refusal::RatesSpent => Outcome::RatesSpent,
    }
}
