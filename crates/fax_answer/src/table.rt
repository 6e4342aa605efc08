//! The answering table (ITU-T T.30, figure 5-2): what is decided at a frame, and where an image ends. Its rows stand in the
//! order of `specs/Table`.
ghost use Rattle.std.specs.Prelude.{ℕ, ◌≡◌, List, None, ◌&&◌, not, nat_le};
ghost use Rattle.fax_ifp.specs.Pieces.{End as EndShown};
ghost use Rattle.fax_answer.specs.Calls.{AnswererCore};
ghost use Rattle.fax_answer.specs.EachCall.{EachCore};
ghost use Rattle.fax_answer.specs.Table.{decision};
ghost use Rattle.fax_answer.specs.Replies.{is_last, is_waiting};
ghost use Rattle.fax_answer.specs.Rep.{decided_outside, verdict_of};
ghost use Rattle.fax_answer.specs.Images.{HasEnded};
ghost use Rattle.fax_answer.specs.Reached.{Stands, Answers, AnswersAgain, AnswersCommand, AnswersImage};

use crate::answer::Answer;
use crate::answerer::Answerer;
use crate::decision::Decision;
use crate::image::Accepted;
use crate::refusal::Refusal;
use crate::{Command, Order, State};
use fax_frames::Dcs;
use fax_pagestore::RowStore;

impl<S: RowStore> Answerer<S> {
    /// What is decided at a frame, in each state, where no packet waits.
    pub(crate) fn answer(&self, octets: &[u8]) -> Answer
        ensures { EachCore self.now
            (λ core. Answers octets.now core self.now.image.readers result) }
    {
        let order = Order::read(octets);
        match self.procedure.state {
            State::Idle | State::Closing => Answer::plain(Decision::PassOver),
            State::Identify | State::Listen | State::Train(_) => Answer::plain(decide(order)),
            State::Page(_) => match order {
                Order::Judge(command) => self.judge(command),
                _ => Answer::plain(decide(order)),
            },
            State::Again => match order {
                Order::Judge(command) => self.judge_again(command),
                _ => Answer::plain(decide(order)),
            },
        }
    }

    /// What is decided where an image ends: in Train, whether the training check is good.
    pub(crate) fn judge_training(&self, whole: bool) -> Decision
        ensures { EachCore self.now (λ core. verdict_of (decision
            None core.state (is_waiting core.waiting) core.history (EndShown whole)) ≡ result) }
    {
        let State::Train(dcs) = self.procedure.state else {
            return Decision::PassOver;
        };
        let wanted = dcs.rate.bits() / 8;
        let is_missing = self.procedure.counts.is_missing();
        if is_check(whole, is_missing, self.image.longest_run(), wanted) {
            Decision::Cfr(dcs)
        } else {
            Decision::Ftt
        }
    }

    /// What is decided at a command in Page.
    fn judge(&self, command: Command) -> Answer
        ensures { (core : AnswererCore) (dcs : Dcs)
            → Stands core self.now → core.state ≡ State.Page dcs
            → AnswersCommand dcs command core.history self.now.image.readers result }
    {
        if self.procedure.counts.is_one_image() {
            return self.read(command);
        }
        if self.procedure.counts.is_repeat(command) {
            return Answer::plain(Decision::Mcf(command));
        }
        Answer::rtn(self.procedure.counts.refusal())
    }

    /// What is decided of the last image: MCF where it means a page, which it confirms, else RTN.
    fn read(&self, command: Command) -> Answer
        ensures { (dcs : Dcs) (octets : List ℕ) → HasEnded dcs octets self.now.image.readers
            → AnswersImage octets dcs command self.now.image.readers result }
    {
        match self.image.page_ended() {
            Ok(place) => {
                let closes = is_last(command);
                Answer::mcf(command, Accepted { place, closes })
            }
            Err(fault) => Answer::rtn(Refusal::Fault(fault)),
        }
    }

    /// What is decided at a command in Again: MCF to an EOM after which nothing came, else RTN.
    fn judge_again(&self, command: Command) -> Answer
        ensures { EachCore self.now
            (λ core. AnswersAgain command core.history self.now.image.readers result) }
    {
        match command {
            Command::Eom if self.procedure.counts.is_quiet() => Answer::plain(Decision::Mcf(
                command,
            )),
            _ => Answer::rtn(self.procedure.counts.refusal_again()),
        }
    }
}

/// What is decided in a call at a frame that is no command, or at a command outside of Page and Again.
fn decide(order: Order) -> Decision
    ensures { result ≡ decided_outside order }
{
    match order {
        Order::Train(dcs) => Decision::Train(dcs),
        Order::Disconnect => Decision::HangUp,
        Order::Judge(_) | Order::Nothing => Decision::PassOver,
    }
}

/// Whether a signal is a training check: whole, with nothing missing, and enough zero octets in a row.
fn is_check(whole: bool, is_missing: bool, longest: u16, wanted: u16) -> bool
    ensures { result ≡ (whole && (not is_missing && nat_le wanted longest)) }
{
    whole && !is_missing && longest >= wanted
}

/// Whether no page follows after a command.
fn is_last(command: Command) -> bool
    ensures { result ≡ is_last command }
{
    match command {
        Command::Eom | Command::Mps => false,
        Command::Eop => true,
    }
}
