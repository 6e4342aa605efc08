//! The procedure of a call (ITU-T T.30): its state, what is counted of it, what waits, timers and pace. It is plain data
//! and takes no memory.
ghost use Rattle.std.specs.Prelude.{◌≡◌, ◌≢◌, ◌↔◌, Option, None, IsTrue, false};
ghost use Rattle.fax_ifp.specs.Pieces.{Piece as PieceShown};
ghost use Rattle.fax_ifp.specs.Shown.{piece_of};
ghost use Rattle.fax_answer.specs.History.{Decision as Decided, since_answer};
ghost use Rattle.fax_answer.specs.Table.{state_after};
ghost use Rattle.fax_answer.specs.Replies.{ConfirmedPage, is_waiting, reply_to};
ghost use Rattle.fax_answer.specs.Calls.{AnswererCore, new_answering, rung, decided, timers_after, is_heard, timed, says_goodbye, identifies_anew, state_when_given, timers_when_given, is_closing};
ghost use Rattle.fax_answer.specs.Due.{due_at, timer_of};
ghost use Rattle.fax_answer.specs.Rep.{pending_reply, verdict_of};
ghost use Rattle.fax_answer.specs.Pending.{waiting_of};
ghost use Rattle.fax_answer.specs.Watching.{acting, acting_in};
ghost use Rattle.fax_answer.specs.Following.{readers_wanted, Follows, CanDecide, confirmed_after, GivesNext, gives_now, gives_up, repeats_dis, begins_again};

use crate::counts::Counts;
use crate::decision::Decision;
use crate::pending::{Pending, Reply};
use crate::timers::{ActingTimer, Timers};
use crate::watcher::Watcher;
use crate::{Command, State};
use fax_frames::Plain;
use fax_ifp::Piece;
use fax_timers::{Pace, T1_MS, T2_MS, T4_MS, earlier};

/// The procedure of a call.
#[derive(Clone, Copy)]
pub(crate) struct Procedure {
    pub state: State,
    pub counts: Counts,
    pub pending: Pending,
    pub timers: Timers,
    pub pace: Pace,
}

impl Procedure {
    /// No call is on, and none was. The packet after a preamble waits so many milliseconds, at most 2,000.
    pub fn new(preamble_ms: u16) -> Self
        ensures { Follows (new_answering preamble_ms) None result }
    {
        Procedure {
            state: State::Idle,
            counts: Counts::new(),
            pending: Pending::Nothing,
            timers: Timers::clear(),
            pace: Pace::new(preamble_ms),
        }
    }

    /// A ring: CED and our DIS wait, and T1 is set.
    pub fn ring(&mut self, now: u64)
        ensures { (core : AnswererCore) (confirmed : Option ConfirmedPage)
            → Follows core confirmed self.old → Follows (rung core now) None self.new }
    {
        let mut timers = Timers::clear();
        timers.t1.set(now, T1_MS);
        *self = Procedure {
            state: State::Identify,
            counts: Counts::new(),
            pending: Pending::Tone,
            timers,
            pace: self.pace,
        };
    }

    /// Whether a packet waits.
    pub fn is_waiting(&self) -> bool
        ensures waits { IsTrue result ↔ (self.now.pending ≢ Pending.Nothing) }
        ensures none { result ≡ false → self.now.pending ≡ Pending.Nothing }
    {
        self.pending != Pending::Nothing
    }

    /// Notes a piece and what is decided at it.
    pub fn note(&mut self, piece: &Piece<'_>, decision: Decision, now: u64)
        ensures waits { self.old.pending ≢ Pending.Nothing → self.new.pending ≡ self.old.pending }
        ensures free { self.old.pending ≡ Pending.Nothing
            → self.new.pending ≡ pending_reply decision }
        ensures noted { (core : AnswererCore) (confirmed : Option ConfirmedPage)
            (p : PieceShown) (d : Decided) → Follows core confirmed self.old
            → piece_of piece.now ≡ p → verdict_of d ≡ decision → CanDecide core d
            → Follows (decided core p d now) (confirmed_after d confirmed) self.new }
    {
        self.timers = self.timers_then(piece, decision, now);
        self.counts.note(piece, decision);
        self.state = state_then(self.state, decision);
        if self.pending == Pending::Nothing {
            self.pending = pending_after(decision);
        }
    }

    /// A watcher is told of a piece, before it is noted, and what is decided at it.
    pub fn tell<W: Watcher>(&self, piece: &Piece<'_>, decision: Decision, watcher: &mut W)
        ensures { (core : AnswererCore) (confirmed : Option ConfirmedPage)
            → Follows core confirmed self.now
            → W.tells (record {
              state = core.state;
              waits = is_waiting core.waiting;
              piece = piece_of piece.now;
              verdict = decision;
            }) watcher.old watcher.new }
    {
        watcher.tell(self.state, self.is_waiting(), piece, decision);
    }

    /// The timers after a decision: a DCS that trains clears T1 and T4 and sets T2; T2 and T4 are clear while packets
    /// wait; what is heard sets T2 anew.
    fn timers_then(&self, piece: &Piece<'_>, decision: Decision, now: u64) -> Timers
        ensures { (core : AnswererCore) (confirmed : Option ConfirmedPage) (p : PieceShown)
            (d : Decided) → Follows core confirmed self.now → piece_of piece.now ≡ p
            → verdict_of d ≡ decision → result ≡ timers_after core p d now }
    {
        let mut timers = self.timers;
        match decision {
            Decision::Train(_) => {
                timers = Timers::clear();
                timers.t2.set(now, T2_MS);
            }
            Decision::HangUp => timers = Timers::clear(),
            Decision::PassOver => {
                if !self.is_waiting() && is_heard(self.state, piece) {
                    timers.t2.set(now, T2_MS);
                }
            }
            Decision::Cfr(_) | Decision::Ftt | Decision::Mcf(_) | Decision::Rtn => {
                timers.t2.clear();
                timers.t4.clear();
            }
        }
        timers
    }

    /// The timers act where no packet waits, T1 before the others: DCN where T1 or T2 is due, DIS again where T4 is, and in
    /// Again where T2 is.
    pub fn act(&mut self, now: u64)
        ensures quiet { self.new.pending ≡ Pending.Nothing → self.old.pending ≡ Pending.Nothing }
        ensures acted { (core : AnswererCore) (confirmed : Option ConfirmedPage)
            → Follows core confirmed self.old → Follows (timed core now) confirmed self.new }
    {
        if self.is_waiting() {
            return;
        }
        if self.gives_up(now) {
            self.say_goodbye();
        } else if self.repeats_dis(now) {
            self.pending = Pending::Preamble(Reply::Dis);
            self.timers.t2.clear();
            self.timers.t4.clear();
        } else if self.begins_again(now) {
            self.identify_anew(now);
        }
    }

    /// The timer that acts in a tick at this moment, where one does.
    pub fn acting(&self, now: u64) -> Option<ActingTimer>
        ensures { (core : AnswererCore) (confirmed : Option ConfirmedPage)
            → Follows core confirmed self.now → result ≡ acting core now }
    {
        if self.is_waiting() {
            return None;
        }
        self.acting_timer(now)
    }

    /// The same where no packet waits.
    fn acting_timer(&self, now: u64) -> Option<ActingTimer>
        ensures { result ≡ acting_in self.now.state self.now.timers now }
    {
        match self.state {
            State::Idle | State::Closing => None,
            State::Identify if self.timers.t1.due(now) => Some(ActingTimer::T1),
            State::Identify if self.timers.t4.due(now) => Some(ActingTimer::T4),
            State::Identify => None,
            State::Listen | State::Train(_) | State::Page(_) | State::Again => {
                if self.timers.t2.due(now) {
                    Some(ActingTimer::T2)
                } else {
                    None
                }
            }
        }
    }

    /// Whether the call is given up: T1 is due in Identify, or T2 in Listen, Train or Page.
    fn gives_up(&self, now: u64) -> bool
        ensures { result ≡ gives_up self.now.state self.now.timers now }
    {
        match self.state {
            State::Idle | State::Again | State::Closing => false,
            State::Identify => self.timers.t1.due(now),
            State::Listen | State::Train(_) | State::Page(_) => self.timers.t2.due(now),
        }
    }

    /// Whether the DIS is given again: T4 is due in Identify.
    fn repeats_dis(&self, now: u64) -> bool
        ensures { result ≡ repeats_dis self.now.state self.now.timers now }
    {
        self.state == State::Identify && self.timers.t4.due(now)
    }

    /// Whether the exchange of DIS and DCS begins again: T2 is due in Again.
    fn begins_again(&self, now: u64) -> bool
        ensures { result ≡ begins_again self.now.state self.now.timers now }
    {
        self.state == State::Again && self.timers.t2.due(now)
    }

    /// Our DIS waits, in Identify, and T1 is set.
    fn identify_anew(&mut self, now: u64)
        requires { self.old.pending ≡ Pending.Nothing }
        ensures { (core : AnswererCore) (confirmed : Option ConfirmedPage)
            → Follows core confirmed self.old
            → Follows (identifies_anew core now) confirmed self.new }
    {
        self.state = State::Identify;
        self.pending = Pending::Preamble(Reply::Dis);
        self.timers = Timers::clear();
        self.timers.t1.set(now, T1_MS);
    }

    /// DCN waits, and the call closes with it.
    fn say_goodbye(&mut self)
        requires { self.old.pending ≡ Pending.Nothing }
        ensures { (core : AnswererCore) (confirmed : Option ConfirmedPage)
            → Follows core confirmed self.old → Follows (says_goodbye core) confirmed self.new }
    {
        self.state = State::Closing;
        self.pending = Pending::Preamble(Reply::Plain(Plain::Dcn));
        self.timers = Timers::clear();
    }

    /// Whether a packet is given now: one waits, and the pace lets it through.
    pub fn gives(&self, now: u64) -> bool
        ensures gives { (core : AnswererCore) (confirmed : Option ConfirmedPage)
            → Follows core confirmed self.now → result ≡ gives_now core now }
        ensures waits { IsTrue result → self.now.pending ≢ Pending.Nothing }
    {
        self.is_waiting() && self.pace.allows(now)
    }

    /// The first moment at which a tick may do something: where packets wait, that from which on the pace lets one through;
    /// else that of the timer that acts first.
    pub fn next_due(&self) -> Option<u64>
        ensures { (core : AnswererCore) (confirmed : Option ConfirmedPage)
            → Follows core confirmed self.now → result ≡ due_at core }
    {
        if self.is_waiting() {
            self.pace.allowed_from()
        } else {
            self.timer()
        }
    }

    /// The moment of the timer that acts first: T1 or T4 in Identify, T2 in Listen, Train, Page and Again.
    fn timer(&self) -> Option<u64>
        ensures { result ≡ timer_of self.now.state self.now.timers }
    {
        match self.state {
            State::Idle | State::Closing => None,
            State::Identify => earlier(self.timers.t1.moment(), self.timers.t4.moment()),
            State::Listen | State::Train(_) | State::Page(_) | State::Again => self
                .timers
                .t2
                .moment(),
        }
    }

    /// The next packet is given. It answers whether the call has ended with it.
    pub fn give(&mut self, now: u64) -> bool
        requires { self.old.pending ≢ Pending.Nothing }
        ensures { (core : AnswererCore) (confirmed : Option ConfirmedPage)
            → Follows core confirmed self.old
            → GivesNext core confirmed now self.old self.new result }
    {
        self.pace.given(self.pending.is_preamble(), now);
        match self.pending {
            Pending::Tone => self.pending = Pending::Preamble(Reply::Dis),
            Pending::Preamble(reply) => self.pending = Pending::Frame(reply),
            Pending::Frame(_) | Pending::Nothing => {
                self.pending = Pending::Nothing;
                return self.finish_reply(now);
            }
        }
        false
    }

    /// How many readers of images are wanted on: in Page that of the image under way, and that of the one before where a
    /// command may ask what it means.
    pub fn readers_wanted(&self) -> usize
        ensures { (core : AnswererCore) (confirmed : Option ConfirmedPage)
            → Follows core confirmed self.now
            → result ≡ readers_wanted core.state (since_answer core.history) }
    {
        match self.state {
            State::Page(_) if self.counts.is_one_image() => 2,
            State::Page(_) => 1,
            _ => 0,
        }
    }

    /// The last packet of a reply is given: the state's T2 or T4 is set, and a call that closes has ended.
    fn finish_reply(&mut self, now: u64) -> bool
        ensures state { self.new.state ≡ state_when_given self.old.state }
        ensures counts { self.new.counts ≡ self.old.counts }
        ensures pending { self.new.pending ≡ self.old.pending }
        ensures pace { self.new.pace ≡ self.old.pace }
        ensures timers { self.new.timers ≡ timers_when_given self.old.state self.old.timers now }
        ensures ended { result ≡ is_closing self.old.state }
    {
        match self.state {
            State::Idle => false,
            State::Identify => {
                self.timers.t2.clear();
                self.timers.t4.set(now, T4_MS);
                false
            }
            State::Listen | State::Train(_) | State::Page(_) | State::Again => {
                self.timers.t2.set(now, T2_MS);
                self.timers.t4.clear();
                false
            }
            State::Closing => {
                self.state = State::Idle;
                true
            }
        }
    }
}

/// Whether a piece sets T2 anew: a frame, a signal that begins, and octets of one, in Listen, Train, Page and
/// Again.
fn is_heard(state: State, piece: &Piece<'_>) -> bool
    ensures { result ≡ is_heard state (piece_of piece.now) }
{
    let counts = match piece {
        Piece::Frame(_) | Piece::Start(_) | Piece::Octets(_) => true,
        Piece::End { .. } | Piece::Gap => false,
    };
    counts
        && matches!(
            state,
            State::Listen | State::Train(_) | State::Page(_) | State::Again
        )
}

/// The state after a decision: Again after the MCF to an EOM.
fn state_then(state: State, decision: Decision) -> State
    ensures { (d : Decided) → verdict_of d ≡ decision → result ≡ state_after state d }
{
    match decision {
        Decision::Train(dcs) => State::Train(dcs),
        Decision::HangUp => State::Idle,
        Decision::Cfr(dcs) => State::Page(dcs),
        Decision::Ftt => State::Listen,
        Decision::Mcf(Command::Eom) => State::Again,
        Decision::PassOver | Decision::Mcf(_) | Decision::Rtn => state,
    }
}

/// What waits after a decision, where nothing waited.
fn pending_after(decision: Decision) -> Pending
    ensures reply { (d : Decided)
        → verdict_of d ≡ decision → waiting_of result (confirmed_after d None) ≡ reply_to d }
    ensures pending { result ≡ pending_reply decision }
{
    let plain = match decision {
        Decision::PassOver | Decision::Train(_) | Decision::HangUp => return Pending::Nothing,
        Decision::Cfr(_) => Plain::Cfr,
        Decision::Ftt => Plain::Ftt,
        Decision::Mcf(_) => Plain::Mcf,
        Decision::Rtn => Plain::Rtn,
    };
    Pending::Preamble(Reply::Plain(plain))
}
