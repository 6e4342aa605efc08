//! The procedure of a call (ITU-T T.30): its state, what is counted of it, what waits, timers and pace. It is plain data
//! and takes no memory.
ghost use Rattle.std.specs.Prelude.{◌≡◌, ◌≢◌, ◌↔◌, ◌≤◌, ◌<◌, IsTrue, List, [], ◌∷◌, ℕ, length, Option, None, Some, if◌then◌else◌, false};
ghost use Rattle.fax_jobs.specs.Jobs.{JobValue, IsJob};
ghost use Rattle.fax_pagestore.specs.Writers.{WriterValue};
ghost use Rattle.fax_call.specs.EachCall.{EachCore};
ghost use Rattle.fax_call.specs.Writings.{Writing};
ghost use Rattle.fax_call.specs.Replies.{turn_after, waits};
ghost use Rattle.fax_call.specs.Calls.{formats_of};
ghost use Rattle.fax_call.specs.Calls.{CallerCore, new_calling, not_placed, started, moved, timed, came, came_all, state_when_given, outcome_when_given, t4_when_given};
ghost use Rattle.fax_call.specs.Due.{due_at, timer_of};
ghost use Rattle.fax_call.specs.Rep.{counts_shown, move_shown, pending_of, FitsMove};
ghost use Rattle.fax_call.specs.Table.{on_frame};
ghost use Rattle.fax_call.specs.Following.{IsFit, Follows, HasText, IsJobOfCall, command_kept, with_turn, given_by, gives_now};
ghost use Rattle.fax_ifp.specs.Pieces.{Frame as FrameShown};
ghost use Rattle.fax_ifp.specs.Shown.{piece_of, pieces_shown};
ghost use Rattle.fax_call.specs.Watching.{Watches, acting, acting_in, telling, telling_with, tellings};
ghost use Rattle.fax_frames.specs.Frames.{frame_of};
ghost use Rattle.fax_timers.specs.Moments.{is_due};

use crate::State;
use crate::acting::ActingTimer;
use crate::counts::Counts;
use crate::decision::Decision;
use crate::pending::{Message, Pending};
use crate::table::Move;
use crate::watcher::Watcher;
use fax_frames::{Frame, Plain};
use fax_ifp::Piece;
use fax_jobs::{Job, Outcome};
use fax_pagestore::{Format, RowStore};
use fax_runcodes::Width;
use fax_timers::{Pace, T1_MS, T4_MS, Timer};

/// The procedure of a call.
#[derive(Clone, Copy)]
pub(crate) struct Procedure {
    pub state: State,
    /// The format of the page due.
    pub format: Format,
    /// The format of the page after the one whose image goes out, where it is another: its command is EOM then.
    pub turn: Option<Format>,
    /// How many pages the job has.
    pub pages: u32,
    pub counts: Counts,
    pub pending: Pending,
    pub t1: Timer,
    pub t4: Timer,
    pub pace: Pace,
    pub outcome: Option<Outcome>,
}

/// The format of a caller that was not started yet.
pub(crate) const NO_FORMAT: Format = Format {
    width: Width::W1728,
    fine: false,
};

impl Procedure {
    /// No call is on, and none was. The packet after a preamble waits so many milliseconds, at most 2,000.
    pub fn new(preamble_ms: u16) -> Self
        ensures fit { IsFit result }
        ensures follows { (writes : Writing) (job : JobValue) (writer : WriterValue)
            → Follows writes job (new_calling preamble_ms result.format) writer result }
        ensures pending { result.pending ≡ Pending.Nothing }
        ensures idle { result.state ≡ State.Idle }
        ensures outcome { result.outcome ≡ None }
    {
        Procedure {
            state: State::Idle,
            format: NO_FORMAT,
            turn: None,
            pages: 1,
            counts: Counts::new(),
            pending: Pending::Nothing,
            t1: Timer::new(),
            t4: Timer::new(),
            pace: Pace::new(preamble_ms),
            outcome: None,
        }
    }

    /// The call of a job begins, whose first page has this format: CNG waits, and T1 is set.
    pub fn start(&mut self, format: Format, pages: u32, now: u64)
        requires { 1 ≤ pages }
        ensures fit { IsFit self.new }
        ensures pending { self.new.pending ≡ Pending.Tone }
        ensures job { (job : JobValue) → IsJob job
            → job.format ≡ format → length job.pages ≡ pages → IsJobOfCall self.new job }
        ensures started { (writes others : Writing)
            (job other : JobValue) (core : CallerCore) (writer left : WriterValue)
            → Follows others other core writer self.old → job.format ≡ format
            → length job.pages ≡ pages → Follows writes job (started core job now) left self.new }
    {
        let mut t1 = Timer::new();
        t1.set(now, T1_MS);
        *self = Procedure {
            state: State::AwaitDis,
            format,
            turn: None,
            pages,
            counts: Counts::new(),
            pending: Pending::Tone,
            t1,
            t4: Timer::new(),
            pace: self.pace,
            outcome: None,
        };
    }

    /// The call of a job could not be placed, whose first page has this format: it is over as it begins.
    pub fn fail_to_place(&mut self, format: Format, pages: u32)
        requires { 1 ≤ pages }
        ensures fit { IsFit self.new }
        ensures pending { self.new.pending ≡ Pending.Nothing }
        ensures idle { self.new.state ≡ State.Idle }
        ensures not_placed { (writes others : Writing)
            (job other : JobValue) (core : CallerCore) (writer left : WriterValue)
            → Follows others other core writer self.old → job.format ≡ format
            → length job.pages ≡ pages → Follows writes job (not_placed core job) left self.new }
    {
        *self = Procedure {
            state: State::Idle,
            format,
            turn: None,
            pages,
            counts: Counts::new(),
            pending: Pending::Nothing,
            t1: Timer::new(),
            t4: Timer::new(),
            pace: self.pace,
            outcome: Some(Outcome::NotPlaced),
        };
    }

    /// Whether a packet waits.
    pub fn is_waiting(&self) -> bool
        ensures waits { IsTrue result ↔ (self.now.pending ≢ Pending.Nothing) }
        ensures none { result ≡ false → self.now.pending ≡ Pending.Nothing }
    {
        self.pending != Pending::Nothing
    }

    /// The command after the page due, by the next page's format that is kept: EOP after the last page, EOM where the
    /// next one is of another format, else MPS.
    fn command(&self) -> Plain
        requires { self.now.counts.page < self.now.pages }
        ensures { result ≡ command_kept self.now }
    {
        let pages = self.pages;
        match self.turn {
            _ if self.counts.page + 1 == pages => Plain::Eop,
            Some(_) => Plain::Eom,
            None => Plain::Mps,
        }
    }

    /// The job tells the next page's format, where it is another.
    pub fn keep_turn<S: RowStore>(&mut self, job: &Job<S>)
        requires { self.old.counts.page < length job.now.pages }
        ensures { self.new ≡ with_turn self.old job.now }
    {
        self.turn = turn_after(job, self.counts.page);
    }

    /// What is decided is done, where nothing waits.
    pub fn make(&mut self, decided: Move, now: u64)
        requires fit { IsFit self.old }
        requires fits { FitsMove self.old.pages self.old.counts.page self.old.state decided }
        requires free { self.old.pending ≡ Pending.Nothing }
        requires idle { self.old.state ≡ State.Idle → decided ≡ Move.Stay }
        ensures fit { IsFit self.new }
        ensures pending { self.new.pending ≡ pending_of (command_kept self.old) decided }
        ensures stays { decided ≡ Move.Stay → self.new ≡ self.old }
        ensures made { (writes : Writing) (job : JobValue) (core : CallerCore)
            (writer left : WriterValue) → Follows writes job core writer self.old
            → Follows writes job (moved core (move_shown now decided)) left self.new }
    {
        match decided {
            Move::Stay => {}
            Move::Train(dis, dcs, counts) => {
                self.reply(
                    State::AwaitCfr(dis, dcs),
                    counts,
                    Pending::Preamble(Message::Dcs(dcs)),
                );
            }
            Move::Send(dis, dcs, counts) => {
                self.reply(State::AwaitMcf(dis, dcs), counts, Pending::Image(dcs));
            }
            Move::AskAgain(counts) => {
                let pending = Pending::Preamble(Message::Plain(self.command()));
                self.reply(self.state, counts, pending);
            }
            Move::Turn(format, counts) => {
                self.reply(State::AwaitDis, counts, Pending::Nothing);
                self.format = format;
                self.turn = None;
                self.t1.set(now, T1_MS);
            }
            Move::Close(outcome, counts) => {
                self.reply(
                    State::Closing(outcome),
                    counts,
                    Pending::Preamble(Message::Plain(Plain::Dcn)),
                );
            }
            Move::HangUp => {
                self.reply(State::Idle, self.counts, Pending::Nothing);
                self.outcome = Some(Outcome::HungUp);
            }
        }
    }

    /// A reply waits; T1 and T4 are clear.
    fn reply(&mut self, state: State, counts: Counts, pending: Pending)
        ensures { self.new ≡ record self.old
            { state = state; counts = counts; pending = pending; t1 = None; t4 = None } }
    {
        self.state = state;
        self.counts = counts;
        self.pending = pending;
        self.t1.clear();
        self.t4.clear();
    }

    /// Hears pieces, in the order of time.
    pub fn hear_all<W: Watcher>(&mut self, pieces: &[Piece<'_>], now: u64, watcher: &mut W)
        requires { IsFit self.old }
        ensures fit { IsFit self.new }
        ensures idle { self.old.state ≡ State.Idle → self.new ≡ self.old }
        ensures job { (job : JobValue) → IsJobOfCall self.old job → IsJobOfCall self.new job }
        ensures text { (writer : WriterValue)
            → HasText self.old.pending writer → HasText self.new.pending writer }
        ensures heard { EachCore self.old (λ writes job core writer.
            Follows writes job (came_all core (pieces_shown pieces.now) now) writer self.new) }
        ensures told { EachCore self.old (λ writes job core writer. Watches W.tells watcher.old
            watcher.new (tellings core (pieces_shown pieces.now) now)) }
    {
        for piece in pieces {
            self.hear(piece, now, watcher);
        }
    }

    /// Hears a piece: frames alone matter, and none while packets wait.
    fn hear<W: Watcher>(&mut self, piece: &Piece<'_>, now: u64, watcher: &mut W)
        requires { IsFit self.old }
        ensures fit { IsFit self.new }
        ensures text { (writer : WriterValue)
            → HasText self.old.pending writer → HasText self.new.pending writer }
        ensures idle { self.old.state ≡ State.Idle → self.new ≡ self.old }
        ensures heard { EachCore self.old (λ writes job core writer.
            Follows writes job (came core (piece_of piece.now) now) writer self.new) }
        ensures told { EachCore self.old
            (λ writes job core writer. Watches W.tells watcher.old watcher.new
            (telling_with (piece_of piece.now) (telling core (piece_of piece.now) now) [])) }
    {
        match piece {
            Piece::Frame(octets) => self.hear_frame(piece, octets.as_slice(), now, watcher),
            Piece::Start(_) => self.pass_over(piece, watcher),
            Piece::Octets(_) => self.pass_over(piece, watcher),
            Piece::End { .. } => self.pass_over(piece, watcher),
            Piece::Gap => {}
        }
    }

    /// A piece is passed over, and that is told.
    fn pass_over<W: Watcher>(&self, piece: &Piece<'_>, watcher: &mut W)
        requires { IsFit self.now }
        ensures { EachCore self.now (λ writes job core writer.
            W.tells (record {
              state = core.state;
              waits = waits core.waiting;
              piece = piece_of piece.now;
              verdict = Decision.PassOver;
            }) watcher.old watcher.new) }
    {
        watcher.tell(self.state, self.is_waiting(), piece, Decision::PassOver);
    }

    /// Hears a frame: none matters while packets wait.
    fn hear_frame<W: Watcher>(
        &mut self,
        piece: &Piece<'_>,
        octets: &[u8],
        now: u64,
        watcher: &mut W,
    )
        requires fit { IsFit self.old }
        requires frame { piece_of piece.now ≡ FrameShown octets.now }
        ensures fit { IsFit self.new }
        ensures text { (writer : WriterValue)
            → HasText self.old.pending writer → HasText self.new.pending writer }
        ensures idle { self.old.state ≡ State.Idle → self.new ≡ self.old }
        ensures heard { EachCore self.old (λ writes job core writer.
            Follows writes job (came core (FrameShown octets.now) now) writer self.new) }
        ensures told { EachCore self.old (λ writes job core writer. Watches W.tells watcher.old
            watcher.new (telling core (FrameShown octets.now) now ∷ [])) }
    {
        if self.is_waiting() {
            watcher.tell(self.state, true, piece, Decision::PassOver);
            return;
        }
        let decided = self.decide(octets);
        watcher.tell(self.state, false, piece, decided.decision());
        self.make(decided, now);
    }

    /// What is decided at the octets of a frame, where no packet waits.
    fn decide(&self, octets: &[u8]) -> Move
        requires { IsFit self.now }
        ensures decided { (now : ℕ)
            → move_shown now result ≡ on_frame now self.now.format self.now.turn
            self.now.pages self.now.state (counts_shown self.now.counts) (frame_of octets.now) }
        ensures fits { FitsMove self.now.pages self.now.counts.page self.now.state result }
        ensures idle { self.now.state ≡ State.Idle → result ≡ Move.Stay }
    {
        match Frame::read(octets) {
            Some(frame) => self.on_frame(&frame),
            None => Move::Stay,
        }
    }

    /// Whether a packet is given now: one waits, and the pace lets it through.
    pub fn gives(&self, now: u64) -> bool
        requires { IsFit self.now }
        ensures gives { EachCore self.now (λ writes job core writer. result ≡ gives_now core now) }
        ensures waits { IsTrue result → self.now.pending ≢ Pending.Nothing }
    {
        self.is_waiting() && self.pace.allows(now)
    }

    /// The first moment at which a tick may do something: where packets wait, that from which on the pace lets one through;
    /// else that of the timer that acts.
    pub fn next_due(&self) -> Option<u64>
        requires { IsFit self.now }
        ensures { EachCore self.now (λ writes job core writer. result ≡ due_at core) }
    {
        if self.is_waiting() {
            self.pace.allowed_from()
        } else {
            self.timer()
        }
    }

    /// The moment of the timer that acts: T1 in Await DIS, T4 in Await CFR and Await MCF.
    fn timer(&self) -> Option<u64>
        ensures { result ≡ timer_of self.now.state self.now.t1 self.now.t4 }
    {
        match self.state {
            State::Idle | State::Closing(_) => None,
            State::AwaitDis => self.t1.moment(),
            State::AwaitCfr(..) | State::AwaitMcf(..) => self.t4.moment(),
        }
    }

    /// The timer that acts in a tick at this moment, where one does.
    pub fn acting(&self, now: u64) -> Option<ActingTimer>
        requires { IsFit self.now }
        ensures { EachCore self.now (λ writes job core writer. result ≡ acting core now) }
    {
        if self.is_waiting() {
            return None;
        }
        self.acting_timer(now)
    }

    /// The same where no packet waits.
    fn acting_timer(&self, now: u64) -> Option<ActingTimer>
        ensures { result
            ≡ acting_in self.now.state (is_due self.now.t1 now) (is_due self.now.t4 now) }
    {
        match self.state {
            State::AwaitDis if self.t1.due(now) => Some(ActingTimer::T1),
            State::AwaitCfr(..) if self.t4.due(now) => Some(ActingTimer::T4),
            State::AwaitMcf(..) if self.t4.due(now) => Some(ActingTimer::T4),
            _ => None,
        }
    }

    /// The timers act where no packet waits: T1 in Await DIS, T4 in Await CFR and Await MCF.
    pub fn act(&mut self, now: u64)
        requires { IsFit self.old }
        ensures fit { IsFit self.new }
        ensures waiting { self.old.pending ≢ Pending.Nothing → self.new ≡ self.old }
        ensures idle { self.old.state ≡ State.Idle → self.new ≡ self.old }
        ensures job { (job : JobValue) → IsJobOfCall self.old job → IsJobOfCall self.new job }
        ensures text { (writer : WriterValue)
            → HasText self.old.pending writer → HasText self.new.pending writer }
        ensures acted { EachCore self.old
            (λ writes job core writer. Follows writes job (timed core now) writer self.new) }
    {
        if self.is_waiting() {
            return;
        }
        let decided = self.on_timers(self.t1.due(now), self.t4.due(now));
        self.make(decided, now);
    }

    /// The next packet is given, and what waits after it is due. Where that is a packet of a text it may be the last one.
    pub fn give(&mut self, is_last: bool, now: u64)
        requires { IsFit self.old }
        ensures fit { IsFit self.new }
        ensures given { self.new ≡ given_by self.old is_last now }
    {
        self.pace.given(self.pending.is_preamble(), now);
        self.pending = self.pending.after(is_last, self.command());
        if self.pending == Pending::Nothing {
            self.finish_reply(now);
        }
    }

    /// The last packet that waits is given: T4 is set in Await CFR and Await MCF, and a call that closes has ended.
    fn finish_reply(&mut self, now: u64)
        ensures { self.new ≡ record self.old {
          state = state_when_given self.old.state;
          t4 = t4_when_given self.old.state self.old.t4 now;
          outcome = outcome_when_given self.old.state self.old.outcome;
        } }
    {
        match self.state {
            State::Idle | State::AwaitDis => {}
            State::AwaitCfr(..) | State::AwaitMcf(..) => self.t4.set(now, T4_MS),
            State::Closing(outcome) => {
                self.state = State::Idle;
                self.outcome = Some(outcome);
            }
        }
    }
}

/// The format of the page after one of a job, counted from 0, where there is one and its format is another.
pub(crate) fn turn_after<S: RowStore>(job: &Job<S>, page: u32) -> Option<Format>
    requires { page < length job.now.pages }
    ensures { result ≡ turn_after (formats_of job.now) page }
{
    let pages = job.pages().as_slice();
    let format = pages[page as usize].format();
    match pages.get(page as usize + 1) {
        None => None,
        Some(next) if next.format() == format => None,
        Some(next) => Some(next.format()),
    }
}
