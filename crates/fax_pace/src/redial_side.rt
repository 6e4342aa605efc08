//! Redial lines, as what gives the orders sees them.
use fax_clients::Asker;
use fax_control::Word;
use fax_desk::{LineState, LineView, Listener, Reply, View};
use fax_queue::Queue;
use fax_redial::{BeginFault, RetryEnd, RetryJob};
use fax_spool::{CallName, WaitingPage};
use fax_undelivered::UndeliveredCall;
use std::alloc::{AllocError, Global};

/// Redial lines, counted from 0, and what is known of their tries.
pub trait RedialSide: View {
    /// How many there are.
    fn len(&self) -> usize;

    /// Whether none has a try, and no end is to be noted.
    fn are_idle(&self) -> bool;

    /// Whether none has a try. An end that could not be noted so far is none.
    fn are_calm(&self) -> bool;

    /// The first that has no try.
    fn free(&self) -> Option<usize>;

    /// Whether a try of a call is on, or its end is to be noted.
    fn has(&self, line: &[u8], life: u32, call: u32) -> bool;

    /// The calls of which that is so.
    fn names(&self, alloc: Global) -> Result<Vec<CallName>, AllocError>;

    /// The jobs of these calls, which lack a page, are tried again by a word alone.
    fn leave(&mut self, torn: &[CallName]) -> Result<(), AllocError>;

    /// The first of these calls, from the one of this number on, whose time has come by this second since 1970, that no queue owes, and that
    /// lacks no page.
    fn due(
        &self,
        day: u64,
        calls: &[UndeliveredCall],
        queues: &[Queue],
        from: usize,
    ) -> Option<usize>;

    /// A try of a call begins on redial line i, of which these pages wait, where none of these queues owes its job. An `Err`: none begins.
    fn begin(
        &mut self,
        i: usize,
        call: &UndeliveredCall,
        pages: &[WaitingPage],
        queues: &[Queue],
    ) -> Result<(), BeginFault>;

    /// How many have a try.
    fn tries(&self) -> usize;

    /// The redial line that has the try k of those that are on.
    fn line_of_try(&self, k: usize) -> Option<usize>;

    /// The name of redial line i.
    fn name(&self, i: usize) -> Option<&str>;

    /// The job of the try on redial line i. `None`: there is no try.
    fn job(&self, i: usize) -> Option<&RetryJob>;

    /// What is on on redial line i, whose question is open from now on, since a client is told that.
    fn ask_state(&mut self, i: usize) -> Option<LineState>;

    /// The try on redial line i has the turn of its next slot, at this moment; whoever is to place its call hears it now, or nobody does.
    fn turn<L: Listener>(&mut self, i: usize, now: u64, is_heard: bool, listener: &mut L);

    /// A word comes that names one of them, this one: it is answered so. `None`: it names none of them.
    fn step<L: Listener>(
        &mut self,
        asker: Asker,
        word: Word<'_>,
        now: u64,
        listener: &mut L,
    ) -> Option<(usize, Reply)>;

    /// Takes the end of a try that is to be noted, where there is one.
    fn take_end(&mut self) -> Option<RetryEnd>;

    /// It could not be noted, and is to be noted still.
    fn keep_end(&mut self, end: RetryEnd);

    /// Whether the end of a try is to be noted.
    fn has_end(&self) -> bool;

    /// Whether it is looked now what is due.
    fn is_look_due(&self, now: u64) -> bool;

    /// It was looked what is due; it is again later.
    fn note_look(&mut self, now: u64);
}

/// Redial lines, the first of which is counted so.
#[derive(Drop)]
pub(crate) struct SeenRedials<'s, R: RedialSide> {
    pub first: usize,
    pub redials: &'s R,
}

impl<'s, R: RedialSide> View for SeenRedials<'s, R> {
    ghost use Rattle.std.specs.Prelude.{◌-◌, nat_lt, false, None, if◌then◌else◌};

    ghost line = { λ seen i. if nat_lt i seen.first
        then None else R.line seen.redials.now (i - seen.first) };

    ghost failed = { λ seen. false };

    fn line(&self, i: usize) -> Option<LineView> {
        let i = i.checked_sub(self.first)?;
        self.redials.line(i)
    }

    fn has_failed(&self) -> bool {
        false
    }
}
