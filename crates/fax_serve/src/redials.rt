//! Redial lines: over them jobs that could not be delivered are tried again, each try over the socket of its redial line.
ghost use Rattle.std.specs.Prelude.{◌≡◌};
ghost use Rattle.fax_gateway.specs.Setups.{AreAllowed};

use fax_bits::NoMemory;
use fax_clients::Asker;
use fax_config::{Config, RedialConfig};
use fax_control::Word;
use fax_desk::{LineState, LineView, Listener, Reply, Tag, View};
use fax_gateway::{Leg, MOST_REDUNDANCY, Settings};
use fax_legs::{LegSocket, LentSocket, UdpWire};
use fax_opening::ServeFault;
use fax_pace::RedialSide;
use fax_queue::Queue;
use fax_redial::{BeginFault, Redials, RestoredTry, RetryEnd, RetryJob, first_due, restore_try};
use fax_spool::{CallName, WaitingPage};
use fax_undelivered::UndeliveredCall;
use fax_wires::holding::HoldingWire;
use fax_wires::repeat::{RepeatPolicy, RepeatingWire, TimedWire};
use std::alloc::{AllocError, Global};
use std::io;
use std::net::{Net, UdpSocket};

/// It is looked so often what is due, in milliseconds.
const BETWEEN_LOOKS_MS: u64 = 1_000;

/// How many packets before its own a datagram has, where no word says otherwise.
const REDUNDANCY: u8 = 3;

/// For so many seconds the question of a redial line is open.
const DIAL_SECONDS: u32 = 180;

/// The wire of a try: its calling leg has no socket.
pub(crate) type RedialWire<'a> = RepeatingWire<UdpWire<LentSocket<'a>>>;

/// A wire over the socket of a redial line, for one try.
pub(crate) trait TryWire<'a>: TimedWire + Drop + Sized {
    /// The wire of a try on this redial line. An `Err`: the system does not take its peer.
    fn over(config: &RedialConfig, socket: &'a UdpSocket) -> io::Result<Self>;
}

impl<'a> TryWire<'a> for RepeatingWire<UdpWire<LentSocket<'a>>> {
    fn over(config: &RedialConfig, socket: &'a UdpSocket) -> io::Result<Self> {
        let calling = LegSocket::new(LentSocket::new(None), REDUNDANCY)?;
        let mut called = LegSocket::new(LentSocket::new(Some(socket)), REDUNDANCY)?;
        if let Some(peer) = config.called.peer {
            called.fix_peer(peer)?;
        }
        Ok(RepeatingWire::new(UdpWire::new(calling, called), RepeatPolicy::Full))
    }
}

/// Redial lines, and what is known of their tries.
pub(crate) struct RedialLines<'a, W: TimedWire + Drop> {
    alloc: Global,
    redials: Redials<W>,
    configs: &'a [RedialConfig],
    sockets: &'a [UdpSocket],
    /// After how many seconds a job is tried again, for each time in turn.
    after_seconds: &'a [u32],
    /// The redial lines that have a try.
    on: Vec<usize>,
    /// Whether one of them may be over.
    may_end: bool,
    /// The calls that lack a page: their jobs are tried again by a word alone.
    torn: Vec<CallName>,
    /// How a try ended that is to be noted still.
    ended: Option<RetryEnd>,
    /// From which moment on it is looked again what is due.
    look_from: u64,
}

impl<W: TimedWire + Drop> Drop for RedialLines<'_, W> {
    fn drop(self) {
        let RedialLines {
            alloc: _alloc,
            redials: _redials,
            configs: _configs,
            sockets: _sockets,
            after_seconds: _after_seconds,
            on: _on,
            may_end: _may_end,
            torn: _torn,
            ended: _ended,
            look_from: _look_from,
        } = self;
    }
}

/// Opens the sockets of redial lines. An `Err` names the redial line whose socket could not be opened, or whose peer the system does not take.
pub(crate) fn open_redials<N: Net>(
    net: &N,
    alloc: Global,
    configs: &[RedialConfig],
) -> Result<Vec<UdpSocket>, ServeFault> {
    let mut sockets = Vec::with_capacity(alloc, configs.len())?;
    for config in configs {
        match open_redial(net, config) {
            Ok(socket) => sockets.push(socket)?,
            Err(error) => return Err(redial_fault(alloc, config, error)),
        }
    }
    Ok(sockets)
}

/// Opens the socket of a redial line, and connects it where its peer is known.
fn open_redial<N: Net>(net: &N, config: &RedialConfig) -> io::Result<UdpSocket> {
    let socket = net.bind_udp(config.called.local)?;
    if let Some(peer) = config.called.peer {
        socket.connect(peer)?;
    }
    Ok(socket)
}

/// The fault of a redial line.
fn redial_fault(alloc: Global, config: &RedialConfig, error: io::Error) -> ServeFault {
    match String::from_str(alloc, config.name.as_str()) {
        Ok(name) => ServeFault::Leg(name, Leg::Called, error),
        Err(_) => ServeFault::NoMemory,
    }
}

/// The names of redial lines.
fn names_of(alloc: Global, configs: &[RedialConfig]) -> Result<Vec<String>, NoMemory> {
    let mut names = Vec::with_capacity(alloc, configs.len())?;
    for config in configs {
        names.push(String::from_str(alloc, config.name.as_str())?)?;
    }
    Ok(names)
}

impl<W: TimedWire + Drop> RedialLines<'_, W> {
    /// Those that have a try no more are forgotten.
    fn forget_idle(&mut self) {
        let redials = &self.redials;
        self.on.retain(|i| redials.has_try(*i));
    }
}

impl<'a, W: TryWire<'a>> RedialLines<'a, W> {
    /// The redial lines of a configuration over these sockets, without a try.
    pub(crate) fn new(
        alloc: Global,
        config: &'a Config,
        sockets: &'a [UdpSocket],
    ) -> Result<Self, NoMemory> {
        let configs = config.redial.as_slice();
        let names = names_of(alloc, configs)?;
        Ok(RedialLines {
            alloc,
            redials: Redials::new(alloc, names, DIAL_SECONDS)?,
            configs,
            sockets,
            after_seconds: config.retry.after_seconds.as_slice(),
            on: Vec::with_capacity(alloc, configs.len())?,
            may_end: false,
            torn: Vec::new(alloc),
            ended: None,
            look_from: 0,
        })
    }

    /// Takes a try that is over away, so that its end is to be noted, where none is.
    fn see_end(&mut self) {
        if !self.may_end || self.ended.is_some() {
            return;
        }
        self.ended = self.redials.take_end();
        match self.ended {
            Some(_) => self.forget_idle(),
            None => self.may_end = false,
        }
    }

    /// A try of a call, of which these pages wait, for redial line i.
    fn restored(
        &self,
        i: usize,
        call: &UndeliveredCall,
        pages: &[WaitingPage],
    ) -> Result<RestoredTry<W>, BeginFault> {
        let (Some(config), Some(socket)) = (self.configs.get(i), self.sockets.get(i)) else {
            return Err(BeginFault::NoLine);
        };
        let Ok(wire) = W::over(config, socket) else {
            return Err(BeginFault::NoLine);
        };
        let wire = HoldingWire::new(self.alloc, wire);
        let tag = tag_of(call.tag.as_slice());
        restore_try(self.alloc, settings_of(config), call, tag, pages, wire)
    }
}

impl<'a, W: TryWire<'a>> View for RedialLines<'a, W> {
    ghost use Rattle.std.specs.Prelude.{false};
    ghost use Rattle.fax_redial.specs.Seeing.{seen_at};

    ghost line = { λ lines i. seen_at lines.redials.tries i };

    ghost failed = { λ lines. false };

    fn line(&self, i: usize) -> Option<LineView> {
        self.redials.view(i)
    }

    fn has_failed(&self) -> bool {
        false
    }
}

impl<'a, W: TryWire<'a>> RedialSide for RedialLines<'a, W> {
    fn len(&self) -> usize {
        self.configs.len()
    }

    fn are_idle(&self) -> bool {
        self.on.is_empty() && self.ended.is_none()
    }

    fn are_calm(&self) -> bool {
        self.on.is_empty()
    }

    fn free(&self) -> Option<usize> {
        self.redials.free()
    }

    fn has(&self, line: &[u8], life: u32, call: u32) -> bool {
        let is_ended = match &self.ended {
            Some(end) => is_named(&end.name, line, life, call),
            None => false,
        };
        is_ended || self.redials.is_under_way(line, life, call)
    }

    fn names(&self, alloc: Global) -> Result<Vec<CallName>, AllocError> {
        let mut names = Vec::new(alloc);
        for i in &self.on {
            if let Some(job) = self.redials.job(*i) {
                names.push(copy_of(alloc, &job.name)?)?;
            }
        }
        if let Some(end) = &self.ended {
            names.push(copy_of(alloc, &end.name)?)?;
        }
        Ok(names)
    }

    fn leave(&mut self, torn: &[CallName]) -> Result<(), AllocError> {
        for name in torn {
            self.torn.push(copy_of(self.alloc, name)?)?;
        }
        Ok(())
    }

    fn due(
        &self,
        day: u64,
        calls: &[UndeliveredCall],
        queues: &[Queue],
        from: usize,
    ) -> Option<usize> {
        let rest = calls.get(from..)?;
        let left = self.torn.as_slice();
        let k = first_due(rest, left, queues, &self.redials, day, self.after_seconds)?;
        Some(from.saturating_add(k))
    }

    fn begin(
        &mut self,
        i: usize,
        call: &UndeliveredCall,
        pages: &[WaitingPage],
        queues: &[Queue],
    ) -> Result<(), BeginFault> {
        let restored = self.restored(i, call, pages)?;
        self.redials.begin(i, restored, queues)?;
        let _ = self.on.push(i);
        Ok(())
    }

    fn tries(&self) -> usize {
        self.on.len()
    }

    fn line_of_try(&self, k: usize) -> Option<usize> {
        self.on.get(k).copied()
    }

    fn name(&self, i: usize) -> Option<&str> {
        self.redials.name(i)
    }

    fn job(&self, i: usize) -> Option<&RetryJob> {
        self.redials.job(i)
    }

    fn ask_state(&mut self, i: usize) -> Option<LineState> {
        self.redials.ask_at(i);
        self.redials.state(i)
    }

    fn turn<L: Listener>(&mut self, i: usize, now: u64, is_heard: bool, listener: &mut L) {
        self.redials.go_on(now, is_heard);
        self.redials.turn(i, now, listener);
        self.redials.look(i, now, listener);
        self.may_end = true;
    }

    fn step<L: Listener>(
        &mut self,
        asker: Asker,
        word: Word<'_>,
        now: u64,
        listener: &mut L,
    ) -> Option<(usize, Reply)> {
        let i = self.redials.named(word)?;
        Some((i, self.redials.step(asker, word, now, listener)))
    }

    fn take_end(&mut self) -> Option<RetryEnd> {
        self.see_end();
        self.ended.take()
    }

    fn keep_end(&mut self, end: RetryEnd) {
        self.ended = Some(end);
    }

    fn has_end(&self) -> bool {
        self.ended.is_some()
    }

    fn is_look_due(&self, now: u64) -> bool {
        self.look_from <= now
    }

    fn note_look(&mut self, now: u64) {
        self.look_from = now.saturating_add(BETWEEN_LOOKS_MS);
    }
}

/// Whether this is the name of a call.
fn is_named(name: &CallName, line: &[u8], life: u32, call: u32) -> bool {
    name.life == life && name.call == call && name.line.as_slice() == line
}

/// The same name once more.
fn copy_of(alloc: Global, name: &CallName) -> Result<CallName, AllocError> {
    Ok(CallName {
        life: name.life,
        call: name.call,
        line: name.line.as_slice().to_vec(alloc)?,
    })
}

/// A tag by value, where these octets are one.
fn tag_of(octets: &[u8]) -> Option<Tag> {
    match std::str::from_utf8(octets) {
        Ok(text) if !text.is_empty() => Tag::of(text),
        Ok(_) | Err(_) => None,
    }
}

/// The settings of a try on this redial line, which asks for its call where the configuration gives it no peer.
fn settings_of(config: &RedialConfig) -> Settings
    ensures { AreAllowed result }
{
    Settings {
        redundancy: MOST_REDUNDANCY,
        asks: config.called.peer.is_none(),
        ..Settings::default()
    }
}
