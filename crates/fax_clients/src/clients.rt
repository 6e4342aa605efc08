//! All clients.
ghost use Rattle.std.specs.Prelude.{◌≡◌, ℕ, ◌+◌, ◌≤◌, ◌⊎◌, ◌||◌, false, [], ◌∷◌, ◌++◌, length, map, nat_eq, is_some, IfNone, IfOk, IfSome, OnErr, OnOk};
ghost use Rattle.std.specs.List.{AllZip};
ghost use Rattle.fax_clients.specs.Clients.{AreLeft, AreServed, AreWaitedFor, Hears, HearsNoLine, IsAsked, IsCounted, IsServed, IsTold, IsToldOfLine, JournalGoesOn, JournalTold, all_said, answered, changed_at, one_says_more, one_wants_events, one_watches, silent, socket_alone, standard_alone, wanting, watching, with_client};

use crate::client::Client;
use crate::journal::Journal;
use crate::ready::Ready;
use crate::stream::Stream;
use fax_bits::NoMemory;
use fax_control::HeardLine;
use std::alloc::Global;
use std::io::{Stdin, Stdout};
use std::marker::Model;
use std::os::fd::AsRawFd;
use std::os::unix::net::UnixListener;

/// The most clients at one time.
pub const MOST_CLIENTS: usize = 64;

/// At the end clients are waited for so often, and so many milliseconds each time.
const MOST_FINISHING: u8 = 50;

const FINISHING_MS: i32 = 10;

/// Which client said something. It means the same one until clients are waited for again.
#[derive(Clone, Copy, PartialEq, Eq)]
pub struct Asker(usize);

/// Contracts see its place among the clients.
impl Model for Asker {
    ghost use Rattle.std.specs.Prelude.{ℕ};

    ghost Value = { ℕ };

    ghost view = { λ a. a.0 };

    ghost inverse = { λ n. record { 0 = n } };
}

impl Asker {
    /// One that is no client, and says words as clients do: what it is answered is handed to nobody here.
    pub fn apart() -> Self
        ensures { result ≡ MOST_CLIENTS }
    {
        Asker(MOST_CLIENTS)
    }

    /// Whether it is that one.
    pub fn is_apart(self) -> bool
        ensures { result ≡ nat_eq self MOST_CLIENTS }
    {
        self.0 == MOST_CLIENTS
    }
}

/// The clients of a control socket, at most 64 at one time; or standard input and output alone. Where one more comes, the one goes that
/// has been silent longest, of those that want events only where there is no other.
pub struct Clients {
    alloc: Global,
    listener: Option<UnixListener>,
    /// What keeps a record of all events, where something does.
    journal: Option<Journal>,
    clients: Vec<Client>,
    ready: Ready,
    /// How many lines were heard of all clients.
    lines: u64,
    /// How many lines of events were lost by clients that are gone.
    lost: u64,
}

impl Drop for Clients {
    fn drop(self) {
        let Clients {
            alloc: _alloc,
            listener: _listener,
            journal: _journal,
            clients: _clients,
            ready: _ready,
            lines: _lines,
            lost: _lost,
        } = self;
    }
}

/// Contracts see whether there is a control socket, the record of events, each client, and the count of lost lines.
impl Model for Clients {
    ghost use Rattle.std.specs.Prelude.{◌≤◌, is_some, length};
    ghost use Rattle.fax_clients.specs.Clients.{ClientsValue};

    ghost Value = { ClientsValue };

    ghost view = { λ c. record {
      has_socket = is_some c.listener;
      journal = c.journal;
      clients = c.clients.items;
      lost = c.lost;
    } };

    ghost invariant = { λ c. length c.clients.items ≤ 64 };
}

impl Clients {
    /// Standard input, which says words, and standard output, which has the answers and all events.
    pub fn standard(alloc: Global, input: Stdin, output: Stdout) -> Result<Self, NoMemory>
        ensures { IfOk result (λ clients. clients ≡ standard_alone) }
    {
        let mut client = Client::new(alloc, Stream::Standard(input, output), 0);
        client.want_events()?;
        let mut clients = Vec::new(alloc);
        clients.push(client)?;
        Ok(Clients {
            alloc,
            listener: None,
            journal: None,
            clients,
            ready: Ready::new(alloc)?,
            lines: 0,
            lost: 0,
        })
    }

    /// The clients of a control socket that does not wait; none yet. Where there is a standard output, it has all events too; nobody
    /// hears them there.
    pub fn of_socket(
        alloc: Global,
        listener: UnixListener,
        output: Option<Stdout>,
    ) -> Result<Self, NoMemory>
        ensures { IfOk result (λ clients. clients ≡ socket_alone (is_some output)) }
    {
        let journal = match output {
            Some(output) => Some(Journal::new(alloc, output)?),
            None => None,
        };
        Ok(Clients {
            alloc,
            listener: Some(listener),
            journal,
            clients: Vec::new(alloc),
            ready: Ready::new(alloc)?,
            lines: 0,
            lost: 0,
        })
    }

    /// Whether no words can come any more: standard input has ended.
    pub fn have_ended(&self) -> bool
        ensures ended { result ≡ all_said self.now }
        ensures few { length self.now.clients ≤ MOST_CLIENTS }
    {
        self.listener.is_none() && !self.one_says_more()
    }

    /// Whether more may come of a client.
    fn one_says_more(&self) -> bool
        ensures { result ≡ one_says_more self.now.clients }
    {
        self.clients.iter().any(|client| client.says_more())
    }

    /// Waits until a client has said something or takes more, at most so many milliseconds; reads and writes what can be.
    pub fn wait(&mut self, most_ms: i32)
        ensures socket { self.new.has_socket ≡ self.old.has_socket }
        ensures lost { self.old.lost ≤ self.new.lost }
        ensures clients { AreWaitedFor self.old.clients self.new.clients }
        ensures journal { JournalGoesOn self.old.journal self.new.journal }
        // Clients come in by the socket alone.
        ensures no_more { self.old.has_socket ≡ false
            → length self.new.clients ≤ length self.old.clients }
        ensures few { length self.new.clients ≤ MOST_CLIENTS }
    {
        self.wait_for_clients(most_ms);
        self.write_journal();
    }

    /// The same, but that nothing is recorded.
    fn wait_for_clients(&mut self, most_ms: i32)
        ensures socket { self.new.has_socket ≡ self.old.has_socket }
        ensures lost { self.old.lost ≤ self.new.lost }
        ensures clients { AreWaitedFor self.old.clients self.new.clients }
        ensures journal { self.new.journal ≡ self.old.journal }
        ensures no_more { self.old.has_socket ≡ false
            → length self.new.clients ≤ length self.old.clients }
        ensures few { length self.new.clients ≤ MOST_CLIENTS }
    {
        let door = self.door();
        self.ready.clear();
        self.ready.add_input(door);
        wait_for(&mut self.ready, self.clients.as_mut_slice(), most_ms);
        self.forget();
        if self.ready.is_ready(0) {
            self.let_in();
        }
    }

    /// The record of events takes what it can.
    fn write_journal(&mut self)
        ensures socket { self.new.has_socket ≡ self.old.has_socket }
        ensures lost { self.old.lost ≤ self.new.lost }
        ensures clients { self.new.clients ≡ self.old.clients }
        ensures few { length self.new.clients ≤ MOST_CLIENTS }
        ensures journal { JournalGoesOn self.old.journal self.new.journal }
    {
        if let Some(journal) = &mut self.journal {
            journal.go_on();
            self.lost = self.lost.saturating_add(journal.take_lost());
        }
    }

    /// The descriptor of the control socket, while more clients may come.
    fn door(&self) -> Option<i32> {
        match &self.listener {
            Some(listener) if has_room(self.clients.as_slice()) => Some(listener.as_raw_fd()),
            _ => None,
        }
    }

    /// Clients that are gone are forgotten.
    fn forget(&mut self)
        ensures socket { self.new.has_socket ≡ self.old.has_socket }
        ensures lost { self.old.lost ≤ self.new.lost }
        ensures clients { AreLeft self.old.clients self.new.clients }
        ensures journal { self.new.journal ≡ self.old.journal }
        ensures no_more { length self.new.clients ≤ length self.old.clients }
    {
        let lost = take_lost(self.clients.as_mut_slice());
        self.lost = self.lost.saturating_add(lost);
        self.clients.retain(|client| client.stays());
    }

    /// The next client comes in. Without memory it is let go.
    fn let_in(&mut self)
        ensures socket { self.new.has_socket ≡ self.old.has_socket }
        ensures lost { self.new.lost ≡ self.old.lost }
        ensures journal { self.new.journal ≡ self.old.journal }
        ensures one { (self.new.clients ≡ self.old.clients)
            ⊎ (self.new.clients ≡ self.old.clients ++ silent ∷ []) }
        ensures none { self.old.has_socket ≡ false → self.new.clients ≡ self.old.clients }
        ensures few { length self.new.clients ≤ MOST_CLIENTS }
    {
        let Some(listener) = &self.listener else {
            return;
        };
        if self.clients.len() >= MOST_CLIENTS {
            return;
        }
        let Ok((stream, _)) = listener.accept() else {
            return;
        };
        if stream.set_nonblocking(true).is_ok() {
            let client = Client::new(self.alloc, Stream::Socket(stream), self.lines);
            let _ = self.clients.push(client);
        }
    }

    /// The next line that a client said whose last one was answered, and who it was.
    pub fn hear(&mut self) -> Option<(Asker, HeardLine)>
        ensures none { IfNone result (AllZip HearsNoLine self.old.clients self.new.clients) }
        ensures heard { IfSome result
            (λ said. Hears said.0 said.1 self.old.clients self.new.clients) }
        ensures told { map (λ client. client.told) self.new.clients ≡ map
            (λ client. client.told) self.old.clients }
        ensures journal { self.new.journal ≡ self.old.journal }
        ensures socket { self.new.has_socket ≡ self.old.has_socket }
        ensures lost { self.new.lost ≡ self.old.lost }
    {
        let heard = hear(self.clients.as_mut_slice(), self.lines);
        self.lines = self.lines.saturating_add(u64::from(heard.is_some()));
        heard
    }

    /// A client is answered.
    pub fn answer(&mut self, asker: Asker, text: Vec<u8>)
        ensures { self.new ≡ with_client (answered text.items) asker self.old }
    {
        answer(self.clients.as_mut_slice(), asker.0, text);
    }

    /// From now on a client is told events.
    pub fn want_events(&mut self, asker: Asker) -> Result<(), NoMemory>
        ensures ok { OnOk result (self.new ≡ with_client wanting asker self.old) }
        ensures err { OnErr result (self.new ≡ self.old) }
    {
        want_events(self.clients.as_mut_slice(), asker.0)
    }

    /// Whether anyone wants events.
    pub fn tell_events(&self) -> bool
        ensures { result ≡ one_wants_events self.now.clients }
    {
        self.clients.iter().any(|client| client.tells_events())
    }

    /// Whether an event is told to anyone, or recorded.
    pub fn takes_events(&self) -> bool
        ensures { result ≡ is_some self.now.journal || one_wants_events self.now.clients }
    {
        self.journal.is_some() || self.tell_events()
    }

    /// Each client that wants events is told this line, and it is recorded.
    pub fn tell(&mut self, line: &[u8])
        ensures told { AllZip (IsTold line.now) self.old.clients self.new.clients }
        ensures journal { JournalTold line.now self.old.journal self.new.journal }
        ensures socket { self.new.has_socket ≡ self.old.has_socket }
        ensures lost { self.new.lost ≡ self.old.lost }
    {
        tell(self.clients.as_mut_slice(), line);
        if let Some(journal) = &mut self.journal {
            journal.tell(line);
        }
    }

    /// From now on a client watches the line of this number, and no other.
    pub fn watch(&mut self, asker: Asker, line: usize)
        ensures { self.new ≡ with_client (watching line) asker self.old }
    {
        watch(self.clients.as_mut_slice(), asker.0, line);
    }

    /// Whether a client watches the line of this number.
    pub fn is_watched(&self, line: usize) -> bool
        ensures { result ≡ one_watches line self.now.clients }
    {
        self.clients.iter().any(|client| client.watches(line))
    }

    /// Each client that watches the line of this number, and wants events, is told this line of an event; it is not recorded.
    pub fn tell_watchers(&mut self, line: usize, event: &[u8])
        ensures told { AllZip (IsToldOfLine line event.now) self.old.clients self.new.clients }
        ensures journal { self.new.journal ≡ self.old.journal }
        ensures socket { self.new.has_socket ≡ self.old.has_socket }
        ensures lost { self.new.lost ≡ self.old.lost }
    {
        tell_watchers(self.clients.as_mut_slice(), line, event);
    }

    /// Writes what clients are still to be told, for half a second at most.
    pub fn finish(&mut self)
        ensures socket { self.new.has_socket ≡ self.old.has_socket }
        ensures lost { self.old.lost ≤ self.new.lost }
        ensures no_more { self.old.has_socket ≡ false
            → length self.new.clients ≤ length self.old.clients }
    {
        for _ in 0..MOST_FINISHING {
            if !self.is_telling() {
                return;
            }
            self.wait(FINISHING_MS);
        }
    }

    /// Whether a client is still to be told something, or an event to be recorded.
    fn is_telling(&mut self) -> bool
        ensures socket { self.new.has_socket ≡ self.old.has_socket }
        ensures lost { self.new.lost ≡ self.old.lost }
        ensures as_many { length self.new.clients ≡ length self.old.clients }
    {
        if are_told(self.clients.as_mut_slice()) {
            return true;
        }
        self.is_recording()
    }

    /// Whether an event is to be recorded still.
    fn is_recording(&self) -> bool {
        match &self.journal {
            Some(journal) => journal.is_writing(),
            None => false,
        }
    }

    /// How many lines of events were lost.
    pub fn lost(&self) -> u64
        ensures { result ≡ self.now.lost }
    {
        self.lost
    }
}

/// Waits until one of the clients has said something or takes more, at most so many milliseconds; reads and writes what can
/// be. Where one more comes, and there is no place, one of them is let go.
fn wait_for(ready: &mut Ready, clients: &mut [Client], most_ms: i32)
    ensures { AreServed clients.old clients.new }
{
    let is_waiting = ask(ready, clients);
    ready.wait(if is_waiting { 0 } else { most_ms });
    serve(ready, clients);
    if ready.is_ready(0) {
        make_room(clients);
    }
}

/// What the clients are waited for. It answers whether a line may be there that one said.
fn ask(ready: &mut Ready, clients: &mut [Client]) -> bool
    ensures { AllZip IsAsked clients.old clients.new }
{
    let mut is_waiting = false;
    for client in clients.iter_mut() {
        ready.add_input(client.heard_from());
        let end = client.events_over();
        ready.add_output(client.told_over(), end);
        is_waiting |= client.is_waiting();
    }
    is_waiting
}

/// Reads and writes what can be, where the clients were waited for one after the other.
fn serve(ready: &Ready, clients: &mut [Client])
    ensures { AllZip IsServed clients.old clients.new }
{
    let mut i = 1usize;
    for client in clients.iter_mut() {
        client.serve(ready.is_ready(i), ready.is_ready(i.saturating_add(1)));
        i = i.saturating_add(2);
    }
}

/// How many lines of events the clients lost since this was asked.
fn take_lost(clients: &mut [Client]) -> u64
    ensures { AllZip IsCounted clients.old clients.new }
{
    let mut lost = 0u64;
    for client in clients.iter_mut() {
        lost = lost.saturating_add(client.take_lost());
    }
    lost
}

/// Whether one more may come in: there is a place, or one of the clients can go.
fn has_room(clients: &[Client]) -> bool {
    clients.len() < MOST_CLIENTS || most_silent(clients).is_some()
}

/// Where there is no place for one more, a client goes.
fn make_room(clients: &mut [Client])
    ensures { clients.new ≡ clients.old }
{
    if clients.len() < MOST_CLIENTS {
        return;
    }
    if let Some(place) = most_silent(clients)
        && place < clients.len()
    {
        clients[place].let_go();
    }
}

/// The client that has been silent longest, of those that want events only where there is no other; none where all are heard or told
/// something now.
fn most_silent(clients: &[Client]) -> Option<usize> {
    match silent_longest(clients, false) {
        Some(place) => Some(place),
        None => silent_longest(clients, true),
    }
}

/// Of the clients that want events, or of the others, the one that has been silent longest.
fn silent_longest(clients: &[Client], wants_events: bool) -> Option<usize> {
    let mut least = u64::MAX;
    let mut found = None;
    for (place, client) in clients.iter().enumerate() {
        if let Some(since) = client.silent_since()
            && client.tells_events() == wants_events
            && (since < least || found.is_none())
        {
            least = since;
            found = Some(place);
        }
    }
    found
}

/// The next line that one of the clients said, after so many that all said, and which one.
fn hear(clients: &mut [Client], lines: u64) -> Option<(Asker, HeardLine)>
    ensures none { IfNone result (AllZip HearsNoLine clients.old clients.new) }
    ensures heard { IfSome result (λ said. Hears said.0 said.1 clients.old clients.new) }
{
    for (i, client) in clients.iter_mut().enumerate() {
        if let Some(heard) = client.hear(lines) {
            return Some((Asker(i), heard));
        }
    }
    None
}

/// The client at a place is answered, where there is one.
fn answer(clients: &mut [Client], i: usize, text: Vec<u8>)
    ensures { clients.new ≡ changed_at (answered text.items) i clients.old }
{
    if i < clients.len() {
        clients[i].answer(text);
    }
}

/// From now on the client at a place, where there is one, is told events.
fn want_events(clients: &mut [Client], i: usize) -> Result<(), NoMemory>
    ensures ok { OnOk result (clients.new ≡ changed_at wanting i clients.old) }
    ensures err { OnErr result (clients.new ≡ clients.old) }
{
    if i >= clients.len() {
        return Ok(());
    }
    clients[i].want_events()
}

/// Each of the clients that wants events is told this line.
fn tell(clients: &mut [Client], line: &[u8])
    ensures { AllZip (IsTold line.now) clients.old clients.new }
{
    for client in clients.iter_mut() {
        client.tell(line);
    }
}

/// From now on the client at a place, where there is one, watches this line.
fn watch(clients: &mut [Client], i: usize, line: usize)
    ensures { clients.new ≡ changed_at (watching line) i clients.old }
{
    if i < clients.len() {
        clients[i].watch(line);
    }
}

/// Each of the clients that watches this line is told this event.
fn tell_watchers(clients: &mut [Client], line: usize, event: &[u8])
    ensures { AllZip (IsToldOfLine line event.now) clients.old clients.new }
{
    for client in clients.iter_mut() {
        client.tell_watched(line, event);
    }
}

/// Whether one of the clients is still to be told something.
fn are_told(clients: &mut [Client]) -> bool {
    for client in clients.iter_mut() {
        if client.told_over().is_some() {
            return true;
        }
    }
    false
}
