//! The user agent.
ghost use Rattle.std.specs.Prelude.{◌≡◌, [], IfOk, None, OnErr, OnOk, map};
ghost use Rattle.fax_sip.specs.Messages.{message_of, message_text};
ghost use Rattle.fax_switch.specs.Tables.{begun};
ghost use Rattle.fax_user_agent.specs.Agents.{Hears, HearsDatagram, HearsDial, HearsInPart, HearsSome, IsQuiet, MayHear, MayHearDialInPart, MayHearInPart, MayHearMessageInPart, Queues};
ghost use Rattle.fax_user_agent.specs.Dues.{ComesByAll, MayBeDue};
ghost use Rattle.fax_user_agent.specs.Events.{Brings, MayBe};
ghost use Rattle.fax_user_agent.specs.Orders.{word_of};
ghost use Rattle.fax_user_agent.specs.Senders.{trunk_of};

use crate::asked::Incoming;
use crate::book::Book;
use crate::desk::Desk;
use crate::due::due_of_entries;
use crate::lane::Lane;
use crate::ordering::put_orders;
use crate::out::{Count, Datagram, Heard, LineOrder, Told};
use crate::outbox::Outbox;
use crate::profile::Profile;
use crate::random::Random;
use crate::settings::{Settings, Trunk};
use fax_requests::answer_address;
use fax_sip::{Message, Name, Start, read_message};
use fax_switch::{Event, LineCall, Switch};
use fax_trunks::{Calls, Registration};
use std::alloc::{AllocError, Global};
use std::marker::Model;
use std::mem;
use std::net::SocketAddr;

/// How many seconds a registration asks for.
const REGISTRATION_SECONDS: u32 = 3_600;

/// A user agent for SIP over UDP: all calls of all trunks.
///
/// After each call of it that takes a moment look at `take_datagrams`, `take_orders` and `take_told`. Where one answers `Err`, memory was refused: what came is
/// as if it had been lost on its way, or some of what was to be done for it is not done.
pub struct UserAgent {
    alloc: Global,
    profile: Profile,
    switch: Switch,
    book: Book,
    orders: Vec<LineOrder>,
    out: Outbox,
}

impl Drop for UserAgent {
    fn drop(self) {
        let UserAgent {
            alloc: _alloc,
            profile: _profile,
            switch: _switch,
            book: _book,
            orders: _orders,
            out: _out,
        } = self;
    }
}

/// Contracts see its trunks and its routes, the calls of its switch, and what is to come out, of orders the words alone.
impl Model for UserAgent {
    ghost use Rattle.std.specs.Prelude.{map};
    ghost use Rattle.fax_user_agent.specs.Agents.{Agent};
    ghost use Rattle.fax_user_agent.specs.Orders.{word_of};

    ghost Value = { Agent };

    ghost view = { λ agent. record {
      trunks = agent.profile.trunks.items;
      routes = agent.profile.routes.items;
      switch = agent.switch;
      datagrams = agent.out.datagrams.items;
      words = map word_of agent.orders.items;
      told = agent.out.told.items;
    } };
}

impl UserAgent {
    /// An agent without calls, whose random octets come of this seed: 32 octets that nobody knows. The first REGISTERs are due at once. No call is taken before
    /// `set_open`.
    pub fn new(alloc: Global, settings: Settings, seed: [u8; 32]) -> Result<Self, AllocError>
        ensures trunks { IfOk result (λ agent. agent.trunks ≡ settings.trunks.items) }
        ensures routes { IfOk result (λ agent. agent.routes ≡ settings.routes.items) }
        ensures switch { IfOk result (λ agent. agent.switch ≡ begun settings.calls) }
        ensures nothing { IfOk result
            (λ agent. (agent.datagrams ≡ []) × (agent.words ≡ []) × (agent.told ≡ [])) }
    {
        let most = settings.calls;
        let profile = Profile::new(alloc, settings)?;
        let mut random = Random::new(seed);
        let lanes = lanes_of(alloc, &mut random, profile.trunks.as_slice())?;
        Ok(UserAgent {
            alloc,
            profile,
            switch: Switch::new(alloc, most),
            book: Book {
                calls: Vec::new(alloc),
                opening: None,
                desk: Desk {
                    alloc,
                    now: 0,
                    random,
                    made: Outbox::new(alloc),
                    counts: Vec::new(alloc),
                    clients: Vec::new(alloc),
                    servers: Vec::new(alloc),
                    lanes,
                    next_server: 0,
                    is_open: false,
                },
            },
            orders: Vec::new(alloc),
            out: Outbox::new(alloc),
        })
    }

    /// A datagram came, from there.
    pub fn hear(&mut self, now: u64, from: SocketAddr, octets: &[u8]) -> Result<Heard, AllocError>
        ensures heard { HearsDatagram now (trunk_of self.old.trunks from)
            (message_of octets.now) result self.old self.new }
        ensures queues { Queues self.old self.new }
    {
        let Some(trunk) = self.profile.trunk_from(from) else {
            return Ok(Heard::Stranger);
        };
        match read_message(octets) {
            Ok(message) => {
                self.take(now, trunk, from, octets, &message)?;
                Ok(Heard::Message)
            }
            Err(fault) => Ok(Heard::NoMessage(fault)),
        }
    }

    /// A message came over this trunk.
    fn take(
        &mut self,
        now: u64,
        trunk: usize,
        from: SocketAddr,
        octets: &[u8],
        message: &Message<'_>,
    ) -> Result<(), AllocError>
        ensures ok { OnOk result (MayHear now (message_text message.now) self.old self.new) }
        ensures err { OnErr result
            (MayHearMessageInPart now (message_text message.now) self.old self.new) }
        ensures queues { Queues self.old self.new }
    {
        self.book.desk.now = now;
        let event = self.event_of(trunk, from, octets, message)?;
        match event {
            Some(event) => self.tell(now, event),
            None => self.hand_out(),
        }
    }

    /// What a message is for the switch.
    fn event_of(
        &mut self,
        trunk: usize,
        from: SocketAddr,
        octets: &[u8],
        message: &Message<'_>,
    ) -> Result<Option<Event>, AllocError>
        ensures unseen { self.new ≡ self.old }
        ensures event { Brings (MayBe self.old.routes (message_text message.now)) result }
    {
        match message.start {
            Start::Answer(status) => self.book.hear_answer(&self.profile, message, status),
            Start::Request(word, uri) => {
                let Some(key) = message.key() else {
                    return Ok(None);
                };
                let to = match message.elements(Name::Via).next() {
                    Some(hop) => answer_address(hop, from),
                    None => from,
                };
                let incoming = Incoming {
                    message,
                    octets,
                    key,
                    uri,
                    trunk,
                    to,
                };
                self.book.hear_request(&self.profile, &incoming, word)
            }
        }
    }

    /// The switch hears an event, and what is to be done then is done.
    fn tell(&mut self, now: u64, event: Event) -> Result<(), AllocError>
        ensures ok { OnOk result (Hears now event self.old self.new) }
        ensures err { OnErr result (HearsInPart now event self.old self.new) }
        ensures queues { Queues self.old self.new }
    {
        if self.switch.hear(now, event).is_err() {
            self.book.drop_opening();
            return Err(AllocError);
        }
        let done = self.book.carry_out(&self.profile, self.switch.entries());
        let put = put_orders(
            &mut self.orders,
            self.book.calls.as_slice(),
            self.switch.entries(),
        );
        let gone = self.book.let_go(self.switch.entries());
        let out = self.hand_out();
        put?;
        gone?;
        out?;
        done
    }

    /// What was made comes out.
    fn hand_out(&mut self) -> Result<(), AllocError>
        ensures quiet { IsQuiet self.old self.new }
        ensures queues { Queues self.old self.new }
    {
        self.out.append(&mut self.book.desk.made)
    }

    /// Time passed: what is due first is done. Called once `next_due` is reached, until it is later; it does one thing in the switch at a time.
    pub fn go_on(&mut self, now: u64) -> Result<(), AllocError>
        ensures ok { OnOk result (HearsSome MayBeDue now self.old self.new) }
        ensures err { OnErr result (MayHearInPart MayBeDue now self.old self.new) }
        ensures queues { Queues self.old self.new }
    {
        self.book.desk.now = now;
        let event = self.book.go_on(&self.profile)?;
        self.tell(now, event.unwrap_or(Event::Elapsed))
    }

    /// The moment from which something is due although nothing else happens.
    pub fn next_due(&self) -> Option<u64>
        ensures { ComesByAll result self.now.switch.entries }
    {
        self.book.due_with(due_of_entries(self.switch.entries()))
    }

    /// `ring any` for this call was answered `ok LINE CALL`: that leg is heard at this address.
    pub fn rung(
        &mut self,
        now: u64,
        call: u64,
        on: LineCall,
        leg: SocketAddr,
    ) -> Result<(), AllocError>
        ensures ok { OnOk result (Hears now (Event.Rung call on) self.old self.new) }
        ensures err { OnErr result (HearsInPart now (Event.Rung call on) self.old self.new) }
        ensures queues { Queues self.old self.new }
    {
        self.book.desk.now = now;
        self.book.place_leg(call, leg);
        self.tell(now, Event::Rung(call, on))
    }

    /// `ring any` for this call was refused: its INVITE is answered with this status, 300 to 699: 486 or 503 where no line is idle, 503 where we stop.
    pub fn not_rung(&mut self, now: u64, call: u64, status: u16) -> Result<(), AllocError>
        ensures ok { OnOk result (Hears now (Event.NotRung call status) self.old self.new) }
        ensures err { OnErr result (HearsInPart now (Event.NotRung call status) self.old self.new) }
        ensures queues { Queues self.old self.new }
    {
        self.book.desk.now = now;
        self.tell(now, Event::NotRung(call, status))
    }

    /// `dial`: the call of a job is asked for, to the number of its tag, which stands before the `/`; the called leg is heard at this address.
    pub fn dialled(
        &mut self,
        now: u64,
        on: LineCall,
        number: &[u8],
        leg: SocketAddr,
    ) -> Result<(), AllocError>
        ensures ok { OnOk result (HearsDial now on number.now self.old self.new) }
        ensures err { OnErr result (MayHearDialInPart now on number.now self.old self.new) }
        ensures queues { Queues self.old self.new }
    {
        self.book.desk.now = now;
        let choice = self.book.dial(&self.profile, number, leg);
        self.tell(now, Event::Dialled(on, choice))
    }

    /// The call on a calling leg is over (`ended`).
    pub fn call_over(&mut self, now: u64, on: LineCall) -> Result<(), AllocError>
        ensures ok { OnOk result (Hears now (Event.CallOver on) self.old self.new) }
        ensures err { OnErr result (HearsInPart now (Event.CallOver on) self.old self.new) }
        ensures queues { Queues self.old self.new }
    {
        self.book.desk.now = now;
        self.tell(now, Event::CallOver(on))
    }

    /// The job of a called leg is over (`job`).
    pub fn job_over(&mut self, now: u64, on: LineCall) -> Result<(), AllocError>
        ensures ok { OnOk result (Hears now (Event.JobOver on) self.old self.new) }
        ensures err { OnErr result (HearsInPart now (Event.JobOver on) self.old self.new) }
        ensures queues { Queues self.old self.new }
    {
        self.book.desk.now = now;
        self.tell(now, Event::JobOver(on))
    }

    /// Whether calls are taken from now on: not where we stop, nor where no line is idle. OPTIONS is answered 200 or 503 so; an INVITE that calls is answered 503
    /// where none is taken.
    pub fn set_open(&mut self, is_open: bool)
        ensures { self.new ≡ self.old }
    {
        self.book.desk.is_open = is_open;
    }

    /// The registrations are to end, as we stop.
    pub fn leave(&mut self, now: u64) -> Result<(), AllocError>
        ensures quiet { IsQuiet self.old self.new }
        ensures queues { Queues self.old self.new }
    {
        self.book.desk.now = now;
        self.book.desk.leave(&self.profile)?;
        self.hand_out()
    }

    /// What is to be sent, in its order; it is taken.
    pub fn take_datagrams(&mut self) -> Vec<Datagram>
        ensures taken { result.items ≡ self.old.datagrams }
        ensures rest { self.new ≡ record self.old { datagrams = [] } }
    {
        mem::replace(&mut self.out.datagrams, Vec::new(self.alloc))
    }

    /// What is to be done on lines, in its order; it is taken.
    pub fn take_orders(&mut self) -> Vec<LineOrder>
        ensures taken { map word_of result.items ≡ self.old.words }
        ensures rest { self.new ≡ record self.old { words = [] } }
    {
        mem::replace(&mut self.orders, Vec::new(self.alloc))
    }

    /// What is told, in its order; it is taken.
    pub fn take_told(&mut self) -> Vec<Told>
        ensures taken { result.items ≡ self.old.told }
        ensures rest { self.new ≡ record self.old { told = [] } }
    {
        mem::replace(&mut self.out.told, Vec::new(self.alloc))
    }

    /// How many answers there were, by their status.
    pub fn counts(&self) -> &[Count] {
        self.book.desk.counts.as_slice()
    }
}

/// What there is of trunks at the beginning.
fn lanes_of(alloc: Global, random: &mut Random, trunks: &[Trunk]) -> Result<Vec<Lane>, AllocError> {
    let mut lanes = Vec::new(alloc);
    for trunk in trunks {
        lanes.push(Lane {
            calls: Calls::new(trunk.calls),
            registration: if trunk.registers {
                Some(Registration::begin(0, REGISTRATION_SECONDS))
            } else {
                None
            },
            was_registered: false,
            call_id: random.token(),
            tag: random.token(),
            number: 0,
        })?;
    }
    Ok(lanes)
}
