// The clients of a loop.
ghost use Rattle.std.specs.Prelude.{◌≡◌, not};

mod acts;
mod waits;

use super::client::Due;
use super::{Arrival, Client, Ports};
use host_base::{NoMemory, Peer};
use host_trace::Event;
use std::alloc::Global;
use std::collections::{BTreeMap, VecDeque};
use std::marker::Model;

// How many bytes one read takes at most.
const PIECE: usize = 65_536;

// While there is no slot for it, whoever waits is left to other loops for so many ticks. Then it is accepted, to be refused.
const LEFT_TICKS: u64 = 2;

// So many milliseconds lie at least between two ticks that are both owed: what came meanwhile is heard in them, and programs
// have time to run.
const BETWEEN_TICKS: u64 = 50;

// What stands before the next tick that is owed.
#[derive(Clone, Copy, Debug, PartialEq, Eq)]
enum Pause {
    /// Nothing.
    None,
    /// Another was just told.
    Begins,
    /// Another was told, and since the clock showed so many milliseconds what came meanwhile is heard.
    Since(u64),
}

/// What asking all brought.
#[derive(Drop)]
pub enum Polled {
    Told(Event),
    /// Nothing is there to be told.
    Nothing,
    /// Some have to be asked once more.
    Again,
}

/// The clients of a loop, by their numbers, each until it was shut and what waited for it was sent or given up.
#[derive(Drop)]
pub struct SocketSet<P: Ports> {
    alloc: Global,
    ports: P,
    clients: BTreeMap<u64, Client<P::Socket>>,
    // Those that were shut.
    leaving: VecDeque<u64>,
    // Who is asked next. Each stands there once.
    due: VecDeque<Due>,
    // So many of the clients were shut.
    shut: usize,
    // No further client is accepted.
    ended: bool,
    // .. until the next tick, or until a client was shut or has left.
    paused: bool,
    // So many ticks had been told when whoever waits was first left to other loops.
    left_in: Option<u64>,
    listener_queued: bool,
    // So many may be told before the ports are asked again what is ready.
    round: usize,
    // So many more may be told in it of clients that are given texts.
    given: usize,
    most: usize,
    accepted: u64,
    ticked: u64,
    // How often the clock had shown 100 ms more when it was asked last.
    shown: u64,
    pause: Pause,
    buffer: Vec<u8>,
    faults: u64,
}

impl<P: Ports> Model for SocketSet<P> {
    ghost use Rattle.std.specs.Prelude.{◌<◌, ◌≤◌, not, vec_len};
    ghost use Rattle.socket_set.specs.Sets.{SetState, set_of};

    ghost Value = { SetState };

    ghost view = { λ m. set_of m.clients.entries m.accepted m.ticked (not m.ended) m.faults (P.tells m.ports) };

    ghost invariant = { λ m. (0 < vec_len m.buffer) × (vec_len m.buffer ≤ 65536) };
}

impl<P: Ports + Drop> SocketSet<P> {
    ghost use Rattle.std.specs.Prelude.{◌≡◌, ◌+◌, ◌-◌, ◌^◌, ◌≤◌, ◌<◌, ℕ, true, false, [], None, Some, All, IfOk, IfSome, IsSome, IsNone};
    ghost use Rattle.host_base.specs.Outsides.{Rose};
    ghost use Rattle.socket_set.specs.Clients.{Says, Rests, Keeps, EndsHearing, IsStillOrShut, has_failed};
    ghost use Rattle.socket_set.specs.Sets.{SetState, Tells, IsQuiet, IsIdle, OwesNoTick, told_by, Counted, OnOne, On, OnEach, Inserts, Leaves, SameDevices, SameClients, IsOf, is_shut_at, is_open_at, clients};

    /// A set of no client yet, with slots for `most`, and room for as many that were shut. One more than there are slots for
    /// is accepted if nobody else takes it, and is to be shut.
    pub fn new(alloc: Global, ports: P, most: u32) -> Result<SocketSet<P>, NoMemory>
        ensures none { IfOk result (λ set. set.rows ≡ []) }
        ensures counts { IfOk result (λ set. (set.accepted ≡ 0) × (set.ticked ≡ 0) × (set.faults ≡ 0)) }
        ensures listening { IfOk result (λ set. set.listening ≡ true) }
        ensures ports { IfOk result (λ set. set.ports ≡ P.tells ports) }
    {
        let most = most as usize;
        Ok(SocketSet {
            alloc,
            ports,
            clients: BTreeMap::new(alloc),
            leaving: VecDeque::with_capacity(alloc, most.saturating_mul(2))?,
            due: VecDeque::with_capacity(alloc, most.saturating_mul(2).saturating_add(1))?,
            shut: 0,
            ended: false,
            paused: false,
            left_in: None,
            listener_queued: false,
            round: 0,
            given: 0,
            most,
            accepted: 0,
            ticked: 0,
            shown: 0,
            pause: Pause::None,
            buffer: vec![in alloc; 0u8; PIECE]?,
            faults: 0,
        })
    }

    /// One event of a client or of the clock. Nothing comes only where nothing is there: the clock was asked, and what
    /// is ready, and no client has anything to tell.
    #[tactic(auto, using(crate::proofs::Sets::counted_two, crate::proofs::Sets::rose_later))]
    pub fn poll(&mut self) -> Polled
        ensures some { IfSome (told_by result) (λ event. Tells event self.old self.new) }
        ensures none { IsNone (told_by result) → IsQuiet self.old self.new }
        ensures nothing { result ≡ Polled.Nothing → IsIdle self.old self.new }
        ensures counted { Counted self.old self.new }
        ensures failure { has_failed (told_by result) ≡ true → Rose self.old.faults self.new.faults }
    {
        match self.glance() {
            Some(event) => Polled::Told(event),
            None => self.end_round(),
        }
    }

    /// One event of a client or of the clock, if one is at hand, after one look at what is ready. Where there is none
    /// something may still be there to be told, which `poll` finds out by going over all clients.
    #[tactic(auto, using(crate::proofs::Sets::counted_two, crate::proofs::Sets::rose_later))]
    pub fn glance(&mut self) -> Option<Event>
        ensures some { IfSome result (λ event. Tells event self.old self.new) }
        ensures none { IsNone result → IsQuiet self.old self.new }
        ensures asked { IsNone result → Rose self.old.ports.waits self.new.ports.waits }
        ensures counted { Counted self.old self.new }
        ensures failure { has_failed result ≡ true → Rose self.old.faults self.new.faults }
    {
        match self.tick() {
            Some(event) => Some(event),
            None => self.ask_now(),
        }
    }

    // Asks those that are due. Once in a round the ports are asked what is ready, and before nothing is told.
    #[tactic(auto, using(crate::proofs::Sets::counted_two, crate::proofs::Sets::rose_later))]
    fn ask_now(&mut self) -> Option<Event>
        ensures some { IfSome result (λ event. Tells event self.old self.new) }
        ensures none { IsNone result → IsQuiet self.old self.new }
        ensures asked { IsNone result → Rose self.old.ports.waits self.new.ports.waits }
        ensures counted { Counted self.old self.new }
        ensures failure { has_failed result ≡ true → Rose self.old.faults self.new.faults }
    {
        match self.ask_rest() {
            Some(event) => Some(event),
            None => self.look_and_ask(),
        }
    }

    // Asks those that are due in this round, if it is not over.
    #[tactic(auto, using(crate::proofs::Sets::quiet_self, crate::proofs::Sets::counted_self))]
    fn ask_rest(&mut self) -> Option<Event>
        ensures some { IfSome result (λ event. Tells event self.old self.new) }
        ensures none { IsNone result → IsQuiet self.old self.new }
        ensures counted { Counted self.old self.new }
        ensures failure { has_failed result ≡ true → Rose self.old.faults self.new.faults }
    {
        if self.round == 0 {
            return None;
        }
        self.round -= 1;
        self.ask_round()
    }

    #[tactic(auto, using(crate::proofs::Sets::counted_two, crate::proofs::Sets::rose_later))]
    fn look_and_ask(&mut self) -> Option<Event>
        ensures some { IfSome result (λ event. Tells event self.old self.new) }
        ensures none { IsNone result → IsQuiet self.old self.new }
        ensures asked { IsNone result → Rose self.old.ports.waits self.new.ports.waits }
        ensures counted { Counted self.old self.new }
        ensures failure { has_failed result ≡ true → Rose self.old.faults self.new.faults }
    {
        self.begin_round(0);
        self.ask_round()
    }

    // Asks those that are due, each once, up to the first that has something to tell.
    #[tactic(auto, using(crate::proofs::Sets::tells_two, crate::proofs::Sets::quiet_two, crate::proofs::Sets::quiet_self, crate::proofs::Sets::counted_two, crate::proofs::Sets::counted_self, crate::proofs::Sets::rose_later))]
    fn ask_round(&mut self) -> Option<Event>
        ensures some { IfSome result (λ event. Tells event self.old self.new) }
        ensures none { IsNone result → IsQuiet self.old self.new }
        ensures counted { Counted self.old self.new }
        ensures failure { has_failed result ≡ true → Rose self.old.faults self.new.faults }
    {
        for _ in 0..self.due.len() {
            match self.ask_next() {
                Some(event) => return Some(event),
                None => {}
            }
        }
        None
    }

    // Whether nothing more is there after a round that brought nothing.
    #[tactic(auto, using(crate::proofs::Sets::quiet_same, crate::proofs::Sets::quiet_self, crate::proofs::Sets::counted_self))]
    fn end_round(&mut self) -> Polled
        ensures told { told_by result ≡ None }
        ensures tick { result ≡ Polled.Nothing → OwesNoTick self.old self.new }
        ensures still { result ≡ Polled.Nothing → All (λ row. IsStillOrShut row.1) self.new.rows }
        ensures quiet { IsQuiet self.old self.new }
        ensures counted { Counted self.old self.new }
    {
        if self.is_any_busy() || self.is_tick_owed() {
            Polled::Again
        } else {
            Polled::Nothing
        }
    }

    fn is_any_busy(&self) -> bool
        ensures { result ≡ false → All (λ row. IsStillOrShut row.1) self.now.rows }
    {
        for (_, client) in &self.clients {
            if client.is_busy() {
                return true;
            }
        }
        false
    }

    // Whether the clock has shown more ticks than were told.
    #[tactic(auto, using(crate::proofs::Sets::asked_counted))]
    fn is_tick_owed(&mut self) -> bool
        ensures owed { result ≡ true → self.new.ticked < self.new.ports.shown }
        ensures room { result ≡ true → self.new.ticked < 2 ^ 64 - 1 }
        ensures none { result ≡ false → OwesNoTick self.old self.new }
        ensures rows { SameClients self.old self.new }
        ensures counted { Counted self.old self.new }
    {
        let shown = self.ports.ticks();
        self.shown = shown;
        shown > self.ticked
    }

    #[tactic(auto, using(crate::proofs::Sets::quiet_self, crate::proofs::Sets::counted_self))]
    fn ask_next(&mut self) -> Option<Event>
        ensures some { IfSome result (λ event. Tells event self.old self.new) }
        ensures none { IsNone result → IsQuiet self.old self.new }
        ensures counted { Counted self.old self.new }
        ensures failure { has_failed result ≡ true → Rose self.old.faults self.new.faults }
    {
        match self.due.pop_front() {
            Some(Due::Client(c)) => self.ask(c),
            Some(Due::Listener) => self.accept(),
            None => None,
        }
    }

    #[tactic(auto, using(crate::proofs::Sets::quiet_self))]
    fn ask(&mut self, c: u64) -> Option<Event>
        ensures some { IfSome result (λ event. Tells event self.old self.new) }
        ensures none { IsNone result → IsQuiet self.old self.new }
        ensures counted { Counted self.old self.new }
        ensures failure { has_failed result ≡ true → Rose self.old.faults self.new.faults }
    {
        if self.is_leaving(c) {
            self.leave(c);
            None
        } else {
            self.ask_client(c)
        }
    }

    fn is_leaving(&self, c: u64) -> bool
        ensures { result ≡ is_shut_at (clients self.now c) }
    {
        match self.clients.get(&c) {
            Some(client) => client.is_shut(),
            None => false,
        }
    }

    // Asks a client that was not shut.
    #[tactic(auto, using(crate::proofs::Sets::tells_said, crate::proofs::Sets::quiet_on))]
    fn ask_client(&mut self, c: u64) -> Option<Event>
        requires { is_shut_at (clients self.old c) ≡ false }
        ensures some { IfSome result (λ event. Tells event self.old self.new) }
        ensures none { IsNone result → IsQuiet self.old self.new }
        ensures counted { Counted self.old self.new }
        ensures failure { has_failed result ≡ true → Rose self.old.faults self.new.faults }
    {
        self.turn(c)
    }

    fn turn(&mut self, c: u64) -> Option<Event>
        requires { is_shut_at (clients self.old c) ≡ false }
        ensures on { IfSome result (λ event. OnOne c (λ r s. Says c r s event) self.old self.new) }
        ensures known { IfSome result (λ _. IsSome (clients self.old c)) }
        ensures none { IsNone result → OnOne c Rests self.old self.new }
        ensures counted { Counted self.old self.new }
        ensures failure { has_failed result ≡ true → Rose self.old.faults self.new.faults }
    {
        let Some(client) = self.clients.get_mut(&c) else {
            return None;
        };
        let event = client.turn(
            &mut self.ports,
            &mut self.faults,
            self.alloc,
            c,
            self.buffer.as_mut_slice(),
        );
        client.enqueue(&mut self.due, c);
        event
    }

    // One step of a client that was shut.
    #[tactic(auto, using(crate::proofs::Sets::quiet_on, crate::proofs::Sets::quiet_two, crate::proofs::Sets::counted_two, crate::proofs::Sets::counted_same))]
    fn leave(&mut self, c: u64)
        requires { is_shut_at (clients self.old c) ≡ true }
        ensures quiet { IsQuiet self.old self.new }
        ensures counted { Counted self.old self.new }
    {
        if self.turn_away(c) {
            self.give_up(c);
        }
    }

    // Whether it is over.
    fn turn_away(&mut self, c: u64) -> bool
        requires { is_shut_at (clients self.old c) ≡ true }
        ensures on { OnOne c Rests self.old self.new }
        ensures counted { Counted self.old self.new }
    {
        let Some(client) = self.clients.get_mut(&c) else {
            return false;
        };
        let over = client.turn_away(
            &mut self.ports,
            &mut self.faults,
            c,
            self.buffer.as_mut_slice(),
        );
        client.enqueue(&mut self.due, c);
        over
    }

    // Lets go of a client, if it was shut.
    #[tactic(auto, using(crate::proofs::Sets::quiet_left, crate::proofs::Sets::quiet_self, crate::proofs::Sets::devices_self, crate::proofs::Sets::left_devices))]
    fn give_up(&mut self, c: u64)
        ensures quiet { IsQuiet self.old self.new }
        ensures same { SameDevices self.old self.new }
    {
        if self.is_leaving(c) {
            self.remove(c);
        }
    }

    fn remove(&mut self, c: u64)
        ensures { Leaves c self.old self.new }
    {
        if let Some(mut client) = self.clients.remove(&c) {
            client.forget(&mut self.ports);
            self.shut = self.shut.saturating_sub(1);
            self.resume();
        }
    }

    // Has the listener asked again, where it was passed over for want of room or of descriptors.
    fn resume(&mut self)
        ensures { self.new ≡ self.old }
    {
        if self.paused {
            self.paused = false;
            self.enqueue_listener();
        }
    }

    fn enqueue_listener(&mut self)
        ensures { self.new ≡ self.old }
    {
        if !self.listener_queued {
            self.listener_queued = self.due.push_back(Due::Listener).is_ok();
        }
    }

    // Takes the next client that waits. Where that fails, or there is no room, it is tried again once a client was shut or
    // has left, and after the next tick.
    #[tactic(auto, using(crate::proofs::Sets::quiet_self, crate::proofs::Sets::counted_self))]
    fn accept(&mut self) -> Option<Event>
        ensures some { IfSome result (λ event. Tells event self.old self.new) }
        ensures none { IsNone result → IsQuiet self.old self.new }
        ensures counted { Counted self.old self.new }
        ensures failure { has_failed result ≡ true → Rose self.old.faults self.new.faults }
    {
        if self.is_for_next() {
            self.take_next()
        } else {
            None
        }
    }

    // Whether the next client is asked for.
    fn is_for_next(&mut self) -> bool
        ensures same { self.new ≡ self.old }
        ensures listening { result ≡ true → self.old.listening ≡ true }
        ensures room { result ≡ true → self.old.accepted < 2 ^ 64 - 1 }
    {
        self.listener_queued = false;
        if self.ended || self.paused {
            return false;
        }
        if self.has_room() {
            return true;
        }
        self.wait_for_room();
        false
    }

    fn wait_for_room(&mut self)
        ensures { self.new ≡ self.old }
    {
        self.paused = true;
    }

    #[tactic(auto, using(crate::proofs::Sets::quiet_same, crate::proofs::Sets::quiet_two, crate::proofs::Sets::counted_two, crate::proofs::Sets::tells_two, crate::proofs::Sets::rose_later))]
    fn take_next(&mut self) -> Option<Event>
        requires room { self.old.accepted < 2 ^ 64 - 1 }
        requires listening { self.old.listening ≡ true }
        ensures some { IfSome result (λ event. Tells event self.old self.new) }
        ensures none { IsNone result → IsQuiet self.old self.new }
        ensures counted { Counted self.old self.new }
        ensures failure { has_failed result ≡ true → Rose self.old.faults self.new.faults }
    {
        match self.arrival() {
            Arrival::Client { socket, peer } => {
                self.enqueue_listener();
                self.admit(socket, peer)
            }
            Arrival::Nothing => {
                self.left_in = None;
                None
            }
            Arrival::Failed => {
                self.paused = true;
                None
            }
        }
    }

    // What comes of asking for the next client. A failure is counted.
    #[tactic(auto, using(crate::proofs::Sets::given_counted, crate::proofs::Sets::counted_self))]
    fn arrival(&mut self) -> Arrival<P::Socket>
        ensures same { SameClients self.old self.new }
        ensures given { IsOf result self.new }
        ensures counted { Counted self.old self.new }
    {
        match self.ports.accept() {
            Arrival::Client { socket, peer } => Arrival::Client { socket, peer },
            Arrival::Nothing => Arrival::Nothing,
            Arrival::Failed => {
                self.faults = self.faults.saturating_add(1);
                Arrival::Failed
            }
        }
    }

    // Whether the next client is taken now.
    fn has_room(&mut self) -> bool
        ensures same { self.new ≡ self.old }
        ensures room { result ≡ true → self.old.accepted < 2 ^ 64 - 1 }
    {
        self.accepted < u64::MAX
            && self.clients.len() < self.most.saturating_mul(2)
            && (self.has_slot() || self.has_left_it())
    }

    fn has_slot(&mut self) -> bool
        ensures { self.new ≡ self.old }
    {
        if self.clients.len().saturating_sub(self.shut) < self.most {
            self.left_in = None;
            return true;
        }
        false
    }

    // Whether other loops had the time to take it.
    fn has_left_it(&mut self) -> bool
        ensures { self.new ≡ self.old }
    {
        let first = self.left_in.unwrap_or(self.ticked);
        self.left_in = Some(first);
        self.ticked.saturating_sub(first) >= LEFT_TICKS
    }

    // Makes a client of a socket. One that can't be watched, or for which there is no memory, is let go.
    #[tactic(auto, using(crate::proofs::Sets::quiet_same, crate::proofs::Sets::quiet_two, crate::proofs::Sets::counted_two, crate::proofs::Sets::counted_same))]
    fn admit(&mut self, socket: P::Socket, peer: Peer) -> Option<Event>
        requires room { self.old.accepted < 2 ^ 64 - 1 }
        requires listening { self.old.listening ≡ true }
        requires given { self.old.ports.peer ≡ Some peer }
        ensures some { IfSome result (λ event. Tells event self.old self.new) }
        ensures none { IsNone result → IsQuiet self.old self.new }
        ensures counted { Counted self.old self.new }
        ensures failure { has_failed result ≡ false }
    {
        let mut client = Client::new(self.alloc, socket);
        if !self.watch(&mut client) {
            return None;
        }
        if self.insert(client) {
            Some(Event::Accepted { peer })
        } else {
            None
        }
    }

    // Whether the next client's socket is reported from now on.
    fn watch(&mut self, client: &mut Client<P::Socket>) -> bool
        ensures client { client.new ≡ client.old }
        ensures same { SameClients self.old self.new }
        ensures peer { self.new.ports.peer ≡ self.old.ports.peer }
        ensures counted { Counted self.old self.new }
    {
        if client.watch(&mut self.ports, self.accepted) {
            return true;
        }
        self.faults = self.faults.saturating_add(1);
        false
    }

    // Whether there was memory to keep it as the next client.
    fn insert(&mut self, client: Client<P::Socket>) -> bool
        requires { self.old.accepted < 2 ^ 64 - 1 }
        ensures kept { result ≡ true → Inserts client self.old self.new }
        ensures none { result ≡ false → SameClients self.old self.new }
        ensures same { SameDevices self.old self.new }
    {
        match self.clients.insert(self.accepted, client) {
            Ok(_) => {
                self.accepted += 1;
                true
            }
            Err(failed) => {
                let (_, mut client) = failed.value;
                client.forget(&mut self.ports);
                false
            }
        }
    }

    /// A tick, where the clock has shown more than were told. Whoever waits for events asks for it before all else, so that
    /// one comes in its time whatever there is to hear. Where another was just told, what came meanwhile is heard first, for half
    /// of a tick's time: else a loop that was held up for long would tell all its ticks before it hears what was sent, and
    /// before a program that it starts then can do anything.
    #[tactic(auto, using(crate::proofs::Sets::counted_same, crate::proofs::Sets::counted_two, crate::proofs::Sets::quiet_same, crate::proofs::Sets::quiet_self))]
    pub fn tick(&mut self) -> Option<Event>
        ensures some { IfSome result (λ event. Tells event self.old self.new) }
        ensures none { IsNone result → IsQuiet self.old self.new }
        ensures counted { Counted self.old self.new }
        ensures failure { has_failed result ≡ false }
    {
        if !self.is_tick_due() {
            return None;
        }
        self.ticked += 1;
        self.pause = Pause::Begins;
        let secs = self.seconds();
        self.resume();
        self.tick_leaving();
        Some(Event::Tick { secs })
    }

    // The Unix seconds that the clock shows.
    #[tactic(auto, using(crate::proofs::Sets::shown_counted))]
    fn seconds(&mut self) -> u64
        ensures range { result < 253402300800 }
        ensures shown { result ≡ self.new.ports.secs }
        ensures ticks { self.new.ports.shown ≡ self.old.ports.shown }
        ensures rows { SameClients self.old self.new }
        ensures counted { Counted self.old self.new }
    {
        self.ports.seconds()
    }

    // Whether a tick is owed, and nothing stands before it.
    fn is_tick_due(&mut self) -> bool
        ensures owed { result ≡ true → self.new.ticked < self.new.ports.shown }
        ensures room { result ≡ true → self.new.ticked < 2 ^ 64 - 1 }
        ensures rows { SameClients self.old self.new }
        ensures counted { Counted self.old self.new }
    {
        if !self.is_tick_owed() {
            self.end_pause();
            return false;
        }
        self.is_pause_over()
    }

    // The next tick is told once it is owed.
    fn end_pause(&mut self)
        ensures { self.new ≡ self.old }
    {
        self.pause = Pause::None;
    }

    // Whether nothing stands before a tick that is owed. The time between two begins with the first ask after the first of
    // them, so that something is heard in it however long it takes to serve a tick.
    fn is_pause_over(&mut self) -> bool
        ensures { self.new ≡ self.old }
    {
        let now = self.millis();
        if self.pause == Pause::Begins {
            self.pause = Pause::Since(now);
        }
        self.pause_left(now) == 0
    }

    // For so many milliseconds more the next tick isn't told, though it is owed.
    fn pause_left(&self, now: u64) -> u64 {
        match self.pause {
            Pause::None => 0,
            Pause::Begins => BETWEEN_TICKS,
            Pause::Since(start) => BETWEEN_TICKS.saturating_sub(now.saturating_sub(start)),
        }
    }

    // The milliseconds of the clock. Where they pass a tick just now they may be those before it.
    fn millis(&mut self) -> u64
        ensures { self.new ≡ self.old }
    {
        let passed = 100 - self.ports.millis_to_tick();
        self.shown.saturating_mul(100).saturating_add(passed)
    }

    // Has those that were shut hear the tick.
    #[tactic(auto, using(crate::proofs::Sets::quiet_self, crate::proofs::Sets::quiet_two, crate::proofs::Sets::devices_self, crate::proofs::Sets::devices_two))]
    fn tick_leaving(&mut self)
        ensures quiet { IsQuiet self.old self.new }
        ensures same { SameDevices self.old self.new }
    {
        for _ in 0..self.leaving.len() {
            match self.next_leaving() {
                Some(c) => self.tick_one(c),
                None => return,
            }
        }
    }

    fn next_leaving(&mut self) -> Option<u64>
        ensures { self.new ≡ self.old }
    {
        self.leaving.pop_front()
    }

    #[tactic(auto, using(crate::proofs::Sets::quiet_kept, crate::proofs::Sets::quiet_two, crate::proofs::Sets::kept_devices, crate::proofs::Sets::devices_two))]
    fn tick_one(&mut self, c: u64)
        ensures quiet { IsQuiet self.old self.new }
        ensures same { SameDevices self.old self.new }
    {
        if self.tick_client(c) {
            self.give_up(c);
        } else if self.is_leaving(c) {
            let _ = self.leaving.push_back(c);
        }
    }

    fn tick_client(&mut self, c: u64) -> bool
        ensures { On c Keeps self.old self.new }
    {
        let Some(client) = self.clients.get_mut(&c) else {
            return false;
        };
        client.enqueue(&mut self.due, c);
        client.tick()
    }

    /// No further client is accepted.
    pub fn end_listening(&mut self)
        ensures { self.new ≡ record self.old { listening = false } }
    {
        self.ended = true;
        self.ports.end_listening();
    }

    /// What the clients that are there send from now on is not heard, but an end of each that speaks no WebSocket: what it
    /// sent before comes first.
    #[tactic(auto, using(crate::proofs::Each::each_done))]
    pub fn end_hearing(&mut self)
        ensures { OnEach EndsHearing self.old self.new }
    {
        let mut c = self.next_from(0);
        while c < self.accepted() {
            self.end_hearing_of(c);
            c = self.next_from(c + 1);
        }
    }

    fn end_hearing_of(&mut self, c: u64)
        ensures { On c EndsHearing self.old self.new }
    {
        if let Some(client) = self.clients.get_mut(&c) {
            client.end_hearing();
            client.enqueue(&mut self.due, c);
        }
    }

    /// The first client from a number on that is there, or else the number of the next that comes.
    pub fn next_from(&self, from: u64) -> u64
        ensures none { (d : ℕ) → from ≤ d → d < result → clients self.now d ≡ None }
        ensures least { from ≤ self.now.accepted → from ≤ result }
        ensures most { result ≤ self.now.accepted }
    {
        match self.clients.range(from..).next() {
            Some((c, _)) => (*c).min(self.accepted),
            None => self.accepted,
        }
    }

    /// All clients that are there were shut.
    pub fn is_all_shut(&self) -> bool
        ensures { result ≡ true → All (λ row. row.1.shut ≡ true) self.now.rows }
    {
        for (_, client) in &self.clients {
            if !client.is_shut() {
                return false;
            }
        }
        true
    }

    /// Client c was accepted and not shut.
    pub fn is_open(&self, c: u64) -> bool
        ensures { result ≡ is_open_at (clients self.now c) }
    {
        match self.clients.get(&c) {
            Some(client) => !client.is_shut(),
            None => false,
        }
    }

    /// Nothing waits to be sent to any client.
    pub fn is_all_sent(&self) -> bool
        ensures { result ≡ true → All (λ row. row.1.outgoing ≡ []) self.now.rows }
    {
        for (_, client) in &self.clients {
            if client.has_unsent() {
                return false;
            }
        }
        true
    }

    /// How many clients were accepted. The next has this number.
    pub fn accepted(&self) -> u64
        ensures { result ≡ self.now.accepted }
    {
        self.accepted
    }

    /// How many failures were counted.
    pub fn faults(&self) -> u64
        ensures { result ≡ self.now.faults }
    {
        self.faults
    }
}
