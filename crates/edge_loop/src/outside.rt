// The outside of one loop.
ghost use Rattle.std.specs.Prelude.{◌≡◌, ◌<◌, ℕ, false, is_ok, if◌then◌else◌};
ghost use Rattle.socket_set.specs.Sets.{clients, is_open_at};
ghost use Rattle.edge_loop.specs.Loops.{Closes, NoneOpen, SetObeys};

use super::leaving::send_one;
use super::{Asked, Ending, Leaving, Order, Orders, Sending};
use booked_children::BookedChildren;
use child_book::{Ledger, Share};
use child_edge::Spawner;
use host_base::{Launch, NoMemory};
use host_trace::{Act, Acted, Event, Why};
use socket_set::{Polled, Ports, SocketSet};
use std::alloc::Global;
use std::marker::Model;
use std::sync::Wait;

// The longest wait, in milliseconds. What nothing wakes the loop for is asked for after it.
const MOST: u64 = 100;

// After so many events of children in a row the clients and the clock are asked first: a child whose output is dropped
// always has more to tell.
const IN_ROW: u32 = 16;

// Where no child had anything to tell, so many events of clients are heard before the children are asked again: that goes
// over all of them.
const CALM: u32 = 16;

/// The clients and the children of one loop, and the orders that end it. It can't be dropped: `end` ends its children
/// and gives its part of the ledger back.
pub struct NetOutside<P: Ports, S: Spawner, O: Orders, L: Ledger, R> {
    rt: R,
    sockets: SocketSet<P>,
    children: BookedChildren<S, L, R>,
    orders: O,
    starts: Vec<Asked>,
    unstarted: Option<u64>,
    ending: Ending,
    // All are asked again before it waits.
    again: bool,
    // How many events of children came in a row.
    in_row: u32,
    // For so many more events the clients are asked before the children.
    calm: u32,
    // Texts were given to a client, which is asked to take them before anything else.
    gave: bool,
    limit: u32,
}

impl<P: Ports, S: Spawner, O: Orders, L: Ledger, R> Model for NetOutside<P, S, O, L, R> {
    ghost use Rattle.std.specs.Prelude.{◌≡◌, true};
    ghost use Rattle.edge_loop.specs.Loops.{LoopState};

    ghost Value = { LoopState S.Kid };

    ghost view = { λ o.
        record {
          set = o.sockets;
          rows = o.children.set.rows.items;
          room = o.children.set.cap;
          tried = o.children.set.counts;
          starts = o.starts.items;
          unstarted = o.unstarted;
          ending = o.ending;
          full = o.children.full;
          child_faults = o.children.faults;
          limit = o.limit;
        } };

    // It ends only where that was ordered.
    ghost invariant = { λ o.
        (o.ending.ordered ≡ true → (O.told o.orders).stop ≡ true)
        × (o.ending.draining ≡ true → (O.told o.orders).drain ≡ true) };
}

impl<
    P: Ports + Drop,
    S: Spawner + Drop,
    O: Orders + Drop,
    L: Ledger,
    R: Wait + Copy + Drop,
> NetOutside<P, S, O, L, R> {
    ghost use Rattle.std.specs.Prelude.{◌≡◌, ◌≤◌, ◌<◌, ◌⊎◌, [], true, false, None, length, count_by, All, IfOk, IfSome, IsSome, IsNone, OnOk, OnErr};
    ghost use Rattle.host_base.specs.Outsides.{Rose};
    ghost use Rattle.host_trace.specs.Told.{is_failure, is_full_book, carries_nothing};
    ghost use Rattle.child_edge.specs.Rows.{OneSays, Each, IsQuiet as IsQuietRow, AreEnded, kept, is_kept};
    ghost use Rattle.booked_children.specs.Booked.{Begins, ChildrenDo};
    ghost use Rattle.socket_set.specs.Sets.{IsQuiet as IsQuietSet, Tells, Acts as SetActs, Counted as SetCounted, told_by};
    ghost use Rattle.socket_set.specs.Clients.{has_failed};
    ghost use Rattle.edge_loop.specs.Orders.{stopped_by};
    ghost use Rattle.edge_loop.specs.Loops.{faults_of, IsNew, IsQuiet, Counts, Counted, IsHeard, IsOwed, IsTold, AllHanded, HandsOver, OwedAfterOrder, TakesOrder, ending_after, OfClient, OfChild, OfStart, OfOrder, IsBegun, IsRefused, TellsOpen, ToldNoRoom, IsStill, IsStopDue, Asks, Acts, Starts, OnChildren, OnClients, IsHalted, IsSent};

    /// A loop of which nothing was heard, over clients and children of whom none came. Whoever gives its orders and its
    /// children wakes its ports.
    pub fn new(
        rt: R,
        alloc: Global,
        sockets: SocketSet<P>,
        children: BookedChildren<S, L, R>,
        orders: O,
        limit: u32,
    ) -> Self
        requires rows { children.set.rows.items ≡ [] }
        requires counts { (children.full ≡ 0) × (children.faults ≡ 0) }
        ensures { IsNew sockets children.set.cap limit result }
    {
        NetOutside {
            rt,
            sockets,
            children,
            orders,
            starts: Vec::new(alloc),
            unstarted: None,
            ending: Ending::none(),
            again: false,
            in_row: 0,
            calm: 0,
            gave: false,
            limit,
        }
    }

    /// How often anything failed.
    pub fn faults(&self) -> u64
        ensures { result ≡ faults_of self.now }
    {
        let (faults, _) = self.children.counts();
        self.sockets.faults().saturating_add(faults)
    }

    // ---- events

    /// The next event, after the next order was heard, if one came. It sleeps until there is an event.
    pub fn next_event(&mut self) -> Event
        ensures owed { OwedAfterOrder S.Kid.tells result self.old self.new }
        ensures counted { Counted result self.old self.new }
    {
        self.take_order();
        self.tell()
    }

    // Hears the next order.
    fn take_order(&mut self)
        ensures { TakesOrder self.old self.new }
    {
        if let Some(order) = self.orders.next_order() {
            self.ending.order(order);
            tell_clients(&mut self.sockets, order);
        }
    }

    fn tell(&mut self) -> Event
        ensures owed { IsOwed S.Kid.tells result self.old self.new }
        ensures counted { Counted result self.old self.new }
    {
        if let Some(event) = self.tell_due() {
            return event;
        }
        self.wait_for_event()
    }

    fn wait_for_event(&mut self) -> Event
        ensures heard { IsHeard S.Kid.tells result self.old self.new }
        ensures counted { Counted result self.old self.new }
    {
        let rt = self.rt;
        for _ in rt.forever() {
            match self.turn() {
                Some(event) => return event,
                None => {}
            }
        }
        unreachable!()
    }

    // Asks all, and waits where none has anything to tell.
    fn turn(&mut self) -> Option<Event>
        ensures some { IfSome result (λ event. IsHeard S.Kid.tells event self.old self.new × Counted event self.old self.new) }
        ensures none { IsNone result → IsQuiet S.Kid.tells self.old self.new × Counts self.old self.new }
    {
        match self.hear() {
            Some(event) => Some(event),
            None => {
                self.rest();
                None
            }
        }
    }

    // Waits until a client, a child or the clock has something to tell, unless all are to be asked again first.
    fn rest(&mut self)
        ensures quiet { IsQuiet S.Kid.tells self.old self.new }
        ensures counts { Counts self.old self.new }
    {
        self.calm = 0;
        if self.again {
            self.again = false;
            self.sockets.wait_for_tick();
            return;
        }
        self.sockets.wait(MOST);
    }

    // What is told before anything is waited for. The starts that were asked for are handed over, up to one that is
    // refused.
    #[tactic(auto, using(crate::proofs::Handed::told_first))]
    fn tell_due(&mut self) -> Option<Event>
        ensures told { IfSome result (λ event. IsTold S.Kid.tells event self.old self.new) }
        ensures handed { IsNone result → AllHanded S.Kid.tells self.old self.new }
        ensures counted { IfSome result (λ event. Counted event self.old self.new) }
        ensures counts { Counts self.old self.new }
    {
        if let Some(k) = self.unstarted.take() {
            return Some(self.fail(k));
        }
        self.hand_over()
    }

    // Tells that child k was not started, and counts it.
    fn fail(&mut self, k: u64) -> Event
        ensures event { result ≡ Event.StartFailed k }
        ensures same { self.new ≡ record self.old { child_faults = self.new.child_faults } }
        ensures rose { Rose self.old.child_faults self.new.child_faults }
        ensures grown { self.old.child_faults ≤ self.new.child_faults }
    {
        self.children.fail(k)
    }

    // Hands over the starts that were asked for, up to one that is refused.
    #[tactic(auto, using(crate::proofs::Handed::none_handed, crate::proofs::Handed::one_handed, crate::proofs::Handed::all_handed, crate::proofs::Handed::told_behind, crate::proofs::Quiet::counts_self, crate::proofs::Quiet::counts_two, crate::proofs::Quiet::counted_later))]
    fn hand_over(&mut self) -> Option<Event>
        requires answered { self.old.unstarted ≡ None }
        ensures told { IfSome result (λ event. IsTold S.Kid.tells event self.old self.new) }
        ensures handed { IsNone result → AllHanded S.Kid.tells self.old self.new }
        ensures counted { IfSome result (λ event. Counted event self.old self.new) }
        ensures counts { Counts self.old self.new }
    {
        while !self.starts.is_empty() {
            if let Some(event) = self.start_first() {
                return Some(event);
            }
        }
        None
    }

    // Tries to hand over the first start that was asked for.
    fn start_first(&mut self) -> Option<Event>
        requires some { 0 < length self.old.starts }
        requires answered { self.old.unstarted ≡ None }
        ensures refused { IfSome result (λ event. OfStart event self.old self.new) }
        ensures handed { IsNone result → HandsOver S.Kid.tells self.old self.new }
        ensures counted { IfSome result (λ event. Counted event self.old self.new) }
        ensures counts { Counts self.old self.new }
    {
        let asked = self.starts.remove(0);
        self.begin(&asked)
    }

    // The children are asked next, what becomes of the start among the rest.
    #[tactic(auto, using(crate::proofs::Causes::told_open, crate::proofs::Causes::open_other))]
    fn begin(&mut self, asked: &Asked) -> Option<Event>
        ensures refused { IfSome result (λ event. IsRefused asked.now event self.old self.new) }
        ensures reachable { IfSome result (λ event. TellsOpen event self.old.set) }
        ensures begun { IsNone result → IsBegun S.Kid.tells asked.now self.old self.new }
        ensures counted { IfSome result (λ event. Counted event self.old self.new) }
        ensures counts { Counts self.old self.new }
    {
        self.calm = 0;
        let refusal = self.children.begin(asked.k, asked.c, &asked.launch)?;
        match refusal {
            Event::NoRoom { c } => Some(self.tell_no_room(asked.k, c)),
            other => Some(other),
        }
    }

    // No memory was found for child k, and that is told of its connection, unless that is over.
    fn tell_no_room(&mut self, k: u64, c: u64) -> Event
        ensures told { ToldNoRoom k c result self.old self.new }
        ensures counted { Counted result self.old self.new }
    {
        if self.sockets.is_open(c) {
            self.unstarted = Some(k);
            Event::NoRoom { c }
        } else {
            self.fail(k)
        }
    }

    // What is to be told, if anything is: that it ends, or else a tick, or else what a child has to tell, or a client.
    fn hear(&mut self) -> Option<Event>
        ensures some { IfSome result (λ event. IsHeard S.Kid.tells event self.old self.new × Counted event self.old self.new) }
        ensures none { IsNone result → IsQuiet S.Kid.tells self.old self.new × Counts self.old self.new }
    {
        match self.hear_end() {
            Some(event) => Some(event),
            None => self.hear_in_time(),
        }
    }

    // The clock is asked before each child and each client, however long these take and however many they are.
    fn hear_in_time(&mut self) -> Option<Event>
        ensures some { IfSome result (λ event. IsHeard S.Kid.tells event self.old self.new × Counted event self.old self.new) }
        ensures none { IsNone result → IsQuiet S.Kid.tells self.old self.new × Counts self.old self.new }
    {
        match self.hear_tick() {
            Some(event) => Some(event),
            None => self.hear_rest(),
        }
    }

    fn hear_tick(&mut self) -> Option<Event>
        ensures some { IfSome result (λ event. OfClient S.Kid.tells event self.old self.new × Counted event self.old self.new) }
        ensures none { IsNone result → IsQuiet S.Kid.tells self.old self.new × Counts self.old self.new }
    {
        let event = self.ask_clock()?;
        self.note(&event);
        Some(event)
    }

    fn ask_clock(&mut self) -> Option<Event>
        ensures some { IfSome result (λ event. OnClients (Tells event) self.old self.new) }
        ensures none { IsNone result → OnClients IsQuietSet self.old self.new }
        ensures counted { OnClients SetCounted self.old self.new }
        ensures failure { has_failed result ≡ true → Rose self.old.set.faults self.new.set.faults }
    {
        self.sockets.tick()
    }

    // The children before the clients, but not for ever.
    fn hear_rest(&mut self) -> Option<Event>
        ensures some { IfSome result (λ event. IsHeard S.Kid.tells event self.old self.new × Counted event self.old self.new) }
        ensures none { IsNone result → IsQuiet S.Kid.tells self.old self.new × Counts self.old self.new }
    {
        if self.asks_children_first() {
            self.hear_child_first()
        } else {
            self.hear_client_first()
        }
    }

    // Whether the children come first. If they do, the clients do next, unless a child has something to tell.
    fn asks_children_first(&mut self) -> bool
        ensures { self.new ≡ self.old }
    {
        if self.has_given() || self.in_row >= IN_ROW || self.calm > 0 {
            return false;
        }
        self.calm = CALM;
        true
    }

    // Whether texts were given to a client since this was asked.
    fn has_given(&mut self) -> bool
        ensures { self.new ≡ self.old }
    {
        let gave = self.gave;
        self.gave = false;
        gave
    }

    fn hear_child_first(&mut self) -> Option<Event>
        ensures some { IfSome result (λ event. IsHeard S.Kid.tells event self.old self.new × Counted event self.old self.new) }
        ensures none { IsNone result → IsQuiet S.Kid.tells self.old self.new × Counts self.old self.new }
    {
        match self.hear_child() {
            Some(event) => Some(event),
            None => self.hear_client(),
        }
    }

    fn hear_client_first(&mut self) -> Option<Event>
        ensures some { IfSome result (λ event. IsHeard S.Kid.tells event self.old self.new × Counted event self.old self.new) }
        ensures none { IsNone result → IsQuiet S.Kid.tells self.old self.new × Counts self.old self.new }
    {
        match self.hear_client() {
            Some(event) => Some(event),
            None => self.hear_child(),
        }
    }

    // Stop, where it is due.
    fn hear_end(&mut self) -> Option<Event>
        ensures some { IfSome result (λ event. OfOrder S.Kid.tells event self.old self.new × Counted event self.old self.new) }
        ensures none { IsNone result → self.new ≡ self.old }
    {
        if self.is_stop_due() {
            Some(self.stop())
        } else {
            None
        }
    }

    #[tactic(auto, using(crate::proofs::Stops::due_why))]
    fn is_stop_due(&self) -> bool
        ensures { result ≡ true → IsStopDue self.now }
    {
        self.ending.is_due(self.is_still())
    }

    fn stop(&mut self) -> Event
        ensures event { result ≡ Event.Stop }
        ensures told { self.new ≡ record self.old { ending = stopped_by self.old.ending } }
    {
        self.ending.stop();
        Event::Stop
    }

    // Nothing is under way.
    fn is_still(&self) -> bool
        ensures { result ≡ true → IsStill self.now }
    {
        self.ending.draining
            && self.starts.is_empty()
            && self.children.is_empty()
            && self.sockets.is_all_shut()
            && self.sockets.is_all_sent()
    }

    fn hear_child(&mut self) -> Option<Event>
        ensures some { IfSome result (λ event. OfChild S.Kid.tells event self.old self.new × Counted event self.old self.new) }
        ensures none { IsNone result → IsQuiet S.Kid.tells self.old self.new × Counts self.old self.new }
    {
        let event = self.children.poll()?;
        self.calm = 0;
        self.in_row = self.in_row.saturating_add(1);
        Some(event)
    }

    fn hear_client(&mut self) -> Option<Event>
        ensures some { IfSome result (λ event. OfClient S.Kid.tells event self.old self.new × Counted event self.old self.new) }
        ensures none { IsNone result → IsQuiet S.Kid.tells self.old self.new × Counts self.old self.new }
    {
        self.in_row = 0;
        self.calm = self.calm.saturating_sub(1);
        let event = self.ask_clients()?;
        self.note(&event);
        Some(event)
    }

    // Where all are asked again in any case, whether nothing more is there needn't be known.
    fn ask_clients(&mut self) -> Option<Event>
        ensures some { IfSome result (λ event. OnClients (Tells event) self.old self.new) }
        ensures none { IsNone result → OnClients IsQuietSet self.old self.new }
        ensures counted { OnClients SetCounted self.old self.new }
        ensures failure { has_failed result ≡ true → Rose self.old.set.faults self.new.set.faults }
    {
        if self.again {
            return self.sockets.glance();
        }
        match self.sockets.poll() {
            Polled::Told(event) => Some(event),
            Polled::Nothing => None,
            Polled::Again => {
                self.again = true;
                None
            }
        }
    }

    // A tick counts once a quiet end was ordered.
    fn note(&mut self, event: &Event)
        ensures { self.new ≡ record self.old { ending = ending_after event.now self.old.ending } }
    {
        match event {
            Event::Tick { .. } => self.ending.tick(),
            _ => {}
        }
    }

    // ---- acts

    /// Does an act.
    pub fn do_act(&mut self, act: &Act) -> Acted
        ensures does { Acts S.Kid.tells act.now result self.old self.new }
        ensures room { carries_nothing act.now ≡ true → result ≡ Acted.Done }
        ensures counts { Counts self.old self.new }
    {
        match act {
            Act::Start { k, c, launch, .. } => acted(self.keep(*k, *c, launch)),
            Act::Feed { .. }
            | Act::EndInput { .. }
            | Act::WantChild { .. }
            | Act::Kill { .. }
            | Act::Release { .. } => self.act_on_child(act),
            _ => self.act_on_client(act),
        }
    }

    fn keep(&mut self, k: u64, c: u64, launch: &Launch) -> Result<(), NoMemory>
        ensures ok { OnOk result (Asks k c launch.now self.old self.new) }
        ensures err { OnErr result (self.new ≡ self.old) }
    {
        let launch = launch.copy()?;
        self.starts.push(Asked { k, c, launch })?;
        Ok(())
    }

    fn act_on_child(&mut self, act: &Act) -> Acted
        ensures does { OnChildren (ChildrenDo S.Kid.tells act.now result) self.old self.new }
        ensures room { carries_nothing act.now ≡ true → result ≡ Acted.Done }
        ensures counts { Counts self.old self.new }
    {
        self.calm = 0;
        self.children.act(act)
    }

    #[tactic(auto, using(crate::proofs::Causes::set_counted))]
    fn act_on_client(&mut self, act: &Act) -> Acted
        ensures does { OnClients (SetActs act.now result) self.old self.new }
        ensures room { carries_nothing act.now ≡ true → result ≡ Acted.Done }
        ensures counts { Counts self.old self.new }
    {
        let acted = self.sockets.act(act);
        self.note_given(act);
        acted
    }

    // The client of a WebSocket takes its texts before its child has more for it.
    fn note_given(&mut self, act: &Act)
        ensures { self.new ≡ self.old }
    {
        if let Act::Says { .. } = act {
            self.gave = true;
        }
    }

    /// Ends every child and spends all tickets, accepts no further client and shuts every client that is there: one that takes
    /// nothing of what is unsent to it for 150 ticks is given up.
    pub fn halt(&mut self)
        ensures halted { IsHalted self.new }
        ensures ended { AreEnded S.Kid.tells self.old.rows }
    {
        self.children.end_all();
        self.sockets.end_listening();
        shut_all(&mut self.sockets);
    }

    /// Ends every child, spends all tickets and sends what is still unsent, for at most 150 ticks without a byte that
    /// leaves for a client. It gives its part of the ledger back.
    pub fn end(self) -> Share<L>
        ensures ended { AreEnded S.Kid.tells self.rows }
        ensures one_part { result.parts ≡ 1 }
        ensures none { result.amount ≡ 0 }
    {
        let rt = self.rt;
        let mut out = self;
        out.halt();
        send_one(&rt, &mut out);
        out.give_back()
    }

    /// Of a loop to whose clients nothing waits to be sent: ends every child, spends all tickets, and gives its part of
    /// the ledger back.
    pub(crate) fn give_back(self) -> Share<L>
        requires { IsSent self }
        ensures ended { AreEnded S.Kid.tells self.rows }
        ensures one_part { result.parts ≡ 1 }
        ensures none { result.amount ≡ 0 }
    {
        let NetOutside {
            rt: _,
            sockets: _,
            children,
            orders: _,
            starts: _,
            unstarted: _,
            ending: _,
            again: _,
            in_row: _,
            calm: _,
            gave: _,
            limit: _,
        } = self;
        children.end()
    }
}

impl<P: Ports + Drop, S: Spawner + Drop, O: Orders + Drop, L: Ledger, R: Wait + Copy + Drop> Leaving
    for NetOutside<P, S, O, L, R> {
    ghost use Rattle.edge_loop.specs.Loops.{IsHalted, IsSent};

    ghost is_halted = { IsHalted };

    ghost is_sent = { IsSent };

    #[tactic(auto, using(crate::proofs::Closing::closed_polled))]
    fn send_some(&mut self) -> Sending {
        if self.sockets.is_all_sent() {
            return Sending::Done;
        }
        match self.sockets.poll() {
            Polled::Nothing => Sending::Blocked,
            Polled::Told(_) | Polled::Again => Sending::Moving,
        }
    }

    #[tactic(auto, using(crate::proofs::Closing::closed_quiet))]
    fn wait_to_send(&mut self, millis: u64) {
        self.sockets.wait(millis);
    }
}

// Has the clients obey an order. No further one is accepted. Before a quiet end each that speaks no WebSocket is heard to
// end behind what it has sent.
fn tell_clients<P: Ports + Drop>(sockets: &mut SocketSet<P>, order: Order)
    ensures { SetObeys order sockets.old sockets.new }
{
    sockets.end_listening();
    match order {
        Order::Stop => {}
        Order::Drain => sockets.end_hearing(),
    }
}

// Shuts every client that is there.
fn shut_all<P: Ports + Drop>(sockets: &mut SocketSet<P>)
    ensures listening { sockets.new.listening ≡ sockets.old.listening }
    ensures shut { NoneOpen sockets.new }
{
    let mut c = sockets.next_from(0);
    while c < sockets.accepted() {
        shut_one(sockets, c);
        c = sockets.next_from(c + 1);
    }
}

// Shuts client c, if it is open.
#[tactic(auto, using(crate::proofs::Closing::closed_by, crate::proofs::Closing::closed_already))]
fn shut_one<P: Ports + Drop>(sockets: &mut SocketSet<P>, c: u64)
    ensures { Closes c sockets.old sockets.new }
{
    if sockets.is_open(c) {
        let _ = sockets.act(&Act::Shut {
            c,
            why: Why::Stopped,
        });
    }
}

fn acted(done: Result<(), NoMemory>) -> Acted
    ensures { result ≡ (if is_ok done then Acted.Done else Acted.NoRoom) }
{
    match done {
        Ok(()) => Acted::Done,
        Err(NoMemory) => Acted::NoRoom,
    }
}
