// The outside of the one connection.
ghost use Rattle.std.specs.Prelude.{◌≡◌, is_ok, if◌then◌else◌};
ghost use Rattle.host_trace.specs.Told as told;

use super::{Asked, StdioSocket};
use child_edge::{ChildSet, SpawnFault, Spawner};
use crossbeam_utils::sync::Parker;
use host_base::{Launch, NoMemory, Peer, Sink};
use host_trace::{Act, Acted, Event};
use pipe_pump::PipeIn;
use socket_set::Client;
use std::alloc::Global;
use std::marker::Model;
use std::sync::Wait;
use std::time::{Clock, Duration};

// How many bytes of the client are taken at a time at first: most requests are shorter, and each page that is touched
// costs.
const SMALL: usize = 4_096;

// .. and once a piece was as long as that.
const LARGE: usize = 65_536;

// The longest sleep, in milliseconds. What the bell doesn't tell is asked for after it.
const MOST: u64 = 100;

/// One connection and its children. It has no clock.
#[derive(Drop)]
pub struct OnceOutside<R, S: Spawner, P: PipeIn + Drop, K: Sink> {
    rt: R,
    alloc: Global,
    // What wakes it: the pumps of the client and of the children.
    sleeper: Parker,
    client: Client<StdioSocket<P, K>>,
    children: ChildSet<S>,
    peer: Option<Peer>,
    starts: Vec<Asked>,
    unstarted: Option<u64>,
    cut: bool,
    stopped: bool,
    buffer: Vec<u8>,
    limit: u32,
    faults: u64,
}

impl<R, S: Spawner, P: PipeIn + Drop, K: Sink> Model for OnceOutside<R, S, P, K> {
    ghost use Rattle.std.specs.Prelude.{◌<◌, ◌≤◌, vec_len};
    ghost use Rattle.child_edge.specs.Rows.{AllSound};
    ghost use Rattle.once_edge.specs.Once.{OnceState};

    ghost Value = { OnceState S.Kid };

    ghost view = { λ o.
        record {
          client = o.client;
          rows = o.children.rows.items;
          room = o.children.cap;
          tried = o.children.counts;
          failed = S.faults o.children.spawner;
          peer = o.peer;
          starts = o.starts.items;
          unstarted = o.unstarted;
          cut = o.cut;
          stopped = o.stopped;
          limit = o.limit;
          faults = o.faults;
        } };

    ghost invariant = { λ o. AllSound S.Kid.tells o.children.rows.items × (0 < vec_len o.buffer) × (vec_len o.buffer ≤ 65536) };
}

impl<
    R: Wait + Clock + Copy + Drop,
    S: Spawner + Drop,
    P: PipeIn + Drop,
    K: Sink + Drop,
> OnceOutside<R, S, P, K> {
    ghost use Rattle.std.specs.Prelude.{◌≡◌, ◌≤◌, ◌<◌, ◌⊎◌, [], true, false, Some, None, length, count_by, IfOk, IfSome, IsSome, IsNone, OnOk, OnErr, is_ok};
    ghost use Rattle.host_base.specs.Outsides.{Rose};
    ghost use Rattle.host_trace.specs.Told.{is_failure, carries_nothing};
    ghost use Rattle.child_edge.specs.Rows.{OneSays, Each, IsQuiet as IsQuietRow, AreEnded, kept, runs};
    ghost use Rattle.child_edge.specs.Starts.{no_starts};
    ghost use Rattle.socket_set.specs.Clients.{Says, Rests};
    ghost use Rattle.once_edge.specs.Stdio.{socket_tells};
    ghost use Rattle.once_edge.specs.Once.{OnceState, IsNew, IsQuiet, Counts, HandsOver, AllHanded, IsTold, IsHeard, IsOwed, Counted, OfClient, OfChild, OfStart, IsBegun, IsRefused, Acts, Asks, OnClient, OnChildren, is_on_child, is_on_client};

    /// A connection of which nothing was told, over children of which none was started. Whoever writes to its client
    /// or starts its children has a bell of the sleeper.
    pub fn new(
        rt: R,
        alloc: Global,
        sleeper: Parker,
        peer: Peer,
        socket: StdioSocket<P, K>,
        children: ChildSet<S>,
        limit: u32,
    ) -> Result<Self, NoMemory>
        requires empty { children.rows.items ≡ [] }
        requires counts { children.counts ≡ no_starts }
        ensures new { IfOk result (IsNew (socket_tells socket) peer limit) }
        ensures room { IfOk result (λ o. o.room ≡ children.cap) }
    {
        let buffer = vec![in alloc; 0u8; SMALL]?;
        Ok(OnceOutside {
            rt,
            alloc,
            sleeper,
            client: Client::new(alloc, socket),
            children,
            peer: Some(peer),
            starts: Vec::new(alloc),
            unstarted: None,
            cut: false,
            stopped: false,
            buffer,
            limit,
            faults: 0,
        })
    }

    // ---- events

    /// How often anything failed.
    pub fn faults(&self) -> u64
        ensures { result ≡ self.now.faults }
    {
        self.faults
    }

    /// The next event. It sleeps until there is one. After Stop there is none of its own accord.
    pub fn next_event(&mut self) -> Event
        ensures owed { IsOwed S.Kid.tells result self.old self.new }
        ensures counted { Counted result self.old self.new }
    {
        if let Some(event) = self.tell_due() {
            return event;
        }
        self.wait_for_event()
    }

    fn wait_for_event(&mut self) -> Event
        ensures heard { IsHeard S.Kid.tells result self.old self.new }
        ensures counted { Counted result self.old self.new }
    {
        let rt = self.rt;
        for _ in rt.forever() {
            match self.turn() {
                Some(event) => return event,
                None => {}
            }
        }
        unreachable!()
    }

    // Asks all, and sleeps where none has anything to tell.
    fn turn(&mut self) -> Option<Event>
        ensures some { IfSome result (λ event. IsHeard S.Kid.tells event self.old self.new × Counted event self.old self.new) }
        ensures none { IsNone result → IsQuiet S.Kid.tells self.old self.new × Counts self.old self.new }
    {
        match self.hear() {
            Some(event) => Some(event),
            None => {
                self.sleep();
                None
            }
        }
    }

    fn sleep(&mut self)
        ensures { self.new ≡ self.old }
    {
        self.sleeper
            .park_timeout(&self.rt, Duration::from_millis(MOST));
    }

    // What is told before anything is waited for. The starts that were asked for are handed over, up to one that is
    // refused.
    #[tactic(auto, using(crate::proofs::Handed::told_first))]
    fn tell_due(&mut self) -> Option<Event>
        ensures told { IfSome result (λ event. IsTold S.Kid.tells event self.old self.new) }
        ensures handed { IsNone result → AllHanded S.Kid.tells self.old self.new }
        ensures counted { IfSome result (λ event. Counted event self.old self.new) }
        ensures counts { Counts self.old self.new }
    {
        if let Some(peer) = self.peer.take() {
            return Some(Event::Accepted { peer });
        }
        if let Some(k) = self.unstarted.take() {
            return Some(self.fail(k));
        }
        self.hand_over()
    }

    // Tells that child k was not started, and counts it.
    fn fail(&mut self, k: u64) -> Event
        ensures event { result ≡ Event.StartFailed k }
        ensures same { self.new ≡ record self.old { faults = self.new.faults } }
        ensures grown { self.old.faults ≤ self.new.faults }
        ensures rose { Rose self.old.faults self.new.faults }
    {
        self.faults = self.faults.saturating_add(1);
        Event::StartFailed { k }
    }

    // Hands over the starts that were asked for, up to one that is refused.
    #[tactic(auto, using(crate::proofs::Handed::none_handed, crate::proofs::Handed::one_handed, crate::proofs::Handed::all_handed, crate::proofs::Handed::told_behind, crate::proofs::Quiet::counts_self, crate::proofs::Quiet::counts_two, crate::proofs::Quiet::counted_later))]
    fn hand_over(&mut self) -> Option<Event>
        requires connected { self.old.peer ≡ None }
        requires answered { self.old.unstarted ≡ None }
        ensures told { IfSome result (λ event. IsTold S.Kid.tells event self.old self.new) }
        ensures handed { IsNone result → AllHanded S.Kid.tells self.old self.new }
        ensures counted { IfSome result (λ event. Counted event self.old self.new) }
        ensures counts { Counts self.old self.new }
    {
        while !self.starts.is_empty() {
            if let Some(event) = self.start_first() {
                return Some(event);
            }
        }
        None
    }

    // Tries to hand over the first start that was asked for.
    fn start_first(&mut self) -> Option<Event>
        requires some { 0 < length self.old.starts }
        requires answered { self.old.unstarted ≡ None }
        ensures refused { IfSome result (λ event. OfStart event self.old self.new) }
        ensures handed { IsNone result → HandsOver S.Kid.tells self.old self.new }
        ensures counted { IfSome result (λ event. Counted event self.old self.new) }
        ensures counts { Counts self.old self.new }
    {
        let asked = self.starts.remove(0);
        self.begin(&asked)
    }

    fn begin(&mut self, asked: &Asked) -> Option<Event>
        ensures refused { IfSome result (λ event. IsRefused asked.now event self.old self.new) }
        ensures begun { IsNone result → IsBegun S.Kid.tells asked.now self.old self.new }
        ensures counted { IfSome result (λ event. Counted event self.old self.new) }
        ensures counts { Counts self.old self.new }
    {
        if !self.children.has_room() {
            return Some(self.fail(asked.k));
        }
        match self.children.start(asked.k, asked.c, &asked.launch) {
            Ok(()) => None,
            Err(SpawnFault::Failed) => Some(self.fail(asked.k)),
            Err(SpawnFault::NoMemory) if self.client.is_shut() => Some(self.fail(asked.k)),
            Err(SpawnFault::NoMemory) => {
                self.unstarted = Some(asked.k);
                Some(Event::NoRoom { c: asked.c })
            }
        }
    }

    // What a child has to tell, or else the client, or else that all is over; the children last where much waits for the
    // client.
    fn hear(&mut self) -> Option<Event>
        ensures some { IfSome result (λ event. IsHeard S.Kid.tells event self.old self.new × Counted event self.old self.new) }
        ensures none { IsNone result → IsQuiet S.Kid.tells self.old self.new × Counts self.old self.new }
    {
        if self.client.is_behind() {
            self.hear_child_last()
        } else {
            self.hear_child_first()
        }
    }

    fn hear_child_last(&mut self) -> Option<Event>
        ensures some { IfSome result (λ event. IsHeard S.Kid.tells event self.old self.new × Counted event self.old self.new) }
        ensures none { IsNone result → IsQuiet S.Kid.tells self.old self.new × Counts self.old self.new }
    {
        match self.hear_rest() {
            Some(event) => Some(event),
            None => self.hear_child(),
        }
    }

    fn hear_child_first(&mut self) -> Option<Event>
        ensures some { IfSome result (λ event. IsHeard S.Kid.tells event self.old self.new × Counted event self.old self.new) }
        ensures none { IsNone result → IsQuiet S.Kid.tells self.old self.new × Counts self.old self.new }
    {
        match self.hear_child() {
            Some(event) => Some(event),
            None => self.hear_rest(),
        }
    }

    #[tactic(auto, using(crate::proofs::Quiet::if_client))]
    fn hear_rest(&mut self) -> Option<Event>
        ensures some { IfSome result (λ event. IsHeard S.Kid.tells event self.old self.new × Counted event self.old self.new) }
        ensures none { IsNone result → IsQuiet S.Kid.tells self.old self.new × Counts self.old self.new }
    {
        if self.client.is_shut() {
            self.hear_shut()
        } else {
            self.hear_client()
        }
    }

    // Sends what waits, and tells once all is over.
    fn hear_shut(&mut self) -> Option<Event>
        requires { self.old.client.shut ≡ true }
        ensures some { IfSome result (λ event. IsHeard S.Kid.tells event self.old self.new × Counted event self.old self.new) }
        ensures none { IsNone result → IsQuiet S.Kid.tells self.old self.new × Counts self.old self.new }
    {
        self.send_rest();
        self.hear_end()
    }

    fn hear_child(&mut self) -> Option<Event>
        ensures some { IfSome result (λ event. OfChild S.Kid.tells event self.old self.new × Counted event self.old self.new) }
        ensures none { IsNone result → IsQuiet S.Kid.tells self.old self.new × Counts self.old self.new }
    {
        let event = self.poll()?;
        self.count_failure(&event);
        Some(event)
    }

    fn poll(&mut self) -> Option<Event>
        ensures some { IfSome result (λ event. OnChildren (λ rows now. OneSays S.Kid.tells event (kept rows) now) self.old self.new) }
        ensures none { IsNone result → OnChildren (λ rows now. Each (IsQuietRow S.Kid.tells) (kept rows) now) self.old self.new }
    {
        self.children.poll()
    }

    // Counts an event of failure. A client that failed is cut off.
    fn count_failure(&mut self, event: &Event)
        ensures same { self.new ≡ record self.old { faults = self.new.faults; cut = self.new.cut } }
        ensures counted { Counted event.now self.old self.new }
    {
        if !is_failure(event) {
            return;
        }
        self.faults = self.faults.saturating_add(1);
        if let Event::ClientGone { .. } = event {
            self.cut = true;
        }
    }

    fn hear_client(&mut self) -> Option<Event>
        requires { self.old.client.shut ≡ false }
        ensures some { IfSome result (λ event. OfClient S.Kid.tells event self.old self.new × Counted event self.old self.new) }
        ensures none { IsNone result → IsQuiet S.Kid.tells self.old self.new × Counts self.old self.new }
    {
        let event = self.ask_client()?;
        self.count_failure(&event);
        Some(event)
    }

    // Asks the client, whose bytes may have come since.
    fn ask_client(&mut self) -> Option<Event>
        requires { self.old.client.shut ≡ false }
        ensures some { IfSome result (λ event. OnClient (λ r s. Says 0 r s event) self.old self.new) }
        ensures none { IsNone result → OnClient Rests self.old self.new }
    {
        self.wake_client();
        let event = self.client.ask(self.alloc, 0, self.buffer.as_mut_slice())?;
        self.make_room(&event);
        Some(event)
    }

    // Has the buffer be large once a piece filled it. Where there is no memory for that it stays as it is.
    fn make_room(&mut self, event: &Event)
        ensures { self.new ≡ self.old }
    {
        if let Event::ClientBytes { bytes, .. } = event {
            if bytes.len() == self.buffer.len() && bytes.len() < LARGE {
                let _ = self.buffer.resize(LARGE, 0);
            }
        }
    }

    // The bytes of the client may have come, and it may take some.
    fn wake_client(&mut self)
        ensures { self.new ≡ self.old }
    {
        self.client.note(false);
    }

    // Sends what waits for a client that was shut, unless it failed. Where that can't be done, it is counted.
    fn send_rest(&mut self)
        requires { self.old.client.shut ≡ true }
        ensures quiet { IsQuiet S.Kid.tells self.old self.new }
        ensures counts { Counts self.old self.new }
        ensures shut { self.new.client.shut ≡ true }
    {
        if self.is_sent() {
            return;
        }
        if !self.leave() {
            return;
        }
        self.cut_off();
    }

    // One step of a client that was shut, and whether it is over with it.
    fn leave(&mut self) -> bool
        requires { self.old.client.shut ≡ true }
        ensures rests { OnClient Rests self.old self.new }
        ensures shut { self.new.client.shut ≡ true }
    {
        self.client.leave(self.buffer.as_mut_slice())
    }

    // What waits for the client can't be sent.
    fn cut_off(&mut self)
        ensures same { self.new ≡ record self.old { faults = self.new.faults; cut = true } }
        ensures grown { self.old.faults ≤ self.new.faults }
        ensures rose { Rose self.old.faults self.new.faults }
    {
        self.faults = self.faults.saturating_add(1);
        self.cut = true;
    }

    // Nothing waits for the client, or it failed.
    fn is_sent(&self) -> bool
        ensures { result ≡ true → (self.now.client.outgoing ≡ []) ⊎ (self.now.cut ≡ true) }
    {
        self.cut || self.client.is_sent()
    }

    // Nothing runs, and nothing is to be started.
    fn is_still(&self) -> bool
        ensures runs { result ≡ true → count_by runs self.now.rows ≡ 0 }
        ensures asked { result ≡ true → self.now.starts ≡ [] }
    {
        self.children.running() == 0 && self.starts.is_empty()
    }

    // All is over, and this was not told.
    fn is_over(&self) -> bool
        ensures untold { result ≡ true → self.now.stopped ≡ false }
        ensures sent { result ≡ true → (self.now.client.outgoing ≡ []) ⊎ (self.now.cut ≡ true) }
        ensures runs { result ≡ true → count_by runs self.now.rows ≡ 0 }
        ensures asked { result ≡ true → self.now.starts ≡ [] }
    {
        !self.stopped && self.is_sent() && self.is_still()
    }

    // Stop, once, where all is over.
    #[tactic(auto, using(crate::proofs::Quiet::over_heard, crate::proofs::Quiet::over_counted, crate::proofs::Quiet::quiet_self, crate::proofs::Quiet::counts_self))]
    fn hear_end(&mut self) -> Option<Event>
        requires { self.old.client.shut ≡ true }
        ensures some { IfSome result (λ event. IsHeard S.Kid.tells event self.old self.new × Counted event self.old self.new) }
        ensures none { IsNone result → IsQuiet S.Kid.tells self.old self.new × Counts self.old self.new }
    {
        if self.is_over() {
            self.stopped = true;
            Some(Event::Stop)
        } else {
            None
        }
    }

    // ---- acts

    /// Does an act.
    pub fn do_act(&mut self, act: &Act) -> Acted
        ensures does { Acts S.Kid.tells act.now result self.old self.new }
        ensures room { carries_nothing act.now ≡ true → result ≡ Acted.Done }
    {
        match act {
            Act::Start { k, c, launch, .. } => acted(self.keep(*k, *c, launch)),
            Act::Feed { .. }
            | Act::EndInput { .. }
            | Act::WantChild { .. }
            | Act::Kill { .. }
            | Act::Release { .. } => self.act_on_child(act),
            _ => self.act_on_client(act),
        }
    }

    fn keep(&mut self, k: u64, c: u64, launch: &Launch) -> Result<(), NoMemory>
        ensures ok { OnOk result (Asks k c launch.now self.old self.new) }
        ensures err { OnErr result (self.new ≡ self.old) }
    {
        let launch = launch.copy()?;
        self.starts.push(Asked { k, c, launch })?;
        Ok(())
    }

    fn act_on_child(&mut self, act: &Act) -> Acted
        requires { is_on_child act.now ≡ true }
        ensures does { Acts S.Kid.tells act.now result self.old self.new }
        ensures room { carries_nothing act.now ≡ true → result ≡ Acted.Done }
    {
        match act {
            Act::Feed { k, bytes } => return acted(self.children.feed(*k, bytes.as_slice())),
            Act::EndInput { k } => self.children.end_input(*k),
            Act::WantChild { k } => self.children.want(*k),
            Act::Kill { k } => self.children.kill(*k),
            Act::Release { k } => self.children.release(*k),
            _ => unreachable!(),
        }
        Acted::Done
    }

    fn act_on_client(&mut self, act: &Act) -> Acted
        requires { is_on_client act.now ≡ true }
        ensures does { Acts S.Kid.tells act.now result self.old self.new }
        ensures room { carries_nothing act.now ≡ true → result ≡ Acted.Done }
    {
        match act {
            Act::Write { bytes, .. } => return acted(self.client.write(bytes.as_slice())),
            Act::Upgrade { rest, .. } => {
                return acted(self.client.upgrade(self.alloc, rest.as_slice()));
            }
            Act::WantClient { .. } => self.client.want(),
            Act::Says { texts, .. } => self.client.say(texts.as_slice()),
            Act::CloseWs { code, .. } => self.client.close(*code),
            Act::Shut { .. } => self.client.shut(),
            _ => unreachable!(),
        }
        Acted::Done
    }

    /// Waits for the children that are being started, kills and reaps every child that is left. None is kept.
    pub fn end(&mut self)
        ensures ended { AreEnded S.Kid.tells self.old.rows }
        ensures none { self.new.rows ≡ [] }
        ensures rest { self.new ≡ record self.old { rows = []; failed = self.new.failed } }
        ensures grown { self.old.failed ≤ self.new.failed }
    {
        self.children.end();
    }
}

fn is_failure(event: &Event) -> bool
    ensures { result ≡ told.is_failure event.now }
{
    match event {
        Event::ClientGone { .. }
        | Event::WsBad { .. }
        | Event::StartFailed { .. }
        | Event::ChildBroken { .. }
        | Event::InputGone { .. } => true,
        _ => false,
    }
}

fn acted(done: Result<(), NoMemory>) -> Acted
    ensures { result ≡ (if is_ok done then Acted.Done else Acted.NoRoom) }
{
    match done {
        Ok(()) => Acted::Done,
        Err(NoMemory) => Acted::NoRoom,
    }
}
