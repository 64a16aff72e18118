// What starts real children.
ghost use Rattle.std.specs.Prelude.{◌≡◌, IfOk};
ghost use Rattle.pipe_pump.specs.Rings.{IsFreshRing, IsFreshFeed};
ghost use Rattle.std_spawner.specs.Commands.{Runs};
ghost use Rattle.std_spawner.specs.Kids.{IsNewStdKid};
ghost use Rattle.std_spawner.specs.NewsEnds.{launch_told, launch_heard};

use super::cell::Shared;
use super::command::command;
use super::input::{Held, Input};
use super::job::{PumpJob, Task};
use super::kid::StdKid;
use super::news::{Listener, Teller};
use super::pipes::{ChildInput, ChildOutput, StandardInput};
use super::start::{OutputJob, StartJob};
use super::threads::{StartThread, ThreadPool};
use child_edge::{Kid, SpawnFault, Spawner};
use host_base::{Launch, NoMemory};
use loop_bell::Bell;
use pipe_pump::{FeedRing, PumpRing};
use pipe_wait::Release;
use pump_pool::{Busy, InHands, OutHands, OutPump, Worker};
use std::alloc::Global;
use std::io::Stdin;
use std::process::{Command, Processes, SystemProcess};
use std::snapshot::Snapshot;
use std::sync::Wait;
use std::time::Clock;

/// What one child needs besides its rings.
#[derive(Drop)]
struct Parts {
    start: Starts,
    output: ChildOutput,
    output_hands: OutHands<ChildOutput>,
    output_release: Release,
    input: ChildInput,
    input_hands: InHands<ChildInput>,
    input_bell: Bell,
    shared: Shared,
    release: Release,
}

/// What its start needs.
#[derive(Drop)]
struct Starts {
    command: Command,
    launch: Snapshot<Launch>,
    teller: Teller,
    listener: Listener,
    shared: Shared,
    bell: Bell,
    end_bell: Bell,
    ghost runs: { Runs command launch.value },
    ghost told: { launch_told teller ≡ launch.value },
    ghost heard: { launch_heard listener ≡ launch.value },
}

/// Starts programs of the system. The pumps of a child run in threads of its own, that of its input once there is
/// something to move; idle threads are used again, and a bounded number of them is kept. Where a pump still runs when its
/// child is taken back, since a program which that left behind holds its pipe, the pipe is let go: our end is closed, and
/// the thread is used again.
#[derive(Drop)]
pub struct StdSpawner<R, T> {
    rt: R,
    alloc: Global,
    bell: Bell,
    threads: ThreadPool<T>,
    /// The thread of the pump of standard input, if there is one.
    client: Option<Busy<PumpJob>>,
    faults: u64,
    /// How many kids it took back.
    taken: u64,
}

impl<R: Drop, T: StartThread + Drop> StdSpawner<R, T> {
    /// `bell` wakes the loop of the children, and at most `idle` threads are kept that have nothing to do.
    pub fn new(rt: R, alloc: Global, bell: Bell, starter: T, idle: usize) -> Result<Self, NoMemory>
        ensures { IfOk result (λ spawner. spawner.faults ≡ 0) }
    {
        Ok(StdSpawner {
            rt,
            alloc,
            bell,
            threads: ThreadPool::new(alloc, starter, idle)?,
            client: None,
            faults: 0,
            taken: 0,
        })
    }

    // The command of a launch, and how its start is told.
    fn starts_of(&self, launch: &Launch, shared: Shared) -> Result<Starts, NoMemory>
        ensures { IfOk result (λ starts. starts.launch.value ≡ launch.now) }
    {
        let (teller, listener) = Teller::pair(self.alloc, launch)?;
        Ok(Starts {
            command: command(self.alloc, launch)?,
            launch: Snapshot::of(launch),
            teller,
            listener,
            shared,
            bell: self.bell.another()?,
            end_bell: self.bell.another()?,
        })
    }

    // All that a child needs: no memory is wanting once it was handed over.
    fn parts_of(&self, launch: &Launch) -> Result<Parts, NoMemory>
        ensures { IfOk result (λ parts. parts.start.launch.value ≡ launch.now) }
    {
        let release = Release::new(self.alloc)?;
        let shared = Shared::new(self.alloc)?;
        Ok(Parts {
            start: self.starts_of(launch, shared.another()?)?,
            output: ChildOutput::closed(self.bell.another()?),
            output_hands: OutHands::new(self.alloc)?,
            output_release: release.another()?,
            input: ChildInput::closed(release.another()?, self.bell.another()?),
            input_hands: InHands::new(self.alloc)?,
            input_bell: self.bell.another()?,
            shared,
            release,
        })
    }
}

impl<R: Wait + Drop, T: StartThread + Drop> StdSpawner<R, T> {
    ghost use Rattle.std.specs.Prelude.{◌≡◌, ◌≤◌, IfOk};
    ghost use Rattle.host_base.specs.Outsides.{Rose};
    ghost use Rattle.pipe_pump.specs.Rings.{IsFreshRing};
    ghost use Rattle.pump_pool.specs.Pumps.{ring_of};

    // The thread of standard input, where that has ended.
    fn rested_client(&mut self) -> Option<Worker<PumpJob>>
        ensures { self.new ≡ record self.old { client = self.new.client } }
    {
        let client = self.client.take()?;
        if client.rests() {
            return client.worker();
        }
        self.client = Some(client);
        None
    }

    // A thread that waits, or else a new one.
    fn thread(&mut self) -> Result<Worker<PumpJob>, SpawnFault>
        ensures { self.new ≡ record self.old { client = self.new.client } }
    {
        match self.rested_client() {
            Some(thread) => Ok(thread),
            None => self.threads.take(&self.rt),
        }
    }

    // A thread, a bell for its pump and one for the pump's end, and room for that end.
    fn begin_input(
        &mut self,
        input: Stdin,
        ring: PumpRing,
    ) -> Result<OutPump<StandardInput>, SpawnFault>
        requires { IsFreshRing ring }
        ensures pump { IfOk result (λ pump. ring_of pump ≡ ring) }
        ensures same { self.new ≡ record self.old { client = self.new.client } }
    {
        let thread = self.thread()?;
        let (Ok(bell), Ok(end_bell), Ok(hands)) = (
            self.bell.another(),
            self.bell.another(),
            OutHands::new(self.alloc),
        ) else {
            self.threads.put(&self.rt, thread);
            return Err(SpawnFault::NoMemory);
        };
        let (job, pump) = hands.pump(StandardInput::closed(bell).opened(input), ring);
        self.client = Some(thread.give(PumpJob::new(Task::Client(job), end_bell)));
        Ok(pump)
    }

    /// Starts a pump from standard input to a ring. Once it has ended, its thread is used for a child.
    pub fn read_input(
        &mut self,
        input: Stdin,
        ring: PumpRing,
    ) -> Result<OutPump<StandardInput>, SpawnFault>
        requires { IsFreshRing ring }
        ensures pump { IfOk result (λ pump. ring_of pump ≡ ring) }
        ensures count { self.old.faults ≤ self.new.faults }
        ensures failed { result ≡ Err SpawnFault.Failed → Rose self.old.faults self.new.faults }
        ensures taken { self.new.taken ≡ self.old.taken }
    {
        let started = self.begin_input(input, ring);
        if let Err(SpawnFault::Failed) = &started {
            self.faults = self.faults.saturating_add(1);
        }
        started
    }
}

impl<R: Wait + Copy + Drop, T: StartThread + Drop> StdSpawner<R, T> {
    ghost use Rattle.std.specs.Prelude.{◌≡◌, IfOk};
    ghost use Rattle.pipe_pump.specs.Rings.{IsFreshRing, IsFreshFeed};
    ghost use Rattle.std_spawner.specs.Kids.{IsNewStdKid};

    // Hands the start over to a thread.
    fn start_kid(
        &mut self,
        launch: &Launch,
        ring: PumpRing,
        feed: FeedRing,
    ) -> Result<StdKid<R, T>, SpawnFault>
        requires ring { IsFreshRing ring }
        requires feed { IsFreshFeed feed }
        ensures kid { IfOk result (IsNewStdKid launch.now ring feed) }
        ensures count { self.new.faults ≡ self.old.faults }
        ensures taken { self.new.taken ≡ self.old.taken }
    {
        let (Ok(threads), Ok(parts)) = (self.threads.another(), self.parts_of(launch)) else {
            return Err(SpawnFault::NoMemory);
        };
        let thread = self.thread()?;
        Ok(hand_over(self.rt, threads, thread, parts, ring, feed))
    }
}

// Hands a start over to this thread.
fn hand_over<R: Drop, T: Drop>(
    rt: R,
    threads: ThreadPool<T>,
    thread: Worker<PumpJob>,
    parts: Parts,
    ring: PumpRing,
    feed: FeedRing,
) -> StdKid<R, T>
    requires ring { IsFreshRing ring }
    requires feed { IsFreshFeed feed }
    ensures { IsNewStdKid parts.start.launch.value ring feed result }
{
    let Parts {
        start,
        output,
        output_hands,
        output_release,
        input,
        input_hands,
        input_bell,
        shared,
        release,
    } = parts;
    let fed = Snapshot::of(&feed);
    let held = Held::new(input, feed, input_hands, input_bell);
    let (back, pump) = output_hands.back(&output, &ring);
    let output = OutputJob::new(output, ring, back, output_release);
    let (job, listener) = start.job(output);
    StdKid::new(
        rt,
        threads,
        listener,
        shared,
        pump,
        thread.give(job),
        fed,
        Input::Held(held),
        release,
    )
}

impl Starts {
    ghost use Rattle.std.specs.Prelude.{◌≡◌};
    ghost use Rattle.std_spawner.specs.NewsEnds.{launch_heard};

    // The job of a thread, and what hears of the start.
    fn job(self, output: OutputJob) -> (PumpJob, Listener)
        ensures { launch_heard result.1 ≡ self.launch.value }
    {
        let Starts {
            command,
            launch,
            teller,
            listener,
            shared,
            bell,
            end_bell,
        } = self;
        let job = StartJob::new(command, launch, teller, shared, bell, output);
        (PumpJob::new(Task::Start(job), end_bell), listener)
    }
}

impl<
    R: Processes<Started = SystemProcess> + Wait + Clock + Copy + Drop,
    T: StartThread + Drop,
> Spawner for StdSpawner<R, T> {
    type Kid = StdKid<R, T>;

    ghost faults = { λ s. s.faults };

    ghost taken = { λ s. s.taken };

    fn start(
        &mut self,
        launch: &Launch,
        ring: PumpRing,
        feed: FeedRing,
    ) -> Result<StdKid<R, T>, SpawnFault> {
        let started = self.start_kid(launch, ring, feed);
        if let Err(SpawnFault::Failed) = &started {
            self.faults = self.faults.saturating_add(1);
        }
        started
    }

    fn take_back(&mut self, kid: StdKid<R, T>) {
        let mut kid = kid;
        if !kid.end() {
            self.faults = self.faults.saturating_add(1);
        }
        kid.give_back();
        self.taken = self.taken.wrapping_add(1);
    }
}
