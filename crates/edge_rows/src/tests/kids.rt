// Children in memory for the tests, and what starts them.
ghost use Rattle.std.specs.Prelude.{◌≡◌, Some, None};
ghost use Rattle.pipe_pump.specs.Rings.{IsFreshFeed};

use super::pipes::{ALL, Drain, PipeEnd, Source, one_more};
use super::watch::Watch;
use child_edge::{Birth, Kid, Reap, SpawnFault, Spawner};
use host_base::Launch;
use pipe_pump::{FeedRing, PumpDone, PumpEnd, PumpRing, pump_in};
use pipe_wait::PipeWait;
use pump_pool::{Job, OutHands, OutJob, OutPump, Worker};
use std::alloc::{AllocError, Global};
use std::snapshot::Snapshot;
use std::sync::atomic::AtomicBool;
use std::sync::{Arc, Wait};

/// What becomes of a start.
#[derive(Clone, Copy, Debug, PartialEq, Eq)]
pub enum Start {
    /// The program runs.
    Good,
    /// It is handed over, and none runs.
    Fails,
    /// It isn't handed over.
    Refused,
}

/// What a watch is to show before something is told of a program.
#[derive(Clone, Copy, Debug)]
pub struct Hours {
    pub start: u64,
    pub output: u64,
    pub exit: u64,
}

/// What a program does.
#[derive(Clone, Copy, Debug)]
pub struct Plan {
    pub start: Start,
    /// So many asks what became of its start are too early.
    pub starts_after: u32,
    /// How many bytes of output it gives, and what comes after them.
    pub pieces: u32,
    pub output: PipeEnd,
    /// Whether it takes its input, or how that ends at the first byte.
    pub input: PipeEnd,
    /// So many asks for its exit fail, and then so many are too early.
    pub reaps_fail: u32,
    pub exits_after: u32,
    /// Where it is watched.
    pub hours: Hours,
}

/// Three bytes, and an exit that is asked for three times.
pub const PLAIN: Plan = Plan {
    start: Start::Good,
    starts_after: 0,
    pieces: 3,
    output: PipeEnd::Good,
    input: PipeEnd::Good,
    reaps_fail: 0,
    exits_after: 2,
    hours: Hours {
        start: 0,
        output: 0,
        exit: 0,
    },
};

/// The pump of an input, which runs when it is asked for.
#[derive(Drop)]
pub struct Inward {
    pipe: Drain,
    ring: FeedRing,
    ghost fresh: { IsFreshFeed ring },
}

#[derive(Drop)]
pub struct FakeKid<R> {
    rt: R,
    launch: Snapshot<Launch>,
    feed: Snapshot<FeedRing>,
    /// The pump of its output, where it runs when it is asked for.
    outward: Option<OutJob<Source>>,
    output: OutPump<Source>,
    inward: Option<Inward>,
    /// What it is still to do.
    plan: Plan,
    watch: Option<Arc<Watch, Global>>,
    birth: Option<Birth>,
    out_end: Option<PumpEnd>,
    in_end: Option<PumpEnd>,
    reaped: bool,
    kills: u64,
    faults: u64,
    out_looks: u64,
    in_looks: u64,
    reap_looks: u64,
    start_looks: u64,
    ghost in_feed: { (x : _) → inward ≡ Some x → x.ring ≡ feed.value },
    ghost in_open: { (x : _) → inward ≡ Some x → in_end ≡ None },
}

impl<R> FakeKid<R> {
    ghost use Rattle.std.specs.Prelude.{◌≡◌, ◌≤◌};
    ghost use Rattle.host_base.specs.Outsides.{Rose};

    // Whether the watch, if there is one, shows this.
    fn has_come(&self, hour: u64) -> bool {
        match &self.watch {
            Some(watch) => watch.shows(hour),
            None => true,
        }
    }

    // Whether what became of its start isn't told yet.
    fn is_early(&mut self) -> bool
        ensures { self.new ≡ record self.old { plan = self.new.plan } }
    {
        if !self.has_come(self.plan.hours.start) {
            return true;
        }
        if self.plan.starts_after == 0 {
            return false;
        }
        self.plan.starts_after -= 1;
        true
    }

    // What became of its start. A failure is counted.
    fn born(&mut self) -> Birth
        ensures rest { self.new ≡ record self.old { faults = self.new.faults } }
        ensures count { self.old.faults ≤ self.new.faults }
        ensures cause { result ≡ Birth.Unborn → Rose self.old.faults self.new.faults }
    {
        match self.plan.start {
            Start::Good => Birth::Born,
            Start::Fails | Start::Refused => {
                self.faults = one_more(self.faults);
                Birth::Unborn
            }
        }
    }

    // It never ran, or it was reaped.
    fn is_over(&self) -> bool {
        self.reaped || matches!(self.birth, Some(Birth::Unborn))
    }
}

impl<R: Wait + Drop> Kid for FakeKid<R> {
    ghost use Rattle.child_edge.specs.Kids.{KidTells};
    ghost use Rattle.pump_pool.specs.Pumps.{ring_of};

    type In = Drain;

    type Out = Source;

    ghost tells = { λ kid.
        record {
          launch = kid.launch.value;
          ring = ring_of kid.output;
          feed = kid.feed.value;
          birth = kid.birth;
          out_end = kid.out_end;
          in_end = kid.in_end;
          reaped = kid.reaped;
          kills = kid.kills;
          faults = kid.faults;
          out_looks = kid.out_looks;
          in_looks = kid.in_looks;
          reap_looks = kid.reap_looks;
          start_looks = kid.start_looks;
        } };

    fn started(&mut self) -> Option<Birth> {
        self.start_looks = one_more(self.start_looks);
        if self.birth.is_some() || self.is_early() {
            return None;
        }
        let birth = self.born();
        self.birth = Some(birth);
        Some(birth)
    }

    fn out_done(&mut self) -> Option<PumpDone<Source>> {
        self.out_looks = one_more(self.out_looks);
        if self.out_end.is_some() || !self.has_come(self.plan.hours.output) {
            return None;
        }
        if let Some(job) = self.outward.take() {
            job.run(&self.rt, &mut PipeWait::none());
        }
        let done = self.output.done()?;
        self.faults = one_more(self.faults);
        self.out_end = Some(done.end);
        Some(done)
    }

    fn in_done(&mut self) -> Option<PumpDone<Drain>> {
        self.in_looks = one_more(self.in_looks);
        let Inward { pipe, ring } = self.inward.take()?;
        let done = pump_in(&self.rt, ring, pipe, &mut PipeWait::none());
        self.faults = one_more(self.faults);
        self.in_end = Some(done.end);
        Some(done)
    }

    fn kill(&mut self) {
        self.kills = one_more(self.kills);
        self.plan.exits_after = 0;
        self.plan.hours.exit = 0;
    }

    fn reap(&mut self) -> Reap {
        self.reap_looks = one_more(self.reap_looks);
        if self.reaped {
            return Reap::Exited;
        }
        if self.plan.reaps_fail > 0 {
            self.plan.reaps_fail -= 1;
            self.faults = one_more(self.faults);
            return Reap::Failed;
        }
        if self.plan.exits_after > 0 {
            self.plan.exits_after -= 1;
            return Reap::Running;
        }
        if !self.has_come(self.plan.hours.exit) {
            return Reap::Running;
        }
        self.reaped = true;
        Reap::Exited
    }

    // What is waited for comes at once.
    fn end(&mut self) -> bool {
        self.plan.starts_after = 0;
        self.plan.hours.start = 0;
        let _ = self.started();
        if let Some(Birth::Unborn) = self.birth {
            return true;
        }
        self.kill();
        if let Reap::Exited = self.reap() {
            return true;
        }
        self.faults = one_more(self.faults);
        false
    }
}

/// When the pump of an output runs.
#[derive(Clone, Copy)]
pub enum Runs {
    /// At the start, in a thread where there is one.
    First,
    /// When the kid is asked for its end.
    Last,
}

/// It starts a program of its plan, and then those of another.
#[derive(Drop)]
pub struct FakeSpawner<R> {
    rt: R,
    alloc: Global,
    plan: Plan,
    later: Plan,
    runs: Runs,
    /// How many bytes of its input a program takes at once, and how often it takes any.
    at_once: usize,
    writes: u32,
    /// What the output of the first program waits for.
    gate: Option<Arc<AtomicBool, Global>>,
    watch: Option<Arc<Watch, Global>>,
    threads: Vec<Worker<OutJob<Source>>>,
    faults: u64,
    taken: u64,
}

impl<R> FakeSpawner<R> {
    /// Each program has this plan, takes all of its input, and its pumps run when they are asked for.
    pub fn new(rt: R, alloc: Global, plan: Plan) -> Self {
        FakeSpawner {
            rt,
            alloc,
            plan,
            later: plan,
            runs: Runs::Last,
            at_once: usize::MAX,
            writes: ALL,
            gate: None,
            watch: None,
            threads: Vec::new(alloc),
            faults: 0,
            taken: 0,
        }
    }

    /// The first program has one plan and those after it another, and they are watched.
    pub fn watched(rt: R, alloc: Global, plans: [Plan; 2], watch: Arc<Watch, Global>) -> Self {
        let mut spawner = FakeSpawner::new(rt, alloc, plans[0]);
        spawner.later = plans[1];
        spawner.watch = Some(watch);
        spawner
    }

    /// The first program has one plan and those after it another. Each takes one byte at a time, so often. The pumps of the outputs
    /// run in these threads, or in place where there is none.
    pub fn with_threads(
        rt: R,
        alloc: Global,
        plans: [Plan; 2],
        writes: u32,
        gate: Option<Arc<AtomicBool, Global>>,
        threads: Vec<Worker<OutJob<Source>>>,
    ) -> Self {
        FakeSpawner {
            rt,
            alloc,
            plan: plans[0],
            later: plans[1],
            runs: Runs::First,
            at_once: 1,
            writes,
            gate,
            watch: None,
            threads,
            faults: 0,
            taken: 0,
        }
    }
}

impl<R> FakeSpawner<R> {
    // The watch for one more program.
    fn watch(&self) -> Result<Option<Arc<Watch, Global>>, AllocError> {
        match &self.watch {
            Some(watch) => Ok(Some(Arc::try_clone(watch)?)),
            None => Ok(None),
        }
    }

    // The input of one more.
    fn drain(&self, input: PipeEnd) -> Drain {
        match input {
            PipeEnd::Good => Drain::new(self.alloc, self.at_once, self.writes),
            end => Drain::ending(self.alloc, self.at_once, 0, end),
        }
    }
}

impl<R: Wait + Copy + Drop> FakeSpawner<R> {
    // Runs a pump, or leaves it to the kid.
    fn begin(&mut self, job: OutJob<Source>) -> Option<OutJob<Source>>
        ensures { (self.new.faults ≡ self.old.faults) × (self.new.taken ≡ self.old.taken) }
    {
        match (self.runs, self.threads.pop()) {
            (Runs::Last, _) => return Some(job),
            (Runs::First, Some(thread)) => drop(thread.give(job)),
            (Runs::First, None) => job.run(&self.rt, &mut PipeWait::none()),
        }
        None
    }
}

impl<R: Wait + Copy + Drop> Spawner for FakeSpawner<R> {
    type Kid = FakeKid<R>;

    ghost faults = { λ s. s.faults };

    ghost taken = { λ s. s.taken };

    fn start(
        &mut self,
        launch: &Launch,
        ring: PumpRing,
        feed: FeedRing,
    ) -> Result<FakeKid<R>, SpawnFault> {
        let plan = self.plan;
        self.plan = self.later;
        if let Start::Refused = plan.start {
            self.faults = one_more(self.faults);
            return Err(SpawnFault::Failed);
        }
        let (Ok(hands), Ok(watch)) = (OutHands::new(self.alloc), self.watch()) else {
            return Err(SpawnFault::NoMemory);
        };
        let source = Source {
            bytes: plan.pieces,
            end: plan.output,
            gate: self.gate.take(),
            faults: 0,
        };
        if let Some(watch) = &watch {
            watch.note_begun();
        }
        let (job, output) = hands.pump(source, ring);
        let outward = self.begin(job);
        Ok(FakeKid {
            rt: self.rt,
            launch: Snapshot::of(launch),
            feed: Snapshot::of(&feed),
            outward,
            output,
            inward: Some(Inward {
                pipe: self.drain(plan.input),
                ring: feed,
            }),
            plan,
            watch,
            birth: None,
            out_end: None,
            in_end: None,
            reaped: false,
            kills: 0,
            faults: 0,
            out_looks: 0,
            in_looks: 0,
            reap_looks: 0,
            start_looks: 0,
        })
    }

    fn take_back(&mut self, kid: FakeKid<R>) {
        if let Some(watch) = &kid.watch {
            watch.note_back(kid.is_over());
        }
        drop(kid);
        self.taken = self.taken.wrapping_add(1);
    }
}
