// A real child.
ghost use Rattle.std.specs.Prelude.{◌≡◌, true, Some, None, MatchOption, is_some};
ghost use Rattle.host_base.specs.Outsides.{Rose};
ghost use Rattle.child_edge.specs.Kids.{is_failed};
ghost use Rattle.std_spawner.specs.Inputs.{feed_mark};
ghost use Rattle.child_edge.specs.declared.kid.Birth.TheVariants.{Born};
ghost use Rattle.std_spawner.specs.NewsEnds.{launch_heard};
ghost use Rattle.std_spawner.specs.Programs.{has_gone, launch_of};
ghost use Rattle.std_spawner.specs.Threads.{GivesThread};

use super::cell::Shared;
use super::input::Input;
use super::job::{PumpJob, leave_pump};
use super::news::{Listener, Started};
use super::pace::Pace;
use super::pipes::{ChildInput, ChildOutput};
use super::program::Program;
use super::threads::{StartThread, ThreadPool};
use child_edge::{Birth, Kid, Reap, SpawnFault};
use pipe_pump::{FeedRing, PumpDone, PumpEnd};
use pipe_wait::Release;
use pump_pool::{Busy, OutPump, Worker};
use std::snapshot::Snapshot;
use std::sync::Wait;
use std::thread;
use std::time::{Clock, Duration};

// Of so many looks at a child at work one asks the clock whether its exit is to be asked for. With many children a loop
// looks at each of them for every event of one.
const SELDOM: u64 = 8;

// How many microseconds pass between two looks whether a thread has told what the loop waits for.
const BETWEEN: u64 = 100;

/// A program that is being started, runs or has exited, its pumps and their threads.
#[derive(Drop)]
pub struct StdKid<R, T> {
    rt: R,
    threads: ThreadPool<T>,
    /// What tells of its start.
    listener: Listener,
    birth: Option<Birth>,
    /// The program as it was when it was started.
    begun: Option<Snapshot<Program>>,
    /// .. while it runs.
    shared: Shared,
    /// .. and once it has exited or was ended.
    program: Option<Program>,
    output: OutPump<ChildOutput>,
    /// That which starts it and reads its output, and looks for its exit then.
    thread: Option<Busy<PumpJob>>,
    /// The ring that the pump of its input was given.
    feed: Snapshot<FeedRing>,
    input: Input,
    /// Of both its pipes.
    release: Release,
    /// How each pump ended, once that was given.
    out_end: Option<PumpEnd>,
    in_end: Option<PumpEnd>,
    pace: Pace,
    reaped: bool,
    kills: u64,
    faults: u64,
    /// How often each was asked for.
    out_looks: u64,
    in_looks: u64,
    reap_looks: u64,
    start_looks: u64,
    /// Of a program that was reaped the system told how it ended, or that there is no such child any more.
    ghost told: { reaped ≡ true → has_gone program ≡ true },
    /// What is told as started is a program of the launch.
    ghost born: { birth ≡ Some Born → is_some begun ≡ true },
    ghost of_launch: { (p : _) → begun ≡ Some p → launch_of p.value ≡ launch_heard listener },
    ghost fed: { (f : _) → feed_mark input ≡ Some f → f ≡ feed.value },
}

fn one_more(count: u64) -> u64
    ensures { Rose count result }
{
    count.saturating_add(1)
}

fn has_failed(end: PumpEnd) -> bool
    ensures { result ≡ is_failed end }
{
    match end {
        PumpEnd::AtEnd => false,
        PumpEnd::Broken | PumpEnd::Spent | PumpEnd::Abandoned | PumpEnd::LetGo => true,
    }
}

impl<R: Wait + Clock + Copy + Drop, T: StartThread + Drop> Kid for StdKid<R, T> {
    ghost use Rattle.std.specs.Prelude.{◌≡◌};
    ghost use Rattle.host_base.specs.Outsides.{Rose};
    ghost use Rattle.child_edge.specs.Kids.{SameKid, SameOut, SameIn, SameBirth, Reaps};
    ghost use Rattle.std_spawner.specs.Kids.{kid_tells, is_gone};

    type In = ChildInput;

    type Out = ChildOutput;

    ghost tells = { kid_tells };

    fn started(&mut self) -> Option<Birth> {
        self.start_looks = one_more(self.start_looks);
        if self.birth.is_some() {
            return None;
        }
        let birth = match self.listener.hear()? {
            Some(started) => {
                self.take_up(started);
                Birth::Born
            }
            None => {
                self.faults = one_more(self.faults);
                Birth::Unborn
            }
        };
        self.birth = Some(birth);
        Some(birth)
    }

    fn out_done(&mut self) -> Option<PumpDone<ChildOutput>> {
        self.out_looks = one_more(self.out_looks);
        if self.out_end.is_some() || !self.output.has_ended() {
            return None;
        }
        let done = self.output.done()?;
        self.count_end(done.end);
        self.out_end = Some(done.end);
        self.pace.leave();
        Some(done)
    }

    #[tactic(auto, using(crate::proofs::Given::rose_later))]
    fn in_done(&mut self) -> Option<PumpDone<ChildInput>> {
        self.in_looks = one_more(self.in_looks);
        if self.in_end.is_some() || self.input.is_quiet() {
            return None;
        }
        let done = self.look_input()?;
        self.count_end(done.end);
        self.in_end = Some(done.end);
        Some(done)
    }

    fn kill(&mut self) {
        self.kills = one_more(self.kills);
        self.kill_program();
        self.pace.leave();
    }

    fn reap(&mut self) -> Reap
        ensures same { SameKid (kid_tells self.old) (kid_tells self.new) }
        ensures rest { SameOut (kid_tells self.old) (kid_tells self.new) × SameIn (kid_tells self.old) (kid_tells self.new) }
        ensures birth { SameBirth (kid_tells self.old) (kid_tells self.new) }
        ensures looked { Rose (kid_tells self.old).reap_looks (kid_tells self.new).reap_looks }
        ensures answer { Reaps (kid_tells self.old) (kid_tells self.new) result }

        // No exit that the system tells is lost.
        ensures told { result ≡ Reap.Running → is_gone self.new ≡ is_gone self.old }
    {
        self.reap_looks = one_more(self.reap_looks);
        if self.reaped {
            return Reap::Exited;
        }
        if self.is_passed_over() || !self.pace.is_due(&self.rt) {
            return Reap::Running;
        }
        match self.shared.take_exited(&self.rt) {
            Ok(Some(program)) => {
                self.program = Some(program);
                self.reaped = true;
                self.rest();
                Reap::Exited
            }
            Ok(None) => Reap::Running,
            Err(_) => {
                self.faults = one_more(self.faults);
                Reap::Failed
            }
        }
    }

    fn end(&mut self) -> bool {
        self.await_start();
        if let Some(Birth::Unborn) = self.birth {
            return true;
        }
        if !self.reaped {
            self.reaped = self.end_program();
        }
        if !self.reaped {
            self.faults = one_more(self.faults);
        }
        self.reaped
    }
}

impl<R: Wait, T> StdKid<R, T> {
    ghost use Rattle.std.specs.Prelude.{◌≡◌, ◌≤◌, true, is_some};
    ghost use Rattle.std_spawner.specs.Kids.{SameButFaults};
    ghost use Rattle.std_spawner.specs.NewsEnds.{launch_heard};
    ghost use Rattle.std_spawner.specs.Programs.{launch_of};

    // The program runs. It is killed where that was asked for meanwhile.
    fn take_up(&mut self, started: Started)
        requires { launch_of started.program.value ≡ launch_heard self.old.listener }
        ensures same { SameButFaults self.old self.new }
        ensures begun { is_some self.new.begun ≡ true }
    {
        let Started { program, input } = started;
        self.begun = Some(program);
        self.input.open(input);
        if self.kills > 0 {
            self.kill_program();
        }
    }

    // Kills it where it runs. That it couldn't be is counted.
    fn kill_program(&mut self)
        ensures same { SameButFaults self.old self.new }
        ensures begun { self.new.begun ≡ self.old.begun }
    {
        if !self.shared.kill(&self.rt) {
            self.faults = one_more(self.faults);
        }
        if let Some(thread) = &self.thread {
            thread.wake();
        }
    }
}

impl<R, T> StdKid<R, T> {
    ghost use Rattle.std.specs.Prelude.{◌≡◌, ◌≤◌, true};
    ghost use Rattle.host_base.specs.Outsides.{Rose};
    ghost use Rattle.child_edge.specs.Kids.{is_failed};

    // An end that is no clean one is counted.
    fn count_end(&mut self, end: PumpEnd)
        ensures rest { self.new ≡ record self.old { faults = self.new.faults } }
        ensures count { self.old.faults ≤ self.new.faults }
        ensures cause { is_failed end ≡ true → Rose self.old.faults self.new.faults }
    {
        if has_failed(end) {
            self.faults = one_more(self.faults);
        }
    }

    // Whether this look asks not even the clock: it is at work, as its output is open and nobody killed it.
    fn is_passed_over(&self) -> bool {
        self.out_end.is_none() && self.kills == 0 && self.reap_looks % SELDOM != 0
    }
}

impl<R: Wait, T: StartThread + Drop> StdKid<R, T> {
    ghost use Rattle.std.specs.Prelude.{◌≡◌};

    // Gives its thread back, where that has nothing to do any more: its output has ended too.
    fn rest(&mut self)
        ensures { self.new ≡ record self.old { thread = self.new.thread } }
    {
        if self.out_end.is_none() {
            return;
        }
        if let Some(thread) = self.thread.take() {
            give_one(&self.rt, &self.threads, thread.worker());
        }
    }
}

impl<R: Wait + Clock + Copy + Drop, T: StartThread + Drop> StdKid<R, T> {
    ghost use Rattle.std.specs.Prelude.{◌≡◌, ◌≤◌, true, false, IsSome};
    ghost use Rattle.std_spawner.specs.Programs.{has_gone};
    ghost use Rattle.std_spawner.specs.Kids.{kid_tells};
    ghost use Rattle.std_spawner.specs.NewsEnds.{launch_heard};

    // Waits until its start was told.
    fn await_start(&mut self)
        ensures launch { launch_heard self.new.listener ≡ launch_heard self.old.listener }
        ensures count { self.old.faults ≤ self.new.faults }
    {
        let rt = self.rt;
        for _ in rt.forever() {
            let _ = self.started();
            if self.birth.is_some() {
                return;
            }
            thread::sleep(&rt, Duration::from_micros(BETWEEN));
        }
        unreachable!()
    }

    // Kills and reaps the program, and answers whether that is gone then.
    fn end_program(&mut self) -> bool
        requires { self.old.reaped ≡ false }
        ensures same { kid_tells self.new ≡ kid_tells self.old }
        ensures gone { result ≡ true → has_gone self.new.program ≡ true }
    {
        let Some(program) = self.shared.take(&self.rt) else {
            return false;
        };
        let mut program = program;
        let is_gone = program.end();
        self.program = Some(program);
        is_gone
    }
}

impl<R, T> StdKid<R, T> {
    ghost use Rattle.std.specs.Prelude.{◌≡◌};
    ghost use Rattle.pump_pool.specs.Pumps.{ring_of};
    ghost use Rattle.std_spawner.specs.Kids.{IsNewStdKid};
    ghost use Rattle.std_spawner.specs.NewsEnds.{launch_heard};
    ghost use Rattle.std_spawner.specs.Inputs.{feed_mark};

    /// `feed` is the ring of its input.
    #[tactic(auto, using(crate::proofs::Given::marked))]
    pub(crate) fn new(
        rt: R,
        threads: ThreadPool<T>,
        listener: Listener,
        shared: Shared,
        output: OutPump<ChildOutput>,
        thread: Busy<PumpJob>,
        feed: Snapshot<FeedRing>,
        input: Input,
        release: Release,
    ) -> Self
        requires { feed_mark input ≡ Some feed.value }
        ensures { IsNewStdKid (launch_heard listener) (ring_of output) feed.value result }
    {
        StdKid {
            rt,
            threads,
            listener,
            birth: None,
            begun: None,
            shared,
            program: None,
            output,
            thread: Some(thread),
            feed,
            input,
            release,
            out_end: None,
            in_end: None,
            pace: Pace::new(),
            reaped: false,
            kills: 0,
            faults: 0,
            out_looks: 0,
            in_looks: 0,
            reap_looks: 0,
            start_looks: 0,
        }
    }
}

impl<R: Wait, T: StartThread + Drop> StdKid<R, T> {
    ghost use Rattle.std.specs.Prelude.{◌≡◌, IfSome};
    ghost use Rattle.std_spawner.specs.Kids.{SameButInput};
    ghost use Rattle.std_spawner.specs.Inputs.{IsInputEnd};

    // Looks at the pump of its input. That no thread was to be had for it is counted.
    #[tactic(auto, using(crate::proofs::Given::input_end_if))]
    fn look_input(&mut self) -> Option<PumpDone<ChildInput>>
        ensures same { SameButInput self.old self.new }
        ensures end { IfSome result (IsInputEnd self.old.feed.value) }
    {
        match self.input.done(&self.rt, &self.threads) {
            Ok(done) => done,
            Err(SpawnFault::NoMemory) => None,
            Err(SpawnFault::Failed) => {
                self.faults = one_more(self.faults);
                None
            }
        }
    }
}

impl<R: Wait + Clock + Copy + Drop, T: StartThread + Drop> StdKid<R, T> {
    /// Lets its pipes go, so that a program which was left behind and holds their other ends keeps nothing of ours, and gives
    /// its threads back to their pool.
    pub(crate) fn give_back(self) {
        let mut kid = self;
        kid.out_done();
        kid.in_done();
        let StdKid {
            rt,
            threads,
            listener: _,
            birth: _,
            begun: _,
            shared: _,
            program: _,
            output: _,
            thread,
            feed: _,
            input,
            release,
            out_end: _,
            in_end: _,
            pace: _,
            reaped: _,
            kills: _,
            faults: _,
            out_looks: _,
            in_looks: _,
            reap_looks: _,
            start_looks: _,
        } = kid;
        release.let_go();
        give_one(&rt, &threads, leave_thread(thread));
        give_one(&rt, &threads, input.leave());
    }
}

// What is left of a thread that may still be at its job.
fn leave_thread(thread: Option<Busy<PumpJob>>) -> Option<Worker<PumpJob>>
    ensures { MatchOption thread (result ≡ None) (λ busy. GivesThread busy result) }
{
    leave_pump(thread?)
}

fn give_one<R: Wait, T: StartThread + Drop>(
    rt: &R,
    threads: &ThreadPool<T>,
    thread: Option<Worker<PumpJob>>,
) {
    if let Some(thread) = thread {
        threads.put(rt, thread);
    }
}
