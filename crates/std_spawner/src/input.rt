// The pump of a child's input, which gets its thread once it has something to move.
ghost use Rattle.std.specs.Prelude.{◌≡◌};
ghost use Rattle.pipe_pump.specs.Rings.{IsFreshFeed, SameFeedRing};
ghost use Rattle.pump_pool.specs.Pumps.{feed_of};

use super::job::{PumpJob, Task, leave_pump};
use super::pipes::ChildInput;
use super::threads::{StartThread, ThreadPool};
use child_edge::SpawnFault;
use loop_bell::Bell;
use pipe_pump::{FeedLook, FeedRing, PumpDone, pump_in};
use pipe_wait::{PipeSide, PipeWait};
use pump_pool::{Busy, InHands, InPump, Worker};
use std::mem;
use std::process::ChildStdin;
use std::snapshot::Snapshot;
use std::sync::Wait;

/// A pump that has nothing to move yet.
#[derive(Drop)]
pub(crate) struct Held {
    pipe: ChildInput,
    feed: FeedRing,
    hands: InHands<ChildInput>,
    bell: Bell,
    /// The ring as it was given.
    mark: Snapshot<FeedRing>,
    ghost fresh: { IsFreshFeed feed },
    ghost same: { SameFeedRing mark.value feed },
}

impl Held {
    ghost use Rattle.std.specs.Prelude.{◌≡◌};
    ghost use Rattle.pipe_pump.specs.Rings.{IsFreshFeed};
    ghost use Rattle.pump_pool.specs.Pumps.{feed_of, input_of};
    ghost use Rattle.std_spawner.specs.Inputs.{IsInputEnd};

    pub fn new(pipe: ChildInput, feed: FeedRing, hands: InHands<ChildInput>, bell: Bell) -> Self
        requires { IsFreshFeed feed }
        ensures pipe { result.pipe ≡ pipe }
        ensures feed { result.feed ≡ feed }
        ensures mark { result.mark.value ≡ feed }
    {
        Held {
            pipe,
            mark: Snapshot::of(&feed),
            feed,
            hands,
            bell,
        }
    }

    // The program runs.
    fn open(&mut self, side: PipeSide<ChildStdin>)
        ensures { self.new.mark ≡ self.old.mark }
    {
        self.pipe.open(side);
    }

    // Whether it has something to move.
    fn look(&mut self) -> FeedLook
        ensures { self.new.mark ≡ self.old.mark }
    {
        self.feed.look()
    }

    // Runs it at once: its feed was ended and nothing is left of it.
    #[tactic(auto, using(crate::proofs::Given::end_of))]
    fn run_here<R: Wait>(self, rt: &R) -> PumpDone<ChildInput>
        ensures { IsInputEnd self.mark.value result }
    {
        let Held {
            pipe,
            feed,
            hands: _,
            bell: _,
            mark: _,
        } = self;
        pump_in(rt, feed, pipe, &mut PipeWait::none())
    }

    // Gives it to a thread.
    fn run_there(self, thread: Worker<PumpJob>) -> Running
        ensures pump { (feed_of result.pump ≡ self.feed) × (input_of result.pump ≡ self.pipe) }
        ensures mark { result.mark ≡ self.mark }
    {
        let Held {
            pipe,
            feed,
            hands,
            bell,
            mark,
        } = self;
        let (job, pump) = hands.pump(pipe, feed);
        Running {
            pump,
            mark,
            thread: thread.give(PumpJob::new(Task::Input(job), bell)),
        }
    }
}

/// A pump that its thread runs.
#[derive(Drop)]
pub(crate) struct Running {
    pump: InPump<ChildInput>,
    thread: Busy<PumpJob>,
    mark: Snapshot<FeedRing>,
    ghost same: { SameFeedRing mark.value (feed_of pump) },
}

impl Running {
    ghost use Rattle.std.specs.Prelude.{◌≡◌, IfSome};
    ghost use Rattle.std_spawner.specs.Inputs.{IsInputEnd};
    ghost use Rattle.std_spawner.specs.Threads.{GivesThread};

    // What it left, once it has ended.
    #[tactic(auto, using(crate::proofs::Given::pumped_end))]
    fn done(&mut self) -> Option<PumpDone<ChildInput>>
        ensures end { IfSome result (IsInputEnd self.old.mark.value) }
        ensures mark { self.new.mark ≡ self.old.mark }
    {
        self.pump.done()
    }

    // Its thread, if that is still there, once it has ended.
    fn into_worker(self) -> Option<Worker<PumpJob>> {
        let Running {
            pump: _,
            thread,
            mark: _,
        } = self;
        thread.worker()
    }

    // Whether it still runs.
    fn runs(&mut self) -> bool
        ensures { self.new.mark ≡ self.old.mark }
    {
        !self.pump.has_ended()
    }

    // Its thread, of one that still runs and whose pipe is let go.
    fn leave(self) -> Option<Worker<PumpJob>>
        ensures { GivesThread self.thread result }
    {
        let Running {
            pump: _,
            thread,
            mark: _,
        } = self;
        leave_pump(thread)
    }
}

/// Where the pump is.
#[derive(Drop)]
pub(crate) enum Input {
    Held(Held),
    Running(Running),
    /// What it left was given up, and its thread waits, if it had one that is still there.
    Ended(Option<Worker<PumpJob>>),
}

impl Input {
    ghost use Rattle.std.specs.Prelude.{◌≡◌, Some, None, IfOk, IfSome};
    ghost use Rattle.std_spawner.specs.Inputs.{feed_mark, LeavesThread, IsInputEnd, IsInputEndOf};
    ghost use Rattle.pipe_pump.specs.declared.feed_ring.FeedRing.{FeedRing};

    /// The program runs, and this is our end of its pipe.
    pub fn open(&mut self, side: PipeSide<ChildStdin>)
        ensures { feed_mark self.new ≡ feed_mark self.old }
    {
        match self {
            Input::Held(held) => held.open(side),
            Input::Running(_) | Input::Ended(_) => {}
        }
    }

    /// Whether there is nothing to be done for it now: it has nothing to move, or its thread still runs it, or its end was
    /// given.
    pub fn is_quiet(&mut self) -> bool
        ensures { feed_mark self.new ≡ feed_mark self.old }
    {
        match self {
            Input::Held(held) => matches!(held.look(), FeedLook::Nothing),
            Input::Running(running) => running.runs(),
            Input::Ended(_) => true,
        }
    }

    /// What the pump left, once it has ended, and only once. It doesn't wait. Where there is something to move and no
    /// thread for it, that is told, and tried again at the next look.
    pub fn done<R: Wait, T: StartThread + Drop>(
        &mut self,
        rt: &R,
        threads: &ThreadPool<T>,
    ) -> Result<Option<PumpDone<ChildInput>>, SpawnFault>
        ensures end { IfOk result (λ done. IfSome done (IsInputEndOf (feed_mark self.old))) }
        ensures mark { (f : FeedRing) → feed_mark self.new ≡ Some f → feed_mark self.old ≡ Some f }
    {
        match self {
            Input::Held(held) => match held.look() {
                FeedLook::Nothing => Ok(None),
                look => self.move_held(rt, threads, look),
            },
            Input::Running(running) => {
                let done = running.done();
                if done.is_some() {
                    self.rest();
                }
                Ok(done)
            }
            Input::Ended(_) => Ok(None),
        }
    }

    // Moves what one that is held has to move: in a thread, or here where its feed was ended with nothing in it.
    #[tactic(auto, using(crate::proofs::Given::marked, crate::proofs::Given::unmarked))]
    fn move_held<R: Wait, T: StartThread + Drop>(
        &mut self,
        rt: &R,
        threads: &ThreadPool<T>,
        look: FeedLook,
    ) -> Result<Option<PumpDone<ChildInput>>, SpawnFault>
        ensures end { IfOk result (λ done. IfSome done (IsInputEndOf (feed_mark self.old))) }
        ensures mark { (f : FeedRing) → feed_mark self.new ≡ Some f → feed_mark self.old ≡ Some f }
    {
        match mem::replace(self, Input::Ended(None)) {
            Input::Held(held) => match look {
                FeedLook::Ended => Ok(Some(held.run_here(rt))),
                FeedLook::Bytes | FeedLook::Nothing => {
                    self.begin(threads.take(rt), held)?;
                    Ok(None)
                }
            },
            other => {
                *self = other;
                Ok(None)
            }
        }
    }

    // One that has ended has a thread that waits, if that is still there.
    fn rest(&mut self)
        ensures { (f : FeedRing) → feed_mark self.new ≡ Some f → feed_mark self.old ≡ Some f }
    {
        match mem::replace(self, Input::Ended(None)) {
            Input::Running(running) => *self = Input::Ended(running.into_worker()),
            other => *self = other,
        }
    }

    // Begins it in that thread, or keeps it where there is none.
    fn begin(
        &mut self,
        thread: Result<Worker<PumpJob>, SpawnFault>,
        held: Held,
    ) -> Result<(), SpawnFault>
        ensures { feed_mark self.new ≡ Some held.mark.value }
    {
        match thread {
            Ok(thread) => {
                *self = Input::Running(held.run_there(thread));
                Ok(())
            }
            Err(fault) => {
                *self = Input::Held(held);
                Err(fault)
            }
        }
    }

    /// What is left of its thread, where its pipe is let go.
    pub fn leave(self) -> Option<Worker<PumpJob>>
        ensures { LeavesThread self result }
    {
        match self {
            Input::Held(_held) => None,
            Input::Ended(thread) => thread,
            Input::Running(running) => running.leave(),
        }
    }
}
