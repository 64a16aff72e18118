// What a thread runs.
ghost use Rattle.std_spawner.specs.Threads.{GivesThread};

use super::pipes::{ChildInput, StandardInput};
use super::start::StartJob;
use loop_bell::Bell;
use pipe_wait::{PipeWait, PipeWaker};
use pump_pool::{Busy, InJob, Job, OutJob, Station, Worker, start_thread};
use std::net::Net;
use std::process::{Processes, SystemProcess};
use std::sync::Wait;
use std::thread::Threads;
use std::time::Clock;

/// What is done for a child, or the pump of standard input.
#[derive(Drop)]
pub(crate) enum Task {
    Start(StartJob),
    Input(InJob<ChildInput>),
    Client(OutJob<StandardInput>),
}

/// One task, after which the loop is woken.
#[derive(Drop)]
pub struct PumpJob {
    task: Task,
    bell: Bell,
}

impl PumpJob {
    pub(crate) fn new(task: Task, bell: Bell) -> Self {
        PumpJob { task, bell }
    }

    /// Starts the thread of a station, where the system gives one, and answers what ends its waits for pipes.
    pub fn start_thread<
        R: Processes<Started = SystemProcess>
            + Threads
            + Wait
            + Net
            + Clock
            + Copy
            + Drop
            + Send
            + 'static,
    >(rt: &R, station: Station<PumpJob>) -> Option<PipeWaker> {
        start_thread(rt, station)
    }
}

impl<R: Processes<Started = SystemProcess> + Wait + Clock> Job<R> for PumpJob {
    fn run(self, rt: &R, wait: &mut PipeWait) {
        let PumpJob { task, bell } = self;
        match task {
            Task::Start(job) => job.run(rt, wait),
            Task::Input(job) => job.run(rt, wait),
            Task::Client(job) => job.run(rt, wait),
        }
        bell.ring();
    }
}

/// Has a thread end a pump whose pipe is let go: it waits for another then, though it may still be at that.
pub(crate) fn leave_pump(thread: Busy<PumpJob>) -> Option<Worker<PumpJob>>
    ensures { GivesThread thread result }
{
    thread.wake();
    thread.worker()
}
