// Threads that run one job after another.
ghost use Rattle.std.specs.Prelude.{◌≡◌, ◌<◌};
ghost use Rattle.rtrb.specs.Ring.{known_free};

use crossbeam_utils::sync::{Parker, Unparker};
use host_base::NoMemory;
use pipe_wait::{PipeWait, PipeWaker};
use rtrb::{Consumer, Producer, RingBuffer};
use std::alloc::Global;
use std::net::Net;
use std::sync::atomic::{AtomicBool, Ordering};
use std::sync::{Arc, Wait};
use std::thread;
use std::thread::Threads;

/// How many bytes the stack of a worker's thread has.
const STACK: usize = 131_072;

/// What a worker's thread runs, by this runtime.
pub trait Job<R> {
    /// `wait` is where the thread waits for pipes.
    fn run(self, rt: &R, wait: &mut PipeWait);
}

/// The place of a thread: where its jobs come in, where it sleeps, and where it says that it ended its last job.
#[derive(Drop)]
pub struct Station<J> {
    alloc: Global,
    jobs: Consumer<J>,
    parker: Parker,
    rests: Arc<AtomicBool>,
}

/// Our end of a thread. Where it is dropped, the thread ends after its last job. Nobody joins it.
pub struct Reins<J: Drop> {
    jobs: Producer<J>,
    parker: Unparker,
    rests: Arc<AtomicBool>,
    /// What ends its wait for a pipe, once it was started.
    waker: Option<PipeWaker>,
}

impl<J: Drop> Drop for Reins<J> {
    fn drop(self) {
        let Reins {
            jobs,
            parker,
            rests: _,
            waker: _,
        } = self;
        drop(jobs);
        parker.unpark();
    }
}

/// A thread that waits for a job.
#[derive(Drop)]
pub struct Worker<J: Drop> {
    reins: Reins<J>,
    ghost free: { 0 < known_free reins.jobs },
}

/// A thread that was given a job.
#[derive(Drop)]
pub struct Busy<J: Drop> {
    reins: Reins<J>,
}

/// Starts the thread of a station where the system gives one and a place for it to wait at, and answers what ends its
/// waits.
pub fn start_thread<
    R: Threads + Wait + Net + Copy + Drop + Send + 'static,
    J: Job<R> + Send + Drop + 'static,
>(rt: &R, station: Station<J>) -> Option<PipeWaker> {
    let (wait, waker) = PipeWait::pair(rt, station.alloc).ok()?;
    let theirs = *rt;
    let started = thread::Builder::new()
        .stack_size(STACK)
        .spawn(rt, move || work(&theirs, station, wait));
    match started {
        Ok(_) => Some(waker),
        Err(_) => None,
    }
}

// Runs what comes until our end is dropped.
fn work<R: Wait, J: Job<R> + Drop>(rt: &R, station: Station<J>, wait: PipeWait) {
    let Station {
        alloc: _,
        jobs,
        parker,
        rests,
    } = station;
    let mut jobs = jobs;
    let mut wait = wait;
    for _ in rt.forever() {
        let is_last = jobs.is_abandoned();
        match jobs.pop() {
            Ok(job) => {
                job.run(rt, &mut wait);
                rests.store(true, Ordering::SeqCst);
            }
            Err(_) if is_last => return,
            Err(_) => parker.park(rt),
        }
    }
    unreachable!()
}

impl<J: Drop> Worker<J> {
    ghost use Rattle.std.specs.Prelude.{◌≡◌, ◌++◌, ◌∷◌, [], IfOk};
    ghost use Rattle.pump_pool.specs.Workers.{given, given_to, IsPlaceOf, WakesAt};

    /// A worker, and the place of its thread, which is to be started.
    pub fn pair(alloc: Global) -> Result<(Worker<J>, Station<J>), NoMemory>
        ensures new { IfOk result (λ r. given r.0 ≡ []) }
        ensures place { IfOk result (λ r. IsPlaceOf r.1 r.0) }
        ensures wakes { IfOk result (λ r. WakesAt r.1 r.0) }
    {
        let (jobs, mailbox) = RingBuffer::new(alloc, 1)?;
        let parker = Parker::new(alloc)?;
        let sleeper = parker.unparker().clone()?;
        let rests = Arc::new(alloc, AtomicBool::new(true))?;
        let reins = Reins {
            jobs,
            parker: sleeper,
            rests: Arc::try_clone(&rests)?,
            waker: None,
        };
        let station = Station {
            alloc,
            jobs: mailbox,
            parker,
            rests,
        };
        Ok((Worker { reins }, station))
    }

    /// The same, whose waits for pipes are ended by this.
    pub fn woken_by(self, waker: PipeWaker) -> Worker<J>
        ensures { given result ≡ given self }
    {
        let Worker { reins } = self;
        let mut reins = reins;
        reins.waker = Some(waker);
        Worker { reins }
    }

    /// Gives the thread a job.
    pub fn give(self, job: J) -> Busy<J>
        ensures given { given_to result ≡ given self ++ job ∷ [] }
    {
        let Worker { reins } = self;
        let mut reins = reins;
        reins.rests.store(false, Ordering::SeqCst);
        reins.jobs.push_reserved(job);
        reins.parker.unpark();
        Busy { reins }
    }
}

impl<J: Drop> Busy<J> {
    ghost use Rattle.std.specs.Prelude.{◌≡◌, IfSome, IsSome};
    ghost use Rattle.pump_pool.specs.Workers.{given, given_to, HasTaken};

    /// Ends the wait for a pipe that is under way there, or else the next.
    pub fn wake(&self) {
        if let Some(waker) = &self.reins.waker {
            waker.wake();
        }
    }

    /// Whether its thread has said that it ended its last job.
    pub fn rests(&self) -> bool {
        self.reins.rests.load(Ordering::SeqCst)
    }

    /// The worker, where its thread has taken its last job. The thread may still run it.
    pub fn worker(self) -> Option<Worker<J>>
        ensures same { IfSome result (λ worker. given worker ≡ given_to self) }
        ensures taken { HasTaken self → IsSome result }
    {
        let Busy { reins } = self;
        let mut reins = reins;
        if reins.jobs.slots() > 0 {
            Some(Worker { reins })
        } else {
            None
        }
    }
}
