// The threads that wait for a pump.
ghost use Rattle.std.specs.Prelude.{◌≡◌, ◌≤◌, vec_len, vec_capacity};

use super::job::PumpJob;
use child_edge::SpawnFault;
use host_base::NoMemory;
use pipe_wait::PipeWaker;
use pump_pool::{Station, Worker};
use std::alloc::Global;
use std::sync::{Arc, Mutex, Wait};

/// Starts threads. A method of a trait can't, so what does is brought along by whoever has the handle for threads.
pub trait StartThread {
    /// Starts the thread of a station, where the system gives one, and answers what ends its waits for pipes.
    fn start_thread(&self, station: Station<PumpJob>) -> Option<PipeWaker>;
}

/// It starts threads by a closure, which is to call `PumpJob::start_thread`.
#[derive(Drop)]
pub struct ThreadStarter {
    start: Box<dyn Fn(Station<PumpJob>) -> Option<PipeWaker> + Send>,
    ghost ready: { IsAlwaysCallable start },
}

impl ThreadStarter {
    pub fn new(start: Box<dyn Fn(Station<PumpJob>) -> Option<PipeWaker> + Send>) -> Self
        requires { IsAlwaysCallable start }
        ensures { result.start ≡ start }
    {
        ThreadStarter { start }
    }
}

impl StartThread for ThreadStarter {
    fn start_thread(&self, station: Station<PumpJob>) -> Option<PipeWaker> {
        (self.start)(station)
    }
}

/// The threads that have nothing to do, and what starts one.
#[derive(Drop)]
pub(crate) struct IdleThreads<T> {
    starter: T,
    alloc: Global,
    idle: Vec<Worker<PumpJob>>,
    /// How many are kept at most.
    most: usize,
    ghost bounded: { vec_len idle ≤ most },
    ghost room: { most ≤ vec_capacity idle },
}

impl<T: Drop> IdleThreads<T> {
    ghost use Rattle.std.specs.Prelude.{◌≡◌, [], IfOk};

    // None yet, with room for as many as are kept.
    fn new(alloc: Global, starter: T, most: usize) -> Result<Self, NoMemory>
        ensures none { IfOk result (λ threads. threads.idle.items ≡ []) }
        ensures most { IfOk result (λ threads. threads.most ≡ most) }
        ensures starter { IfOk result (λ threads. threads.starter ≡ starter) }
    {
        Ok(IdleThreads {
            starter,
            alloc,
            idle: Vec::with_capacity(alloc, most)?,
            most,
        })
    }
}

impl<T: StartThread> IdleThreads<T> {
    ghost use Rattle.std.specs.Prelude.{◌≡◌, ◌≤◌, ◌<◌, ◌++◌, ◌∷◌, [], IfOk, IsOk, vec_len};
    ghost use Rattle.pump_pool.specs.Workers.{given};

    // One that waits, or else a new one.
    fn take(&mut self) -> Result<Worker<PumpJob>, SpawnFault>
        ensures waits { 0 < vec_len self.old.idle → IfOk result (λ w. self.old.idle.items ≡ self.new.idle.items ++ w ∷ []) }
        ensures succeeds { 0 < vec_len self.old.idle → IsOk result }
        ensures new { vec_len self.old.idle ≡ 0 → self.new.idle.items ≡ self.old.idle.items }
        ensures unused { vec_len self.old.idle ≡ 0 → IfOk result (λ w. given w ≡ []) }
    {
        if let Some(worker) = self.idle.pop() {
            return Ok(worker);
        }
        let Ok((worker, station)) = Worker::pair(self.alloc) else {
            return Err(SpawnFault::NoMemory);
        };
        match self.starter.start_thread(station) {
            Some(waker) => Ok(worker.woken_by(waker)),
            None => Err(SpawnFault::Failed),
        }
    }

    // Takes back one that waits, where not as many are kept as may. Otherwise it ends.
    fn put(&mut self, worker: Worker<PumpJob>)
        ensures kept { vec_len self.old.idle < self.old.most → self.new.idle.items ≡ self.old.idle.items ++ worker ∷ [] }
        ensures full { self.old.most ≤ vec_len self.old.idle → self.new.idle.items ≡ self.old.idle.items }
    {
        if self.idle.len() < self.most {
            let _ = self.idle.push(worker);
        }
    }
}

/// The threads that wait for a pump. What starts children and the children share them, all in one loop.
#[derive(Drop)]
pub(crate) struct ThreadPool<T> {
    shared: Arc<Mutex<IdleThreads<T>>>,
}

impl<T: StartThread + Drop> ThreadPool<T> {
    ghost use Rattle.std.specs.Prelude.{IfOk};
    ghost use Rattle.std_spawner.specs.Threads.{IsSamePool};

    /// None yet; at most so many are kept that have nothing to do.
    pub fn new(alloc: Global, starter: T, most: usize) -> Result<Self, NoMemory> {
        let threads = IdleThreads::new(alloc, starter, most)?;
        Ok(ThreadPool {
            shared: Arc::new(alloc, Mutex::new(threads))?,
        })
    }

    /// The same threads.
    pub fn another(&self) -> Result<Self, NoMemory>
        ensures { IfOk result (λ other. IsSamePool self.now other) }
    {
        Ok(ThreadPool {
            shared: self.shared.clone()?,
        })
    }

    /// One that waits, or else a new one.
    pub fn take<R: Wait>(&self, rt: &R) -> Result<Worker<PumpJob>, SpawnFault> {
        self.shared.lock(rt).take()
    }

    /// Takes back one that waits, where not as many are kept as may. Otherwise it ends.
    pub fn put<R: Wait>(&self, rt: &R, worker: Worker<PumpJob>) {
        self.shared.lock(rt).put(worker);
    }
}
