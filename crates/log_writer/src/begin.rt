// A log that is written.
ghost use Rattle.std.specs.Prelude.{◌≡◌};

use crate::said::FileLine;
use crate::writer::{PAUSE, Signs, TEXT, Writer, open};
use log_outside::LineQueue;
use rtrb::{Consumer, RingBuffer};
use std::alloc::{AllocError, Global};
use std::fs::File;
use std::rt::Files;
use std::sync::Arc;
use std::sync::atomic::{AtomicBool, Ordering};
use std::time::{Clock, Duration};

// As many loops there may be.
const LOOPS: u32 = 16;

// How many bytes of lines wait for the writer, of each loop at most.
const RING: usize = 262_144;

// How many pauses the program waits for the last lines.
const LAST_PAUSES: u32 = 40;

/// Why there is no log.
#[derive(Clone, Copy, Debug, PartialEq, Eq)]
pub enum LogFault {
    /// The file or a thread can't be had.
    Failed,
    NoMemory,
}

impl From<AllocError> for LogFault {
    fn from(_: AllocError) -> Self {
        LogFault::NoMemory
    }
}

/// What the world takes of a log: the queues of its loops, and what becomes true where it is to be opened anew.
#[derive(Drop)]
pub struct LogLines {
    pub queues: Vec<LineQueue>,
    pub anew: Option<Arc<AtomicBool>>,
}

impl LogLines {
    /// Of no log.
    pub fn none(alloc: Global) -> Self {
        LogLines {
            queues: Vec::new(alloc),
            anew: None,
        }
    }
}

/// A log that is written by a thread of its own.
#[derive(Drop)]
pub struct Log {
    signs: Arc<Signs>,
}

// The rings of as many loops as there may be, by their two ends.
#[derive(Drop)]
struct Rings {
    queues: Vec<LineQueue>,
    rings: Vec<Consumer<u8>>,
}

fn make_rings(alloc: Global) -> Result<Rings, LogFault> {
    let mut queues = Vec::new(alloc);
    let mut rings = Vec::new(alloc);
    for _ in 0..LOOPS {
        let (producer, consumer) = RingBuffer::new(alloc, RING)?;
        if queues.push(LineQueue::new(alloc, producer)).is_err() || rings.push(consumer).is_err() {
            return Err(LogFault::NoMemory);
        }
    }
    Ok(Rings { queues, rings })
}

fn make_signs(alloc: Global) -> Result<Arc<Signs>, LogFault> {
    let signs = Signs {
        ended: AtomicBool::new(false),
        done: AtomicBool::new(false),
    };
    match Arc::new(alloc, signs) {
        Ok(signs) => Ok(signs),
        Err(_) => Err(LogFault::NoMemory),
    }
}

// The file, or a word on standard error why it can't be had.
fn open_or_say<R: Files + Eprint>(rt: &R, name: &str) -> Result<R::File, LogFault> {
    match open(rt, name) {
        Ok(file) => Ok(file),
        Err(reason) => {
            let _ = rt.eprintln(FileLine {
                fault: "opened",
                name,
                reason: &reason,
            });
            Err(LogFault::Failed)
        }
    }
}

/// A log whose file was opened: the thread that `writer` is run in writes to it.
#[derive(Drop)]
pub struct OpenedLog<R> {
    pub log: Log,
    pub lines: LogLines,
    pub writer: Writer<R>,
}

impl<R: Files<File = File> + Eprint + Copy + Drop> OpenedLog<R> {
    /// Opens the file, and says on standard error why it can't be had. Nothing is written until its writer runs.
    pub fn open(rt: R, alloc: Global, name: String) -> Result<Self, LogFault> {
        let file = open_or_say(&rt, name.as_str())?;
        let Rings { queues, rings } = make_rings(alloc)?;
        let Ok(anew) = Arc::new(alloc, AtomicBool::new(false)) else {
            return Err(LogFault::NoMemory);
        };
        let signs = make_signs(alloc)?;
        let writer = Writer {
            rt,
            name,
            file,
            rings,
            text: Vec::with_capacity(alloc, TEXT)?,
            written: 0,
            anew: Arc::try_clone(&anew)?,
            signs: Arc::try_clone(&signs)?,
            is_failing: false,
        };
        let lines = LogLines {
            queues,
            anew: Some(anew),
        };
        Ok(OpenedLog {
            log: Log { signs },
            lines,
            writer,
        })
    }
}

impl Log {
    /// Waits until the last lines are written, but not long: a file may take none.
    pub fn finish<R: Clock>(&self, rt: &R) {
        self.signs.ended.store(true, Ordering::SeqCst);
        for _ in 0..LAST_PAUSES {
            if self.signs.done.load(Ordering::SeqCst) {
                return;
            }
            rt.sleep(Duration::from_millis(PAUSE));
        }
    }
}
