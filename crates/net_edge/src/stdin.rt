// Orders read on standard input by a pump of its own, and told to every loop; and that the log is to be opened anew.
ghost use Rattle.std.specs.Prelude.{◌≡◌, IfOk};
ghost use Rattle.edge_loop.specs.Orders.{OrdersTold, told_after};

use super::{OrderLine, Said};
use edge_loop::{Order, Orders};
use pipe_pump::Tap;
use std::alloc::Global;
use std::sync::atomic::{AtomicBool, Ordering};
use std::sync::{Arc, Mutex};

// How many bytes are read at a time, and how often at a look.
const PIECE: usize = 64;

const PIECES: u32 = 16;

/// What was ordered, for all loops. Each of them reads what has come, unless another does just then, so an order is heard
/// as long as any of them runs.
#[derive(Drop)]
pub struct Told {
    stop: AtomicBool,
    drain: AtomicBool,
    // Where it is said that the log is to be opened anew, if anywhere.
    log: Option<Arc<AtomicBool>>,
    reader: Mutex<Reader>,
}

impl Told {
    /// Nothing was, and the pump of this tap reads what will be. `log` becomes true where the log is to be opened anew.
    pub fn new(tap: Tap, log: Option<Arc<AtomicBool>>) -> Self {
        Told {
            stop: AtomicBool::new(false),
            drain: AtomicBool::new(false),
            log,
            reader: Mutex::new(Reader {
                tap,
                line: OrderLine::new(),
            }),
        }
    }

    fn read(&self) {
        if let Some(mut reader) = self.reader.try_lock() {
            reader.read(self);
        }
    }

    fn tell(&self, said: Said) {
        match said {
            Said::Order(Order::Stop) => self.stop.store(true, Ordering::SeqCst),
            Said::Order(Order::Drain) => self.drain.store(true, Ordering::SeqCst),
            Said::Log => self.open_anew(),
        }
    }

    fn open_anew(&self) {
        if let Some(log) = &self.log {
            log.store(true, Ordering::SeqCst);
        }
    }

    fn is_stop(&self) -> bool {
        self.stop.load(Ordering::SeqCst)
    }

    fn is_drain(&self) -> bool {
        self.drain.load(Ordering::SeqCst)
    }
}

/// What reads standard input.
#[derive(Drop)]
struct Reader {
    tap: Tap,
    line: OrderLine,
}

impl Reader {
    // Tells what the bytes that have come order.
    fn read(&mut self, told: &Told) {
        let mut piece = [0u8; PIECE];
        for _ in 0..PIECES {
            let count = self.tap.take(&mut piece);
            self.hear(&piece[..count], told);
            if count < PIECE {
                return;
            }
        }
    }

    fn hear(&mut self, bytes: &[u8], told: &Told) {
        for byte in bytes {
            if let Some(said) = self.line.hear(*byte) {
                told.tell(said);
            }
        }
    }
}

/// The orders of one loop. Each is given once.
#[derive(Drop)]
pub struct StdinOrders {
    told: Arc<Told>,
    // What this loop was told.
    stop: bool,
    drain: bool,
}

impl StdinOrders {
    ghost use Rattle.std.specs.Prelude.{◌≡◌, false};

    /// Those of a loop which was told nothing.
    pub fn of(told: Arc<Told>) -> Self
        ensures none { (result.stop ≡ false) × (result.drain ≡ false) }
    {
        StdinOrders {
            told,
            stop: false,
            drain: false,
        }
    }
}

impl Orders for StdinOrders {
    ghost told = { λ o. record { stop = o.stop; drain = o.drain } };

    fn next_order(&mut self) -> Option<Order> {
        self.told.read();
        if !self.stop && self.told.is_stop() {
            self.stop = true;
            return Some(Order::Stop);
        }
        if !self.drain && self.told.is_drain() {
            self.drain = true;
            return Some(Order::Drain);
        }
        None
    }
}
