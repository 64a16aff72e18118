// What writes the lines of all loops.
ghost use Rattle.std.specs.Prelude.{◌≡◌};

use crate::said::FileLine;
use rtrb::Consumer;
use std::fs::{File, OpenOptions};
use std::io;
use std::io::{ErrorKind, Write};
use std::rt::Files;
use std::sync::atomic::{AtomicBool, Ordering};
use std::sync::{Arc, Wait};
use std::time::{Clock, Duration};

/// How many bytes are written at once at most.
pub const TEXT: usize = 1_048_576;

/// How long the writer sleeps between two looks, in milliseconds.
pub const PAUSE: u64 = 50;

const PIECE: usize = 4_096;

/// What the program and the writer tell each other.
#[derive(Drop)]
pub struct Signs {
    /// The program is at its end.
    pub ended: AtomicBool,
    /// The writer has written what there was then.
    pub done: AtomicBool,
}

/// Writes the lines of all loops, as they come, to a file.
#[derive(Drop)]
pub struct Writer<R> {
    pub(crate) rt: R,
    pub(crate) name: String,
    pub(crate) file: File,
    pub(crate) rings: Vec<Consumer<u8>>,
    /// What was taken and isn't written whole, and how many bytes of it are.
    pub(crate) text: Vec<u8>,
    pub(crate) written: usize,
    /// The file is to be opened anew.
    pub(crate) anew: Arc<AtomicBool>,
    pub(crate) signs: Arc<Signs>,
    /// The last write failed, and that was said.
    pub(crate) is_failing: bool,
}

/// Opens the file to add to it. It is asked for reading too, so that a FIFO is opened whether anybody reads it or not.
pub fn open<R: Files>(rt: &R, name: &str) -> io::Result<R::File> {
    let mut options = OpenOptions::new();
    options.read(true);
    options.append(true);
    options.create(true);
    options.open(rt, name)
}

impl<R: Eprint> Writer<R> {
    fn say(&self, fault: &str, reason: &io::Error) {
        let line = FileLine {
            fault,
            name: self.name.as_str(),
            reason,
        };
        let _ = self.rt.eprintln(line);
    }

    fn fail(&mut self, reason: &io::Error) {
        if !self.is_failing {
            self.is_failing = true;
            self.say("written", reason);
        }
    }
}

// Moves so many bytes of a ring to the text, or as many as there are.
fn take_bytes(ring: &mut Consumer<u8>, count: usize, text: &mut Vec<u8>) {
    let mut piece = [0u8; PIECE];
    let mut left = count;
    while left > 0 {
        let most = if left < PIECE { left } else { PIECE };
        let taken = ring.pop_partial_slice(&mut piece[..most]);
        if taken == 0 || text.extend_from_slice(&piece[..taken]).is_err() {
            return;
        }
        left -= taken;
    }
}

// Takes what a loop handed over, which is whole lines, where there is room for all of it.
fn take_ring(ring: &mut Consumer<u8>, text: &mut Vec<u8>) {
    let count = ring.slots();
    if count <= TEXT.saturating_sub(text.len()) {
        take_bytes(ring, count, text);
    }
}

fn take_all(rings: &mut Vec<Consumer<u8>>, text: &mut Vec<u8>) {
    for i in 0..rings.len() {
        take_ring(&mut rings[i], text);
    }
}

// The bytes behind so many.
fn behind(bytes: &[u8], count: usize) -> &[u8] {
    if count < bytes.len() {
        &bytes[count..]
    } else {
        &[]
    }
}

impl<R: Files<File = File> + Eprint> Writer<R> {
    // Opens the file anew where that was ordered. Where it can't be had the old one is kept.
    fn renew(&mut self) {
        if !self.anew.swap(false, Ordering::SeqCst) {
            return;
        }
        match open(&self.rt, self.name.as_str()) {
            Ok(file) => self.file = file,
            Err(reason) => self.say("opened", &reason),
        }
    }

    // Writes some of what was taken, and answers whether there is more to be written and it may be tried at once.
    fn write_some(&mut self) -> bool {
        let rest = behind(self.text.as_slice(), self.written);
        if rest.is_empty() {
            return false;
        }
        match self.file.write(rest) {
            Ok(0) => false,
            Ok(count) => {
                self.written = self.written.saturating_add(count);
                self.is_failing = false;
                true
            }
            Err(reason) if reason.kind() == ErrorKind::Interrupted => true,
            Err(reason) => {
                self.fail(&reason);
                false
            }
        }
    }

    // Writes what was taken. What can't be written is kept, and tried again.
    fn write<W: Wait>(&mut self, rt: &W) {
        for _ in rt.forever() {
            if !self.write_some() {
                break;
            }
        }
        if self.written >= self.text.len() {
            self.text.clear();
            self.written = 0;
        }
    }
}

impl<R: Files<File = File> + Wait + Clock + Eprint + Copy + Drop> Writer<R> {
    /// Until the program has ended.
    pub fn run(self) {
        let mut writer = self;
        let rt = writer.rt;
        for _ in rt.forever() {
            let is_last = writer.signs.ended.load(Ordering::SeqCst);
            writer.renew();
            take_all(&mut writer.rings, &mut writer.text);
            writer.write(&rt);
            if is_last {
                writer.signs.done.store(true, Ordering::SeqCst);
                return;
            }
            rt.sleep(Duration::from_millis(PAUSE));
        }
    }
}
