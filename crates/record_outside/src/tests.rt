// Records of an outside that hands up Ticks.
ghost use Rattle.std.specs.Prelude.{◌≡◌, None};
ghost use Rattle.record_outside.specs.Record.{Keeps};

use crate::{MOST_BYTES, Record, RecordOutside};
use host_base::{Bytes, NoMemory, Text};
use host_trace::{Act, Acted, Event, Outside};
use std::alloc::Global;

// It hands up Tick 7, does each act without bytes, and refuses the others. It tells nothing.
#[derive(Drop)]
struct Ticks {
    heard: u64,
}

impl Outside for Ticks {
    ghost use Rattle.std.specs.Prelude.{None};

    ghost trace = { λ _. None };

    ghost faults = { λ _. 0 };

    ghost full_books = { λ _. 0 };

    ghost limit = { λ _. 0 };

    fn next(&mut self) -> Event {
        self.heard = self.heard.saturating_add(1);
        Event::Tick { secs: 7 }
    }

    fn act(&mut self, act: &Act) -> Acted {
        match act {
            Act::Write { bytes, .. } if bytes.len() > 100_000 => Acted::NoRoom,
            _ => Acted::Done,
        }
    }
}

// So many steps, each of a Tick and of a Write of so many bytes, and the record.
fn record_of(alloc: Global, steps: u32, len: usize) -> Result<Text, NoMemory> {
    let mut out = RecordOutside::new(Ticks { heard: 0 }, Record::new(alloc)?);
    for _ in 0..steps {
        let _ = out.next();
        let bytes = Bytes::from_vec(vec![in alloc; b'a'; len]?);
        let _ = out.act(&Act::Write { c: 3, bytes });
    }
    let (_, text) = out.into_parts();
    Ok(text)
}

fn line_count(text: &Text) -> usize {
    text.as_bytes()
        .iter()
        .filter(|byte| **byte == b'\n')
        .count()
}

fn lines_of(alloc: Global, steps: u32, len: usize) -> usize {
    match record_of(alloc, steps, len) {
        Ok(text) => line_count(&text),
        Err(_) => usize::MAX,
    }
}

fn is_text(alloc: Global, steps: u32, len: usize, expected: &str) -> bool {
    match record_of(alloc, steps, len) {
        Ok(text) => text.as_str() == expected,
        Err(_) => false,
    }
}

#[test]
fn recorded(rt: HostRuntime) {
    let alloc = rt.alloc();
    assert!(rt; is_text(alloc, 0, 1, ""));
    assert!(rt; is_text(alloc, 1, 2, "< Tick 7\n> Write 3 x6161\n"));
    // What was refused isn't in it.
    assert!(rt; is_text(alloc, 2, 100_001, "< Tick 7\n< Tick 7\n"));
}

#[test]
fn at_the_limits(rt: HostRuntime) {
    let alloc = rt.alloc();
    // 1,024 steps of two items are as many as may be.
    assert!(rt; lines_of(alloc, 1024, 1) == 2048);
    assert!(rt; lines_of(alloc, 1025, 1) == 2048);
    // A step of 100,000 bytes has 200,021 of text: five of them fit.
    assert!(rt; lines_of(alloc, 5, 100_000) == 10);
    assert!(rt; lines_of(alloc, 6, 100_000) == 10);
    assert!(rt; MOST_BYTES == 1_048_576);
}
