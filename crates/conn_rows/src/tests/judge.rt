// Where a connection does otherwise than the plain program of a story.
ghost use Rattle.host_base.specs.SiteRules.{IsServed};

use super::parts::Parts;
use super::play::play;
use super::recorder::Recorder;
use super::told::Told;
use host_base::Site;
use host_trace::Event;
use std::alloc::Global;

// How what comes is cut.
#[derive(Clone, Copy)]
pub enum Cut {
    Whole,
    Single,
    Seeded,
}

// The number of the first line in which two logs differ, and where it begins.
fn line_apart(own: &[u8], due: &[u8]) -> (u64, usize) {
    let mut line = 0u64;
    let mut start = 0usize;
    let mut place = 0usize;
    for byte in own {
        if due.get(place) != Some(byte) {
            return (line, start);
        }
        place = place.saturating_add(1);
        if *byte == b'\n' {
            line = line.saturating_add(1);
            start = place;
        }
    }
    (line, start)
}

// The line that begins there.
fn push_line_at(text: &mut Parts, log: &[u8], start: usize) {
    for byte in log.get(start..).unwrap_or(b"") {
        if *byte == b'\n' {
            return;
        }
        text.add_byte(*byte);
    }
}

// Says from where two logs differ on.
fn push_apart(fault: &mut Parts, own: &Parts, due: &Parts) {
    let (line, start) = line_apart(own.as_slice(), due.as_slice());
    fault.push("line ");
    fault.push_number(line);
    fault.push(": ");
    push_line_at(fault, own.as_slice(), start);
    fault.push("\ndue: ");
    push_line_at(fault, due.as_slice(), start);
}

// A plain program that tells no start with all that belongs to it has its program told alone.
fn is_launched_so(own: &Told, due: &Told) -> bool {
    due.launched.is_empty() || own.launched.is(&due.launched)
}

// Says where it does otherwise.
fn compare(out: &Recorder, due: &Told, fault: &mut Parts) {
    if due.is_lost() || out.told.is_lost() {
        fault.lose();
    }
    if due.endless {
        fault.push("it doesn't end");
    } else if out.failed {
        fault.push("an act of nobody");
    } else if !out.told.fed.is(&due.fed) {
        fault.push("another body");
    } else if !is_launched_so(&out.told, due) {
        fault.push("another start");
    } else if !out.told.log.is(&due.log) {
        push_apart(fault, &out.told.log, &due.log);
    }
}

// Says where a connection of the site does otherwise at these events than is due.
pub fn judge(alloc: Global, site: &Site, events: Vec<Option<Event>>, due: &Told, fault: &mut Parts)
    requires { IsServed site.now }
{
    let out = play(alloc, site, events, None);
    compare(&out, due, fault);
}

// Adds what is wrong with the story of this number.
pub fn add_fault(said: &mut Parts, seed: u64, fault: &Parts) {
    if !fault.is_empty() || fault.is_lost() {
        said.push("story ");
        said.push_number(seed);
        said.push(", ");
        said.add_parts(fault);
    }
}
