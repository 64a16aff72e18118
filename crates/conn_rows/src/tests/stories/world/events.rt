// What comes next, as an event.
use super::super::super::events::{accepted, child_bytes, client_bytes};
use super::super::plain::Plain;
use super::super::story::Story;
use super::{Next, World};
use host_base::NoMemory;
use host_trace::Event;
use std::alloc::Global;

impl World {
    // An event that brings nothing.
    fn plain_event(&self, story: &Story, k: u64, next: Next) -> Event {
        match next {
            Next::End => Event::ClientEof { c: 0 },
            Next::Gone => Event::ClientGone { c: 0 },
            Next::NoRoom => Event::NoRoom { c: 0 },
            Next::Tick => Event::Tick {
                secs: self.secs(story),
            },
            Next::Left(count) => Event::Wrote {
                c: 0,
                n: count as u64,
            },
            _ => child_event(k, next),
        }
    }

    // The event.
    pub fn event(
        &self,
        alloc: Global,
        story: &Story,
        plain: &Plain,
        next: Next,
    ) -> Result<Event, NoMemory> {
        let k = plain.kid_number();
        match next {
            Next::Accept => accepted(alloc),
            Next::Client(count) => client_bytes(
                alloc,
                0,
                part_of(story.stream.as_slice(), plain.got, count),
            ),
            Next::Out(count) => child_bytes(
                alloc,
                k,
                part_of(output_of(story, plain), plain.heard(), count),
            ),
            _ => Ok(self.plain_event(story, k, next)),
        }
    }
}

const NO_BYTES: &[u8] = &[];

// All that a child writes.
fn output_of<'a>(story: &'a Story, plain: &Plain) -> &'a [u8] {
    match plain.role(story) {
        Some(role) => role.output.as_slice(),
        None => NO_BYTES,
    }
}

// So many of these bytes, from a place on.
fn part_of(bytes: &[u8], from: usize, count: usize) -> &[u8] {
    bytes
        .get(from..from.saturating_add(count))
        .unwrap_or(NO_BYTES)
}

fn child_event(k: u64, next: Next) -> Event {
    match next {
        Next::Started => Event::Started { k },
        Next::Failed => Event::StartFailed { k },
        Next::Full(seen) => Event::StartFull { k, seen },
        Next::OutEnd => Event::ChildEof { k },
        Next::Broken => Event::ChildBroken { k },
        Next::Took(count) => Event::Took { k, n: count as u64 },
        Next::InGone => Event::InputGone { k },
        Next::Exited => Event::Exited { k },
        _ => Event::Stop,
    }
}
