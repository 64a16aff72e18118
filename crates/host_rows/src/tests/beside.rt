// Loops run beside each other.
ghost use Rattle.std.specs.Prelude.{◌≡◌, ◌-◌, ◌^◌, None, IfOk};
ghost use Rattle.host_base.specs.SiteRules.{IsServed};

use super::drive::{FIRST, event_of};
use host_base::{NoMemory, Site};
use host_loop::LoopEnd;
use host_serve::serve_all;
use host_trace::{Act, Acted, Event, Outside};
use site_file::one_script;
use std::alloc::Global;
use std::process::Abort;
use std::sync::atomic::{AtomicU64, Ordering};
use std::test::Fail;
use std::thread::{Threads, yield_now};

// How often the gate is tried.
const TRIES: u64 = 1 << 20;

// A site of one script, at /cgi-bin/hello.
fn site(alloc: Global) -> Result<Site, Fail>
    ensures { IfOk result IsServed }
{
    Ok(one_script(alloc, "/cgi-bin/hello", "/srv/cgi/hello")?)
}

// The event of this number of a GET that a script answers, and then Stop.
fn event_at(alloc: Global, number: usize) -> Result<Event, NoMemory> {
    match FIRST.get(number) {
        Some(heard) => event_of(alloc, *heard),
        None => Ok(Event::Stop),
    }
}

// What an outside does at the gate.
#[derive(Clone, Copy, Debug, PartialEq, Eq)]
enum Part {
    /// It hears Ticks alone until the gate is open, and then Stop.
    Waits,
    /// It hears a GET that a script answers, and opens the gate when the reply is written.
    Opens,
}

// An outside at a gate.
#[derive(Drop)]
struct Gated<'g> {
    alloc: Global,
    gate: &'g AtomicU64,
    part: Part,
    limit: u32,
    heard: u64,
    passed: bool,
}

impl Gated<'_> {
    // What the one that waits hears.
    fn waits(&mut self) -> Event
        ensures { self.new.limit ≡ self.old.limit }
    {
        if self.gate.load(Ordering::SeqCst) == 1 {
            self.passed = true;
            return Event::Stop;
        }
        if self.heard >= TRIES {
            return Event::Stop;
        }
        yield_now();
        Event::Tick { secs: 0 }
    }
}

impl Outside for Gated<'_> {
    ghost trace = { λ _. None };

    // Counts that stand at their last value, so that whatever is handed up is counted.
    ghost faults = { λ _. 2 ^ 64 - 1 };

    ghost full_books = { λ _. 2 ^ 64 - 1 };

    ghost limit = { λ o. o.limit };

    fn next(&mut self) -> Event {
        let number = self.heard;
        self.heard = number.saturating_add(1);
        match self.part {
            Part::Waits => self.waits(),
            Part::Opens => event_at(self.alloc, number as usize).unwrap_or(Event::Stop),
        }
    }

    fn act(&mut self, act: &Act) -> Acted {
        if let Act::Write { .. } = act {
            self.gate.store(1, Ordering::SeqCst);
            self.passed = true;
        }
        Acted::Done
    }
}

fn at_gate(alloc: Global, gate: &AtomicU64, part: Part, limit: u32) -> Gated<'_>
    ensures { result.limit ≡ limit }
{
    Gated {
        alloc,
        gate,
        part,
        limit,
        heard: 0,
        passed: false,
    }
}

// Loop 0 hears only Ticks until loop 1 has written a reply.
fn pass<R: Threads + Abort + Sync>(rt: &R, alloc: Global) -> Result<(), Fail> {
    let site = site(alloc)?;
    let limit = site.limits.children;
    let gate = AtomicU64::new(0);
    let waits = at_gate(alloc, &gate, Part::Waits, limit);
    let opens = at_gate(alloc, &gate, Part::Opens, limit);
    let mut outs = vec![in alloc; waits, opens]?;
    let end = serve_all(rt, alloc, &site, &mut outs, 1 << 21);
    assert_eq!(rt; end, LoopEnd::Done);
    for out in outs.iter() {
        assert!(rt; out.passed);
    }
    Ok(())
}

#[test]
fn a_loop_waits_for_the_reply_of_another(rt: HostRuntime) -> Result<(), Fail> {
    pass(&rt, rt.alloc())
}
