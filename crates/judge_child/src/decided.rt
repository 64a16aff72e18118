// What decides a run.
ghost use Rattle.std.specs.Prelude.{◌≡◌, ◌≤◌, ◌<◌, ◌+◌, ◌-◌, ◌*◌, ◌^◌, ◌&&◌, ◌||◌, ◌++◌, ◌∷◌, [], true, not, ℕ, List, IfOk, length, if◌then◌else◌};
ghost use Rattle.host_trace.specs.declared.items.Item.{Item as AnItem};
ghost use Rattle.host_trace.specs.Decider.{ends_connection, is_last_tick, is_long_text, is_websocket, makes_long_line, passes_output};
ghost use Rattle.host_trace.specs.First.{since};
ghost use Rattle.host_trace.specs.Kinds.{is_child_broken, is_child_eof, is_start, is_start_failed, is_start_full};
ghost use Rattle.host_trace.specs.Projections.{shut};
ghost use Rattle.judge_child.specs.Counts.{IsCounted};

use crate::lines::has_long_line;
use crate::offered::{Offered, Run};
use host_base::{Limits, NoMemory, ScriptKind};
use host_trace::Item;
use std::alloc::Global;
use trace_tests::kinds;
use trace_tests::parts::since_start;
use trace_tests::words::{child_out, shut};

/// Of one child: whether its Start stands, and what came after it.
#[derive(Clone, Copy)]
pub struct Counted {
    pub started: bool,
    pub output: u128,
    pub ticks: u128,
}

impl Counted {
    fn new(k: u64) -> Self
        ensures { IsCounted result k [] }
    {
        Counted {
            started: false,
            output: 0,
            ticks: 0,
        }
    }
}

impl Counted {
    ghost use Rattle.std.specs.Prelude.{◌≡◌, ◌≤◌, ◌+◌, ◌<◌, ◌-◌, ◌^◌, List, ◌++◌, ◌∷◌, []};
    ghost use Rattle.host_trace.specs.declared.items.Item.{Item as AnItem};
    ghost use Rattle.judge_child.specs.Counts.{IsCounted};

    // Counts one item more.
    fn note(&mut self, item: &Item, k: u64)
        requires output { self.old.output < 2 ^ 128 - 2 ^ 64 }
        requires ticks { self.old.ticks < 2 ^ 64 }
        ensures output { self.new.output ≤ self.old.output + (2 ^ 64 - 1) }
        ensures ticks { self.new.ticks ≤ self.old.ticks + 1 }
        ensures counted { (front : List AnItem) → IsCounted self.old k front → IsCounted self.new k (front ++ item.now ∷ []) }
    {
        if self.started {
            self.output += kinds::output_heard(item, k).len() as u128;
            self.ticks += kinds::tick_len(item);
        } else {
            self.started = kinds::is_start(item, k);
        }
    }
}

pub fn is_websocket(kind: ScriptKind) -> bool
    ensures { result ≡ is_websocket kind }
{
    match kind {
        ScriptKind::WebSocket => true,
        ScriptKind::Cgi | ScriptKind::Nph => false,
    }
}

// Whether an item decides the run by what it is alone.
fn decides_alone(item: &Item, c: u64, k: u64) -> bool
    ensures { result ≡ (is_child_eof k item.now || is_start_failed k item.now || is_start_full k item.now || is_child_broken k item.now || ends_connection c item.now) }
{
    kinds::is_child_eof(item, k)
        || kinds::is_child_failure(item, k)
        || kinds::ends_connection(item, c)
}

// Whether the output passes its limit, or the time is over.
fn passes_limit(limits: &Limits, counted: Counted, k: u64, item: &Item) -> bool
    requires output { counted.output < 2 ^ 128 - 2 ^ 64 }
    requires ticks { counted.ticks < 2 ^ 64 }
    ensures { (front : List AnItem) → IsCounted counted k front
        → result ≡ (passes_output limits.now k (since (is_start k) front) item.now || is_last_tick limits.now (since (is_start k) front) item.now) }
{
    if kinds::is_child_bytes(item, k) {
        counted.output + kinds::output_heard(item, k).len() as u128 > u128::from(limits.output)
    } else {
        kinds::is_tick(item) && counted.ticks + 1 == u128::from(limits.run_ticks)
    }
}

// Whether the item makes a line of the output too long, after these.
#[tactic(auto, using(crate::proofs::PartLaws::output_next))]
fn makes_long_line(
    alloc: Global,
    limits: &Limits,
    k: u64,
    front: &[Item],
    item: &Item,
) -> Result<bool, NoMemory>
    ensures { IfOk result (λ long. long ≡ makes_long_line limits.now k front.now item.now) }
{
    if !kinds::is_child_bytes(item, k) {
        return Ok(false);
    }
    let mut output = child_out(alloc, front, k)?;
    output.extend_from_slice(kinds::output_heard(item, k))?;
    Ok(has_long_line(limits.ws_text, output.as_slice()))
}

// Whether a text or a line of a conversation is too long. `front` are the items behind the Start.
fn breaks_talk(
    alloc: Global,
    limits: &Limits,
    c: u64,
    k: u64,
    front: &[Item],
    item: &Item,
) -> Result<bool, NoMemory>
    ensures { IfOk result (λ breaks. breaks ≡ (not (shut front.now c) && (is_long_text limits.now c item.now || makes_long_line limits.now k front.now item.now))) }
{
    if shut(front, c) {
        return Ok(false);
    }
    if kinds::is_long_text(item, limits, c) {
        return Ok(true);
    }
    makes_long_line(alloc, limits, k, front, item)
}

impl<O: Offered> Run<'_, O> {
    ghost use Rattle.std.specs.Prelude.{◌≡◌, ◌<◌, ◌-◌, ◌^◌, ◌&&◌, ◌||◌, true, not, List, IfOk, is_some, if◌then◌else◌};
    ghost use Rattle.std.specs.Option.{option_copied};
    ghost use Rattle.host_trace.specs.Decider.{is_last_tick, is_long_text, is_websocket, makes_long_line, passes_output};
    ghost use Rattle.host_trace.specs.First.{since};
    ghost use Rattle.host_trace.specs.Kinds.{is_start};
    ghost use Rattle.host_trace.specs.Projections.{shut};
    ghost use Rattle.trace_child.specs.Decided.{cuts_body_short, decided_at, decides_run, is_decided};
    ghost use Rattle.judge_child.specs.Counts.{IsCounted};
    ghost use Rattle.judge_child.specs.Runs.{run_by};

    fn cuts_body_short(&self, front: &[Item], item: &Item) -> Result<bool, NoMemory>
        ensures { IfOk result (λ yes. yes ≡ cuts_body_short (run_by self.now.conn self.now.child self.now.kind self.now.limits.now (O.offered self.now.body)) front.now item.now) }
    {
        if kinds::is_client_eof(item, self.conn) {
            return Ok(!self.body.is_whole(front)?);
        }
        Ok(false)
    }

    // Whether a limit of its kind is passed.
    fn passes(&self, counted: Counted, front: &[Item], item: &Item) -> Result<bool, NoMemory>
        requires output { counted.output < 2 ^ 128 - 2 ^ 64 }
        requires ticks { counted.ticks < 2 ^ 64 }
        requires counted { IsCounted counted self.now.child front.now }
        ensures { IfOk result (λ yes. yes ≡ (if is_websocket self.now.kind
            then not (shut (since (is_start self.now.child) front.now) self.now.conn) && (is_long_text self.now.limits.now self.now.conn item.now || makes_long_line self.now.limits.now self.now.child (since (is_start self.now.child) front.now) item.now)
            else passes_output self.now.limits.now self.now.child (since (is_start self.now.child) front.now) item.now || is_last_tick self.now.limits.now (since (is_start self.now.child) front.now) item.now)) }
    {
        if is_websocket(self.kind) {
            let talk = since_start(front, self.child);
            return breaks_talk(self.alloc, self.limits, self.conn, self.child, talk, item);
        }
        Ok(passes_limit(self.limits, counted, self.child, item))
    }

    fn decides(&self, counted: Counted, front: &[Item], item: &Item) -> Result<bool, NoMemory>
        requires output { counted.output < 2 ^ 128 - 2 ^ 64 }
        requires ticks { counted.ticks < 2 ^ 64 }
        requires counted { IsCounted counted self.now.child front.now }
        ensures { IfOk result (λ yes. yes ≡ decides_run (run_by self.now.conn self.now.child self.now.kind self.now.limits.now (O.offered self.now.body)) front.now item.now) }
    {
        if !counted.started {
            return Ok(false);
        }
        if decides_alone(item, self.conn, self.child) {
            return Ok(true);
        }
        if self.passes(counted, front, item)? {
            return Ok(true);
        }
        self.cuts_body_short(front, item)
    }

    /// The items up to and with the one that decides the run.
    pub fn decided_at<'t>(&self, items: &'t [Item]) -> Result<Option<&'t [Item]>, NoMemory>
        ensures { IfOk result (λ front. option_copied front ≡ decided_at (run_by self.now.conn self.now.child self.now.kind self.now.limits.now (O.offered self.now.body)) items.now) }
    {
        let mut counted = Counted::new(self.child);
        for i in 0..items.len() {
            let item = &items[i];
            if self.decides(counted, &items[..i], item)? {
                return Ok(Some(&items[..=i]));
            }
            counted.note(item, self.child);
        }
        Ok(None)
    }

    pub fn is_decided(&self, items: &[Item]) -> Result<bool, NoMemory>
        ensures { IfOk result (λ yes. yes ≡ is_decided (run_by self.now.conn self.now.child self.now.kind self.now.limits.now (O.offered self.now.body)) items.now) }
    {
        Ok(self.decided_at(items)?.is_some())
    }
}
