// What a child is fed.
ghost use Rattle.std.specs.Prelude.{◌≡◌, ◌+◌, ◌&&◌, ◌≤◌, ◌<◌, ◌-◌, ◌*◌, ◌^◌, ◌++◌, ◌∷◌, [], List, nat_le, nat_lt, length};
ghost use Rattle.host_trace.specs.Fits.{is_piece};
ghost use Rattle.host_trace.specs.declared.items.Item.{Item as AnItem};
ghost use Rattle.trace_child.specs.Bodies.{is_fed_in_turn};
ghost use Rattle.trace_child.specs.ChildDemands.{is_all_taken};
ghost use Rattle.trace_child.specs.Words.{each};
ghost use Rattle.judge_child.specs.Counts.{IsFlow};

use crate::decided::is_websocket;
use crate::offered::{Offered, Run};
use host_base::{Bytes, NoMemory};
use host_trace::{Act, Item};
use trace_tests::kinds;
use trace_tests::parts::until_end_input;
use trace_tests::words::{child_in, has_end_input, has_end_of_reading, shut_for_memory};

/// How many bytes were fed to a child, and taken.
#[derive(Clone, Copy)]
pub struct Flow {
    pub fed: u128,
    pub took: u128,
}

fn is_piece(bytes: &Bytes) -> bool
    ensures { result ≡ is_piece bytes.now }
{
    !bytes.is_empty() && bytes.len() <= 65_536
}

fn no_flow(k: u64) -> Flow
    ensures { IsFlow result k [] }
{
    Flow { fed: 0, took: 0 }
}

impl Flow {
    ghost use Rattle.std.specs.Prelude.{◌≡◌, ◌≤◌, ◌+◌, ◌<◌, ◌-◌, ◌^◌, List, ◌++◌, ◌∷◌, []};
    ghost use Rattle.host_trace.specs.declared.items.Item.{Item as AnItem};
    ghost use Rattle.trace_child.specs.Bodies.{is_fed_in_turn};
    ghost use Rattle.judge_child.specs.Counts.{IsFlow};

    // Counts one item more.
    fn note(&mut self, item: &Item, k: u64)
        requires fed { self.old.fed < 2 ^ 128 - 2 ^ 64 }
        requires took { self.old.took < 2 ^ 128 - 2 ^ 64 }
        ensures fed { self.new.fed ≤ self.old.fed + (2 ^ 64 - 1) }
        ensures took { self.new.took ≤ self.old.took + (2 ^ 64 - 1) }
        ensures flow { (front : List AnItem) → IsFlow self.old k front → IsFlow self.new k (front ++ item.now ∷ []) }
    {
        self.fed += kinds::input_fed(item, k).len() as u128;
        self.took += u128::from(kinds::count_took(item, k));
    }

    // Whether the item may be fed after what was.
    fn is_fed_in_turn(&self, item: &Item, k: u64) -> bool
        ensures { (front : List AnItem) → IsFlow self.now k front → result ≡ is_fed_in_turn k front item.now }
    {
        match item {
            Item::Out(Act::Feed { k: d, bytes }) if k == *d => {
                self.took == self.fed && is_piece(bytes)
            }
            _ => true,
        }
    }
}

/// How much was fed and taken.
pub fn flow_of(items: &[Item], k: u64) -> Flow
    ensures { IsFlow result k items.now }
{
    let mut flow = no_flow(k);
    for i in 0..items.len() {
        flow.note(&items[i], k);
    }
    flow
}

// Each piece is fed in its turn.
fn are_fed_in_turn(items: &[Item], k: u64) -> bool
    ensures { result ≡ each (is_fed_in_turn k) items.now }
{
    let mut flow = no_flow(k);
    for i in 0..items.len() {
        let item = &items[i];
        if !flow.is_fed_in_turn(item, k) {
            return false;
        }
        flow.note(item, k);
    }
    true
}

/// The input pipe took all that was fed.
pub fn is_all_taken(items: &[Item], k: u64) -> bool
    ensures { result ≡ is_all_taken items.now k }
{
    let flow = flow_of(items, k);
    flow.took == flow.fed
}

impl<O: Offered> Run<'_, O> {
    ghost use Rattle.std.specs.Prelude.{◌≡◌, bytes_eq, nat_eq, IfOk};
    ghost use Rattle.std.specs.List.{starts_with};
    ghost use Rattle.host_trace.specs.Projections.{child_in};
    ghost use Rattle.trace_child.specs.Bodies.{bodies, is_excused, owes_whole};
    ghost use Rattle.trace_child.specs.ChildDemands.{is_fed_whole};
    ghost use Rattle.trace_child.specs.Feeds.{lacks_body};
    ghost use Rattle.trace_child.specs.Run.{takes_body};
    ghost use Rattle.trace_child.specs.Words.{implies};
    ghost use Rattle.judge_child.specs.Runs.{run_by};

    /// A request's body is its input.
    pub fn takes_body(&self) -> bool
        ensures { result ≡ takes_body (run_by self.now.conn self.now.child self.now.kind self.now.limits.now (O.offered self.now.body)) }
    {
        !is_websocket(self.kind)
    }

    // What was fed is all that was heard.
    fn is_fed_all(&self, items: &[Item]) -> Result<bool, NoMemory>
        ensures { IfOk result (λ yes. yes ≡ bytes_eq (child_in items.now self.now.child) (O.offered self.now.body items.now).body) }
    {
        let fed = child_in(self.alloc, items, self.child)?;
        let body = self.body.body(self.alloc, items)?;
        Ok(fed.as_slice() == body.as_slice())
    }

    /// The whole body was fed.
    pub fn is_fed_whole(&self, items: &[Item]) -> Result<bool, NoMemory>
        ensures { IfOk result (λ yes. yes ≡ is_fed_whole (run_by self.now.conn self.now.child self.now.kind self.now.limits.now (O.offered self.now.body)) items.now) }
    {
        if !self.takes_body() {
            return Ok(false);
        }
        if !self.body.is_whole(items)? {
            return Ok(false);
        }
        self.is_fed_all(items)
    }

    /// Not all of the body heard was fed.
    pub fn lacks_body(&self, items: &[Item]) -> Result<bool, NoMemory>
        ensures { IfOk result (λ yes. yes ≡ lacks_body (run_by self.now.conn self.now.child self.now.kind self.now.limits.now (O.offered self.now.body)) items.now) }
    {
        let fed = child_in(self.alloc, items, self.child)?;
        let body = self.body.body(self.alloc, items)?;
        Ok(fed.len() < body.len())
    }

    // What was fed begins the body.
    fn begins_body(&self, items: &[Item]) -> Result<bool, NoMemory>
        ensures { IfOk result (λ yes. yes ≡ starts_with nat_eq (O.offered self.now.body items.now).body (child_in items.now self.now.child)) }
    {
        let fed = child_in(self.alloc, items, self.child)?;
        let body = self.body.body(self.alloc, items)?;
        Ok(body.as_slice().starts_with(fed.as_slice()))
    }

    // Before its input was ended nobody read it any more, or the run was decided.
    fn is_excused(&self, items: &[Item]) -> Result<bool, NoMemory>
        ensures { IfOk result (λ yes. yes ≡ is_excused (run_by self.now.conn self.now.child self.now.kind self.now.limits.now (O.offered self.now.body)) items.now) }
    {
        let front = until_end_input(items, self.child);
        if has_end_of_reading(front, self.child) {
            return Ok(true);
        }
        self.is_decided(front)
    }

    // The host ended its input, and owes it the whole body.
    fn owes_whole(&self, items: &[Item]) -> Result<bool, NoMemory>
        ensures { IfOk result (λ yes. yes ≡ owes_whole (run_by self.now.conn self.now.child self.now.kind self.now.limits.now (O.offered self.now.body)) items.now) }
    {
        if !has_end_input(items, self.child) || shut_for_memory(items, self.conn) {
            return Ok(false);
        }
        Ok(!self.is_excused(items)?)
    }

    // Where it is owed the whole body, it has it.
    fn has_what_is_owed(&self, items: &[Item]) -> Result<bool, NoMemory>
        ensures { IfOk result (λ yes. yes ≡ implies (owes_whole (run_by self.now.conn self.now.child self.now.kind self.now.limits.now (O.offered self.now.body)) items.now) (is_fed_whole (run_by self.now.conn self.now.child self.now.kind self.now.limits.now (O.offered self.now.body)) items.now)) }
    {
        if !self.owes_whole(items)? {
            return Ok(true);
        }
        self.is_fed_whole(items)
    }

    /// The rule on what a child is fed.
    pub fn bodies(&self, items: &[Item]) -> Result<bool, NoMemory>
        ensures { IfOk result (λ yes. yes ≡ bodies (run_by self.now.conn self.now.child self.now.kind self.now.limits.now (O.offered self.now.body)) items.now) }
    {
        if !self.takes_body() {
            return Ok(true);
        }
        if !self.begins_body(items)? || !are_fed_in_turn(items, self.child) {
            return Ok(false);
        }
        self.has_what_is_owed(items)
    }
}
