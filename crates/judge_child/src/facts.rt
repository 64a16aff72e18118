// What the rules on a child look at.
ghost use Rattle.std.specs.Prelude.{◌≡◌};
ghost use Rattle.std.specs.Option.{option_copied};
ghost use Rattle.host_trace.specs.First.{last_of};
ghost use Rattle.trace_child.specs.ChildDemands.{is_waited_out};
ghost use Rattle.judge_child.specs.Facts.{AreBefore};

use crate::bodies::is_all_taken;
use crate::decided::is_websocket;
use crate::offered::{Offered, Run};
use host_base::{Limits, NoMemory};
use host_trace::Item;
use trace_tests::parts::{since_child_eof, since_ws_closed};
use trace_tests::{kinds, words};

/// What happened to a child.
#[derive(Clone, Copy)]
pub struct Before {
    pub started: bool,
    pub exited: bool,
    pub killed: bool,
    pub input_ended: bool,
    pub output_ended: bool,
    pub wanted: bool,
}

/// What there is for its input, and what it got.
#[derive(Clone, Copy)]
pub struct Input {
    pub takes_body: bool,
    pub fed_whole: bool,
    pub all_taken: bool,
    pub lacks_body: bool,
}

/// How its run ends.
#[derive(Clone, Copy)]
pub struct Ending {
    pub decided: bool,
    pub by_other: bool,
    pub hung_up: bool,
    pub left_alone: bool,
    pub lingered: bool,
}

/// All that the rules look at, at the end of a step.
#[derive(Clone, Copy)]
pub struct Facts {
    pub child: u64,
    pub was: Before,
    pub input: Input,
    pub ending: Ending,
    pub stopped: bool,
}

/// What happened to child `k` in the items.
pub fn before_of(items: &[Item], k: u64) -> Before
    ensures { AreBefore result k items.now }
{
    Before {
        started: words::started(items, k),
        exited: words::exited(items, k),
        killed: words::killed(items, k),
        input_ended: words::input_ended(items, k),
        output_ended: words::output_ended(items, k),
        wanted: words::child_wanted(items, k),
    }
}

// For as long as a child may linger nobody waited for it.
fn is_waited_out(limits: &Limits, c: u64, later: &[Item]) -> bool
    ensures { result ≡ is_waited_out limits.now c later.now }
{
    words::tick_count(later) >= limits.linger_ticks as usize || words::has_end_of_waiting(later, c)
}

// The last of some items.
#[tactic(auto, using(crate::proofs::PartLaws::last_is))]
fn last_of(items: &[Item]) -> Option<&Item>
    ensures { option_copied result ≡ last_of items.now }
{
    items.last()
}

impl<O: Offered> Run<'_, O> {
    ghost use Rattle.std.specs.Prelude.{◌≡◌, ◌&&◌, not, nat_le, IfOk};
    ghost use Rattle.host_trace.specs.First.{since};
    ghost use Rattle.host_trace.specs.Kinds.{is_ws_closed};
    ghost use Rattle.host_trace.specs.Projections.{tick_count};
    ghost use Rattle.trace_child.specs.ChildDemands.{has_lingered, is_hung_up, is_left_alone};
    ghost use Rattle.trace_child.specs.Decided.{is_by_other, is_by_output};
    ghost use Rattle.judge_child.specs.Facts.{AreFacts, IsEnding, IsInput};
    ghost use Rattle.judge_child.specs.Runs.{run_by};

    // The end of its output decided the run.
    fn is_by_output(&self, items: &[Item]) -> Result<bool, NoMemory>
        ensures { IfOk result (λ yes. yes ≡ is_by_output (run_by self.now.conn self.now.child self.now.kind self.now.limits.now (O.offered self.now.body)) items.now) }
    {
        match self.decided_at(items)? {
            Some(front) => match last_of(front) {
                Some(item) => Ok(kinds::is_child_eof(item, self.child)),
                None => Ok(false),
            },
            None => Ok(false),
        }
    }

    fn is_hung_up(&self, items: &[Item]) -> bool
        ensures { result ≡ is_hung_up (run_by self.now.conn self.now.child self.now.kind self.now.limits.now (O.offered self.now.body)) items.now }
    {
        is_websocket(self.kind) && words::has_ws_closed(items, self.conn)
    }

    // So long ago its client closed it.
    fn is_long_closed(&self, items: &[Item]) -> bool
        ensures { result ≡ nat_le self.now.limits.now.linger_ticks (tick_count (since (is_ws_closed self.now.conn) items.now)) }
    {
        words::tick_count(since_ws_closed(items, self.conn)) >= self.limits.linger_ticks as usize
    }

    // It ended its output, and nobody waited for it any more.
    fn has_lingered(&self, items: &[Item], by_output: bool) -> bool
        requires { by_output ≡ is_by_output (run_by self.now.conn self.now.child self.now.kind self.now.limits.now (O.offered self.now.body)) items.now }
        ensures { result ≡ has_lingered (run_by self.now.conn self.now.child self.now.kind self.now.limits.now (O.offered self.now.body)) items.now }
    {
        by_output && is_waited_out(self.limits, self.conn, since_child_eof(items, self.child))
    }

    // How the run ends.
    fn ending(&self, items: &[Item]) -> Result<Ending, NoMemory>
        ensures { IfOk result (λ ending. IsEnding ending (run_by self.now.conn self.now.child self.now.kind self.now.limits.now (O.offered self.now.body)) items.now) }
    {
        let decided = self.is_decided(items)?;
        let by_output = self.is_by_output(items)?;
        let hung_up = self.is_hung_up(items);
        Ok(Ending {
            decided,
            by_other: decided && !by_output,
            hung_up,
            left_alone: hung_up && !decided && self.is_long_closed(items),
            lingered: self.has_lingered(items, by_output),
        })
    }

    // What there is for its input, and what it got.
    fn input(&self, items: &[Item]) -> Result<Input, NoMemory>
        ensures { IfOk result (λ input. IsInput input (run_by self.now.conn self.now.child self.now.kind self.now.limits.now (O.offered self.now.body)) items.now) }
    {
        Ok(Input {
            takes_body: self.takes_body(),
            fed_whole: self.is_fed_whole(items)?,
            all_taken: is_all_taken(items, self.child),
            lacks_body: self.lacks_body(items)?,
        })
    }

    /// All that the rules look at after the items.
    pub fn facts(&self, items: &[Item]) -> Result<Facts, NoMemory>
        ensures { IfOk result (λ facts. AreFacts facts (run_by self.now.conn self.now.child self.now.kind self.now.limits.now (O.offered self.now.body)) items.now) }
    {
        Ok(Facts {
            child: self.child,
            was: before_of(items, self.child),
            input: self.input(items)?,
            ending: self.ending(items)?,
            stopped: words::stopped(items),
        })
    }
}
