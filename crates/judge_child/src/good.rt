// All rules on one child.
ghost use Rattle.std.specs.Prelude.{◌≡◌, ◌&&◌, List, IfOk, map};
ghost use Rattle.host_trace.specs.declared.items.Act.{Act as AnAct};
ghost use Rattle.host_trace.specs.declared.items.Item.{Item as AnItem};
ghost use Rattle.host_trace.specs.declared.items.Item.TheVariants.{Out};
ghost use Rattle.trace_child.specs.ChildActs.{child_acts};
ghost use Rattle.trace_child.specs.ChildGood.{is_child_good};
ghost use Rattle.trace_child.specs.Feeds.{feeds};
ghost use Rattle.trace_child.specs.HandlesDecided.{handles_decided};
ghost use Rattle.trace_child.specs.Lingers.{lingers};
ghost use Rattle.trace_child.specs.Run.{Run as ARun};
ghost use Rattle.trace_child.specs.Stops.{stops_child};
ghost use Rattle.judge_child.specs.Facts.{AreBefore, AreFacts};
ghost use Rattle.judge_child.specs.Runs.{run_by};

use crate::acts::child_acts;
use crate::facts::{Before, Facts, before_of};
use crate::offered::{Offered, Run};
use host_base::NoMemory;
use host_trace::Item;
use trace_tests::words::is_account;

fn all_of(acts: bool, feeds: bool, decided: bool, lingers: bool, stops: bool) -> bool
    ensures { result ≡ (acts && feeds && decided && lingers && stops) }
{
    acts && feeds && decided && lingers && stops
}

// The rules that look at facts alone hold, and the acts of the step are those that it is to give.
fn keeps_rules(facts: &Facts, before: &Before, room: bool, acts: &[Item]) -> bool
    ensures { (run : ARun) (heard items : List AnItem) (given : List AnAct) → AreFacts facts.now run items → AreBefore before.now run.child heard
        → acts.now ≡ map Out given → result ≡ (child_acts run room heard given items && feeds run items && handles_decided run items && lingers run room items && stops_child run items) }
{
    let is_given = child_acts(facts, before, room, acts);
    let is_fed = facts.feeds();
    let is_handled = facts.handles_decided();
    let may_linger = facts.lingers(room);
    let is_stopped = facts.stops_child();
    all_of(is_given, is_fed, is_handled, may_linger, is_stopped)
}

/// Whether all rules on one child hold at the end of a step. `heard` are the items with the step's event and before its
/// acts, `acts` these acts, `items` all up to the end; `room` says that not too much waits to be sent there.
pub fn is_child_good<O: Offered>(
    run: &Run<'_, O>,
    room: bool,
    heard: &[Item],
    acts: &[Item],
    items: &[Item],
) -> Result<bool, NoMemory>
    ensures { (given : List AnAct) → acts.now ≡ map Out given → IfOk result (λ good. good ≡ is_child_good (run_by run.now.conn run.now.child run.now.kind run.now.limits.now (O.offered run.now.body)) room heard.now given items.now) }
{
    if !is_account(items, run.child) {
        return Ok(false);
    }
    if !run.bodies(items)? {
        return Ok(false);
    }
    let facts = run.facts(items)?;
    let before = before_of(heard, run.child);
    Ok(keeps_rules(&facts, &before, room, acts))
}
