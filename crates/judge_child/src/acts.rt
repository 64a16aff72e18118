// Which acts a step gives to a child.
ghost use Rattle.std.specs.Prelude.{◌≡◌, ◌==◌, ◌&&◌, not, List, map};
ghost use Rattle.host_trace.specs.declared.items.Act.{Act as AnAct};
ghost use Rattle.host_trace.specs.declared.items.Item.{Item as AnItem};
ghost use Rattle.host_trace.specs.declared.items.Item.TheVariants.{Out};
ghost use Rattle.host_trace.specs.Kinds.{is_end_input, is_kill, is_release, is_want_child};
ghost use Rattle.host_trace.specs.Projections.{child_wanted, input_ended, killed, output_ended};
ghost use Rattle.trace_child.specs.ChildActs.{child_acts};
ghost use Rattle.trace_child.specs.ChildDemands.{must_ask, must_end_input, must_kill, must_release};
ghost use Rattle.trace_child.specs.Run.{Run as ARun};
ghost use Rattle.trace_child.specs.Words.{given as given_of, once};
ghost use Rattle.judge_child.specs.Facts.{AreBefore, AreFacts};

use crate::facts::{Before, Facts};
use host_trace::Item;
use trace_tests::words;

impl Facts {
    ghost use Rattle.std.specs.Prelude.{◌≡◌, List};
    ghost use Rattle.host_trace.specs.declared.items.Item.{Item as AnItem};
    ghost use Rattle.trace_child.specs.ChildDemands.{must_ask, must_end_input, must_kill, must_release};
    ghost use Rattle.trace_child.specs.Run.{Run as ARun};
    ghost use Rattle.judge_child.specs.Facts.{AreFacts};

    fn must_end_input(&self) -> bool
        ensures { (run : ARun) (items : List AnItem) → AreFacts self.now run items → result ≡ must_end_input run items }
    {
        self.was.started
            && (self.ending.decided
                || self.ending.hung_up
                || !self.was.exited && self.input.fed_whole)
    }

    fn must_kill(&self) -> bool
        ensures { (run : ARun) (items : List AnItem) → AreFacts self.now run items → result ≡ must_kill run items }
    {
        self.was.started
            && !self.was.exited
            && (self.ending.by_other || self.ending.left_alone || self.ending.lingered)
    }

    fn must_release(&self) -> bool
        ensures { (run : ARun) (items : List AnItem) → AreFacts self.now run items → result ≡ must_release run items }
    {
        self.was.started
            && self.was.exited
            && (self.ending.by_other || self.ending.left_alone || self.was.killed)
    }

    pub fn must_ask(&self, room: bool) -> bool
        ensures { (run : ARun) (items : List AnItem) → AreFacts self.now run items → result ≡ must_ask run room items }
    {
        self.was.started
            && !self.ending.decided
            && !self.was.killed
            && !self.was.output_ended
            && room
    }
}

// It is demanded and does not stand.
fn is_due(must: bool, stands: bool) -> bool
    ensures { result ≡ (must && not stands) }
{
    must && !stands
}

fn once(so: bool) -> usize
    ensures { result ≡ once so }
{
    if so { 1 } else { 0 }
}

fn ends_input_right(facts: &Facts, before: &Before, acts: &[Item]) -> bool
    ensures { (run : ARun) (heard items : List AnItem) (given : List AnAct) → AreFacts facts.now run items → AreBefore before.now run.child heard
        → acts.now ≡ map Out given → result ≡ (given_of (is_end_input run.child) given == once (must_end_input run items && not (input_ended heard run.child))) }
{
    words::end_inputs(acts, facts.child) == once(is_due(facts.must_end_input(), before.input_ended))
}

fn kills_right(facts: &Facts, before: &Before, acts: &[Item]) -> bool
    ensures { (run : ARun) (heard items : List AnItem) (given : List AnAct) → AreFacts facts.now run items → AreBefore before.now run.child heard
        → acts.now ≡ map Out given → result ≡ (given_of (is_kill run.child) given == once (must_kill run items && not (killed heard run.child))) }
{
    words::kills(acts, facts.child) == once(is_due(facts.must_kill(), before.killed))
}

fn releases_right(facts: &Facts, before: &Before, acts: &[Item]) -> bool
    ensures { (run : ARun) (heard items : List AnItem) (given : List AnAct) → AreFacts facts.now run items → AreBefore before.now run.child heard
        → acts.now ≡ map Out given → result ≡ (given_of (is_release run.child) given == once (must_release run items && not (output_ended heard run.child))) }
{
    words::releases(acts, facts.child) == once(is_due(facts.must_release(), before.output_ended))
}

fn asks_right(facts: &Facts, before: &Before, room: bool, acts: &[Item]) -> bool
    ensures { (run : ARun) (heard items : List AnItem) (given : List AnAct) → AreFacts facts.now run items → AreBefore before.now run.child heard
        → acts.now ≡ map Out given → result ≡ (given_of (is_want_child run.child) given == once (must_ask run room items && not (child_wanted heard run.child))) }
{
    words::want_childs(acts, facts.child) == once(is_due(facts.must_ask(room), before.wanted))
}

/// The rule on which acts a step gives to a child. The acts are the items behind the step's event.
pub fn child_acts(facts: &Facts, before: &Before, room: bool, acts: &[Item]) -> bool
    ensures { (run : ARun) (heard items : List AnItem) (given : List AnAct) → AreFacts facts.now run items → AreBefore before.now run.child heard
        → acts.now ≡ map Out given → result ≡ child_acts run room heard given items }
{
    ends_input_right(facts, before, acts)
        && kills_right(facts, before, acts)
        && releases_right(facts, before, acts)
        && asks_right(facts, before, room, acts)
}
