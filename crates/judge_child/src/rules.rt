// The rules on a child that look at facts alone.
ghost use Rattle.std.specs.Prelude.{◌≡◌};
ghost use Rattle.trace_child.specs.Words.{implies};

use crate::facts::Facts;

fn implies(first: bool, second: bool) -> bool
    ensures { result ≡ implies first second }
{
    !first || second
}

impl Facts {
    ghost use Rattle.std.specs.Prelude.{◌≡◌, ◌&&◌, ◌||◌, not, List};
    ghost use Rattle.host_trace.specs.declared.items.Item.{Item as AnItem};
    ghost use Rattle.host_trace.specs.Projections.{child_wanted, exited, input_ended, killed, output_ended};
    ghost use Rattle.trace_child.specs.ChildDemands.{has_lingered, is_hung_up, is_left_alone, must_ask};
    ghost use Rattle.trace_child.specs.Decided.{is_by_other, is_decided};
    ghost use Rattle.trace_child.specs.Feeds.{feeds, is_fed_now};
    ghost use Rattle.trace_child.specs.HandlesDecided.{handles_decided};
    ghost use Rattle.trace_child.specs.Lingers.{lingers};
    ghost use Rattle.trace_child.specs.Run.{Run as ARun};
    ghost use Rattle.trace_child.specs.Stops.{stops_child};
    ghost use Rattle.trace_child.specs.Words.{implies};
    ghost use Rattle.judge_child.specs.Facts.{AreFacts};

    fn is_fed_now(&self) -> bool
        ensures { (run : ARun) (items : List AnItem) → AreFacts self.now run items → result ≡ is_fed_now run items }
    {
        self.input.takes_body
            && self.was.started
            && !self.ending.decided
            && !self.was.exited
            && !self.was.input_ended
    }

    /// While a run is fed, what was heard is fed as soon as the pipe took what was.
    pub fn feeds(&self) -> bool
        ensures { (run : ARun) (items : List AnItem) → AreFacts self.now run items → result ≡ feeds run items }
    {
        implies(
            self.is_fed_now(),
            implies(self.input.lacks_body, !self.input.all_taken) && !self.input.fed_whole,
        )
    }

    /// Once a run is decided, its child is dealt with.
    pub fn handles_decided(&self) -> bool
        ensures { (run : ARun) (items : List AnItem) → AreFacts self.now run items → result ≡ handles_decided run items }
    {
        implies(
            self.was.started,
            implies(self.ending.decided, self.was.input_ended)
                && implies(self.ending.by_other, self.was.killed || self.was.exited)
                && implies(
                    self.ending.by_other && self.was.exited,
                    self.was.output_ended,
                ),
        )
    }

    // A child that lingered or was left alone was killed, and its input was ended.
    fn is_let_go(&self) -> bool
        ensures { (run : ARun) (items : List AnItem) → AreFacts self.now run items → result ≡
            (implies (has_lingered run items && not (exited items run.child)) (killed items run.child)
            && implies (is_hung_up run items) (input_ended items run.child)
            && implies (is_left_alone run items) (killed items run.child || exited items run.child && output_ended items run.child)) }
    {
        implies(self.ending.lingered && !self.was.exited, self.was.killed)
            && implies(self.ending.hung_up, self.was.input_ended)
            && implies(
                self.ending.left_alone,
                self.was.killed || self.was.exited && self.was.output_ended,
            )
    }

    // Of one that was killed and has exited no output is left, and of one that runs it is asked for.
    fn is_asked(&self, room: bool) -> bool
        ensures { (run : ARun) (items : List AnItem) → AreFacts self.now run items → result ≡
            (implies (killed items run.child && exited items run.child) (output_ended items run.child)
            && implies (must_ask run room items) (child_wanted items run.child)) }
    {
        implies(self.was.killed && self.was.exited, self.was.output_ended)
            && implies(self.must_ask(room), self.was.wanted)
    }

    /// A child whose output has ended, or whose client closed its WebSocket, may linger.
    pub fn lingers(&self, room: bool) -> bool
        ensures { (run : ARun) (items : List AnItem) → AreFacts self.now run items → result ≡ lingers run room items }
    {
        implies(self.was.started, self.is_let_go() && self.is_asked(room))
    }

    /// After Stop each started child was killed or has exited.
    pub fn stops_child(&self) -> bool
        ensures { (run : ARun) (items : List AnItem) → AreFacts self.now run items → result ≡ stops_child run items }
    {
        implies(
            self.stopped && self.was.started,
            self.was.killed || self.was.exited,
        )
    }
}
