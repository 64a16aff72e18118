// Laws of what is known of the children. Each function is one law, and does nothing.
ghost use Rattle.child_laws.specs.Setting.{SettingsAreOfLegs, SettingsAreStill};
ghost use Rattle.child_laws.specs.Laws.{NothingIsStarted, ExchangesFollow, NumbersRise, EventsAreKnown, OtherActsAreKnown, LossesAreKnown, ShutsAreKnown, RunActsAreKnown, ServesAreKnown, StartsAreKnown, NewRunsAreOffered, UnsettledIsExact, EndsAreExact, RunsTell, SomeCallsAreIdle, EventsHold, DrainsAreKnown, ActsBringNothing, LegsAreKnown};

/// The setting of a leg is that of its run.
pub fn settings_are_of_legs()
    ensures { SettingsAreOfLegs }
{}

/// No act brings anything for a child's input.
pub fn settings_are_still()
    ensures { SettingsAreStill }
{}

/// Before the first item no child is known.
pub fn nothing_is_started()
    ensures { NothingIsStarted }
{}

/// The exchange that follows one has no children.
pub fn exchanges_follow()
    ensures { ExchangesFollow }
{}

/// Children of other connections change nothing.
pub fn numbers_rise()
    ensures { NumbersRise }
{}

/// An event that fits makes of the last run what its calls make of it.
pub fn events_are_known()
    ensures { EventsAreKnown }
{}

/// An act on the connection alone changes nothing of its children.
pub fn other_acts_are_known()
    ensures { OtherActsAreKnown }
{}

/// Where memory ran out the run is ended before the list ends it.
pub fn losses_are_known()
    ensures { LossesAreKnown }
{}

/// The Shut for want of memory ends in the list what was ended before.
pub fn shuts_are_known()
    ensures { ShutsAreKnown }
{}

/// An act that is due for the run makes of it what it makes of the run that is held.
pub fn run_acts_are_known()
    ensures { RunActsAreKnown }
{}

/// All acts that are due for the run, one after another.
pub fn serves_are_known()
    ensures { ServesAreKnown }
{}

/// The Start of the next hop's child begins its run.
pub fn starts_are_known()
    ensures { StartsAreKnown }
{}

/// A new run to which its input was offered.
pub fn new_runs_are_offered()
    ensures { NewRunsAreOffered }
{}

/// The last run says whether a child is unsettled.
pub fn unsettled_is_exact()
    ensures { UnsettledIsExact }
{}

/// An exchange has ended where its last run is settled and its whole answer stands.
pub fn ends_are_exact()
    ensures { EndsAreExact }
{}

/// What the last run says of its child.
pub fn runs_tell()
    ensures { RunsTell }
{}

/// Calls that change nothing of a run.
pub fn some_calls_are_idle()
    ensures { SomeCallsAreIdle }
{}

/// What is kept of the child's output is kept with an event.
pub fn events_hold()
    ensures { EventsHold }
{}

/// Draining the output of the last child changes nothing else.
pub fn drains_are_known()
    ensures { DrainsAreKnown }
{}

/// An act brings no output.
pub fn acts_bring_nothing()
    ensures { ActsBringNothing }
{}

/// The legs of the walk are those that are known.
pub fn legs_are_known()
    ensures { LegsAreKnown }
{}
