// Laws of a run's acts one by one, and of the step in which memory ran out. Each function is one law, and does
// nothing.
ghost use Rattle.child_core.specs.Memory.{DueActsAreInForm, EndedActsAreInForm, ActsAreDue, PiecesAreFronts, DueActsMayCome, KnowsEarly, KnowsShut, EndedActsAgree, EndedActsMayCome, EndedStepsAreKnown, EndedStepsAreGood};

/// The acts that a run gives are each due when they are given.
pub fn acts_are_due()
    ensures { ActsAreDue }
{}

/// A Feed that is due is a text at once, or as much of the body as a piece may be.
pub fn pieces_are_fronts()
    ensures { PiecesAreFronts }
{}

/// An act that is due may come next.
pub fn due_acts_may_come()
    ensures { DueActsMayCome }
{}

/// It has the form of an act on a child.
pub fn due_acts_are_in_form()
    ensures { DueActsAreInForm }
{}

/// What a run knows it knows too once memory ran out.
pub fn knows_early()
    ensures { KnowsEarly }
{}

/// With the Shut that says so, all of it is known again.
pub fn knows_shut()
    ensures { KnowsShut }
{}

/// Until that Shut an act makes the same of the run that was ended and of the one that the list knows.
pub fn ended_acts_agree()
    ensures { EndedActsAgree }
{}

/// The acts that are due for the ended run may come.
pub fn ended_acts_may_come()
    ensures { EndedActsMayCome }
{}

/// They have the form of acts on a child.
pub fn ended_acts_are_in_form()
    ensures { EndedActsAreInForm }
{}

/// With its acts and the Shut the list knows the ended run.
pub fn ended_steps_are_known()
    ensures { EndedStepsAreKnown }
{}

/// With them all rules on the child hold at the step's end.
pub fn ended_steps_are_good()
    ensures { EndedStepsAreGood }
{}
