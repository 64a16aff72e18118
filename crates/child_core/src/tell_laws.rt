// Laws of what a run tells, and of items that don't name its child. Each function is one law, and does nothing.
ghost use Rattle.child_core.specs.Tells.{SettledIsExact, WantsMoreIsExact, OthersChangeNothing, OthersMayCome, OthersAreKnown, ActsOfferNothing, FitsMayCome, FitsBehind, KnowsBehind};

/// A run that knows a list is settled exactly where the list says so of its child.
pub fn settled_is_exact()
    ensures { SettledIsExact }
{}

/// It wants more exactly where the list says that all that was fed was taken, or that a text may be heard.
pub fn wants_more_is_exact()
    ensures { WantsMoreIsExact }
{}

/// An item that does not concern a run leaves it as it is.
pub fn others_change_nothing()
    ensures { OthersChangeNothing }
{}

/// An item that does not name its child may come next.
pub fn others_may_come()
    ensures { OthersMayCome }
{}

/// A run knows its list with an item that does not concern it.
pub fn others_are_known()
    ensures { OthersAreKnown }
{}

/// Nothing is offered with an act.
pub fn acts_offer_nothing()
    ensures { ActsOfferNothing }
{}

/// An event that fits the run may come next.
pub fn fits_may_come()
    ensures { FitsMayCome }
{}

/// An event of the child fits exactly where it fits the run, whatever stands before that does not name the child.
pub fn fits_behind()
    ensures { FitsBehind }
{}

/// Such items may stand before all that a run knows.
pub fn knows_behind()
    ensures { KnowsBehind }
{}
