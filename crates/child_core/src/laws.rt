// Laws of a run. Each function is one law, and does nothing.
ghost use Rattle.std.specs.Prelude.{ℕ};
ghost use Rattle.child_core.specs.View.{View};
ghost use Rattle.child_core.specs.Laws.{HearsAreItems, EndsAreItems, ClosesAreItems, OffersAreItems, StartsAreKnown, ActsMayCome, ActsAreGood, EventsMayCome, FitsIsExact, ItemsAreKnown, WalksAreKnown, ActsRest, ActsAreDeserved, ActsAreWalked, EndsAreGood};

/// A run whose Start is given knows the list that ends with its Start.
pub fn starts_are_known()
    ensures { StartsAreKnown }
{}

/// An event of the child fits a list that its run knows exactly where it fits the run.
pub fn fits_is_exact()
    ensures { FitsIsExact }
{}

/// An event that fits the list may come next.
pub fn events_may_come()
    ensures { EventsMayCome }
{}

/// A run that notes an item that may come next knows the list with that item.
pub fn items_are_known()
    ensures { ItemsAreKnown }
{}

/// So it does with the acts of a step.
pub fn walks_are_known()
    ensures { WalksAreKnown }
{}

/// The acts that a run gives make of it, noted one after another, what its call says.
pub fn acts_are_walked()
    ensures { ActsAreWalked }
{}

/// After them nothing is due.
pub fn acts_rest()
    ensures { ActsRest }
{}

/// What they did is wanted then.
pub fn acts_are_deserved()
    ensures { ActsAreDeserved }
{}

/// At the end of a step at which nothing is due, and of which all that was done is wanted, all rules on the child hold.
pub fn ends_are_good()
    ensures { EndsAreGood }
{}

/// The acts that a run gives may each come when they come.
pub fn acts_may_come()
    ensures { ActsMayCome }
{}

/// With the acts that a run gives all rules on its child hold at the step's end.
pub fn acts_are_good()
    ensures { ActsAreGood }
{}

/// What `hear` makes of a run is what the event makes of it in the list.
pub fn hears_are_items()
    ensures { HearsAreItems }
{}

/// What `end_by` makes of a run is what the item that ends it makes of it in the list.
pub fn ends_are_items()
    ensures { (c : ℕ) (v : View) → EndsAreItems c v }
{}

/// What `close_input` makes of a run is what the client's close makes of it in the list.
pub fn closes_are_items()
    ensures { ClosesAreItems }
{}

/// What `offer` makes of a run is what the client's bytes make of it in the list, where so much is offered with them.
pub fn offers_are_items()
    ensures { OffersAreItems }
{}
