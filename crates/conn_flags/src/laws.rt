// Laws of the flags of a connection. Each function is one law, and does nothing.
ghost use Rattle.conn_flags.specs.Laws.{StartsAreKnown, EventsMayCome, ItemsAreKnown, ActsAreKnown, FlagsAreExact, IdleItemsChangeNothing, FitsAreExact};

/// The flags of a new connection know the empty list.
pub fn starts_are_known()
    ensures { StartsAreKnown }
{}

/// An event that fits the list of its connection may come next.
pub fn events_may_come()
    ensures { EventsMayCome }
{}

/// Flags that note an item that may come next know the list with that item.
pub fn items_are_known()
    ensures { ItemsAreKnown }
{}

/// So it is with acts each of which is allowed when it is given.
pub fn acts_are_known()
    ensures { ActsAreKnown }
{}

/// What the flags tell is what the list says.
pub fn flags_are_exact()
    ensures { FlagsAreExact }
{}

/// An item that neither names the connection nor is Accepted or Stop leaves its flags as they are.
pub fn idle_items_change_nothing()
    ensures { IdleItemsChangeNothing }
{}

/// Whether an event of the connection may come next is what its list says.
pub fn fits_are_exact()
    ensures { FitsAreExact }
{}
