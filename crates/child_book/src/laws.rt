// What the numbers of tickets are worth.
ghost use Rattle.child_book.specs.Counts.{TicketsDiffer};

/// The numbers of two tickets differ, where fewer than 2^64 tickets were given from the one to the other.
pub fn tickets_differ()
    ensures { TicketsDiffer }
{}
