// Laws of the turns of a connection. Each function is one law, and does nothing.
ghost use Rattle.fcgi_turns.specs.TurnLaws.{RecordsAreDue, SeenAreItems, TurnsGoOn};
ghost use Rattle.fcgi_turns.specs.RequestLaws.{AnswersAreJoined, PiecesJoin, RepliesInOrder, RequestsEndOnce};

/// The turns go on item by item.
pub fn turns_go_on()
    ensures { TurnsGoOn }
{}

/// What is due to be written is whole records, one after another.
pub fn records_are_due()
    ensures { RecordsAreDue }
{}

/// The contents of an answer's records of STDOUT, joined, are the answer, and one END stands behind them.
pub fn answers_are_joined()
    ensures { AnswersAreJoined }
{}

/// Each request that was begun has one end or is active, and they end in the order in which they were begun.
pub fn requests_end_once()
    ensures { RequestsEndOnce }
{}

/// GET_VALUES, types that are not served and BEGINs that begin nothing are answered in their order.
pub fn replies_in_order()
    ensures { RepliesInOrder }
{}

/// What bytes of a client make of the turns doesn't depend on how they were cut.
pub fn pieces_join()
    ensures { PiecesJoin }
{}

/// What the runs of its children see are its items, but for bytes in which a run was ended.
pub fn seen_are_items()
    ensures { SeenAreItems }
{}
