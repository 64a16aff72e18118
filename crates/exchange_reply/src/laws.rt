// Laws of replies in exchanges. Each function is some laws, and does nothing.
ghost use Rattle.exchange_reply.specs.Agreement.{CutsStay, EndsConclude, FaultsAreSpelled, StandingsAreCuts};
ghost use Rattle.exchange_reply.specs.LegRules.{ClosesAreOfLegs, DuesAreDemanded, FaultsEnd, FirstBytesAreDue, HopsAskAlike, ItemsAreTold, RepliesAreLeft, RepliesEnd, RepliesGoOn, UnbegunIsNow, WaysBegin, WaysEnd, WritesAreOfAnswers, WritesBegin};
ghost use Rattle.exchange_reply.specs.MemoryRules.{AnswersAreLacked, DuesAreLacked};
ghost use Rattle.exchange_reply.specs.Reply.{KnownStand};
ghost use Rattle.exchange_reply.specs.StepRules.{EndingsStand, FaultsFinish, HandingsKeepRules, HandingsStand, ItemsComeNoSooner, ItemsLeave, LeftsMayStand, TextsComeNoSooner, TextsExtend, UnbegunIsNoSooner};

/// What stands of a reply that has begun is the reply cut off after all of the body heard, and stays one.
pub fn standings_are_cuts()
    ensures known { KnownStand }
    ensures full { StandingsAreCuts }
    ensures stay { CutsStay }
{}

/// At the end of an output its text completes the answer, and nothing shorter does; a local redirect and a
/// refusal are what the output derives.
pub fn ends_conclude()
    ensures { EndsConclude }
{}

/// The host's own reply is spelled as the model says.
pub fn faults_are_spelled()
    ensures { FaultsAreSpelled }
{}

/// While the run of a leg goes on, its reply keeps the rules on what stands and what is to be streamed.
pub fn legs_go_on()
    ensures rules { RepliesGoOn }
    ensures demanded { DuesAreDemanded }
    ensures told { ItemsAreTold }
    ensures sooner { FirstBytesAreDue }
{}

/// Once it is decided, the whole answer stands exactly with the last text of its reply.
pub fn legs_end()
    ensures ended { RepliesEnd }
    ensures left { RepliesAreLeft }
    ensures faults { FaultsEnd }
{}

/// An answer is spelled in the way of its leg.
pub fn ways_are_fixed()
    ensures begin { WaysBegin }
    ensures end { WaysEnd }
    ensures close { ClosesAreOfLegs }
    ensures hops { HopsAskAlike }
{}

/// The first byte of an answer, and what it leaves as it was.
pub fn first_bytes_stay()
    ensures unbegun { UnbegunIsNow }
    ensures first { WritesBegin }
    ensures written { WritesAreOfAnswers }
{}

/// A text that is written goes on with the answer and changes nothing else; an item by which nothing is
/// written leaves what stands.
pub fn texts_extend()
    ensures texts { TextsExtend }
    ensures items { ItemsLeave }
{}

/// What the reply of a leg hands out keeps the rules once it is written: what `hear` and `tick` give, what
/// `end` gives, and the host's own reply.
pub fn handings_stand()
    ensures handed { HandingsStand }
    ensures rules { HandingsKeepRules }
    ensures left { LeftsMayStand }
    ensures ended { EndingsStand }
    ensures faults { FaultsFinish }
{}

/// No first byte comes sooner than the model demands it.
pub fn texts_come_no_sooner()
    ensures unbegun { UnbegunIsNoSooner }
    ensures items { ItemsComeNoSooner }
    ensures texts { TextsComeNoSooner }
{}

/// Where a reply is due and doesn't stand, the model lets memory be wanting, at a Tick too.
pub fn lacks_are_allowed()
    ensures dues { DuesAreLacked }
    ensures answers { AnswersAreLacked }
{}
