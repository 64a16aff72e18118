// Laws of exchanges, answers and good traces. Each function is one law, and does nothing.
ghost use Rattle.trace_model.specs.ModelLaws.{ExchangesAreACut, EndedStay, ItemsAreOfTheCurrent, AnswersStay, SpellingsStay, CompletedRepliesAreDerived, RepliesOfTracesAreDerived, WhatGoesOnMayStand, ThingsWaitForRoom, OwnActsKeepOwners, RisingActsKeepOwners, PartsGoOn, PartsAreLeft, VerdictsAreRight, TestsTellApart};

/// Each item of a connection is of one exchange, and each byte of its client of one request or of what goes on.
pub fn exchanges_are_a_cut()
    ensures { ExchangesAreACut }
{}

/// An exchange that has ended is never changed.
pub fn ended_stay()
    ensures { EndedStay }
{}

/// One item more is of the exchange that goes on, or ends it.
pub fn items_are_of_the_current()
    ensures { ItemsAreOfTheCurrent }
{}

/// The answer of an exchange that has begun stays once there is one.
pub fn answers_stay()
    ensures { AnswersStay }
{}

/// How an answer is spelled stays from its first byte on.
pub fn spellings_stay()
    ensures { SpellingsStay }
{}

/// Every reply completed is the one that RFC 3875 derives from its child's whole output, or a named
/// status whose cause stands in the trace.
pub fn completed_replies_are_derived()
    ensures { CompletedRepliesAreDerived }
{}

/// So it is in a trace of many connections.
pub fn replies_of_traces_are_derived()
    ensures { RepliesOfTracesAreDerived }
{}

/// Of the exchange that goes on, what was written may stand.
pub fn what_goes_on_may_stand()
    ensures { WhatGoesOnMayStand }
{}

/// While too much waits to be sent, Starts, refusals and questions wait.
pub fn things_wait_for_room()
    ensures { ThingsWaitForRoom }
{}

/// Acts of one connection keep the rule on owners in a step that concerns it.
pub fn own_acts_keep_owners()
    ensures { OwnActsKeepOwners }
{}

/// Acts that rise from connection to connection keep it in a step that concerns all.
pub fn rising_acts_keep_owners()
    ensures { RisingActsKeepOwners }
{}

/// In a step of a connection its part goes on with that step.
pub fn parts_go_on()
    ensures { PartsGoOn }
{}

/// In a step of others the part of a connection is left as it was.
pub fn parts_are_left()
    ensures { PartsAreLeft }
{}

/// A trace that breaks no rule by the tests is good.
pub fn verdicts_are_right()
    ensures { VerdictsAreRight }
{}

/// Reasons and launches that the tests call the same are the same.
pub fn tests_tell_apart()
    ensures { TestsTellApart }
{}
