// Laws of a talk. Each function is one law, and does nothing.
ghost use Rattle.talk_core.specs.Laws.{TalksBegin, EventsAreKnown, ActsAreKnown, TalkActsAreKnown, RunActsAreKnown, LossesAreKnown, LossesAtEventsAreKnown, PartsStay, EndsAreTalked, PartsAreTalked, OverIsExact, TextsAreWanted, TextsStayWanted, EndsOnce, TextsAreHeard, InputsAreAlike};

/// A talk whose child's Start is given, and its run, know the list that ends with that Start.
pub fn talks_begin()
    ensures { TalksBegin }
{}

/// A talk that hears an event that may come, and its run, know the list with it.
pub fn events_are_known()
    ensures { EventsAreKnown }
{}

/// So it is with each act that may come.
pub fn acts_are_known()
    ensures { ActsAreKnown }
{}

/// With the acts that a talk gives, both know the list.
pub fn talk_acts_are_known()
    ensures { TalkActsAreKnown }
{}

/// With the acts that its run gives, both know the list.
pub fn run_acts_are_known()
    ensures { RunActsAreKnown }
{}

/// Where memory ran out, what stands is a front of what the talk names.
pub fn losses_are_known()
    ensures { LossesAreKnown }
{}

/// So it is where memory ran out for an event.
pub fn losses_at_events_are_known()
    ensures { LossesAtEventsAreKnown }
{}

/// It stays so.
pub fn parts_stay()
    ensures { PartsStay }
{}

/// Where nothing is due any more, all stands that the talk names: messages, input and the code of the close frame.
pub fn ends_are_talked()
    ensures { EndsAreTalked }
{}

/// Where memory ran out, what stands is good for a connection that is shut for that.
pub fn parts_are_talked()
    ensures { PartsAreTalked }
{}

/// A talk is over exactly where an item of the list ended it.
pub fn over_is_exact()
    ensures { OverIsExact }
{}

/// A text may be heard exactly where the list says so.
pub fn texts_are_wanted()
    ensures { TextsAreWanted }
{}

/// One that may be heard may be heard in a later step too, unless a text was heard.
pub fn texts_stay_wanted()
    ensures { TextsStayWanted }
{}

/// A run that was ended for a reason is not changed where it is ended for it again.
pub fn ends_once()
    ensures { EndsOnce }
{}

/// Acts bring nothing for the child's input.
pub fn texts_are_heard()
    ensures { TextsAreHeard }
{}

/// The rules on a talk and its child don't depend on what there is for its input, where all is there.
pub fn inputs_are_alike()
    ensures { InputsAreAlike }
{}
