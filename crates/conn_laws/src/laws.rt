// Laws of the walk along the hops of an exchange. Each function is one law, and does nothing.
ghost use Rattle.conn_laws.specs.Laws.{QuietItemsChangeNothing, PlainActsAreQuiet, ActsBreakNothing, HopsAreWalked, WalksAreKept, HopsStandAsTheyAre, RedirectsLeadOn};
ghost use Rattle.conn_laws.specs.Idle.{IdleIsCountedDown, IdleEndIsTheLast};
ghost use Rattle.conn_laws.specs.Starts.{StartsBegin, OutcomesTellDeciders, WholeOutputStays};
ghost use Rattle.conn_laws.specs.Form.{FlagsSayDemands, FormIsByFlags, ActsComeInForm, ActsComeInTime};
ghost use Rattle.conn_laws.specs.Ends.{LastChildDecides, SettledStay, UnfinishedAreNotWhole, WholeStays, EndsAreTested};

/// A quiet item leaves the walk as it was.
pub fn quiet_items_change_nothing()
    ensures { QuietItemsChangeNothing }
{}

/// Acts but Starts and a Shut for want of memory are quiet.
pub fn plain_acts_are_quiet()
    ensures { PlainActsAreQuiet }
{}

/// No act breaks a request.
pub fn acts_break_nothing()
    ensures { ActsBreakNothing }
{}

/// Where local redirects led to a hop, the walk goes on there.
pub fn hops_are_walked()
    ensures { HopsAreWalked }
{}

/// The hop that was reached stays reached, whatever comes.
pub fn walks_are_kept()
    ensures { WalksAreKept }
{}

/// What stands at the hop that was reached.
pub fn hops_stand_as_they_are()
    ensures { HopsStandAsTheyAre }
{}

/// A local redirect leads to the next hop.
pub fn redirects_lead_on()
    ensures { RedirectsLeadOn }
{}

/// The idle count can be counted down.
pub fn idle_is_counted_down()
    ensures { IdleIsCountedDown }
{}

/// The next Tick is the idle one exactly where it counts and one is left.
pub fn idle_end_is_the_last()
    ensures { IdleEndIsTheLast }
{}

/// Where all children but the last are settled, that one says whether one is unsettled.
pub fn last_child_decides()
    ensures { LastChildDecides }
{}

/// What is settled stays so.
pub fn settled_stay()
    ensures { SettledStay }
{}

/// No whole answer stands where none of its bytes is written, or where there is none to write.
pub fn unfinished_are_not_whole()
    ensures { UnfinishedAreNotWhole }
{}

/// A whole answer stays whole while nothing is written and it stays what it is.
pub fn whole_stays()
    ensures { WholeStays }
{}

/// An exchange ends by its last child and its answer.
pub fn ends_are_tested()
    ensures { EndsAreTested }
{}

/// The flags of a connection say what the rules on it ask.
pub fn flags_say_demands()
    ensures { FlagsSayDemands }
{}

/// An act on a connection comes in form exactly where its flags allow it.
pub fn form_is_by_flags()
    ensures { FormIsByFlags }
{}

/// Acts of one connection come in form where its flags allow each when it is given.
pub fn acts_come_in_form()
    ensures { ActsComeInForm }
{}

/// The Start of a hop starts it.
pub fn starts_begin()
    ensures { StartsBegin }
{}

/// A run with an outcome was decided by an item, and one without was not.
pub fn outcomes_tell_deciders()
    ensures { OutcomesTellDeciders }
{}

/// The output up to the item that decided a run is all output, while none is heard after it.
pub fn whole_output_stays()
    ensures { WholeOutputStays }
{}

/// Starts and questions wait for room, and come before the server is to end.
pub fn acts_come_in_time()
    ensures { ActsComeInTime }
{}
