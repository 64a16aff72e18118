// Laws of the stages of an exchange. Each function is some laws, and does nothing.
ghost use Rattle.exchange_laws.specs.Asks.{AsksAreStaged, ContinuesAreGiven, ReasonsAreStaged, ShutsDemandNothing};
ghost use Rattle.exchange_laws.specs.Bodies.{BodiesAreHeard, BodiesMayGrow, OffersAreBodies};
ghost use Rattle.exchange_laws.specs.Items.{BreaksInterrupt, ContinuesAreWritten, EventsPass, FirstIsRead, ItemsKeepLost, ItemsKeepStages, LastLegsAreOne, NextIsRead, PartsAreWritten, QuietActsKeep, QuietActsPass, RestsAreWritten, StartsAreGiven};
ghost use Rattle.exchange_laws.specs.Moves.{CutsAreReady, EndsAreReady, FaultsAreReady, LooksMove, LossesAreKnown, PlacesAreFound, TellsAreHanded};
ghost use Rattle.exchange_laws.specs.Rules.{AnsweredAreRead, BegunByStarts, ClosingIsKnown, ContinuesComeFirst, ContinuesStand, EndsAreAnswered, LegsAreStarted, LossesKeepRules, RestsKeepRules, StagesAreWalked, StartsAreRight, WholeIsAnswered, WritesComeInTurn};

/// An event, and an act of the child, leaves the stage; the end of the client's input and the idle Tick break a request.
pub fn items_keep_stages()
    ensures kept { ItemsKeepStages }
    ensures lost { ItemsKeepLost }
    ensures broken { BreaksInterrupt }
{}

/// Which items leave the stage; and the last leg is one.
pub fn items_pass()
    ensures acts { QuietActsPass }
    ensures all { QuietActsKeep }
    ensures events { EventsPass }
    ensures last { LastLegsAreOne }
{}

/// What is written, and the Start of a script, move the stage.
pub fn acts_move_stages()
    ensures continues { ContinuesAreWritten }
    ensures parts { PartsAreWritten }
    ensures rests { RestsAreWritten }
    ensures starts { StartsAreGiven }
{}

/// An exchange begins with its request.
pub fn exchanges_begin()
    ensures next { NextIsRead }
    ensures first { FirstIsRead }
{}

/// What a look finds, and what is found of the script of a hop.
pub fn requests_move_stages()
    ensures looks { LooksMove }
    ensures faults { FaultsAreReady }
    ensures places { PlacesAreFound }
{}

/// What the reply of a run hands out while it goes on, at its end, and where it was cut short.
pub fn replies_move_stages()
    ensures told { TellsAreHanded }
    ensures ended { EndsAreReady }
    ensures cut { CutsAreReady }
    ensures lost { LossesAreKnown }
{}

/// The whole answer stands, and so an exchange has ended, where its stage says so.
pub fn wholes_are_answered()
    ensures whole { WholeIsAnswered }
    ensures ended { EndsAreAnswered }
    ensures closing { ClosingIsKnown }
    ensures read { AnsweredAreRead }
{}

/// What was begun for the exchange, and by which scripts.
pub fn stages_are_walked()
    ensures begun { BegunByStarts }
    ensures continues { ContinuesStand }
    ensures first { ContinuesComeFirst }
    ensures walked { StagesAreWalked }
    ensures legs { LegsAreStarted }
{}

/// Where nothing is due at a step's end, the rules on what is written are kept.
pub fn rests_keep_rules()
    ensures rests { RestsKeepRules }
    ensures lost { LossesKeepRules }
{}

/// The Start is right, and an answer begins in its turn.
pub fn acts_are_right()
    ensures starts { StartsAreRight }
    ensures turn { WritesComeInTurn }
{}

/// The client is asked within its request, and within a body that is fed; and why the connection is shut.
pub fn stages_say_demands()
    ensures asks { AsksAreStaged }
    ensures reasons { ReasonsAreStaged }
    ensures shut { ShutsDemandNothing }
    ensures continues { ContinuesAreGiven }
{}

/// The body of a request whose script waits for its turn grows as it is heard, and is then the script's input.
pub fn bodies_are_offered()
    ensures grow { BodiesMayGrow }
    ensures heard { BodiesAreHeard }
    ensures offers { OffersAreBodies }
{}
