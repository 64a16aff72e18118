// Laws of the stage that a connection holds. Each function is one law, and does nothing.
ghost use Rattle.http_stage_laws.specs.Laws.{AnswersAreStaged, AsksAreDue, ContinuesAreStaged, EndsAreNoticed, EndsAreTaken, HopsAreStaged, LooksAreStaged, LossesAreStaged, NextAreStaged, OthersAreStaged, PartsAreStaged, RestsAreStaged, ServesAreStaged, StartsAreStaged, WhysAreDue};
ghost use Rattle.http_stage_laws.specs.HeardStages.{EventsAreStaged, EventsKeep, EventsLose, EventsStayLost, LooksAreHeard, OffersAreKnown, StartsRest};

/// What is made ready of an answer leads to the stage that the model says.
pub fn answers_are_staged()
    ensures { AnswersAreStaged }
{}

/// So does what is made ready of a hop.
pub fn hops_are_staged()
    ensures { HopsAreStaged }
{}

/// An exchange has ended exactly where its connection takes it for ended.
pub fn ends_are_taken()
    ensures { EndsAreTaken }
{}

/// What is held of an exchange that has ended is so.
pub fn ends_are_noticed()
    ensures { EndsAreNoticed }
{}

/// 100 Continue leaves the stage.
pub fn continues_are_staged()
    ensures { ContinuesAreStaged }
{}

/// A part of a reply is written.
pub fn parts_are_staged()
    ensures { PartsAreStaged }
{}

/// With the rest of an answer it stands whole.
pub fn rests_are_staged()
    ensures { RestsAreStaged }
{}

/// With its Start a script runs.
pub fn starts_are_staged()
    ensures { StartsAreStaged }
{}

/// An act that writes nothing and starts no script leaves the stage.
pub fn others_are_staged()
    ensures { OthersAreStaged }
{}

/// So do the acts that are due for the child.
pub fn serves_are_staged()
    ensures { ServesAreStaged }
{}

/// The exchange that follows is read.
pub fn next_are_staged()
    ensures { NextAreStaged }
{}

/// What is known of the stage where memory runs out.
pub fn losses_are_staged()
    ensures { LossesAreStaged }
{}

/// A look at what was heard finds the stage that the model says.
pub fn looks_are_staged()
    ensures { LooksAreStaged }
{}

/// A connection is shut for the reason that there is.
pub fn whys_are_due()
    ensures { WhysAreDue }
{}

/// Its client is to be heard exactly where the connection says so.
pub fn asks_are_due()
    ensures { AsksAreDue }
{}

/// An event that is heard between two steps leads to the stage that the model says.
pub fn events_are_staged()
    ensures { EventsAreStaged }
{}

/// .. or to what is known where memory ran out.
pub fn events_lose()
    ensures { EventsLose }
{}

/// .. and where memory had been wanting it stays so.
pub fn events_stay_lost()
    ensures { EventsStayLost }
{}

/// What came of the body is what there is for the input of a script that waits for its turn.
pub fn offers_are_known()
    ensures { OffersAreKnown }
{}

/// A look at what was heard hands out what came of the body.
pub fn looks_are_heard()
    ensures { LooksAreHeard }
{}

/// What no event changes.
pub fn events_keep()
    ensures { EventsKeep }
{}

/// A connection before it heard anything is at rest.
pub fn starts_rest()
    ensures { StartsRest }
{}
