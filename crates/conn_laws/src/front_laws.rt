// Laws of what a connection knows of its exchange. Each function is one law, and does nothing.
ghost use Rattle.conn_laws.specs.FrontLaws.{ActsKeepFronts, ContinuesAreKnown, EventsAreKnown, MovesAreCuts, NextAreKnown, StartsAreKnown};

/// Before anything was heard it knows the first exchange.
pub fn starts_are_known()
    ensures { StartsAreKnown }
{}

/// An act leaves what is known.
pub fn acts_keep_fronts()
    ensures { ActsKeepFronts }
{}

/// After an event the exchange is known with the event.
pub fn events_are_known()
    ensures { EventsAreKnown }
{}

/// 100 Continue is known once it is written.
pub fn continues_are_known()
    ensures { ContinuesAreKnown }
{}

/// The exchange that follows one that has ended is known.
pub fn next_are_known()
    ensures { NextAreKnown }
{}

/// The moves of a step lead to the exchange that goes on after its acts.
pub fn moves_are_cuts()
    ensures { MovesAreCuts }
{}
