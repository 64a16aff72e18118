// Laws of the count of ticks. Each function is one law, and does nothing.
ghost use Rattle.limit_clock.specs.Deadlines.{AreMetOnce, StayOver};

/// Of the ticks heard since a limit was set the one with its number meets it, and no other.
pub fn deadlines_are_met_once()
    ensures { AreMetOnce }
{}

/// A limit is over exactly where as many ticks were heard as its number.
pub fn deadlines_stay_over()
    ensures { StayOver }
{}
