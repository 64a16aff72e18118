// Laws of the beginning of a step. Each function is one law, and does nothing.
ghost use Rattle.good_step_laws.specs.Events.Events.{EventsStand};

/// What is known of a connection at rest is enough for what the parts of a step want to know behind an event.
pub fn events_stand()
    ensures { EventsStand }
{}
