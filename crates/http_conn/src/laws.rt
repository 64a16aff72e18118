// Laws of the steps of a connection. Each function is one law, and does nothing.
ghost use Rattle.http_conn.specs.Laws.{StepsAreKnown, StepsAreInForm, StepsAreInTime, StepsKeepFronts, StepsStop};

/// The flags of a connection know its list after each step of an event that fits.
pub fn steps_are_known()
    ensures { StepsAreKnown }
{}

/// The acts of such a step on the connection come in form.
pub fn steps_are_in_form()
    ensures { StepsAreInForm }
{}

/// Its Starts and questions wait for room, and come before the server is to end.
pub fn steps_are_in_time()
    ensures { StepsAreInTime }
{}

/// What a connection knows of its exchange beside its script goes on with each step that keeps step with the model.
pub fn steps_keep_fronts()
    ensures { StepsKeepFronts }
{}

/// After Stop a connection is shut.
pub fn steps_stop()
    ensures { StepsStop }
{}
