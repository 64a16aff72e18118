// Laws of the parts of a step. Each function is one law, and does nothing.
ghost use Rattle.http_step_laws.specs.Laws.{AnswersLeave, HandlesLeave, LetsOnLeave, ReadsLeave, RoundsLeave, StepsComeToRest, StepsKeepStep};

/// A look at what came keeps step with the model.
pub fn reads_leave()
    ensures { ReadsLeave }
{}

/// So does 100 Continue, where it is due.
pub fn lets_on_leave()
    ensures { LetsOnLeave }
{}

/// So does what is due of an answer.
pub fn answers_leave()
    ensures { AnswersLeave }
{}

/// So does what is due for the child, and the end of its exchange.
pub fn handles_leave()
    ensures { HandlesLeave }
{}

/// So do rounds, until nothing may go on.
pub fn rounds_leave()
    ensures { RoundsLeave }
{}

/// So does all that is done behind an event, and then the rules of the step are kept.
pub fn steps_keep_step()
    ensures { StepsKeepStep }
{}

/// .. and the connection is at rest again.
pub fn steps_come_to_rest()
    ensures { StepsComeToRest }
{}
