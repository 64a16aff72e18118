// The promise, law by law. Each function is one law, and does nothing.
ghost use Rattle.promise_laws.specs.PromiseLaws.{AnswersAreComplete, DatesAreOfTheFirstByte, OutputsAreWhole, RepliesAreRight, TalksHavePrograms};

/// Of every trace for which holds what `run` promises: what was written to each client is, exchange by exchange, 100
/// Continue where it was due and then the whole reply that RFC 3875 derives from the whole output of its child, or the
/// host's own reply for a cause that stands in the trace; and behind these what may stand of the exchange that goes on.
pub fn replies_are_right()
    ensures { RepliesAreRight }
{}

/// At each step's end: a request that is answered by the whole output of its last run has its whole reply where its
/// connection is open; and in the step that brings the end of that output, on a connection that was open before, unless
/// that was shut for want of memory.
pub fn answers_are_complete()
    ensures { AnswersAreComplete }
{}

/// A text is said over a WebSocket and a close frame sent only once its program was started.
pub fn talks_have_programs()
    ensures { TalksHavePrograms }
{}

/// The Date of an answer is that of the clock when its first byte was written, whatever follows.
pub fn dates_are_of_the_first_byte()
    ensures { DatesAreOfTheFirstByte }
{}

/// What was heard of a child's output before its end is all that the trace has of it.
pub fn outputs_are_whole()
    ensures { OutputsAreWhole }
{}
