// Laws of lines.
ghost use Rattle.line_messages.specs.LineLaws.{InputsReadBack, LimitsCut, LinesAreRead, LinesJoin, LinesStay, LongLinesAreRuns, OutputsAreLines, TextsAreThemselves};

/// Every output is lines, each with its LF, and what stands behind the last one; it is read as these.
pub fn outputs_are_lines()
    ensures lines { OutputsAreLines }
    ensures read { LinesAreRead }
{}

/// The lines of joined outputs, and that a message is the same whatever follows.
pub fn lines_join()
    ensures joined { LinesJoin }
    ensures stay { LinesStay }
{}

/// A line is too long exactly where more bytes than the limit stand in a row without an LF. Without one
/// the limit changes nothing, and past one no message comes.
pub fn long_lines_are_runs()
    ensures runs { LongLinesAreRuns }
    ensures cut { LimitsCut }
{}

/// A line that is UTF-8 is its own message, and texts are read back from the input that says them.
pub fn texts_are_themselves()
    ensures themselves { TextsAreThemselves }
    ensures read_back { InputsReadBack }
{}
