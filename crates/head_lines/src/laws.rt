// Laws of the front of a text.
ghost use Rattle.head_lines.specs.LineLaws.{FrontsAreLines, FrontsStay, FrontsStandAlone};

/// The front is a grammar: lines that are not empty, then an empty one.
pub fn fronts_are_lines()
    ensures { FrontsAreLines }
{}

/// The front does not depend on how the bytes were cut.
pub fn fronts_stay()
    ensures { FrontsStay }
{}

/// Nothing past the front counts.
pub fn fronts_stand_alone()
    ensures { FrontsStandAlone }
{}
