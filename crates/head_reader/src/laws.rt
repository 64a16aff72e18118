// Laws of the reading of heads. Each function is one law, and does nothing.
ghost use Rattle.head_reader.specs.HeadLaws.{SaysTheGrammar, FrontsSayTheGrammar, HeadsAreUnique, WholesAreHeads, HeadsAreRead, MoreIsOpen, AnswersStay};
ghost use Rattle.head_reader.specs.Refusals.{LongHeadsAreRefused, LongTargetsAreRefused, ManyFieldsAreRefused, BadHeadsAreRefused};

/// A head by its lines and a head of httparse's grammar are one.
pub fn says_the_grammar()
    ensures { SaysTheGrammar }
{}

/// They are one on the bytes up to the first empty line, where the grammar allows empty lines before a head.
pub fn fronts_say_the_grammar()
    ensures { FrontsSayTheGrammar }
{}

/// No bytes begin with two heads.
pub fn heads_are_unique()
    ensures { HeadsAreUnique }
{}

/// What is read as whole is a head.
pub fn wholes_are_heads()
    ensures { WholesAreHeads }
{}

/// Each head within the limits is read.
pub fn heads_are_read()
    ensures { HeadsAreRead }
{}

/// Nothing is refused before the empty line or the limit, and nothing is waited for after them.
pub fn more_is_open()
    ensures { MoreIsOpen }
{}

/// What was answered stays, however the bytes were cut.
pub fn answers_stay()
    ensures { AnswersStay }
{}

/// A head is refused as too long exactly where its limit is reached and no empty line ends within.
pub fn long_heads_are_refused()
    ensures { LongHeadsAreRefused }
{}

/// A target is refused as too long exactly where the first line of a head that has ended is a word, a
/// space, a longer word than the limit, a space, and a rest.
pub fn long_targets_are_refused()
    ensures { LongTargetsAreRefused }
{}

/// Field lines are refused as too many exactly where there are more than 100, and no such target.
pub fn many_fields_are_refused()
    ensures { ManyFieldsAreRefused }
{}

/// A head is refused as bad exactly where it has ended, none of these is so, and the grammar has no such
/// head.
pub fn bad_heads_are_refused()
    ensures { BadHeadsAreRefused }
{}
