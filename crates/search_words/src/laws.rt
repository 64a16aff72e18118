// Laws of the definitions.
ghost use Rattle.search_words.specs.SearchRules.{GivesSearchWords};

/// Arguments are the words of a search string, by its grammar (RFC 3875 4.4).
pub fn words_are_a_search_string()
    ensures { GivesSearchWords }
{}
