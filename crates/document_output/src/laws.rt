// Laws of the definitions.
ghost use Rattle.document_output.specs.Rules.{SpansJoin, SuffixesAreEnds, FoldersAreNumbered};

/// The bytes that `bytes=0-A` and `bytes=A+1-` ask for join to the file.
pub fn spans_join()
    ensures { SpansJoin }
{}

/// The last N bytes are what the file ends with, or all of it (RFC 9110 14.1.2).
pub fn suffixes_are_ends()
    ensures { SuffixesAreEnds }
{}

/// The program `documents:N` names the folder of the number N, whose numbers a site file counts from 0.
pub fn folders_are_numbered()
    ensures { FoldersAreNumbered }
{}
