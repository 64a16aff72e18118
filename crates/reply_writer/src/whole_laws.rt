// Laws of whole replies and of those cut off.
ghost use Rattle.reply_writer.specs.ChunkRules.{ChunksReadBack};
ghost use Rattle.reply_writer.specs.WholeRules.{ChunksSpell, CutsAgree, CutsAreNotWhole, FrontsAreNoReply, FrontsAreNotWhole, RawsAgree, SpellingsAgree, WholesSpell};

/// The test of a whole reply takes exactly the bytes that are one.
pub fn spellings_agree()
    ensures { SpellingsAgree }
{}

/// The test of a reply cut off finds exactly the part of its body that is there.
pub fn cuts_agree()
    ensures { CutsAgree }
{}

/// The same of the output of a script that writes its own reply.
pub fn raws_agree()
    ensures { RawsAgree }
{}

/// The text of `whole_text` is the whole of its reply.
pub fn wholes_spell()
    ensures { WholesSpell }
{}

/// A chunk is read with its size and its content, whatever follows it, and the end mark with the size 0
/// (RFC 9112 7.1).
pub fn chunks_read_back()
    ensures { ChunksReadBack }
{}

/// A head and chunks are the reply cut off, and with the end mark the whole of it.
pub fn chunks_spell()
    ensures { ChunksSpell }
{}

/// Of a whole reply with a length or in chunks, no proper front is a whole reply.
pub fn fronts_are_not_whole()
    ensures { FrontsAreNotWhole }
{}

/// A reply cut off in chunks is not a whole one.
pub fn cuts_are_not_whole()
    ensures { CutsAreNotWhole }
{}

/// Of a whole reply with a length or in chunks, no proper front is the whole of any other reply.
pub fn fronts_are_no_reply()
    ensures { FrontsAreNoReply }
{}
