// Laws of heads, of dates and of the host's own replies.
ghost use Rattle.reply_writer.specs.DateRules.{DatesArePlain, DatesReadBack, DatesStand};
ghost use Rattle.reply_writer.specs.ReadBack.{FaultsArePlain, HeadsReadBack, PhrasesArePlain, WholesReadBack};
ghost use Rattle.reply_writer.specs.ReadEnd.{EndsReadBack, FaultsLeaveEnd, HeadsStandAlone, OldVersionsHaveNoCoding};

/// The text of a plain reply's head with its date, and whatever follows it, is one head of a response
/// with the reply's status, phrase and fields, and can be read in no other way (RFC 9112 2 to 5).
pub fn heads_read_back()
    ensures { HeadsReadBack }
{}

/// The same of a whole reply: exactly its body follows, or nothing.
pub fn wholes_read_back()
    ensures { WholesReadBack }
{}

/// The head of a reply tells how what follows it is framed (RFC 9112 6.3), and closes the connection
/// exactly where the reply was to close it (RFC 9112 9.6).
pub fn ends_read_back()
    ensures { EndsReadBack }
{}

/// A reply to HEAD, and one with 204 or 304, has no Content-Length and no Transfer-Encoding, and is
/// nothing but its head.
pub fn heads_stand_alone()
    ensures { HeadsStandAlone }
{}

/// A reply to a request of HTTP/1.0 has no Transfer-Encoding (RFC 9112 6.1).
pub fn old_versions_have_no_coding()
    ensures { OldVersionsHaveNoCoding }
{}

/// A head has the Date of its reply's own fields; where they have none, the one that is given.
pub fn dates_stand()
    ensures { DatesStand }
{}

/// The text of `date_text` is read as the second that it was made of (RFC 9110 5.6.7).
pub fn dates_read_back()
    ensures { DatesReadBack }
{}

/// The text of `date_text` is plain, for a head that has it.
pub fn dates_are_plain()
    ensures { DatesArePlain }
{}

/// The phrases of `phrase` are plain, for a reply that takes its phrase from there.
pub fn phrases_are_plain()
    ensures { PhrasesArePlain }
{}

/// The host's own replies are plain and leave their end to the writer, as the laws above ask.
pub fn faults_are_plain()
    ensures plain { FaultsArePlain }
    ensures ends { FaultsLeaveEnd }
{}
