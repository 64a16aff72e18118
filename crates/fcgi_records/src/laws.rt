// Laws of records and of pairs. Each function is one law, and does nothing.
ghost use Rattle.fcgi_records.specs.RecordLaws.{RecordsJoin, BadStays, SentAreRead, ReadWereSent, TextsAreRead};
ghost use Rattle.fcgi_records.specs.PairLaws.{PairsAreRead, LastValueStands};

/// The records of a string don't depend on how it was cut.
pub fn records_join()
    ensures { RecordsJoin }
{}

/// What begins no record stays so, whatever follows.
pub fn bad_stays()
    ensures { BadStays }
{}

/// Records are read as they were sent, with any padding (FastCGI 1.0, 3.3).
pub fn sent_are_read()
    ensures { SentAreRead }
{}

/// Every string of bytes is records that were sent and what is left, and those are the records that are read of it.
pub fn read_were_sent()
    ensures { ReadWereSent }
{}

/// Records that were written are read again.
pub fn texts_are_read()
    ensures { TextsAreRead }
{}

/// Pairs are read as they were written, in either form of each length (FastCGI 1.0, 3.4).
pub fn pairs_are_read()
    ensures { PairsAreRead }
{}

/// Of equal names the last value stands, at the first one's place.
pub fn last_value_stands()
    ensures { LastValueStands }
{}
