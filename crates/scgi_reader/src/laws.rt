// Laws of what is read. Each function is one law, and does nothing.
ghost use Rattle.scgi_reader.specs.ScgiLaws.{HeadsStay, ReadingsStay, RequestsAreWithin};

/// A head that is whole or refused stays so, whatever bytes follow.
pub fn heads_stay()
    ensures { HeadsStay }
{}

/// A request that is whole or refused stays so, whatever bytes follow.
pub fn readings_stay()
    ensures { ReadingsStay }
{}

/// A whole request has no more bytes than were heard, its body among them.
pub fn requests_are_within()
    ensures { RequestsAreWithin }
{}
