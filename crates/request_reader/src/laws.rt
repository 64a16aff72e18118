// Laws of the reading of requests. Each function is one law, and does nothing.
ghost use Rattle.request_reader.specs.RequestLaws.{BareIsHead, BegunIsMore, HeadsAreAnswered, PersistsUnlessClosed, ReadingsBecome, RestsStay, WholesAreRequests};

/// What was read does not depend on how the bytes were cut: a whole request and a fault stay, and a
/// request whose head is whole keeps it.
pub fn readings_become()
    ensures { ReadingsBecome }
{}

/// What follows a request is still there, and what comes later follows it.
pub fn rests_stay()
    ensures { RestsStay }
{}

/// What is read as whole is a request.
pub fn wholes_are_requests()
    ensures { WholesAreRequests }
{}

/// Each head within the limits is answered, and then the body that follows it.
pub fn heads_are_answered()
    ensures { HeadsAreAnswered }
{}

/// A reply to a fault has no body exactly where the head was whole and its method is HEAD.
pub fn bare_is_head()
    ensures { BareIsHead }
{}

/// What no request begins.
pub fn begun_is_more()
    ensures { BegunIsMore }
{}

/// Which connections persist.
pub fn persists_unless_closed()
    ensures { PersistsUnlessClosed }
{}
