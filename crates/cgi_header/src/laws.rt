// Laws of the reading of headers. Each function is one law, and does nothing.
ghost use Rattle.cgi_header.specs.HeaderRules.{FaultsAreFirst, HeadersAreRead, HeadersStay, MoreIsOpen, WholesAreHeaders};

/// Nothing is refused before the empty line or the limit, and nothing is waited for after them.
pub fn more_is_open()
    ensures { MoreIsOpen }
{}

/// What was answered stays, however the output was cut.
pub fn headers_stay()
    ensures { HeadersStay }
{}

/// A header is refused for the first line that is, as the lines before it let it be.
pub fn faults_are_first()
    ensures { FaultsAreFirst }
{}

/// What is read as whole is field lines of httparse's grammar and an empty one, within the limit, and says what
/// they say. Content-Type, Location and Status stand once in it at most.
pub fn wholes_are_headers()
    ensures { WholesAreHeaders }
{}

/// Each such header is read.
pub fn headers_are_read()
    ensures { HeadersAreRead }
{}
