// Laws of how bodies are delimited, and of the reading of those in chunks. Each function is one law, and
// does nothing.
ghost use Rattle.body_framing.specs.ChunkLaws.{BodiesAreRead, BodiesAreUnique, ReadingsStay, RefusedAreNone, UnendedGoOn};
ghost use Rattle.body_framing.specs.FramingLaws.{BodilessHaveNeither, ChunksAreCoded, FramingCauses, LengthsAreNamed, TwoFramingsAreRefused};

/// A body is in chunks exactly where chunked is the one transfer coding, in HTTP/1.1, and no Content-Length
/// stands (RFC 9112 6.1 and 6.3).
pub fn chunks_are_coded()
    ensures { ChunksAreCoded }
{}

/// A body has a length exactly where each Content-Length is decimal digits with that number, within the
/// limit, and no Transfer-Encoding stands (RFC 9110 8.6 and RFC 9112 6.3).
pub fn lengths_are_named()
    ensures { LengthsAreNamed }
{}

/// There is no body exactly where neither field stands.
pub fn bodiless_have_neither()
    ensures { BodilessHaveNeither }
{}

/// Transfer-Encoding beside Content-Length is refused, whatever the two say (RFC 9112 11.2).
pub fn two_framings_are_refused()
    ensures { TwoFramingsAreRefused }
{}

/// Each cause comes exactly where it is due: `CodingUnknown` where a coding other than chunked may stand,
/// `BodyTooLong` where the one number of all lengths is above the limit, and `BadFraming` for a coding in
/// HTTP/1.0 or beside a length, for chunked not exactly once, and for lengths without one number.
pub fn framing_causes()
    ensures { FramingCauses }
{}

/// What is read as a body is one of the grammar of RFC 9112 7.1 within the limits, with the data of its
/// chunks joined, and each such body is read, whatever follows it.
pub fn bodies_are_read()
    ensures { BodiesAreRead }
{}

/// No bytes begin with two bodies.
pub fn bodies_are_unique()
    ensures { BodiesAreUnique }
{}

/// More bytes are waited for only where some make it a body within the limit.
pub fn unended_go_on()
    ensures { UnendedGoOn }
{}

/// What is refused begins with no body within the limit, whatever follows, and the cause is that of the
/// first byte that can't stand where it stands.
pub fn refused_are_none()
    ensures { RefusedAreNone }
{}

/// A body and a fault stay, however the bytes were cut.
pub fn readings_stay()
    ensures { ReadingsStay }
{}
