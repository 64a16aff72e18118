// Laws of the handshake.
ghost use Rattle.ws_handshake.specs.HandshakeLaws.{HandshakesAreJudgedInOrder, KeysAreNonces, SampleIsAnswered};

/// A request is accepted exactly where it is a handshake of RFC 6455 4.2.1 from an origin that is taken,
/// and each cause comes exactly where all checks before its own hold, and its own doesn't.
pub fn handshakes_are_judged_in_order()
    ensures { HandshakesAreJudgedInOrder }
{}

/// A key is the base64 of 16 bytes, and nothing else is one (RFC 6455 4.1, 7).
pub fn keys_are_nonces()
    ensures { KeysAreNonces }
{}

/// The accept value of the example in RFC 6455 1.3.
pub fn sample_is_answered()
    ensures { SampleIsAnswered }
{}
