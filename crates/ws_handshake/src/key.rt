// The key of a handshake, and what answers it.
ghost use Rattle.std.specs.Prelude.{◌≡◌, ◌++◌};
ghost use Rattle.ws_handshake.specs.Handshake.{accept_value, is_key, protocol_id};

use base64::engine::general_purpose::STANDARD;
use sha1::Sha1;

// What the server adds to the key (RFC 6455 1.3).
const PROTOCOL_ID: &[u8] = b"258EAFA5-E914-47DA-95CA-C5AB0DC85B11";

/// Whether a text decodes to 16 bytes (RFC 6455 4.2.1, 5).
pub fn is_key(text: &[u8]) -> bool
    ensures { result ≡ is_key text.now }
{
    let mut bytes = [0u8; 18];
    match STANDARD.decode_slice(text, &mut bytes) {
        Ok(count) => count == 16,
        Err(_) => false,
    }
}

/// The accept value for a key (RFC 6455 4.2.2, 5).
#[tactic(auto, unfolding(crate::specs::Handshake::accept_value))]
pub fn accept_value(key: &[u8]) -> [u8; 28]
    ensures { result ≡ accept_value key.now }
{
    let mut hasher = Sha1::new();
    hasher.update(key);
    hasher.update(PROTOCOL_ID);
    let digest = hasher.finalize();
    let mut value = [0u8; 28];
    let _ = STANDARD.encode_slice(&digest, &mut value);
    value
}
