// What a handshake is accepted with.
ghost use Rattle.std.specs.Prelude.{◌≡◌, IfOk};
ghost use Rattle.ws_handshake.specs.Handshake.{accept_text};

use host_base::{Bytes, NoMemory};
use std::alloc::Global;

// The head up to the accept value (RFC 6455 4.2.2, 5).
const BEFORE_VALUE: &[u8] =
    b"HTTP/1.1 101 Switching Protocols\r\nUpgrade: websocket\r\nConnection: Upgrade\r\nSec-WebSocket-Accept: ";

/// A handshake that is accepted.
#[derive(Clone, Copy, Debug, PartialEq, Eq)]
pub struct Accept {
    /// The value of the Sec-WebSocket-Accept field (RFC 6455 4.2.2, 5).
    pub value: [u8; 28],
}

/// The whole head of the reply that accepts, up to and with the empty line. Frames follow it.
pub fn accept_text(alloc: Global, accept: &Accept) -> Result<Bytes, NoMemory>
    ensures { IfOk result (λ text. text ≡ accept_text accept.now.value) }
{
    let mut text = Bytes::with_capacity(alloc, 129)?;
    text.extend_from_slice(BEFORE_VALUE)?;
    text.extend_from_slice(&accept.value)?;
    text.extend_from_slice(b"\r\n\r\n")?;
    Ok(text)
}
