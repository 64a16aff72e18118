// The link: messages out of bytes, and bytes out of messages.
ghost use Rattle.std.specs.Prelude.{◌≡◌, Some, false};
ghost use Rattle.ws_link.specs.Answers.{IsCopy};

use crate::answer::{Linked, Said};
use crate::pipe::Pipe;
use host_base::{Bytes, NoMemory};
use std::alloc::Global;
use std::io;
use std::io::ErrorKind;
use std::marker::Model;
use tungstenite::{
    CloseCode, CloseFrame, Error, Message, NoMask, Role, Utf8Bytes, WebSocket, WebSocketConfig,
};

// The most bytes of a frame and of a message. A little over the greatest limit on a text, so that a text
// over that limit is still read and can be answered.
const LARGEST: usize = 2_097_152;

// How many bytes one read of the buffer moves.
const READ_SIZE: usize = 16_384;

/// The WebSocket of a server over bytes in memory (RFC 6455 5 to 7). Pings are answered as they are read, with
/// pongs that are shorter than the pings: so what is to be sent never grows by more than what was fed, and
/// a peer that sends pings and reads nothing is bounded by an edge that feeds no more while it still holds
/// bytes of `take_out`.
#[derive(Drop, Debug)]
pub struct Link {
    alloc: Global,
    socket: WebSocket<Pipe, NoMask>,
    refusals: u64,
}

impl Model for Link {
    ghost use Rattle.ws_link.specs.State.{LinkState};

    ghost Value = { LinkState };

    ghost view = { λ l. record { socket = l.socket; refusals = l.refusals } };
}

fn config() -> WebSocketConfig
    ensures frames { result.max_frame_size ≡ Some LARGEST }
    ensures messages { result.max_message_size ≡ Some LARGEST }
    ensures masked { result.accept_unmasked_frames ≡ false }
{
    WebSocketConfig::default()
        .read_buffer_size(READ_SIZE)
        .max_frame_size(Some(LARGEST))
        .max_message_size(Some(LARGEST))
}

impl Link {
    ghost use Rattle.std.specs.Prelude.{◌≡◌, IfOk, Some, MatchOption};
    ghost use Rattle.host_base.specs.Outsides.{Rose};
    ghost use Rattle.ws_link.specs.State.{Begins};
    ghost use Rattle.ws_link.specs.Answers.{Answers, AnswersError, AnswersMessage, AnswersOnce, AnswersWrite, IsPassed, IsSame, SaysStep, code_step, text_step};

    /// The link of a connection that was upgraded. `rest` are the bytes that came after the handshake.
    pub fn new(alloc: Global, rest: &[u8]) -> Result<Link, NoMemory>
        ensures { IfOk result (λ link. Begins link rest.now) }
    {
        let part = Vec::from_slice(alloc, rest)?;
        let pipe = Pipe::new(alloc);
        Ok(Link {
            alloc,
            socket: WebSocket::from_partially_read(
                alloc,
                pipe,
                NoMask,
                part,
                Role::Server,
                Some(config()),
            ),
            refusals: 0,
        })
    }

    /// Adds bytes that the peer sent. For want of memory none are added.
    pub fn feed(&mut self, piece: &[u8]) -> Result<(), NoMemory>
        ensures { self.new.refusals ≡ self.old.refusals }
    {
        self.socket.get_mut().feed(piece)
    }

    /// The next message. Text, Binary and Closed are what the last read of this call gave, before which
    /// pings and pongs were read; NotYet comes where no fed byte is left unread. After NoMemory a message may
    /// be lost, and after Bad nothing more is read.
    pub fn next(&mut self) -> Linked
        ensures { Answers result self.old self.new }
    {
        for _ in 0..u64::MAX {
            if let Some(answer) = self.read_once() {
                return answer;
            }
        }
        self.refuse_bytes()
    }

    // One read. Nothing is answered to a ping or a pong.
    fn read_once(&mut self) -> Option<Linked>
        ensures { MatchOption result (IsPassed self.old self.new) (λ answer. AnswersOnce answer self.old self.new) }
    {
        match self.socket.read() {
            Ok(message) => self.answer_message(message),
            Err(error) => Some(self.answer_error(error)),
        }
    }

    fn answer_message(&mut self, message: Message) -> Option<Linked>
        ensures { MatchOption result (IsSame message self.old self.new) (λ answer. AnswersMessage answer message self.old self.new) }
    {
        match message {
            Message::Text(text) => Some(copy_text(self.alloc, text.as_str())),
            Message::Binary(_) => Some(Linked::Binary),
            Message::Close(frame) => Some(self.hand_on_close(frame)),
            Message::Ping(_) | Message::Pong(_) => None,
        }
    }

    // The reply to a close goes out before the link is dropped.
    fn hand_on_close(&mut self, frame: Option<CloseFrame>) -> Linked
        ensures { AnswersMessage result (Message.Close frame) self.old self.new }
    {
        let flushed = self.socket.flush();
        match self.answer_write(flushed) {
            Said::Done => Linked::Closed,
            Said::Refused => Linked::Bad,
            Said::NoMemory => Linked::NoMemory,
        }
    }

    fn answer_error(&mut self, error: Error) -> Linked
        ensures { AnswersError result error self.old self.new }
    {
        match error {
            Error::ConnectionClosed | Error::AlreadyClosed => Linked::Closed,
            Error::OutOfMemory => Linked::NoMemory,
            Error::Io(error) => self.answer_io(error),
            _ => self.refuse_bytes(),
        }
    }

    // An empty buffer would block.
    fn answer_io(&mut self, error: io::Error) -> Linked
        ensures { AnswersError result (Error.Io error) self.old self.new }
    {
        match error.kind() {
            ErrorKind::WouldBlock if self.socket.get_ref().is_drained() => Linked::NotYet,
            ErrorKind::OutOfMemory => Linked::NoMemory,
            _ => self.refuse_bytes(),
        }
    }

    fn refuse(&mut self)
        ensures socket { self.new.socket ≡ self.old.socket }
        ensures rose { Rose self.old.refusals self.new.refusals }
    {
        self.refusals = self.refusals.saturating_add(1);
    }

    fn refuse_bytes(&mut self) -> Linked
        ensures answer { result ≡ Linked.Bad }
        ensures socket { self.new.socket ≡ self.old.socket }
        ensures rose { Rose self.old.refusals self.new.refusals }
    {
        self.refuse();
        Linked::Bad
    }

    /// Sends a text in one frame. Refused only where the count of refusals rose.
    pub fn say(&mut self, text: &str) -> Said
        ensures { SaysStep result self.old self.new (text_step self.old text.now) }
    {
        match Message::text(self.alloc, text) {
            Ok(message) => {
                let sent = self.socket.send(message);
                self.answer_write(sent)
            }
            Err(_) => Said::NoMemory,
        }
    }

    /// Sends a close with a code and no reason (RFC 6455 5.5.1 and 7.4). Refused only where the count of
    /// refusals rose.
    pub fn close(&mut self, code: u16) -> Said
        ensures { SaysStep result self.old self.new (code_step self.old code) }
    {
        let frame = CloseFrame {
            code: CloseCode::from(code),
            reason: Utf8Bytes::from_static(""),
        };
        let sent = self.socket.close(Some(frame));
        self.answer_write(sent)
    }

    fn answer_write(&mut self, sent: Result<(), Error>) -> Said
        ensures { AnswersWrite result sent self.old self.new }
    {
        match sent {
            Ok(()) => Said::Done,
            Err(Error::OutOfMemory) => Said::NoMemory,
            Err(Error::Io(error)) if error.kind() == ErrorKind::OutOfMemory => Said::NoMemory,
            Err(_) => {
                self.refuse();
                Said::Refused
            }
        }
    }

    /// The bytes to be sent to the peer, in order. It takes no memory.
    pub fn take_out(&mut self) -> Bytes
        ensures { self.new.refusals ≡ self.old.refusals }
    {
        let alloc = self.alloc;
        Bytes::from_vec(self.socket.get_mut().take(alloc))
    }
}

fn copy_text(alloc: Global, text: &str) -> Linked
    ensures { IsCopy result text.now }
{
    match Bytes::from_slice(alloc, text.as_bytes()) {
        Ok(bytes) => Linked::Text(bytes),
        Err(_) => Linked::NoMemory,
    }
}
