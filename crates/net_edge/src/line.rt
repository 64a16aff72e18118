// What is ordered, as lines of text.
ghost use Rattle.std.specs.Prelude.{◌≡◌};
ghost use Rattle.net_edge.specs.Lines.{said_of};

use edge_loop::Order;
use std::marker::Model;

// A longer line says nothing.
const LONGEST: usize = 7;

/// What a line says.
#[derive(Clone, Copy, Debug, PartialEq, Eq)]
pub enum Said {
    /// An order to the server.
    Order(Order),
    /// The log is to be opened anew.
    Log,
}

/// The line that is being read. Contracts see its first seven bytes, which is all that is kept.
#[derive(Debug, Drop)]
pub struct OrderLine {
    bytes: [u8; 7],
    len: usize,
}

impl Model for OrderLine {
    ghost use Rattle.std.specs.Prelude.{List, ℕ, ◌≤◌, take};

    ghost Value = { List ℕ };

    ghost view = { λ line. take line.len line.bytes };

    ghost invariant = { λ line. line.len ≤ 7 };
}

impl OrderLine {
    ghost use Rattle.std.specs.Prelude.{◌≡◌, [], ℕ, List, take};
    ghost use Rattle.net_edge.specs.Lines.{heard_at, line_after};

    pub fn new() -> Self
        ensures { result ≡ [] }
    {
        OrderLine {
            bytes: [0; 7],
            len: 0,
        }
    }

    /// Hears one byte more, and answers what the line says that it ends.
    pub fn hear(&mut self, byte: u8) -> Option<Said>
        ensures said { (line : List ℕ) → self.old ≡ take 7 line → result ≡ heard_at line byte }
        ensures line { (line : List ℕ) → self.old ≡ take 7 line → self.new ≡ take 7 (line_after line byte) }
    {
        if byte == b'\n' {
            let said = said_of(&self.bytes[..self.len]);
            self.len = 0;
            return said;
        }
        if self.len < LONGEST {
            self.bytes[self.len] = byte;
            self.len += 1;
        }
        None
    }
}

fn said_of(line: &[u8]) -> Option<Said>
    ensures { result ≡ said_of line.now }
{
    if line == b"stop".as_slice() || line == b"stop\r".as_slice() {
        Some(Said::Order(Order::Stop))
    } else if line == b"drain".as_slice() || line == b"drain\r".as_slice() {
        Some(Said::Order(Order::Drain))
    } else if line == b"log".as_slice() || line == b"log\r".as_slice() {
        Some(Said::Log)
    } else {
        None
    }
}
