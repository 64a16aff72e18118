// The messages that an output says.
use super::super::parts::Parts;
use super::super::told::Told;
use super::asks::LIMIT;
use std::alloc::Global;

// The messages of all output that was heard, each between angle brackets, and how many bytes they have.
#[derive(Drop)]
pub struct Messages {
    text: Parts,
    len: usize,
    // Those that were said: how much of the text they are, and how many bytes they have.
    said: usize,
    counted: usize,
    // A line is too long. What stands behind is none.
    pub long: bool,
    // The line that has begun.
    line: Parts,
}

impl Messages {
    pub fn new(alloc: Global) -> Self {
        Messages {
            text: Parts::new(alloc),
            len: 0,
            said: 0,
            counted: 0,
            long: false,
            line: Parts::new(alloc),
        }
    }

    pub fn is_lost(&self) -> bool {
        self.text.is_lost() || self.line.is_lost()
    }

    // A line is a message without one CR at its end.
    fn end_line(&mut self) {
        let line = without_cr(self.line.as_slice());
        self.text.push(" <");
        self.len = self.len.saturating_add(self.text.add_lossy(line));
        self.text.push(">");
        self.line.clear();
    }

    fn hear(&mut self, byte: u8) {
        if self.long {
            return;
        }
        if byte == b'\n' {
            self.end_line();
        } else if self.line.len() == LIMIT {
            self.long = true;
        } else {
            self.line.add_byte(byte);
        }
    }

    pub fn hear_all(&mut self, output: &[u8]) {
        for byte in output {
            self.hear(*byte);
        }
    }

    // What stands behind the last line is a message too, once the output has ended.
    pub fn end(&mut self) {
        if !self.long && !self.line.is_empty() {
            self.end_line();
        }
    }

    // Says those that were not said, and gives how many bytes they have.
    pub fn say(&mut self, told: &mut Told) -> usize {
        let new = self.text.part(self.said, self.text.len());
        if !new.is_empty() {
            told.said.add(new);
            told.says(new);
        }
        let more = self.len.saturating_sub(self.counted);
        self.said = self.text.len();
        self.counted = self.len;
        more
    }
}

fn without_cr(line: &[u8]) -> &[u8] {
    line.strip_suffix(b"\r".as_slice()).unwrap_or(line)
}
