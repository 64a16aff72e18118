// Bytes that grow part by part. Where memory ran out once they are lost.
use host_base::{Bytes, NoMemory};
use std::alloc::Global;

#[derive(Drop)]
pub struct Parts {
    alloc: Global,
    bytes: Bytes,
    lost: bool,
}

impl Parts {
    pub fn new(alloc: Global) -> Self {
        Parts {
            alloc,
            bytes: Bytes::new(alloc),
            lost: false,
        }
    }

    pub fn is_lost(&self) -> bool {
        self.lost
    }

    pub fn lose(&mut self) {
        self.lost = true;
    }

    pub fn as_slice(&self) -> &[u8] {
        self.bytes.as_slice()
    }

    // What they say, where memory did not run out.
    pub fn text(&self) -> Result<&str, NoMemory> {
        if self.lost {
            return Err(NoMemory);
        }
        Ok(str::from_utf8(self.as_slice()).unwrap_or("no text"))
    }

    pub fn len(&self) -> usize {
        self.bytes.len()
    }

    pub fn is_empty(&self) -> bool {
        self.len() == 0
    }

    pub fn has(&self, bytes: &[u8]) -> bool {
        self.as_slice() == bytes
    }

    // Whether these are the same bytes.
    pub fn is(&self, other: &Parts) -> bool {
        self.has(other.as_slice())
    }

    pub fn ends_with(&self, text: &str) -> bool {
        self.as_slice().ends_with(text.as_bytes())
    }

    // The bytes from one place to another.
    pub fn part(&self, from: usize, to: usize) -> &[u8] {
        self.as_slice().get(from..to).unwrap_or(b"")
    }

    pub fn add(&mut self, part: &[u8]) {
        self.lost |= self.bytes.extend_from_slice(part).is_err();
    }

    pub fn add_byte(&mut self, byte: u8) {
        self.lost |= self.bytes.push(byte).is_err();
    }

    pub fn add_parts(&mut self, parts: &Parts) {
        self.lost |= parts.lost;
        self.add(parts.as_slice());
    }

    pub fn push(&mut self, text: &str) {
        self.add(text.as_bytes());
    }

    pub fn push_line(&mut self, line: &str) {
        self.push(line);
        self.add_byte(b'\n');
    }

    fn push_made(&mut self, made: Option<String>) {
        match made {
            Some(made) => self.push(made.as_str()),
            None => self.lost = true,
        }
    }

    // Bytes that may be no text, and how long they are as one.
    pub fn add_lossy(&mut self, bytes: &[u8]) -> usize {
        let before = self.len();
        self.push_made(String::from_utf8_lossy(self.alloc, bytes).ok());
        self.len().saturating_sub(before)
    }

    // A number in decimal digits.
    pub fn push_number(&mut self, number: u64) {
        self.push_made(format!(in self.alloc; "{number}").ok());
    }

    // .. and in digits of base 16.
    pub fn push_hex(&mut self, number: usize) {
        self.push_made(format!(in self.alloc; "{number:x}").ok());
    }

    pub fn clear(&mut self) {
        self.bytes = Bytes::new(self.alloc);
    }
}
