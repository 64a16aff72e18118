// Texts, which contracts see as the list of their bytes in UTF-8.
ghost use Rattle.std.specs.Prelude.{◌≡◌, ◌==◌, ℕ, length, IfOk, string_bytes};

use super::{NoMemory, Sequence};
use std::alloc::Global;
use std::marker::Model;

/// A text in UTF-8. It is made from a `String` and gives it back without taking memory.
#[derive(Clone, Drop, Debug)]
pub struct Text {
    text: String,
}

/// Texts in order, as the arguments of a program or the origins that a script takes.
pub type Texts = Sequence<Text>;

impl Model for Text {
    ghost use Rattle.std.specs.Prelude.{List, ℕ, string_bytes};

    ghost Value = { List ℕ };

    ghost view = { λ t. string_bytes t.text };
}

impl Text {
    pub fn from_string(text: String) -> Self
        ensures { result ≡ string_bytes text }
    {
        Text { text }
    }

    pub fn into_string(self) -> String
        ensures { string_bytes result ≡ self }
    {
        let Text { text } = self;
        text
    }

    /// A copy of a text.
    pub fn copy_of(alloc: Global, text: &str) -> Result<Self, NoMemory>
        ensures { IfOk result (λ t. t ≡ text.now) }
    {
        Ok(Text {
            text: text.to_string(alloc)?,
        })
    }

    pub fn as_str(&self) -> &str
        ensures { result.now ≡ self.now }
    {
        self.text.as_str()
    }

    pub fn as_bytes(&self) -> &[u8]
        ensures { result.now ≡ self.now }
    {
        self.text.as_bytes()
    }

    /// The number of bytes in UTF-8.
    pub fn len(&self) -> usize
        ensures { result ≡ length self.now }
    {
        self.text.len()
    }

    pub fn is_empty(&self) -> bool
        ensures { result ≡ (length self.now == 0) }
    {
        self.text.len() == 0
    }
}
