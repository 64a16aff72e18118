// The search for the first empty line of a text that grows.
ghost use Rattle.std.specs.Prelude.{◌≡◌, ◌++◌, ℕ, List, length, IfNone};
ghost use Rattle.head_lines.specs.Lines.{front_len, IsSearched};

use crate::lines::strip_cr;

/// Where a search for the first empty line stands.
#[derive(Clone, Copy, Debug)]
pub struct Search {
    /// Where the line begins in which it stands.
    pub start: usize,
    /// How many bytes it has looked at.
    pub seen: usize,
}

impl Search {
    /// A search that has looked at nothing.
    pub fn new() -> Self
        ensures start { (text : List ℕ) → IsSearched text result.start result.seen }
        ensures nothing { result.seen ≡ 0 }
    {
        Search { start: 0, seen: 0 }
    }

    /// Looks at the bytes that were not seen yet, and says where the first empty line ends. When more
    /// bytes have come it may go on.
    pub fn front_end(&mut self, text: &[u8]) -> Option<usize>
        requires { IsSearched text.now self.old.start self.old.seen }
        ensures value { result ≡ front_len text.now }
        ensures kept { (more : List ℕ) → IsSearched (text.now ++ more) self.new.start self.new.seen }
        ensures looked { IfNone result (self.new.seen ≡ length text.now) }
    {
        let mut start = self.start;
        for i in self.seen..text.len() {
            if text[i] == b'\n' {
                if strip_cr(&text[start..i]).is_empty() {
                    *self = Search { start, seen: i };
                    return Some(i + 1);
                }
                start = i + 1;
            }
        }
        *self = Search {
            start,
            seen: text.len(),
        };
        None
    }
}
