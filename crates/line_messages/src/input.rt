// A text as a line of input.
ghost use Rattle.std.specs.Prelude.{◌≡◌, IfOk};
ghost use Rattle.head_lines.specs.Lines.{with_lf};

use host_base::{Bytes, NoMemory};
use std::alloc::Global;

/// The line of input that says a text: the text, and LF. A text that has an LF itself is not changed.
pub fn input_line(alloc: Global, text: &[u8]) -> Result<Bytes, NoMemory>
    ensures { IfOk result (λ line. line ≡ with_lf text.now) }
{
    let mut line = Bytes::with_capacity(alloc, text.len().saturating_add(1))?;
    line.extend_from_slice(text)?;
    line.push(b'\n')?;
    Ok(line)
}
