// The words of a request line (RFC 9112 3).
ghost use Rattle.std.specs.Prelude.{◌≡◌, length, position};
ghost use Rattle.std.specs.List.{slice_split};
ghost use Rattle.head_lines.specs.Lines.{first_line};
ghost use Rattle.head_reader.specs.RequestHead.{second_word, is_space};

use head_lines::first_line;

// Where the first space stands.
fn space_at(line: &[u8]) -> Option<usize>
    ensures { result ≡ position is_space line.now }
{
    line.iter().position(|byte| *byte == b' ')
}

// How many bytes stand between the first two spaces of a line, and 0 where it has no two.
fn second_word_len(line: &[u8]) -> usize
    ensures { result ≡ length (second_word (slice_split is_space line.now)) }
{
    let Some(first) = space_at(line) else {
        return 0;
    };
    let rest = &line[first + 1..];
    space_at(rest).unwrap_or(0)
}

// How many bytes stand in the first line where the request target does.
pub fn target_len(head: &[u8]) -> usize
    ensures { result ≡ length (second_word (slice_split is_space (first_line head.now))) }
{
    second_word_len(first_line(head))
}
