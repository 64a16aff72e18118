// Where a byte stands. None of this takes memory.
ghost use Rattle.std.specs.Prelude.{◌≡◌, ◌==◌, ◌≤◌, length};
ghost use Rattle.std.specs.List.{position, position_or_len};
ghost use Rattle.script_map.specs.Bytes.{begins_with};

pub fn begins_with(bytes: &[u8], byte: u8) -> bool
    ensures { result ≡ begins_with byte bytes.now }
{
    match bytes {
        [first, ..] => *first == byte,
        [] => false,
    }
}

fn first_at(bytes: &[u8], stop: u8) -> Option<usize>
    ensures { result ≡ position (λ byte. byte == stop) bytes.now }
{
    bytes.iter().position(|byte| *byte == stop)
}

// How many bytes stand before the first such byte, or all of them.
pub fn len_before(bytes: &[u8], stop: u8) -> usize
    ensures value { result ≡ position_or_len (λ byte. byte == stop) bytes.now }
    ensures within { result ≤ length bytes.now }
{
    first_at(bytes, stop).unwrap_or(bytes.len())
}
