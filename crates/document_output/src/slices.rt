// Parts of bytes. None of this takes memory.
ghost use Rattle.std.specs.Prelude.{◌≡◌, ◌==◌};
ghost use Rattle.std.specs.List.{after_last};
ghost use Rattle.std.specs.Option.{option_copied};
ghost use Rattle.document_output.specs.Paths.{after_prefix};

// What follows a prefix, where the bytes begin with it.
pub fn after_prefix<'a>(bytes: &'a [u8], prefix: &[u8]) -> Option<&'a [u8]>
    ensures { option_copied result ≡ after_prefix prefix.now bytes.now }
{
    let (front, rest) = bytes.split_at(prefix.len().min(bytes.len()));
    if front == prefix { Some(rest) } else { None }
}

// What follows the last such byte, or all where there is none.
pub fn after_last(bytes: &[u8], stop: u8) -> &[u8]
    ensures { result.now ≡ after_last (λ byte. byte == stop) bytes.now }
{
    let mut start = 0;
    for (at, byte) in bytes.iter().enumerate() {
        if *byte == stop {
            start = at + 1;
        }
    }
    &bytes[start..]
}
