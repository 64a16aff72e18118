// Values by their names.
ghost use Rattle.std.specs.Prelude.{◌≡◌, find};
ghost use Rattle.std.specs.Option.{option_copied};
ghost use Rattle.document_output.specs.Values.{is_called, named_value};

use host_base::Pair;

fn pair_named<'a>(pairs: &'a [Pair], name: &[u8]) -> Option<&'a Pair>
    ensures { option_copied result ≡ find (is_called name.now) pairs.now }
{
    pairs.iter().find(|pair| pair.name.as_bytes() == name)
}

// The value of the first pair of a name.
pub fn named_value<'a>(pairs: &'a [Pair], name: &[u8]) -> Option<&'a str>
    ensures { option_copied result ≡ named_value name.now pairs.now }
{
    match pair_named(pairs, name) {
        Some(pair) => Some(pair.value.as_str()),
        None => None,
    }
}
