// One variable of an environment.
ghost use Rattle.std.specs.Prelude.{◌≡◌, ◌++◌, ◌∷◌, [], filter, IfOk, OnOk, decimal, string_bytes};
ghost use Rattle.meta_variables.specs.Variables.{pair, is_kept};

use host_base::{NoMemory, Pair, Pairs, Text};
use std::alloc::Global;

fn pair(alloc: Global, name: &str, value: &str) -> Result<Pair, NoMemory>
    ensures { IfOk result (λ made. made ≡ pair name.now value.now) }
{
    Ok(Pair {
        name: Text::copy_of(alloc, name)?,
        value: Text::copy_of(alloc, value)?,
    })
}

// Adds a variable. One whose value is empty is left out, but not QUERY_STRING.
pub fn push_kept(
    alloc: Global,
    variables: &mut Pairs,
    name: &str,
    value: &str,
) -> Result<(), NoMemory>
    ensures { OnOk result (variables.new ≡ variables.old ++ filter is_kept (pair name.now value.now ∷ [])) }
{
    if value.len() == 0 && name != "QUERY_STRING" {
        return Ok(());
    }
    variables.push(pair(alloc, name, value)?)
}

pub fn number_text(alloc: Global, number: u64) -> Result<String, NoMemory>
    ensures { IfOk result (λ text. string_bytes text ≡ decimal number) }
{
    Ok(number.to_string(alloc)?)
}
