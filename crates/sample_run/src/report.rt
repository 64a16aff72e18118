// The report of a sample.
ghost use Rattle.std.specs.Prelude.{IfOk, string_bytes};
ghost use Rattle.sample_run.specs.Run.{IsSampleText};

use crate::run::run_sample;
use host_base::NoMemory;
use sample_parts::sample_text;
use std::alloc::Global;

/// The counts of the run of a sample, as a text: how many connections there were, to how many of them nothing was
/// written, how often each status code was, and how many children were to be started and were reaped.
pub fn sample_report(alloc: Global, seed: u64, count: u32) -> Result<String, NoMemory>
    ensures { IfOk result (λ text. IsSampleText seed count (string_bytes text)) }
{
    let world = run_sample(alloc, seed, count)?;
    match world.given() {
        [items] => sample_text(alloc, items.as_slice()),
        _ => Err(NoMemory),
    }
}
