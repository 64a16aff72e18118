// Which children an outside in memory lets start or exit next.
ghost use Rattle.std.specs.Prelude.{◌≡◌, Option, Some, None, [], ◌∷◌, MatchOption};
ghost use Rattle.memory_world.specs.NextEvent.{least, lesser, open_starts, running, started_number};
ghost use Rattle.host_trace.specs.Kinds.{start_number};

use super::fit::{exited, start_answered};
use host_trace::{Act, Event, Item};

fn lesser(least: Option<u64>, k: u64) -> Option<u64>
    ensures { result ≡ lesser least k }
{
    match least {
        Some(least) => Some(least.min(k)),
        None => Some(k),
    }
}

fn start_of(item: &Item) -> Option<u64>
    ensures { MatchOption result (start_number item.now ≡ []) (λ k. start_number item.now ≡ k ∷ []) }
{
    match item {
        Item::Out(Act::Start { k, .. }) => Some(*k),
        _ => None,
    }
}

fn started_of(item: &Item) -> Option<u64>
    ensures { MatchOption result (started_number item.now ≡ []) (λ k. started_number item.now ≡ k ∷ []) }
{
    match item {
        Item::In(Event::Started { k }) => Some(*k),
        _ => None,
    }
}

/// The least child whose Start was not answered.
pub fn open_start(items: &[Item]) -> Option<u64>
    ensures { result ≡ least (open_starts items.now) }
{
    let mut least = None;
    for item in items {
        if let Some(k) = start_of(item)
            && !start_answered(items, k)
        {
            least = lesser(least, k);
        }
    }
    least
}

/// The least child that runs.
pub fn running_child(items: &[Item]) -> Option<u64>
    ensures { result ≡ least (running items.now) }
{
    let mut least = None;
    for item in items {
        if let Some(k) = started_of(item)
            && !exited(items, k)
        {
            least = lesser(least, k);
        }
    }
    least
}
