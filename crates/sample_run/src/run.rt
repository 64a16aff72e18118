// The run of a sample.
ghost use Rattle.std.specs.Prelude.{◌≡◌, [], Some, IfOk};
ghost use Rattle.host_base.specs.SiteRules.{IsServed};
ghost use Rattle.memory_world.specs.MemoryWords.{items_of, listed_of, trace_of};
ghost use Rattle.memory_world.specs.WorldWords.{given_of_world};
ghost use Rattle.sample_parts.specs.Listed.{sample_events};
ghost use Rattle.sample_run.specs.Run.{HasSampleRun, sample_site};
ghost use Rattle.sample_run.specs.Played.{IsPlayedWorld};

use crate::play::play;
use host_base::{NoMemory, Site};
use host_loop::LoopEnd;
use host_trace::{EnterFault, Mode, World};
use memory_world::{MemoryOutside, MemoryWorld};
use sample_parts::sample;
use site_file::one_script;
use std::alloc::Global;

fn sample_site(alloc: Global) -> Result<Site, NoMemory>
    ensures site { IfOk result (λ site. site ≡ sample_site) }
    ensures served { IfOk result IsServed }
{
    match one_script(alloc, "/s", "/bin/cat") {
        Ok(site) => Ok(site),
        Err(_) => Err(NoMemory),
    }
}

// An outside that hands up the events of a sample. It has room for the trace of each of its connections.
fn sample_outside(
    alloc: Global,
    seed: u64,
    count: u32,
    limit: u32,
) -> Result<MemoryOutside, NoMemory>
    ensures events { IfOk result (λ outside. listed_of outside ≡ sample_events seed count) }
    ensures fresh { IfOk result (λ outside. items_of outside ≡ []) }
    ensures told { IfOk result (λ outside. trace_of outside ≡ Some []) }
    ensures limit { IfOk result (λ outside. outside.limit ≡ limit) }
{
    let events = sample(alloc, seed, count)?;
    let room = 24 * count as usize + 64;
    MemoryOutside::new(alloc, events, Vec::new(alloc), room, limit)
}

// Enters a world of one outside, serves it, and gives it back.
fn play_world(alloc: Global, site: &Site, outside: MemoryOutside) -> Result<MemoryWorld, NoMemory>
    requires served { IsServed site.now }
    requires fresh { items_of outside ≡ [] }
    requires limit { outside.limit ≡ site.now.limits.children }
    ensures { IfOk result (λ world. IsPlayedWorld site.now (listed_of outside) (given_of_world world)) }
{
    let mut world = MemoryWorld::new(alloc, vec![in alloc; outside]?);
    let mut outs = match world.enter(Mode::Serve, site, 1) {
        Ok(outs) => outs,
        Err(EnterFault::Failed | EnterFault::NoMemory) => return Err(NoMemory),
    };
    let (played, end) = play(alloc, site, outs.take_last());
    outs.push_reserved(played);
    world.leave(outs);
    match end {
        LoopEnd::Done if world.tells() => Ok(world),
        _ => Err(NoMemory),
    }
}

/// Runs the events of a sample of so many connections, by its seed, in memory, and answers the world that has the one
/// trace of the run. It answers NoMemory too where the trace outgrows the room for 24 items a connection and 64 more,
/// which is more than any sample takes.
pub fn run_sample(alloc: Global, seed: u64, count: u32) -> Result<MemoryWorld, NoMemory>
    ensures { IfOk result (λ world. HasSampleRun seed count (given_of_world world)) }
{
    let site = sample_site(alloc)?;
    let outside = sample_outside(alloc, seed, count, site.limits.children)?;
    play_world(alloc, &site, outside)
}
