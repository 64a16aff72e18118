// The loop over the events of one outside, up to the end of its first request.
ghost use Rattle.std.specs.Prelude.{◌≡◌, ℕ, List, [], Some, true};
ghost use Rattle.host_base.specs.SiteRules.{IsServed};
ghost use Rattle.host_base.specs.declared.launch.Peer.{Peer as APeer};
ghost use Rattle.host_base.specs.declared.limits.Limits.{Limits as TheLimits};
ghost use Rattle.host_base.specs.declared.site.Site.{Site as ASite};
ghost use Rattle.host_trace.specs.declared.items.Item.{Item};
ghost use Rattle.explain.specs.Explained.{AsksAlone, EndsBy};
ghost use Rattle.explain.specs.Inputs.{KnowsSome, goes_on};
ghost use Rattle.explain.specs.Steps.{HasHeardTexts, HasEndingTexts, SaysEnding, Stands, Turned};

use crate::first::First;
use crate::input::{Ending, Heard, input_of};
use crate::report::ending_text;
use host_base::{Peer, Site};
use host_trace::{Act, Outside};
use std::alloc::Global;

/// How explaining ended.
#[derive(Drop)]
pub enum Explained {
    /// The explanation.
    Text(String),
    /// As many events were heard as there are turns, and no request ended.
    Spent,
    NoMemory,
}

// Hears one event, and asks the client for more where more is to come.
fn turn<O: Outside>(first: &mut First, out: &mut O) -> Heard
    ensures known { (limits : TheLimits) → KnowsSome first.old limits → HasHeardTexts result }
    ensures knows { (limits : TheLimits) → KnowsSome first.old limits → goes_on result ≡ true → KnowsSome first.new limits }
    ensures told { (site : ASite) (turns : ℕ) (T U : List Item) → O.trace out.old ≡ Some T → Stands site first.old turns T
        → O.trace out.new ≡ Some U → Turned site first.new turns result U }
    ensures tells { (U : List Item) → O.trace out.new ≡ Some U → (T : List Item) × (O.trace out.old ≡ Some T) }
{
    let heard = first.hear(input_of(out.next()));
    if let Heard::Asks = heard {
        out.act(&Act::WantClient { c: 0 });
    }
    heard
}

fn finish(alloc: Global, site: &Site, peer: &Option<Peer>, ending: &Ending) -> Explained
    requires served { IsServed site.now }
    requires texts { HasEndingTexts ending.now }
    ensures { SaysEnding site.now peer.now ending.now result }
{
    match ending_text(alloc, site, peer, ending) {
        Ok(text) => Explained::Text(text),
        Err(_) => Explained::NoMemory,
    }
}

/// Explains the first request of connection 0 of an outside, which is a new one: what would be started for it,
/// or how it would be refused. It asks for that client's bytes and does nothing else, and waits only in the
/// outside's `next`. It ends with the step in which the request is whole or refused, its client ends or is
/// gone, or Stop is heard. A client that ends within a request is answered as the host answers it.
pub fn explain_one<O: Outside>(alloc: Global, site: &Site, out: &mut O, turns: u64) -> Explained
    requires served { IsServed site.now }
    requires empty { (T : List Item) → O.trace out.old ≡ Some T → T ≡ [] }
    ensures asks { (T : List Item) → O.trace out.new ≡ Some T → AsksAlone T }
    ensures ends { (T : List Item) → O.trace out.new ≡ Some T → EndsBy site.now turns result T }
{
    let mut first = First::new(alloc, &site.limits);
    for _ in 0..turns {
        match turn(&mut first, out) {
            Heard::Passed | Heard::Asks => {}
            Heard::Ended(ending) => return finish(alloc, site, &first.peer, &ending),
            Heard::NoMemory => return Explained::NoMemory,
        }
    }
    Explained::Spent
}
