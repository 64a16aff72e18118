// The world of the program: what it is made of, and in which order.
ghost use Rattle.std.specs.Prelude.{◌≡◌, [], IfOk};

use child_book::{Blank, Ledger};
use doc_files::{DocOutside, DocStore};
use doc_world::DocWorld;
use edge_loop::NetWorld;
use host_base::Sink;
use host_run::Status;
use log_outside::{LineQueue, LogOutside, LogWorld};
use net_edge::NetMaker;
use once_edge::OnceWorld;
use real_world::{RealOutside, RealWorld};
use std::alloc::Global;
use std::io::Stdin;
use std::net::Net;
use std::process::{Processes, SystemProcess};
use std::sync::atomic::AtomicBool;
use std::sync::{Arc, Wait};
use std::time::Clock;
use std_spawner::StartThread;
use told_world::ToldWorld;

/// The outside of one loop, which answers documents too.
pub type ServingOutside<R, T, K, L, D> = DocOutside<RealOutside<R, T, K, L>, D>;

/// The outside of one loop, which hands a line for each reply to the log too.
pub type LoggedOutside<R, T, K, L, D> = LogOutside<ServingOutside<R, T, K, L, D>, R>;

/// Standard input and output or sockets, programs and the clock; documents from a store.
pub type ServingWorld<R, T, K, L, D> = DocWorld<RealWorld<R, T, K, L>, D>;

/// The world of the program: over sockets, pipes, programs and the clock stands what answers documents, over that the log, and over all what tells.
pub type TellingWorld<R, T, K, L, D> = ToldWorld<
    LogWorld<ServingWorld<R, T, K, L, D>, ServingOutside<R, T, K, L, D>, R>,
    LoggedOutside<R, T, K, L, D>,
    R,
>;

/// What the world is made of: each of `starters` starts threads, the client of `once` is at `input` and `output`, orders
/// to a server come from `orders`, which says by `anew` that the log is to be opened anew, and the lines of the log go
/// into `queues`, one for each loop.
#[derive(Drop)]
pub struct Devices<T, K> {
    pub starters: Vec<T>,
    pub input: Stdin,
    pub output: K,
    pub orders: Stdin,
    pub anew: Option<Arc<AtomicBool>>,
    pub queues: Vec<LineQueue>,
}

/// The world over these devices.
pub fn telling_world<
    R: Net
        + Processes<Started = SystemProcess>
        + Wait
        + Clock
        + Eprint
        + Copy
        + Drop
        + Send
        + 'static,
    T: StartThread + Drop + Send + 'static,
    K: Sink + Drop + Send + 'static,
    L: Ledger + Send + Sync,
    D: DocStore + Drop + Send,
>(
    rt: R,
    alloc: Global,
    devices: Devices<T, K>,
    docs: D,
    blank: Blank,
) -> Result<TellingWorld<R, T, K, L, D>, Status>
    requires name { blank.name ≡ L.name }
    requires parts { blank.parts ≡ L.parts }
    requires sixteen { blank.parts ≡ 16 }
    ensures given { IfOk result (λ world. world.given ≡ []) }
    ensures entries { IfOk result (λ world. world.entries ≡ []) }
{
    let Devices {
        starters,
        input,
        output,
        orders,
        anew,
        queues,
    } = devices;
    let mut starters = starters;
    let Some(starter) = starters.pop() else {
        return Err(Status::NoMemory);
    };
    let maker = NetMaker::new(rt, alloc, starters, orders).with_log(anew);
    let real = RealWorld::new(
        alloc,
        OnceWorld::new(rt, alloc, starter, input, output),
        NetWorld::new(rt, alloc, maker, blank),
    );
    let serving = DocWorld::new(alloc, real, docs, 0);
    let logged = LogWorld::new(rt, alloc, serving, queues);
    Ok(ToldWorld::new(rt, alloc, logged))
}
