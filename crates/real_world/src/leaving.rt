// Outsides that end beside each other.
ghost use Rattle.std.specs.Prelude.{All};
ghost use Rattle.real_world.specs.Reals.{IsHalted};

use super::{Either, RealOutside};
use child_book::Ledger;
use edge_loop::{Leaving, Sending};
use host_base::Sink;
use std::process::{Processes, SystemProcess};
use std::sync::Wait;
use std::time::Clock;
use std_spawner::StartThread;

impl<
    R: Processes<Started = SystemProcess> + Wait + Clock + Copy + Drop + 'static,
    T: StartThread + Drop,
    K: Sink + Drop,
    L: Ledger,
> Leaving for RealOutside<R, T, K, L> {
    ghost use Rattle.real_world.specs.Reals.{IsHalted, IsSent};

    ghost is_halted = { IsHalted };

    ghost is_sent = { IsSent };

    fn send_some(&mut self) -> Sending {
        match self {
            Either::Once(_) => Sending::Done,
            Either::Serve(outside) => outside.send_some(),
        }
    }

    fn wait_to_send(&mut self, millis: u64) {
        match self {
            Either::Once(_) => {}
            Either::Serve(outside) => outside.wait_to_send(millis),
        }
    }
}

// Ends every child of one, and accepts no further client.
fn halt<
    R: Processes<Started = SystemProcess> + Wait + Clock + Copy + Drop + 'static,
    T: StartThread + Drop,
    K: Sink + Drop,
    L: Ledger,
>(out: &mut RealOutside<R, T, K, L>)
    ensures { IsHalted out.new }
{
    match out {
        Either::Once(outside) => outside.end(),
        Either::Serve(outside) => outside.halt(),
    }
}

// .. of each.
pub(crate) fn halt_all<
    R: Processes<Started = SystemProcess> + Wait + Clock + Copy + Drop + 'static,
    T: StartThread + Drop,
    K: Sink + Drop,
    L: Ledger,
>(outs: &mut [RealOutside<R, T, K, L>])
    ensures { All IsHalted outs.new }
{
    for i in 0..outs.len() {
        halt(&mut outs[i]);
    }
}
