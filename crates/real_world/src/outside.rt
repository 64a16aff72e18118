// The outside of one loop of the real world.
use child_book::Ledger;
use edge_loop::NetOutside;
use host_base::Sink;
use host_trace::{Act, Acted, Event, Outside};
use net_edge::StdinOrders;
use net_sockets::NetPorts;
use once_edge::OnceOutside;
use std::process::{Processes, SystemProcess};
use std::sync::Wait;
use std::time::Clock;
use std_spawner::{StandardInput, StartThread, StdSpawner};

/// The outside of one loop: over standard input and output, or over sockets.
pub enum Either<A, B> {
    Once(A),
    Serve(B),
}

/// One connection over standard input and a sink.
pub type OneOutside<R, T, K> = OnceOutside<R, StdSpawner<R, T>, StandardInput, K>;

/// Connections over sockets.
pub type LoopOutside<R, T, L> = NetOutside<NetPorts<R>, StdSpawner<R, T>, StdinOrders, L, R>;

/// The outside of one loop of the real world.
pub type RealOutside<R, T, K, L> = Either<OneOutside<R, T, K>, LoopOutside<R, T, L>>;

impl<
    R: Processes<Started = SystemProcess> + Wait + Clock + Copy + Drop + 'static,
    T: StartThread + Drop,
    K: Sink + Drop,
    L: Ledger,
> Outside for RealOutside<R, T, K, L> {
    ghost use Rattle.std.specs.Prelude.{◌≡◌, ◌≤◌, true};
    ghost use Rattle.host_base.specs.Outsides.{Rose};
    ghost use Rattle.host_trace.specs.Told.{Hears, ActsOn, carries_nothing, is_failure, is_full_book};
    ghost use Rattle.real_world.specs.Reals.{untold, faults_of, full_of, limit_of, Owes, Does};

    ghost trace = { untold };

    ghost faults = { faults_of };

    ghost full_books = { full_of };

    ghost limit = { limit_of };

    fn next(&mut self) -> Event
        ensures told { Hears (limit_of self.old) (untold self.old) result (untold self.new) }
        ensures limit { limit_of self.new ≡ limit_of self.old }
        ensures faults { faults_of self.old ≤ faults_of self.new }
        ensures full_books { full_of self.old ≤ full_of self.new }
        ensures failure { is_failure result ≡ true → Rose (faults_of self.old) (faults_of self.new) }
        ensures full { is_full_book result ≡ true → Rose (full_of self.old) (full_of self.new) }
        ensures owed { Owes result self.old self.new }
    {
        match self {
            Either::Once(outside) => outside.next_event(),
            Either::Serve(outside) => outside.next_event(),
        }
    }

    fn act(&mut self, act: &Act) -> Acted
        ensures told { ActsOn (untold self.old) act.now result (untold self.new) }
        ensures room { carries_nothing act.now ≡ true → result ≡ Acted.Done }
        ensures limit { limit_of self.new ≡ limit_of self.old }
        ensures faults { faults_of self.old ≤ faults_of self.new }
        ensures full_books { full_of self.old ≤ full_of self.new }
        ensures does { Does act.now result self.old self.new }
    {
        match self {
            Either::Once(outside) => outside.do_act(act),
            Either::Serve(outside) => outside.do_act(act),
        }
    }
}
