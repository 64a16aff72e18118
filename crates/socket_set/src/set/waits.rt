// The waits of a loop, and what they report.
ghost use Rattle.std.specs.Prelude.{◌≡◌};

use super::{Ports, SocketSet};
use crate::Ready;

// How many clients that were given texts are asked at most before the ports are asked again what is ready.
const GIVEN: usize = 64;

impl<P: Ports + Drop> SocketSet<P> {
    ghost use Rattle.std.specs.Prelude.{◌≡◌};
    ghost use Rattle.host_base.specs.Outsides.{Rose};
    ghost use Rattle.socket_set.specs.Clients.{Notes};
    ghost use Rattle.socket_set.specs.Sets.{IsQuiet, Counted, On, SameDevices, SameClients};

    /// Waits until a client, a tick or a wake-up is at hand, and no longer than so many milliseconds. It doesn't
    /// wait while a client is still to be asked.
    #[tactic(auto, using(crate::proofs::Sets::counted_same))]
    pub fn wait(&mut self, millis: u64)
        ensures quiet { IsQuiet self.old self.new }
        ensures counted { Counted self.old self.new }
        ensures asked { Rose self.old.ports.waits self.new.ports.waits }
    {
        let millis = if self.due.is_empty() {
            self.ports.millis_to_tick().min(millis)
        } else {
            0
        };
        self.begin_round(millis);
    }

    /// Waits for the rest of the time between two ticks that are both owed, or until a client or a wake-up is at hand.
    #[tactic(auto, using(crate::proofs::Sets::quiet_self, crate::proofs::Sets::counted_self))]
    pub fn wait_for_tick(&mut self)
        ensures quiet { IsQuiet self.old self.new }
        ensures counted { Counted self.old self.new }
    {
        let now = self.millis();
        let left = self.pause_left(now);
        if left > 0 && self.due.is_empty() {
            self.begin_round(left);
        }
    }

    // Waits, and begins a round of those that are due then.
    pub(super) fn begin_round(&mut self, millis: u64)
        ensures quiet { IsQuiet self.old self.new }
        ensures counted { Counted self.old self.new }
        ensures asked { Rose self.old.ports.waits self.new.ports.waits }
    {
        self.look(millis);
        self.round = self.due.len();
        self.given = GIVEN;
    }

    // One more may be told in this round, since a client was given texts.
    pub(super) fn lengthen_round(&mut self)
        ensures { self.new ≡ self.old }
    {
        if self.given > 0 {
            self.given -= 1;
            self.round = self.round.saturating_add(1);
        }
    }

    // Waits, and has those that are ready asked. A wait that fails is passed over.
    #[tactic(auto, using(crate::proofs::Sets::quiet_two, crate::proofs::Sets::quiet_same, crate::proofs::Sets::counted_two, crate::proofs::Sets::counted_same, crate::proofs::Sets::rose_kept))]
    fn look(&mut self, millis: u64)
        ensures quiet { IsQuiet self.old self.new }
        ensures counted { Counted self.old self.new }
        ensures asked { Rose self.old.ports.waits self.new.ports.waits }
    {
        self.wait_for_ports(millis);
        self.note_all();
    }

    #[tactic(auto, using(crate::proofs::Sets::waited_counted, crate::proofs::Sets::failed_counted))]
    fn wait_for_ports(&mut self, millis: u64)
        ensures rows { SameClients self.old self.new }
        ensures counted { Counted self.old self.new }
        ensures asked { Rose self.old.ports.waits self.new.ports.waits }
    {
        if !self.ports.wait(millis) {
            self.faults = self.faults.saturating_add(1);
        }
    }

    #[tactic(auto, using(crate::proofs::Sets::quiet_self, crate::proofs::Sets::quiet_two, crate::proofs::Sets::devices_self, crate::proofs::Sets::devices_two))]
    fn note_all(&mut self)
        ensures quiet { IsQuiet self.old self.new }
        ensures same { SameDevices self.old self.new }
    {
        for _ in 0..u64::MAX {
            match self.next_ready() {
                Some(ready) => self.note(ready),
                None => return,
            }
        }
    }

    fn next_ready(&mut self) -> Option<Ready>
        ensures { self.new ≡ self.old }
    {
        self.ports.ready()
    }

    #[tactic(auto, using(crate::proofs::Sets::quiet_noted, crate::proofs::Sets::quiet_self, crate::proofs::Sets::devices_self, crate::proofs::Sets::noted_devices))]
    fn note(&mut self, ready: Ready)
        ensures quiet { IsQuiet self.old self.new }
        ensures same { SameDevices self.old self.new }
    {
        match ready {
            Ready::Listener => self.enqueue_listener(),
            Ready::Client { c, failed } => self.note_client(c, failed),
        }
    }

    // One that is gone may still be reported.
    fn note_client(&mut self, c: u64, failed: bool)
        ensures { On c (Notes failed) self.old self.new }
    {
        if let Some(client) = self.clients.get_mut(&c) {
            client.note(failed);
            client.enqueue(&mut self.due, c);
        }
    }
}
