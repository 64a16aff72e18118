// The world: it gives out the outsides of the loops and takes them back.
ghost use Rattle.std.specs.Prelude.{◌≡◌, ◌≤◌, ◌<◌, ◌+◌, ℕ, List, Option, IfOk, OnOk, OnErr, map, All, vec_len, None};
ghost use Rattle.host_base.specs.Outsides.{Rose};
ghost use Rattle.host_trace.specs.Entries.{Enters, entry_of};
ghost use Rattle.host_trace.specs.declared.items.Item.{Item};
ghost use Rattle.host_trace.specs.declared.world.Entry.{Entry};
ghost use Rattle.host_trace.specs.Told.{IsNew, Joins};

use super::Outside;
use host_base::Site;

/// What is served.
#[derive(Clone, Copy, Debug, PartialEq, Eq)]
pub enum Mode {
    /// One connection, over standard input and output.
    Once,
    /// Connections over sockets.
    Serve,
}

#[derive(Clone, Copy, Debug, PartialEq, Eq)]
pub enum EnterFault {
    /// The address can't be taken, or something else that the outside needs.
    Failed,
    NoMemory,
}

/// What a world is entered for.
#[derive(Drop, Debug)]
pub struct Entry {
    pub mode: Mode,
    pub site: Site,
    pub loops: u32,
}

/// Where the outsides of the loops come from.
pub trait World {
    type Out: Outside + Send;

    /// The traces given back so far, where it tells.
    ghost given: { Self → Option (List (List Item)) };

    /// What it was entered for so far, whether it gave outsides then or not, where it tells.
    ghost entries: { Self → Option (List Entry) } = { λ _. None };

    /// How many outsides are out.
    ghost out: { Self → ℕ };

    /// How often entering failed. It never falls.
    ghost faults: { Self → ℕ };

    /// Gives one outside for each loop. Their traces are empty, and are told exactly where the world is.
    fn enter(&mut self, mode: Mode, site: &Site, loops: u32) -> Result<Vec<Self::Out>, EnterFault>
        requires loops { 0 < loops }
        requires once { mode ≡ Mode.Once → loops ≡ 1 }
        ensures count { IfOk result (λ outs. vec_len outs ≡ loops) }
        ensures told { IfOk result (λ outs. All (λ o. IsNew (given self.old) (Self.Out.trace o)) outs.items) }
        ensures limit { IfOk result (λ outs. All (λ o. Self.Out.limit o ≡ site.now.limits.children) outs.items) }
        ensures out { OnOk result (out self.new ≡ out self.old + loops) }

        ensures entered { Enters (entries self.old) (entry_of mode site.now loops) (entries self.new) }
        ensures given { given self.new ≡ given self.old }
        ensures err { OnErr result (out self.new ≡ out self.old) }
        ensures faults { faults self.old ≤ faults self.new }
        ensures failed { result ≡ Err EnterFault.Failed → Rose (faults self.old) (faults self.new) };

    /// Takes outsides back, with their traces in their order. It takes no memory.
    fn leave(&mut self, outs: Vec<Self::Out>)
        requires { vec_len outs ≤ out self.old }
        ensures given { Joins (given self.old) (map (λ o. Self.Out.trace o) outs.items) (given self.new) }
        ensures entries { entries self.new ≡ entries self.old }
        ensures out { out self.new + vec_len outs ≡ out self.old }
        ensures faults { faults self.old ≤ faults self.new };
}
