// What a child is started with.
ghost use Rattle.std.specs.Prelude.{◌≡◌, IfOk};

use super::{NoMemory, Sequence, Text, Texts};

/// The IP address of a client.
#[derive(Clone, Drop, Debug)]
pub struct Peer(pub Text);

/// A variable of an environment.
#[derive(Clone, Drop, Debug)]
pub struct Pair {
    pub name: Text,
    pub value: Text,
}

/// The variables of an environment in their order.
pub type Pairs = Sequence<Pair>;

/// A program, the folder that it runs in, its arguments and its whole environment.
#[derive(Clone, Drop, Debug)]
pub struct Launch {
    pub program: Text,
    pub dir: Text,
    pub args: Texts,
    pub env: Pairs,
}

impl Launch {
    /// The same launch once more.
    pub fn copy(&self) -> Result<Self, NoMemory>
        ensures { IfOk result (λ launch. launch ≡ self.now) }
    {
        Ok(Launch {
            program: self.program.clone()?,
            dir: self.dir.clone()?,
            args: self.args.clone()?,
            env: self.env.clone()?,
        })
    }
}
