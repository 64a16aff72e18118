// Events that are listed to come.
ghost use Rattle.std.specs.Prelude.{◌≡◌, IfOk};

use host_base::NoMemory;
use host_trace::Event;

/// An event twice over: once to be told, once to be handed up. So handing it up takes no memory.
#[derive(Drop)]
pub struct Listed {
    pub told: Event,
    pub given: Event,
    ghost same: { told ≡ given },
}

impl Listed {
    pub fn new(event: Event) -> Result<Self, NoMemory>
        ensures { IfOk result (λ listed. listed.given ≡ event) }
    {
        let told = event.copy()?;
        Ok(Listed { told, given: event })
    }
}
