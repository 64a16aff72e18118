// Whether a pipe is let go.
ghost use Rattle.std.specs.Prelude.{IfOk};
ghost use Rattle.pipe_wait.specs.Releases.{IsSameRelease};

use host_base::NoMemory;
use std::alloc::Global;
use std::sync::Arc;
use std::sync::atomic::{AtomicBool, Ordering};

/// Whether nobody wants a pipe any more. Whoever says so also ends the wait of its thread.
#[derive(Drop)]
pub struct Release {
    gone: Arc<AtomicBool>,
}

impl Release {
    /// Of a pipe that is wanted.
    pub fn new(alloc: Global) -> Result<Self, NoMemory> {
        Ok(Release {
            gone: Arc::new(alloc, AtomicBool::new(false))?,
        })
    }

    /// Another of the same pipe.
    pub fn another(&self) -> Result<Self, NoMemory>
        ensures { IfOk result (λ other. IsSameRelease self.now other) }
    {
        Ok(Release {
            gone: Arc::try_clone(&self.gone)?,
        })
    }

    /// Nobody wants the pipe from now on.
    pub fn let_go(&self) {
        self.gone.store(true, Ordering::SeqCst);
    }

    pub fn is_let_go(&self) -> bool {
        self.gone.load(Ordering::SeqCst)
    }
}
