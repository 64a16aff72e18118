// Where one thread waits for a pipe.
use mio::unix::SourceFd;
use mio::{Events, Interest, Poll, Token, Waker};
use std::alloc::{AllocError, Global};
use std::io;
use std::io::{Error, ErrorKind};
use std::net::Net;
use std::os::fd::RawFd;
use std::sync::Arc;
use std::time::Duration;

const PIPE: Token = Token(0);

const WAKER: Token = Token(1);

// How many reports one wait gives: of the pipe, and of whoever ended it.
const REPORTS: usize = 2;

#[derive(Drop)]
struct Polled {
    poll: Poll,
    events: Events,
    /// That of whoever ends the waits. Where it is dropped there right behind a wake, that is still to be seen here: the
    /// system forgets the wake of one that is closed.
    waker: Arc<Waker>,
}

/// Where a thread waits for one pipe after the other. It is kept with the thread.
#[derive(Drop)]
pub struct PipeWait {
    polled: Option<Polled>,
}

/// It ends the wait that is under way, or else the next.
#[derive(Drop)]
pub struct PipeWaker {
    waker: Arc<Waker>,
}

// The same waker twice.
fn twice(alloc: Global, waker: Waker) -> Result<(Arc<Waker>, Arc<Waker>), AllocError> {
    let waker = Arc::new(alloc, waker)?;
    Ok((waker.clone()?, waker))
}

impl PipeWaker {
    pub fn wake(&self) {
        let _ = self.waker.wake();
    }
}

impl PipeWait {
    /// One that can't wait: for pipes that never block, and for those that block their thread.
    pub fn none() -> Self {
        PipeWait { polled: None }
    }

    /// One for a thread, and what ends its waits.
    pub fn pair<N: Net>(net: &N, alloc: Global) -> io::Result<(PipeWait, PipeWaker)> {
        let poll = Poll::new(net)?;
        let Ok((ours, waker)) = twice(alloc, Waker::new(poll.registry(), WAKER)?) else {
            return Err(Error::from(ErrorKind::OutOfMemory));
        };
        let events = Events::with_capacity(alloc, REPORTS)?;
        let wait = PipeWait {
            polled: Some(Polled {
                poll,
                events,
                waker: ours,
            }),
        };
        Ok((wait, PipeWaker { waker }))
    }

    /// Waits so long at most, and for no pipe: until the wait is ended, or some microseconds longer than it was told.
    pub fn pause(&mut self, most: Duration) {
        if let Some(polled) = &mut self.polled {
            let _ = polled.poll.poll(&mut polled.events, Some(most));
        }
    }

    /// Has a pipe reported, once each time it becomes ready. It answers whether that can be.
    pub(crate) fn begin(&self, descriptor: RawFd, interest: Interest) -> bool {
        match &self.polled {
            Some(polled) => polled
                .poll
                .registry()
                .register(&mut SourceFd(&descriptor), PIPE, interest)
                .is_ok(),
            None => false,
        }
    }

    /// Has it reported no more.
    pub(crate) fn end(&self, descriptor: RawFd) {
        if let Some(polled) = &self.polled {
            let _ = polled
                .poll
                .registry()
                .deregister(&mut SourceFd(&descriptor));
        }
    }

    /// Waits until the pipe is reported or the wait is ended, and answers whether it could.
    pub(crate) fn wait(&mut self) -> bool {
        match &mut self.polled {
            Some(polled) => match polled.poll.poll(&mut polled.events, None) {
                Ok(_) => true,
                Err(error) => error.kind() == ErrorKind::Interrupted,
            },
            None => false,
        }
    }
}
