// A wait for many sockets.
ghost use Rattle.std.specs.Prelude.{◌≡◌, ◌⊎◌, ◌∷◌, ◌++◌, [], IfOk, IfSome, IsNone};
ghost use Rattle.net_sockets.specs.Nets.{RisesUnless};

use mio::event::Event;
use mio::unix::SourceFd;
use mio::{Events, Interest, Poll, Registry, Token, Waker};
use socket_set::Ready;
use std::alloc::Global;
use std::collections::VecDeque;
use std::io;
use std::net::Net;
use std::os::fd::RawFd;
use std::time::Duration;

// How many reports one wait gives at most. The others come with the next.
const REPORTS: usize = 256;

const LISTENER: Token = Token(usize::MAX);

const WAKER: Token = Token(usize::MAX - 1);

/// A wait for many sockets, which passes over a wait that fails, and counts it.
#[derive(Drop)]
pub(crate) struct CountedPoll {
    poll: Poll,
    events: Events,
    reports: VecDeque<Ready>,
    // The last wait was woken, which is no report: whoever waits looks for the cause between two waits.
    is_woken: bool,
}

impl CountedPoll {
    pub fn new<N: Net>(net: &N, alloc: Global) -> io::Result<Self>
        ensures { IfOk result (λ poll. poll.reports.items ≡ []) }
    {
        Ok(CountedPoll {
            poll: Poll::new(net)?,
            events: Events::with_capacity(alloc, REPORTS)?,
            reports: VecDeque::with_capacity(alloc, REPORTS)?,
            is_woken: false,
        })
    }

    pub fn registry(&self) -> &Registry {
        self.poll.registry()
    }

    /// Has the listening socket reported.
    pub fn listen(&self, descriptor: RawFd) -> io::Result<()> {
        self.registry()
            .register(&mut SourceFd(&descriptor), LISTENER, Interest::READABLE)
    }

    /// Has it reported no more.
    pub fn unlisten(&self, descriptor: RawFd) {
        let _ = self.registry().deregister(&mut SourceFd(&descriptor));
    }

    /// What ends a wait.
    pub fn waker(&self) -> io::Result<Waker> {
        Waker::new(self.registry(), WAKER)
    }

    /// Waits so many milliseconds, or until something is ready, and answers whether it could. After one that was woken it
    /// only looks: a wait that just looks may come between the bell and whoever hears its cause.
    pub fn wait(&mut self, millis: u64, failed: &mut u64) -> bool
        ensures { RisesUnless result failed.old failed.new }
    {
        let millis = if self.is_woken { 0 } else { millis };
        let waited = self
            .poll
            .poll(&mut self.events, Some(Duration::from_millis(millis)));
        self.keep_reports();
        if waited.is_err() {
            *failed = failed.saturating_add(1);
            return false;
        }
        true
    }

    // What the wait reported, but for a wake-up.
    fn keep_reports(&mut self) {
        self.reports.clear();
        self.is_woken = false;
        for event in self.events.iter() {
            match report_of(event) {
                Some(report) => {
                    let _ = self.reports.push_back(report);
                }
                None => self.is_woken = true,
            }
        }
    }

    /// Has the listening socket reported once more, if there is memory for that.
    pub fn remind(&mut self)
        ensures { (self.new.reports.items ≡ self.old.reports.items ++ Ready.Listener ∷ []) ⊎ (self.new.reports.items ≡ self.old.reports.items) }
    {
        let _ = self.reports.push_back(Ready::Listener);
    }

    /// One report of the last wait, and only once.
    pub fn report(&mut self) -> Option<Ready>
        ensures first { IfSome result (λ report. self.old.reports.items ≡ report ∷ self.new.reports.items) }
        ensures none { IsNone result → self.old.reports.items ≡ [] }
    {
        self.reports.pop_front()
    }
}

fn report_of(event: &Event) -> Option<Ready> {
    let token = event.token();
    if token == LISTENER {
        return Some(Ready::Listener);
    }
    if token == WAKER {
        return None;
    }
    let failed = event.is_error() || event.is_read_closed() && event.is_write_closed();
    Some(Ready::Client {
        c: token.0 as u64,
        failed,
    })
}
