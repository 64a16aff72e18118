// What the thread that starts a program tells of it.
ghost use Rattle.std.specs.Prelude.{◌≡◌, ◌<◌, [], None, IfOk, length};
ghost use Rattle.rtrb.specs.Ring.{sent, received, known_free};
ghost use Rattle.std_spawner.specs.News.{HasMark, IsMarked};

use super::program::Program;
use host_base::{Launch, NoMemory};
use pipe_wait::PipeSide;
use rtrb::{Consumer, Producer, Protocol, RingBuffer};
use std::alloc::Global;
use std::process::ChildStdin;
use std::snapshot::Snapshot;

/// A program that runs, as it was when it was started, and our end of its input.
#[derive(Drop)]
pub(crate) struct Started {
    pub program: Snapshot<Program>,
    pub input: PipeSide<ChildStdin>,
}

/// First a mark, then what became of the start.
#[derive(Drop)]
pub(crate) enum News {
    Marked(Snapshot<Launch>),
    Born(Started),
    Unborn,
}

/// In this order, and each once; a program that was started is the launch's.
#[derive(Clone, Copy)]
pub(crate) struct InOrder;

impl Protocol<News> for InOrder {
    ghost use Rattle.std_spawner.specs.News.{NewsAllow};

    ghost allows = { NewsAllow };
}

/// Where a thread tells what became of a start.
#[derive(Drop)]
pub(crate) struct Teller {
    launch: Snapshot<Launch>,
    news: Producer<News, Global, InOrder>,
    ghost marked: { IsMarked launch.value (sent news) },
    ghost room: { 0 < known_free news },
}

/// What hears of it.
#[derive(Drop)]
pub(crate) struct Listener {
    launch: Snapshot<Launch>,
    news: Consumer<News, Global, InOrder>,
    ghost marked: { HasMark launch.value (received news) },
}

impl Teller {
    ghost use Rattle.std.specs.Prelude.{◌≡◌, IfOk};
    ghost use Rattle.std_spawner.specs.NewsEnds.{launch_told, launch_heard};
    ghost use Rattle.std_spawner.specs.Programs.{launch_of};

    /// For the start of this launch.
    pub fn pair(alloc: Global, launch: &Launch) -> Result<(Teller, Listener), NoMemory>
        ensures told { IfOk result (λ r. launch_told r.0 ≡ launch.now) }
        ensures heard { IfOk result (λ r. launch_heard r.1 ≡ launch.now) }
    {
        let (giver, taker) = RingBuffer::with_protocol::<Global, InOrder>(alloc, 2)?;
        let mut giver = giver;
        let mut taker = taker;
        giver.push_reserved(News::Marked(Snapshot::of(launch)));
        taker.slots_beside(&mut giver);
        let _mark = taker.pop_known();
        let teller = Teller {
            launch: Snapshot::of(launch),
            news: giver,
        };
        let listener = Listener {
            launch: Snapshot::of(launch),
            news: taker,
        };
        Ok((teller, listener))
    }

    /// A program of this launch runs.
    pub fn born(self, started: Started)
        requires { launch_of started.program.value ≡ launch_told self }
    {
        let Teller { launch: _, news } = self;
        let mut news = news;
        news.push_reserved(News::Born(started));
    }

    /// None could be started.
    pub fn unborn(self) {
        let Teller { launch: _, news } = self;
        let mut news = news;
        news.push_reserved(News::Unborn);
    }
}

impl Listener {
    ghost use Rattle.std.specs.Prelude.{◌≡◌, Some};
    ghost use Rattle.std_spawner.specs.NewsEnds.{launch_heard, IsHeard};

    /// What became of the start, once it was told, and only once. It doesn't wait.
    #[tactic(auto, using(crate::proofs::Heard::mark_stays, crate::proofs::Heard::born_of))]
    pub fn hear(&mut self) -> Option<Option<Started>>
        ensures launch { launch_heard self.new ≡ launch_heard self.old }
        ensures born { IsHeard (launch_heard self.old) result }
    {
        match self.news.pop() {
            Ok(News::Born(started)) => Some(Some(started)),
            Ok(News::Unborn) => Some(None),
            Ok(News::Marked(_)) => unreachable!(),
            Err(_) => None,
        }
    }
}
