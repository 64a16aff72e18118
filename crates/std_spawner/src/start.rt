// A program that a thread starts, and then reads.
ghost use Rattle.std.specs.Prelude.{◌≡◌, IfOk, IfSome};
ghost use Rattle.pipe_pump.specs.Rings.{IsFreshRing};
ghost use Rattle.pump_pool.specs.Backs.{back_ring, back_pipe};
ghost use Rattle.std_spawner.specs.Commands.{Runs};
ghost use Rattle.std_spawner.specs.NewsEnds.{launch_told};
ghost use Rattle.std_spawner.specs.Programs.{launch_of};

use super::cell::Shared;
use super::news::{Started, Teller};
use super::pipes::{ChildOutput, OutputSide};
use super::program::Program;
use host_base::Launch;
use loop_bell::Bell;
use pipe_pump::{PumpRing, pump_out};
use pipe_wait::{PipeSide, PipeWait, Release};
use pump_pool::OutBack;
use std::process::{ChildStdout, Command, Processes, SystemProcess};
use std::snapshot::Snapshot;
use std::sync::Wait;
use std::thread;
use std::time::{Clock, Duration};

// The shortest and the longest sleep between two looks for an exit, in microseconds, and how long one is that can be ended.
const LEAST: u64 = 20;

const MOST: u64 = 250_000;

const LONG: u64 = 1_000;

/// A start that is to be done, and the pump of the output of what it starts.
#[derive(Drop)]
pub(crate) struct StartJob {
    command: Command,
    launch: Snapshot<Launch>,
    teller: Teller,
    shared: Shared,
    /// It rings where the program was started, and where its output has ended.
    bell: Bell,
    output: OutputJob,
    ghost runs: { Runs command launch.value },
    ghost told: { launch_told teller ≡ launch.value },
}

/// The pump of an output that is still to be opened.
#[derive(Drop)]
pub(crate) struct OutputJob {
    pipe: ChildOutput,
    ring: PumpRing,
    back: OutBack<ChildOutput>,
    release: Release,
    ghost fresh: { IsFreshRing ring },
    ghost of_pipe: { back_pipe back ≡ pipe },
    ghost of_ring: { back_ring back ≡ ring },
}

impl OutputJob {
    ghost use Rattle.std.specs.Prelude.{◌≡◌};
    ghost use Rattle.pipe_pump.specs.Rings.{IsFreshRing};
    ghost use Rattle.pump_pool.specs.Backs.{back_ring, back_pipe};

    pub fn new(
        pipe: ChildOutput,
        ring: PumpRing,
        back: OutBack<ChildOutput>,
        release: Release,
    ) -> Self
        requires ring { IsFreshRing ring }
        requires of_pipe { back_pipe back ≡ pipe }
        requires of_ring { back_ring back ≡ ring }
    {
        OutputJob {
            pipe,
            ring,
            back,
            release,
        }
    }

    // Reads it to its end.
    fn run<R: Wait>(self, rt: &R, side: PipeSide<ChildStdout>, wait: &mut PipeWait) {
        let OutputJob {
            pipe,
            ring,
            back,
            release,
        } = self;
        let pipe = pipe.opened(OutputSide::new(side, release));
        let done = pump_out(rt, pipe, ring, wait);
        back.give(done);
    }
}

impl StartJob {
    ghost use Rattle.std.specs.Prelude.{◌≡◌};
    ghost use Rattle.std_spawner.specs.Commands.{Runs};
    ghost use Rattle.std_spawner.specs.NewsEnds.{launch_told};

    /// `command` is that of the launch.
    pub fn new(
        command: Command,
        launch: Snapshot<Launch>,
        teller: Teller,
        shared: Shared,
        bell: Bell,
        output: OutputJob,
    ) -> Self
        requires runs { Runs command launch.value }
        requires told { launch_told teller ≡ launch.value }
    {
        StartJob {
            command,
            launch,
            teller,
            shared,
            bell,
            output,
        }
    }

    /// Starts it, tells of that, reads its output to the end, and looks for its exit.
    pub fn run<R: Processes<Started = SystemProcess> + Wait + Clock>(
        self,
        rt: &R,
        wait: &mut PipeWait,
    ) {
        let StartJob {
            command,
            launch,
            teller,
            shared,
            bell,
            output,
        } = self;
        match begin(rt, command, launch) {
            Some((program, started, side)) => {
                shared.put(rt, program);
                teller.born(started);
                bell.ring();
                output.run(rt, side, wait);
                bell.ring();
                await_exit(rt, &shared, wait);
            }
            None => teller.unborn(),
        }
    }
}

// Looks for an exit until the system tells of it.
fn await_exit<R: Wait + Clock>(rt: &R, shared: &Shared, wait: &mut PipeWait) {
    let mut micros = LEAST;
    for _ in rt.forever() {
        if shared.is_over(rt) {
            return;
        }
        rest(rt, micros, wait);
        micros = micros.saturating_mul(2).min(MOST);
    }
    unreachable!()
}

// Sleeps so many microseconds. A long sleep can be ended.
fn rest<R: Clock>(rt: &R, micros: u64, wait: &mut PipeWait) {
    let most = Duration::from_micros(micros);
    if micros < LONG {
        thread::sleep(rt, most);
    } else {
        wait.pause(most);
    }
}

// Starts it. A program without its pipes is of no use.
fn begin<R: Processes<Started = SystemProcess>>(
    rt: &R,
    command: Command,
    launch: Snapshot<Launch>,
) -> Option<(Program, Started, PipeSide<ChildStdout>)>
    requires { Runs command launch.value }
    ensures { IfSome result (λ r. launch_of r.1.program.value ≡ launch.value) }
{
    let mut program = Program::begin(rt, command, launch).ok()?;
    match program.take_sides() {
        Some((input, output)) => {
            let started = Started {
                program: Snapshot::of(&program),
                input,
            };
            Some((program, started, output))
        }
        None => {
            program.end();
            None
        }
    }
}
