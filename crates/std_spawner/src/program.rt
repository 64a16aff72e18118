// A program of the system, and the launch that it was started by.
ghost use Rattle.std.specs.Prelude.{◌≡◌, pos, Some};
ghost use Rattle.std.specs.IoError.{raw_os_error};
ghost use Rattle.std_spawner.specs.Commands.{Runs};

use host_base::Launch;
use pipe_wait::PipeSide;
use std::io;
use std::process::{Child, ChildStdin, ChildStdout, Command, Processes, SystemProcess};
use std::snapshot::Snapshot;

// The number of the system's error ECHILD: there is no such child.
const NO_CHILD: i32 = 10;

/// A program that was started by the command of a launch.
#[derive(Drop)]
pub(crate) struct Program {
    process: Child<SystemProcess>,
    command: Snapshot<Command>,
    launch: Snapshot<Launch>,
    /// The error by which the system told that there is no such child any more, once it has. So it tells of each child
    /// that has ended where whoever started this server had the signal of ended children ignored.
    lost: Option<Snapshot<io::Error>>,
    ghost runs: { Runs command.value launch.value },
    ghost no_child: { (e : _) → lost ≡ Some e → raw_os_error e.value ≡ Some (pos 10) },
}

impl Program {
    ghost use Rattle.std.specs.Prelude.{◌≡◌, true, IfOk, IfErr};
    ghost use Rattle.std_spawner.specs.Programs.{launch_of, has_ended, OfSameLaunch};

    /// Starts the command of a launch. Nothing is done to it between its mark and its start.
    pub fn begin<R: Processes<Started = SystemProcess>>(
        rt: &R,
        command: Command,
        launch: Snapshot<Launch>,
    ) -> io::Result<Self>
        requires { Runs command launch.value }
        ensures { IfOk result (λ program. launch_of program ≡ launch.value) }
    {
        let mut command = command;
        let mark = Snapshot::of(&command);
        Ok(Program {
            process: command.spawn(rt)?,
            command: mark,
            launch,
            lost: None,
        })
    }

    /// Our ends of its pipes, which don't block, once.
    pub fn take_sides(&mut self) -> Option<(PipeSide<ChildStdin>, PipeSide<ChildStdout>)>
        ensures launch { OfSameLaunch self.old self.new }
    {
        match (self.process.stdin.take(), self.process.stdout.take()) {
            (Some(input), Some(output)) => {
                Some((PipeSide::write(input).ok()?, PipeSide::read(output).ok()?))
            }
            _ => None,
        }
    }

    /// Kills it, and answers whether that could be done.
    pub fn kill(&mut self) -> bool
        ensures launch { OfSameLaunch self.old self.new }
    {
        self.process.kill().is_ok()
    }

    /// Reaps it where it has exited, and answers whether it has, or is no child any more. It doesn't wait.
    pub fn has_exited(&mut self) -> io::Result<bool>
        ensures launch { OfSameLaunch self.old self.new }
        ensures ended { IfOk result (λ is_gone. has_ended self.new ≡ is_gone) }
    {
        if self.lost.is_some() {
            return Ok(true);
        }
        match self.process.try_wait() {
            Ok(status) => Ok(status.is_some()),
            Err(error) => self.lose(error),
        }
    }

    // It is gone where the error says that there is no such child any more. Nobody learns then how it ended.
    fn lose(&mut self, error: io::Error) -> io::Result<bool>
        ensures launch { OfSameLaunch self.old self.new }
        ensures ended { IfOk result (λ is_gone. (is_gone ≡ true) × (has_ended self.new ≡ true)) }
        ensures other { IfErr result (λ e. e ≡ error) }
    {
        if error.raw_os_error() != Some(NO_CHILD) {
            return Err(error);
        }
        self.lost = Some(Snapshot::of(&error));
        Ok(true)
    }

    /// Kills and reaps it, and answers whether it is gone then. It waits only for one that it could kill: another, as
    /// one that runs as another user, may never end.
    pub fn end(&mut self) -> bool
        ensures launch { OfSameLaunch self.old self.new }
        ensures ended { result ≡ true → has_ended self.new ≡ true }
    {
        if self.kill() && self.process.wait().is_ok() {
            return true;
        }
        matches!(self.has_exited(), Ok(true))
    }
}
