// A program that a loop and a thread share until it has exited.
ghost use Rattle.std.specs.Prelude.{◌≡◌, true, IfOk, IfSome};
ghost use Rattle.std_spawner.specs.Programs.{has_ended};

use super::program::Program;
use host_base::NoMemory;
use std::alloc::Global;
use std::io;
use std::sync::{Arc, Mutex, Wait};

/// It has none before its start, and once the loop has taken it.
#[derive(Drop)]
struct Cell {
    program: Option<Program>,
}

impl Cell {
    fn put(&mut self, program: Program) {
        self.program = Some(program);
    }

    fn take(&mut self) -> Option<Program> {
        self.program.take()
    }

    // Whether no exit is to be looked for any more: the system told of it, or doesn't answer, or there is no program.
    fn is_over(&mut self) -> bool {
        match &mut self.program {
            Some(program) => !matches!(program.has_exited(), Ok(false)),
            None => true,
        }
    }

    // The program, once it has exited.
    fn take_exited(&mut self) -> io::Result<Option<Program>>
        ensures { IfOk result (λ taken. IfSome taken (λ program. has_ended program ≡ true)) }
    {
        let Some(program) = &mut self.program else {
            return Ok(None);
        };
        if program.has_exited()? {
            Ok(self.program.take())
        } else {
            Ok(None)
        }
    }

    // Kills it, and answers whether that could be done, or there was none.
    fn kill(&mut self) -> bool {
        match &mut self.program {
            Some(program) => program.kill(),
            None => true,
        }
    }
}

/// One of both that share a program.
#[derive(Drop)]
pub(crate) struct Shared {
    cell: Arc<Mutex<Cell>>,
}

impl Shared {
    ghost use Rattle.std.specs.Prelude.{◌≡◌, true, IfOk, IfSome};
    ghost use Rattle.std_spawner.specs.Programs.{has_ended};

    /// None yet.
    pub fn new(alloc: Global) -> Result<Self, NoMemory> {
        Ok(Shared {
            cell: Arc::new(alloc, Mutex::new(Cell { program: None }))?,
        })
    }

    /// The same.
    pub fn another(&self) -> Result<Self, NoMemory> {
        Ok(Shared {
            cell: self.cell.clone()?,
        })
    }

    pub fn put<R: Wait>(&self, rt: &R, program: Program) {
        self.cell.lock(rt).put(program);
    }

    /// Whether no exit is to be looked for any more.
    pub fn is_over<R: Wait>(&self, rt: &R) -> bool {
        self.cell.lock(rt).is_over()
    }

    /// The program, once it has exited. It doesn't wait for that.
    pub fn take_exited<R: Wait>(&self, rt: &R) -> io::Result<Option<Program>>
        ensures { IfOk result (λ taken. IfSome taken (λ program. has_ended program ≡ true)) }
    {
        self.cell.lock(rt).take_exited()
    }

    /// The program.
    pub fn take<R: Wait>(&self, rt: &R) -> Option<Program> {
        self.cell.lock(rt).take()
    }

    /// Kills it, and answers whether that could be done, or there was none.
    pub fn kill<R: Wait>(&self, rt: &R) -> bool {
        self.cell.lock(rt).kill()
    }
}
