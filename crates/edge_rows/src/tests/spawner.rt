use super::events::letter_of_child;
use super::set::Kids;
use child_edge::{SpawnFault, Spawner};
use crossbeam_utils::sync::Parker;
use host_base::{Launch, NoMemory, Pair, Pairs, Text, Texts};
use host_trace::Event;
use loop_bell::Bell;
use pipe_wait::PipeWaker;
use pump_pool::Station;
use std::alloc::{AllocError, Global};
use std::process::{Processes, SystemProcess};
use std::sync::Wait;
use std::test::Fail;
use std::time::{Clock, Duration};
use std_spawner::*;

fn args_of(alloc: Global, words: &[&str]) -> Result<Texts, NoMemory> {
    let mut args = Texts::new(alloc);
    for word in words {
        args.push(Text::copy_of(alloc, word)?)?;
    }
    Ok(args)
}

fn pair(alloc: Global) -> Result<Pair, NoMemory> {
    let name = Text::copy_of(alloc, "WORD")?;
    let value = Text::copy_of(alloc, "given")?;
    Ok(Pair { name, value })
}

fn env(alloc: Global) -> Result<Pairs, NoMemory> {
    let mut env = Pairs::new(alloc);
    env.push(pair(alloc)?)?;
    Ok(env)
}

// A program with these words.
fn launch(alloc: Global, program: &str, words: &[&str]) -> Result<Launch, NoMemory> {
    let program = Text::copy_of(alloc, program)?;
    let dir = Text::copy_of(alloc, "/")?;
    let args = args_of(alloc, words)?;
    let env = env(alloc)?;
    Ok(Launch {
        program,
        dir,
        args,
        env,
    })
}

/// What a set told of its child.
#[derive(Drop)]
struct Told {
    output: Vec<u8>,
    taken: u64,
    letters: Vec<u8>,
}

impl Told {
    fn new(alloc: Global) -> Told {
        Told {
            output: Vec::new(alloc),
            taken: 0,
            letters: Vec::new(alloc),
        }
    }

    // Whether this was its output.
    fn gave(&self, output: &[u8]) -> bool {
        self.output.as_slice() == output
    }

    // Whether each of these letters was told, and no more.
    fn has_just(&self, letters: &[u8]) -> bool {
        for letter in letters {
            if !has(self.letters.as_slice(), *letter) {
                return false;
            }
        }
        self.letters.len() == letters.len()
    }

    fn hear(&mut self, event: &Event) -> Result<(), AllocError> {
        match event {
            Event::ChildBytes { bytes, .. } => self.output.extend_from_slice(bytes.as_slice()),
            Event::Took { n, .. } => {
                self.taken = self.taken.saturating_add(*n);
                Ok(())
            }
            event => {
                self.letters.push(letter_of_child(event))?;
                Ok(())
            }
        }
    }
}

// Whether this letter is there.
fn has(letters: &[u8], letter: u8) -> bool {
    for other in letters {
        if *other == letter {
            return true;
        }
    }
    false
}

/// The children of one set, which are programs. What is told of is child 0.
#[derive(Drop)]
struct Children<R, S: Spawner> {
    rt: R,
    alloc: Global,
    sleeper: Parker,
    kids: Kids<S>,
}

impl<R: Wait + Clock + Copy + Drop, S: Spawner + Drop> Children<R, S> {
    // Starts a program with these words as child k, where there is room.
    fn begin(&mut self, k: u64, program: &str, words: &[&str]) -> Result<(), SpawnFault> {
        let Ok(launch) = launch(self.alloc, program, words) else {
            return Err(SpawnFault::NoMemory);
        };
        self.kids.start(k, 0, &launch)
    }

    // What is told next, while the output is asked for.
    fn ask(&mut self) -> Option<Event> {
        self.kids.want(0);
        self.kids.poll()
    }

    fn sleep(&self) {
        self.sleeper
            .park_timeout(&self.rt, Duration::from_millis(2));
    }

    // What is told until it is settled.
    fn told(&mut self) -> Result<Told, AllocError> {
        let rt = self.rt;
        let mut told = Told::new(self.alloc);
        for _ in rt.forever() {
            match self.ask() {
                Some(event) => told.hear(&event)?,
                None if self.kids.is_empty() => return Ok(told),
                None => self.sleep(),
            }
        }
        unreachable!()
    }

    // Starts child k as `begin` does.
    fn start(&mut self, k: u64, program: &str, words: &[&str]) -> Result<(), Fail> {
        self.begin(k, program, words)?;
        Ok(())
    }

    // What is told of a program. It is fed this at `f`, its input is ended at `e`, its output is given up at `r`, and it is
    // killed at `k`.
    fn run(
        &mut self,
        program: &str,
        words: &[&str],
        steps: &[u8],
        input: &[u8],
    ) -> Result<Told, Fail> {
        self.start(0, program, words)?;
        for step in steps {
            match *step {
                b'f' => self.kids.feed(0, input)?,
                b'e' => self.kids.end_input(0),
                b'r' => self.kids.release(0),
                _ => self.kids.kill(0),
            }
        }
        Ok(self.told()?)
    }
}

// A set with no child yet, of a spawner that wakes this sleeper.
fn children_of<R: Drop, S: Spawner + Drop>(
    rt: R,
    alloc: Global,
    sleeper: Parker,
    spawner: S,
) -> Result<Children<R, S>, NoMemory> {
    let kids = Kids::new(alloc, spawner, 4)?;
    Ok(Children {
        rt,
        alloc,
        sleeper,
        kids,
    })
}

fn spawner_at<
    R: Processes<Started = SystemProcess> + Wait + Clock + Copy + Drop,
    T: StartThread + Drop,
>(rt: R, alloc: Global, sleeper: &Parker, starter: T) -> Result<StdSpawner<R, T>, NoMemory> {
    let bell = Bell::at(sleeper)?;
    StdSpawner::new(rt, alloc, bell, starter, 2)
}

// Whether a program takes all of its input, gives this output, and exits.
fn gives<R: Wait + Clock + Copy + Drop, S: Spawner + Drop>(
    programs: &mut Children<R, S>,
    program: &str,
    words: &[&str],
    input: &[u8],
    output: &[u8],
) -> Result<bool, Fail> {
    let told = programs.run(program, words, b"fe", input)?;
    Ok(told.gave(output) && told.taken == input.len() as u64 && told.has_just(b"sed"))
}

// Programs that read and write, and what they are started with.
fn programs_give<R: Wait + Clock + Copy + Drop, S: Spawner + Drop>(
    programs: &mut Children<R, S>,
    much: &[u8],
) -> Result<bool, Fail> {
    Ok(
        gives(programs, "/bin/cat", &[], b"hello", b"hello")?
            && gives(programs, "/bin/cat", &[], b"", b"")?
            && gives(programs, "/bin/cat", &[], much, much)?
            && gives(programs, "/usr/bin/env", &[], b"", b"WORD=given\n")?
            && gives(programs, "/bin/pwd", &["-P"], b"", b"/\n")?,
    )
}

// A program that reads nothing: its input fails.
fn input_fails<R: Wait + Clock + Copy + Drop, S: Spawner + Drop>(
    programs: &mut Children<R, S>,
    much: &[u8],
) -> Result<bool, Fail> {
    let told = programs.run("/bin/true", &[], b"f", much)?;
    Ok(told.gave(b"") && told.has_just(b"sedg"))
}

// A program that is killed is told to have exited.
fn is_killed<R: Wait + Clock + Copy + Drop, S: Spawner + Drop>(
    programs: &mut Children<R, S>,
) -> Result<bool, Fail> {
    let told = programs.run("/bin/sleep", &["1000"], b"ek", b"")?;
    Ok(told.has_just(b"sed"))
}

// A program that leaves another behind, which has its output, is told of to its exit and goes once its output was given up, also
// where it is killed.
fn leftovers_are_let_go<R: Wait + Clock + Copy + Drop, S: Spawner + Drop>(
    programs: &mut Children<R, S>,
) -> Result<bool, Fail> {
    let alone = programs.run("/bin/sh", &["-c", "sleep 2 2>/dev/null &"], b"er", b"")?;
    let waiting = ["-c", "sleep 2 2>/dev/null & wait"];
    let killed = programs.run("/bin/sh", &waiting, b"erk", b"")?;
    Ok(alone.has_just(b"sd") && killed.has_just(b"sd"))
}

// Programs that still run are ended with their set.
fn are_ended<R: Wait + Clock + Copy + Drop, S: Spawner + Drop>(
    programs: &mut Children<R, S>,
) -> Result<bool, Fail> {
    for k in 0..3 {
        programs.start(k, "/bin/sleep", &["1000"])?;
    }
    let running = programs.kids.running();
    programs.kids.end();
    Ok(running == 3 && programs.kids.is_empty())
}

// Whether the start of a program isn't handed over, and no child kept.
fn refuses<R: Wait + Clock + Copy + Drop, S: Spawner + Drop>(
    programs: &mut Children<R, S>,
    program: &str,
) -> bool {
    matches!(programs.begin(0, program, &[]), Err(SpawnFault::Failed)) && programs.kids.is_empty()
}

// Whether of a program nothing is told but that it was not started, also where it was fed and killed before.
fn fails<R: Wait + Clock + Copy + Drop, S: Spawner + Drop>(
    programs: &mut Children<R, S>,
    program: &str,
) -> Result<bool, Fail> {
    let told = programs.run(program, &[], b"fk", b"hello")?;
    Ok(told.gave(b"") && told.taken == 0 && told.has_just(b"q"))
}

// What the system can't run is not started.
fn are_not_started<R: Wait + Clock + Copy + Drop, S: Spawner + Drop>(
    programs: &mut Children<R, S>,
) -> Result<bool, Fail> {
    Ok(
        fails(programs, "/no/such/program")?
            && fails(programs, "/etc/passwd")?
            && fails(programs, "/")?,
    )
}

// Whether all holds of programs that run, or whether none can be started.
fn all_hold<R: Wait + Clock + Copy + Drop, S: Spawner + Drop>(
    programs: &mut Children<R, S>,
    run: bool,
) -> Result<bool, Fail> {
    if !run {
        return Ok(refuses(programs, "/bin/cat"));
    }
    let much = vec![in programs.alloc; b'x'; 300_000]?;
    Ok(
        programs_give(programs, much.as_slice())?
            && input_fails(programs, much.as_slice())?
            && are_not_started(programs)?
            && is_killed(programs)?
            && leftovers_are_let_go(programs)?
            && are_ended(programs)?,
    )
}

fn all_hold_of<R: Wait + Clock + Copy + Drop, S: Spawner + Drop>(
    rt: R,
    alloc: Global,
    sleeper: Parker,
    spawner: S,
    run: bool,
) -> Result<bool, Fail> {
    let mut children = children_of(rt, alloc, sleeper, spawner)?;
    all_hold(&mut children, run)
}

fn all_hold_with<
    R: Processes<Started = SystemProcess> + Wait + Clock + Copy + Drop,
    T: StartThread + Drop,
>(rt: R, alloc: Global, starter: T, run: bool) -> Result<bool, Fail> {
    let sleeper = Parker::new(alloc)?;
    let spawner = spawner_at(rt, alloc, &sleeper, starter)?;
    all_hold_of(rt, alloc, sleeper, spawner, run)
}

#[test]
fn programs_run(rt: HostRuntime) -> Result<(), Fail> {
    let alloc = rt.alloc();
    let start: Box<dyn Fn(Station<PumpJob>) -> Option<PipeWaker> + Send> = Box::new(
        alloc,
        move |station: Station<PumpJob>| PumpJob::start_thread(&rt, station),
    )?;
    assert!(rt; all_hold_with(rt, alloc, ThreadStarter::new(start), true)?);
    Ok(())
}

#[test]
fn no_child_without_threads(rt: HostRuntime) -> Result<(), Fail> {
    let alloc = rt.alloc();
    let start: Box<dyn Fn(Station<PumpJob>) -> Option<PipeWaker> + Send> = Box::new(
        alloc,
        |_| None,
    )?;
    assert!(rt; all_hold_with(rt, alloc, ThreadStarter::new(start), false)?);
    Ok(())
}
