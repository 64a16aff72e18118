// Cases by hand: what happens to a child, with the acts that follow each time, and what becomes of its run.
use super::flags::Mark::{self, *};
use super::flags::{Recording, event_of, give};
use super::plain::Rules;
use child_core::{Outcome, Run};
use host_base::{Cause, Limits, NoMemory, ScriptKind};
use std::alloc::Global;

/// What happens, and the acts of that step.
pub type Step = (Mark, &'static [Mark]);

/// What the child is kept to, what happens, what became of its run, and whether it is settled.
pub type Case = (Rules, &'static [Step], Option<Outcome>, bool);

/// A script that may run for three Ticks, linger for two, and say five bytes.
pub const CGI: Rules = Rules {
    kind: ScriptKind::Cgi,
    run_ticks: 3,
    linger_ticks: 2,
    output: 5,
};

pub const NPH: Rules = Rules {
    kind: ScriptKind::Nph,
    run_ticks: 3,
    linger_ticks: 2,
    output: 5,
};

pub const TALK: Rules = Rules {
    kind: ScriptKind::WebSocket,
    run_ticks: 3,
    linger_ticks: 2,
    output: 5,
};

const TOO_LONG: Option<Outcome> = Some(Outcome::Failed(Cause::RunTime));

const TOO_LARGE: Option<Outcome> = Some(Outcome::Failed(Cause::OutputTooLarge));

// The run time counts from Start on, and binds no WebSocket's program.
pub const RUN_TIMES: [Case; 4] = [
    (
        CGI,
        &[
            (Started, &[Ask]),
            (Tick, &[]),
            (Tick, &[]),
            (Tick, &[EndInput, Kill]),
        ],
        TOO_LONG,
        false,
    ),
    (
        NPH,
        &[
            (Tick, &[]),
            (Tick, &[]),
            (Started, &[Ask]),
            (Tick, &[EndInput, Kill]),
        ],
        TOO_LONG,
        false,
    ),
    (
        CGI,
        &[(Started, &[Ask]), (Tick, &[]), (Tick, &[])],
        None,
        false,
    ),
    (
        TALK,
        &[
            (Started, &[Ask]),
            (Tick, &[]),
            (Tick, &[]),
            (Tick, &[]),
            (Tick, &[]),
        ],
        None,
        false,
    ),
];

// A child may linger for two Ticks after the end of its output, or after its client closed the WebSocket.
pub const LINGERS: [Case; 5] = [
    (
        CGI,
        &[
            (Tick, &[]),
            (Started, &[Ask]),
            (OutputEnd, &[EndInput]),
            (Tick, &[]),
            (Tick, &[Kill]),
        ],
        Some(Outcome::Output),
        false,
    ),
    (
        CGI,
        &[
            (Started, &[Ask]),
            (OutputEnd, &[EndInput]),
            (Tick, &[]),
            (Gone, &[Kill]),
        ],
        Some(Outcome::Output),
        false,
    ),
    (
        CGI,
        &[
            (Started, &[Ask]),
            (OutputEnd, &[EndInput]),
            (Tick, &[]),
            (Exited, &[]),
            (Tick, &[]),
        ],
        Some(Outcome::Output),
        true,
    ),
    (
        TALK,
        &[
            (Started, &[Ask]),
            (Closed, &[EndInput]),
            (Tick, &[]),
            (Tick, &[Kill]),
            (Exited, &[Release]),
        ],
        None,
        true,
    ),
    (
        TALK,
        &[
            (Started, &[Ask]),
            (Closed, &[EndInput]),
            (Exited, &[]),
            (Tick, &[]),
            (Tick, &[Release]),
        ],
        None,
        true,
    ),
];

// Five bytes of output are in order, and the sixth decides.
pub const OUTPUTS: [Case; 4] = [
    (
        CGI,
        &[
            (Started, &[Ask]),
            (Output(5), &[Ask]),
            (OutputEnd, &[EndInput]),
        ],
        Some(Outcome::Output),
        false,
    ),
    (
        CGI,
        &[
            (Started, &[Ask]),
            (Output(5), &[Ask]),
            (Output(1), &[EndInput, Kill]),
        ],
        TOO_LARGE,
        false,
    ),
    (
        NPH,
        &[(Started, &[Ask]), (Output(6), &[EndInput, Kill])],
        TOO_LARGE,
        false,
    ),
    (TALK, &[(Started, &[Ask]), (Output(6), &[Ask])], None, false),
];

// Once its input is gone nothing is fed and no input is ended.
pub const INPUTS_GONE: [Case; 5] = [
    (
        CGI,
        &[
            (Started, &[Ask]),
            (InputGone, &[]),
            (Offered(3, true), &[]),
            (OutputEnd, &[]),
        ],
        Some(Outcome::Output),
        false,
    ),
    (
        CGI,
        &[
            (Started, &[Ask]),
            (Offered(3, false), &[Fed(3)]),
            (InputGone, &[]),
            (Took(3), &[]),
            (Stop, &[Kill]),
        ],
        Some(Outcome::Stopped),
        false,
    ),
    (
        CGI,
        &[
            (Started, &[Ask]),
            (Exited, &[]),
            (InputGone, &[]),
            (OutputEnd, &[]),
        ],
        Some(Outcome::Output),
        true,
    ),
    (
        TALK,
        &[
            (Started, &[Ask]),
            (InputGone, &[]),
            (Offered(3, false), &[]),
            (Closed, &[]),
        ],
        None,
        false,
    ),
    (
        CGI,
        &[
            (Stop, &[]),
            (Started, &[EndInput, Kill]),
            (Exited, &[Release]),
        ],
        Some(Outcome::Stopped),
        true,
    ),
];

// A body is fed in pieces of 65,536 bytes at most, each once the last was taken, and a text at once.
pub const FEEDS: [Case; 6] = [
    (
        CGI,
        &[
            (Started, &[Ask]),
            (Offered(10, false), &[Fed(10)]),
            (Took(4), &[]),
            (Offered(5, true), &[]),
            (Took(6), &[Fed(5), EndInput]),
        ],
        None,
        false,
    ),
    (
        CGI,
        &[
            (Offered(65_536, true), &[]),
            (Started, &[Fed(65_536), EndInput, Ask]),
        ],
        None,
        false,
    ),
    (
        NPH,
        &[
            (Started, &[Ask]),
            (Offered(65_537, true), &[Fed(65_536)]),
            (Took(65_536), &[Fed(1), EndInput]),
        ],
        None,
        false,
    ),
    (
        TALK,
        &[(Started, &[Ask]), (Offered(65_537, false), &[Fed(65_537)])],
        None,
        false,
    ),
    (
        CGI,
        &[(Offered(0, true), &[]), (Started, &[EndInput, Ask])],
        None,
        false,
    ),
    (
        CGI,
        &[
            (Started, &[Ask]),
            (Offered(9, false), &[Fed(9)]),
            (Exited, &[]),
            (Took(9), &[]),
            (Offered(1, true), &[]),
        ],
        None,
        false,
    ),
];

// What decides it before its start is answered decides it then.
pub const STARTS: [Case; 6] = [
    (
        CGI,
        &[(StartFailed, &[]), (Stop, &[])],
        Some(Outcome::Failed(Cause::StartFailed)),
        true,
    ),
    (
        CGI,
        &[(StartFull, &[]), (Gone, &[])],
        Some(Outcome::Failed(Cause::Full { seen: 64 })),
        true,
    ),
    (
        NPH,
        &[(Stop, &[]), (StartFailed, &[])],
        Some(Outcome::Stopped),
        true,
    ),
    (
        TALK,
        &[
            (Gone, &[]),
            (Started, &[EndInput, Kill]),
            (Exited, &[Release]),
        ],
        Some(Outcome::Gone),
        true,
    ),
    (
        CGI,
        &[
            (Tick, &[]),
            (Tick, &[]),
            (Tick, &[]),
            (Started, &[EndInput, Kill]),
            (Exited, &[Release]),
        ],
        TOO_LONG,
        true,
    ),
    (
        CGI,
        &[(ClientEnd, &[]), (StartFull, &[])],
        Some(Outcome::Failed(Cause::Incomplete)),
        true,
    ),
];

// An exit before what decides, and after it.
pub const EXITS: [Case; 8] = [
    (
        CGI,
        &[(Started, &[Ask]), (Exited, &[]), (OutputEnd, &[EndInput])],
        Some(Outcome::Output),
        true,
    ),
    (
        NPH,
        &[(Started, &[Ask]), (Exited, &[]), (Broken, &[EndInput])],
        Some(Outcome::Failed(Cause::OutputBroken)),
        true,
    ),
    (
        CGI,
        &[
            (Started, &[Ask]),
            (Exited, &[]),
            (Stop, &[EndInput, Release]),
        ],
        Some(Outcome::Stopped),
        true,
    ),
    (
        CGI,
        &[
            (Started, &[Ask]),
            (Exited, &[]),
            (Output(6), &[EndInput, Release]),
        ],
        TOO_LARGE,
        true,
    ),
    (
        CGI,
        &[
            (Started, &[Ask]),
            (Exited, &[]),
            (Tick, &[]),
            (Tick, &[]),
            (Tick, &[EndInput, Release]),
        ],
        TOO_LONG,
        true,
    ),
    (
        CGI,
        &[(Started, &[Ask]), (OutputEnd, &[EndInput]), (Exited, &[])],
        Some(Outcome::Output),
        true,
    ),
    (
        TALK,
        &[
            (Started, &[Ask]),
            (Refused, &[EndInput, Kill]),
            (Exited, &[Release]),
        ],
        Some(Outcome::Dropped),
        true,
    ),
    (
        CGI,
        &[
            (Started, &[Ask]),
            (Broken, &[EndInput, Kill]),
            (Exited, &[]),
        ],
        Some(Outcome::Failed(Cause::OutputBroken)),
        true,
    ),
];

/// A run with these limits.
pub fn run_of(alloc: Global, rules: &Rules) -> Run {
    let limits = Limits {
        output: rules.output,
        run_ticks: rules.run_ticks,
        linger_ticks: rules.linger_ticks,
        children: 64,
        ..Limits::default()
    };
    Run::new(alloc, 0, rules.kind, &limits)
}

/// What happens to the run; no where it may not. `offered`: so much was offered before.
pub fn happens(alloc: Global, run: &mut Run, mark: Mark, offered: u64) -> Result<bool, NoMemory> {
    match event_of(alloc, mark)? {
        Some(event) => {
            if !run.fits(&event) {
                return Ok(false);
            }
            run.hear(&event)?;
        }
        None => give(alloc, run, mark, offered)?,
    }
    Ok(true)
}

fn offered_by(mark: Mark) -> u64 {
    match mark {
        Offered(count, _) => count,
        _ => 0,
    }
}

/// The place of the first step that goes otherwise, or how many steps there are.
pub fn play(alloc: Global, run: &mut Run, steps: &[Step]) -> Result<usize, NoMemory> {
    let mut out = Recording::new();
    let mut offered = 0u64;
    let mut place = 0usize;
    for step in steps {
        if !happens(alloc, run, step.0, offered)? {
            return Ok(place);
        }
        offered = offered.saturating_add(offered_by(step.0));
        out.clear();
        run.act(true, &mut out)?;
        if !out.right || !out.has(step.1) {
            return Ok(place);
        }
        place = place.saturating_add(1);
    }
    Ok(place)
}

/// Whether the case goes as it says: each step, what became of the run, and whether it is settled.
pub fn goes(alloc: Global, case: &Case) -> Result<bool, NoMemory> {
    let mut run = run_of(alloc, &case.0);
    let place = play(alloc, &mut run, case.1)?;
    Ok(place == case.1.len() && run.outcome() == case.2 && run.settled() == case.3)
}
