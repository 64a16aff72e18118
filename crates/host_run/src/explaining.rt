// The command that says what would be started for a request.
ghost use Rattle.std.specs.Prelude.{◌≡◌, Err, IfOk, OnErr, true};
ghost use Rattle.host_base.specs.Outsides.{Rose};
ghost use Rattle.host_base.specs.SiteRules.{IsServed};
ghost use Rattle.host_trace.specs.Entries.{Enters, entry_of};
ghost use Rattle.host_run.specs.Explains.{ExplainsBy};
ghost use Rattle.host_run.specs.ExplainSteps.{GivesEnd, PutsEnd, is_explain_status};

use super::report::put;
use super::top::Status;
use explain::{Explained, explain_one};
use host_base::{Sink, Site};
use host_trace::{EnterFault, Mode, World};
use std::alloc::Global;

// The greatest number of events in which the request is to end.
const TURNS: u64 = 1 << 22;

// Enters the world for one connection, explains its first request, and leaves.
fn explain_in<W: World>(alloc: Global, site: &Site, world: &mut W) -> Result<Explained, EnterFault>
    requires { IsServed site.now }
    ensures gives { IfOk result (λ end. GivesEnd site.now end (W.given world.old) (W.given world.new)) }
    ensures kept { OnErr result (W.given world.new ≡ W.given world.old) }
    ensures entered { Enters (W.entries world.old) (entry_of Mode.Once site.now 1) (W.entries world.new) }
    ensures out { W.out world.new ≡ W.out world.old }
    ensures failed { result ≡ Err EnterFault.Failed → Rose (W.faults world.old) (W.faults world.new) }
{
    let mut outs = match world.enter(Mode::Once, site, 1) {
        Ok(outs) => outs,
        Err(fault) => return Err(fault),
    };
    let end = explain_one(alloc, site, &mut outs[0], TURNS);
    world.leave(outs);
    Ok(end)
}

// Reports how explaining ended.
fn put_end<S: Sink>(report: &mut S, end: &Explained) -> Status
    ensures puts { PutsEnd end.now result (S.written report.old) (S.written report.new) }
    ensures status { is_explain_status result ≡ true }
    ensures fault { result ≡ Status.ReportFault → Rose (S.faults report.old) (S.faults report.new) }
    ensures spent { result ≡ Status.Spent → report.new ≡ report.old }
    ensures entered { result ≡ Status.WorldRefused → report.new ≡ report.old }
{
    match end {
        Explained::Text(text) => put(report, text.as_str()),
        Explained::Spent => Status::Spent,
        Explained::NoMemory => Status::NoMemory,
    }
}

/// Reports what would be started for the first request of one connection, or how it would be refused.
pub fn run_explain<S: Sink, W: World>(
    alloc: Global,
    site: &Site,
    report: &mut S,
    world: &mut W,
) -> Status
    requires { IsServed site.now }
    ensures status { is_explain_status result ≡ true }
    ensures explains { ExplainsBy (λ s. s ≡ site.now) result (W.given world.old) (W.given world.new) (S.written report.old) (S.written report.new) }
    ensures entered { Enters (W.entries world.old) (entry_of Mode.Once site.now 1) (W.entries world.new) }
    ensures out { W.out world.new ≡ W.out world.old }
    ensures failed { result ≡ Status.WorldRefused → Rose (W.faults world.old) (W.faults world.new) }
    ensures fault { result ≡ Status.ReportFault → Rose (S.faults report.old) (S.faults report.new) }
    ensures spent { result ≡ Status.Spent → report.new ≡ report.old }
    ensures refused { result ≡ Status.WorldRefused → report.new ≡ report.old }
{
    match explain_in(alloc, site, world) {
        Ok(end) => put_end(report, &end),
        Err(EnterFault::Failed) => Status::WorldRefused,
        Err(EnterFault::NoMemory) => Status::NoMemory,
    }
}
