// What comes next, by what was heard.
ghost use Rattle.std.specs.Prelude.{◌≡◌, IfOk};
ghost use Rattle.host_base.specs.SiteRules.{HasHosts};
ghost use Rattle.scgi_conn.specs.Stages.{after_bytes, after_output, broken_off, by_launch, faulty};
ghost use Rattle.meta_variables.specs.Gateway.{gateway_launch_of};

use crate::stage::{End, Stage};
use host_base::{Bytes, Cause, NoMemory, Refusal, Site};
use meta_variables::gateway_launch;
use reply_writer::fault_text;
use scgi_reader::{Heard, Reading, Request};
use std::alloc::Global;

/// The host's own answer for a cause.
pub fn fault(alloc: Global, cause: Cause) -> Result<Stage, NoMemory>
    ensures { IfOk result (λ stage. stage ≡ faulty cause) }
{
    Ok(Stage::Answered(fault_text(alloc, cause)?))
}

// A whole request is mapped to its script.
fn mapped(alloc: Global, site: &Site, request: Request) -> Result<Stage, NoMemory>
    requires { HasHosts site.now.hosts }
    ensures { IfOk result (λ stage. stage ≡ by_launch request (gateway_launch_of site.now.hosts request.fields)) }
{
    match gateway_launch(alloc, site, request.fields()) {
        Ok(launch) => Ok(Stage::Starting(launch, request)),
        Err(Refusal::Cause(cause)) => fault(alloc, cause),
        Err(Refusal::NoMemory) => Err(NoMemory),
    }
}

/// One more piece of a request.
pub fn with_bytes(
    alloc: Global,
    site: &Site,
    reading: Reading,
    bytes: &[u8],
) -> Result<Stage, NoMemory>
    requires { HasHosts site.now.hosts }
    ensures { IfOk result (λ stage. stage ≡ after_bytes site.now.hosts reading bytes.now) }
{
    match reading.hear(bytes)? {
        Heard::More(reading) => Ok(Stage::Hearing(reading)),
        Heard::Whole(request) => mapped(alloc, site, request),
        Heard::Bad(cause) => fault(alloc, cause),
    }
}

/// No more of a request comes, for this cause. Where nothing was heard of it the connection is shut, and nothing answered.
pub fn break_off(
    alloc: Global,
    reading: &Reading,
    cause: Cause,
    end: End,
) -> Result<Stage, NoMemory>
    ensures { IfOk result (λ stage. stage ≡ broken_off reading.now.bytes cause end) }
{
    if reading.is_empty() {
        Ok(Stage::Over(end))
    } else {
        fault(alloc, cause)
    }
}

/// The whole output of a script is its answer.
pub fn with_output(alloc: Global, output: Bytes) -> Result<Stage, NoMemory>
    ensures { IfOk result (λ stage. stage ≡ after_output output) }
{
    if output.is_empty() {
        fault(alloc, Cause::NoOutput)
    } else {
        Ok(Stage::Answered(output))
    }
}
