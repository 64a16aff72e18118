// The text of an explanation.
ghost use Rattle.std.specs.Prelude.{◌≡◌, IfOk, string_bytes};
ghost use Rattle.std.specs.List.{flat_map};
ghost use Rattle.host_base.specs.SiteRules.{IsServed};
ghost use Rattle.meta_variables.specs.Launch.{HasTexts};
ghost use Rattle.explain.specs.Explanation.{arg_line, env_line, launch_text, refused_text, request_text, ending_text};
ghost use Rattle.explain.specs.Steps.{HasEndingTexts};

use crate::input::Ending;
use host_base::{Cause, Launch, NoMemory, Pair, Peer, Refusal, Request, Site, Text};
use meta_variables::launch;
use script_map::map;
use shown_text::Shown;
use std::alloc::Global;

fn arg_lines(alloc: Global, args: &[Text]) -> Result<String, NoMemory>
    ensures { IfOk result (λ lines. string_bytes lines ≡ flat_map arg_line args.now) }
{
    let mut lines = String::new(alloc);
    for word in args {
        let line = format!(in alloc; "arg {}\n", Shown(word.as_str()))?;
        lines.push_str(line.as_str())?;
    }
    Ok(lines)
}

fn env_lines(alloc: Global, env: &[Pair]) -> Result<String, NoMemory>
    ensures { IfOk result (λ lines. string_bytes lines ≡ flat_map env_line env.now) }
{
    let mut lines = String::new(alloc);
    for pair in env {
        let name = pair.name.as_str();
        let line = format!(in alloc; "env {name}={}\n", Shown(pair.value.as_str()))?;
        lines.push_str(line.as_str())?;
    }
    Ok(lines)
}

fn launch_text(alloc: Global, launch: &Launch) -> Result<String, NoMemory>
    ensures { IfOk result (λ text. string_bytes text ≡ launch_text launch.now) }
{
    let program = Shown(launch.program.as_str());
    let dir = Shown(launch.dir.as_str());
    let args = arg_lines(alloc, launch.args.as_slice())?;
    let env = env_lines(alloc, launch.env.as_slice())?;
    Ok(format!(in alloc; "program {program}\ndir {dir}\n{args}{env}")?)
}

fn refused_text(alloc: Global, cause: Cause) -> Result<String, NoMemory>
    ensures { IfOk result (λ text. string_bytes text ≡ refused_text cause) }
{
    let status = cause.status();
    let text = cause.text();
    Ok(format!(in alloc; "refused: {status} {text}\n")?)
}

fn request_text(
    alloc: Global,
    site: &Site,
    peer: &Peer,
    request: &Request,
) -> Result<String, NoMemory>
    requires served { IsServed site.now }
    requires texts { HasTexts request.now }
    ensures { IfOk result (λ text. string_bytes text ≡ request_text site.now peer.now request.now) }
{
    match map(alloc, site, &request.target) {
        Ok(mapped) => {
            let launch = launch(alloc, site, peer, request, &mapped)?;
            launch_text(alloc, &launch)
        }
        Err(Refusal::Cause(cause)) => refused_text(alloc, cause),
        Err(Refusal::NoMemory) => Err(NoMemory),
    }
}

/// The text for a client, by how its first request ended.
pub fn ending_text(
    alloc: Global,
    site: &Site,
    peer: &Option<Peer>,
    ending: &Ending,
) -> Result<String, NoMemory>
    requires served { IsServed site.now }
    requires texts { HasEndingTexts ending.now }
    ensures { IfOk result (λ text. string_bytes text ≡ ending_text site.now peer.now ending.now) }
{
    match (ending, peer) {
        (Ending::Whole(request), Some(peer)) => request_text(alloc, site, peer, request),
        (Ending::Refused(cause), _) => refused_text(alloc, *cause),
        _ => Ok("no request\n".to_string(alloc)?),
    }
}
