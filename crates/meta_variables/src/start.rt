// What a script is started with (RFC 3875 4.1, 4.4 and 7.2).
ghost use Rattle.std.specs.Prelude.{◌≡◌, IfOk, Some};
ghost use Rattle.std.specs.Option.{option_copied};
ghost use Rattle.search_words.specs.SearchWords.{words_in};
ghost use Rattle.meta_variables.specs.Launch.{folder_of, args_of, launch_with, launch_at, launch_of, HasTexts, NamesScript};

use crate::request_variables::environment_at;
use host_base::{
    Bytes, Launch, Mapped, NoMemory, Pairs, Peer, Request, Script, Site, Text, Texts, VHost,
};
use search_words::{Words, words_of};
use std::alloc::Global;

// The folder of a program: what stands before the last `/`, or `/` where nothing does.
fn folder_of(program: &str) -> &str
    ensures { result.now ≡ folder_of program.now }
{
    match program.rfind('/') {
        Some(at) if at > 0 => &program[..at],
        _ => "/",
    }
}

pub fn launch_with(
    alloc: Global,
    script: &Script,
    args: Texts,
    env: Pairs,
) -> Result<Launch, NoMemory>
    ensures { IfOk result (λ launch. launch ≡ launch_with script.now args env) }
{
    Ok(Launch {
        program: Text::copy_of(alloc, script.program.as_str())?,
        dir: Text::copy_of(alloc, folder_of(script.program.as_str()))?,
        args,
        env,
    })
}

// The arguments, of which there are none where there is no search string.
pub fn args_of(alloc: Global, method: &[u8], query: Option<&[u8]>) -> Result<Texts, NoMemory>
    ensures { IfOk result (λ args. args ≡ args_of (words_in method.now (option_copied query.entry))) }
{
    match words_of(alloc, method, query)? {
        Words::Args(args) => Ok(args),
        Words::Nothing => Ok(Texts::new(alloc)),
    }
}

fn query_of(request: &Request) -> Option<&[u8]>
    ensures { option_copied result ≡ request.now.target.query }
{
    match &request.target.query {
        Some(query) => Some(query.as_slice()),
        None => None,
    }
}

fn launch_at(
    alloc: Global,
    site: &Site,
    peer: &Peer,
    request: &Request,
    mapped: &Mapped,
    host: &VHost,
    script: &Script,
) -> Result<Launch, NoMemory>
    requires { HasTexts request.now }
    ensures { IfOk result (λ launch. launch ≡ launch_at site.now peer.now request.now mapped.now host.now script.now) }
{
    let args = args_of(alloc, request.method.as_slice(), query_of(request))?;
    let env = environment_at(alloc, site, host, peer, request, mapped)?;
    launch_with(alloc, script, args, env)
}

/// What a mapped script is started with: its program, the folder of that, the words of the query (RFC 3875
/// 4.4) and its whole environment (RFC 3875 4.1). It must be of the site that the mapping was made for.
pub fn launch(
    alloc: Global,
    site: &Site,
    peer: &Peer,
    request: &Request,
    mapped: &Mapped,
) -> Result<Launch, NoMemory>
    requires texts { HasTexts request.now }
    requires script { NamesScript site.now mapped.now }
    ensures { IfOk result (λ launch. launch_of site.now peer.now request.now mapped.now ≡ Some launch) }
{
    let host = &site.hosts.as_slice()[mapped.host as usize];
    let script = &host.scripts.as_slice()[mapped.index as usize];
    launch_at(alloc, site, peer, request, mapped, host, script)
}
