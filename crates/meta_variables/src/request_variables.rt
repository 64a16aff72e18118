// The environment of a script (RFC 3875 4.1).
ghost use Rattle.std.specs.Prelude.{◌≡◌, ◌++◌, ◌∷◌, [], true, filter, IfOk, OnOk, Some, unwrap_or, string_bytes, slice_get};
ghost use Rattle.meta_variables.specs.Variables.{is_kept};
ghost use Rattle.meta_variables.specs.Environment.{content_length, protocol_of, translated, environment_at, environment_of};
ghost use Rattle.meta_variables.specs.Launch.{HasTexts, NamesScript};
ghost use Rattle.meta_variables.specs.Parts.{content_variables, path_variables, client_variables, server_variables};

use crate::headers::push_headers;
use crate::text::{joined_values, known_text};
use crate::variables::{number_text, push_kept};
use host_base::{Framing, Mapped, NoMemory, Pairs, Peer, Request, Site, VHost, Version};
use std::alloc::Global;

fn content_length(alloc: Global, request: &Request) -> Result<String, NoMemory>
    ensures { IfOk result (λ text. string_bytes text ≡ content_length request.now.framing request.now.body) }
{
    match request.framing {
        Framing::Empty => Ok(String::new(alloc)),
        Framing::Length(length) => number_text(alloc, length),
        Framing::Chunked => number_text(alloc, request.body.len() as u64),
    }
}

fn push_content(alloc: Global, variables: &mut Pairs, request: &Request) -> Result<(), NoMemory>
    ensures { OnOk result (variables.new ≡ variables.old ++ filter is_kept (content_variables request.now)) }
{
    let length = content_length(alloc, request)?;
    let fields = request.fields.as_slice();
    let content_type = joined_values(alloc, fields, b"Content-Type", ", ")?;
    push_kept(alloc, variables, "CONTENT_LENGTH", length.as_str())?;
    push_kept(alloc, variables, "CONTENT_TYPE", content_type.as_str())
}

// PATH_TRANSLATED: the root of the host and then PATH_INFO, where there is one.
pub fn translated(alloc: Global, root: &str, path_info: &str) -> Result<String, NoMemory>
    ensures { IfOk result (λ text. string_bytes text ≡ translated root.now path_info.now) }
{
    let mut text = String::new(alloc);
    if path_info.len() > 0 {
        text.push_str(root)?;
        text.push_str(path_info)?;
    }
    Ok(text)
}

fn push_path(
    alloc: Global,
    variables: &mut Pairs,
    host: &VHost,
    mapped: &Mapped,
) -> Result<(), NoMemory>
    ensures { OnOk result (variables.new ≡ variables.old ++ filter is_kept (path_variables host.now mapped.now)) }
{
    let path_info = mapped.path_info.as_str();
    let translated = translated(alloc, host.root.as_str(), path_info)?;
    push_kept(alloc, variables, "GATEWAY_INTERFACE", "CGI/1.1")?;
    push_kept(alloc, variables, "PATH_INFO", path_info)?;
    push_kept(alloc, variables, "PATH_TRANSLATED", translated.as_str())
}

fn query_text(request: &Request) -> &str
    requires { HasTexts request.now }
    ensures { result.now ≡ unwrap_or request.now.target.query [] }
{
    match &request.target.query {
        Some(query) => known_text(query.as_slice()),
        None => "",
    }
}

fn push_client(
    alloc: Global,
    variables: &mut Pairs,
    peer: &Peer,
    request: &Request,
    mapped: &Mapped,
) -> Result<(), NoMemory>
    requires { HasTexts request.now }
    ensures { OnOk result (variables.new ≡ variables.old ++ filter is_kept (client_variables peer.now request.now mapped.now)) }
{
    let method = known_text(request.method.as_slice());
    push_kept(alloc, variables, "QUERY_STRING", query_text(request))?;
    push_kept(alloc, variables, "REMOTE_ADDR", peer.0.as_str())?;
    push_kept(alloc, variables, "REMOTE_HOST", peer.0.as_str())?;
    push_kept(alloc, variables, "REQUEST_METHOD", method)?;
    push_kept(alloc, variables, "SCRIPT_NAME", mapped.script_name.as_str())
}

// The host that the request names, or the name of the one that serves it.
fn server_name<'a>(host: &'a VHost, request: &'a Request) -> &'a str
    requires { HasTexts request.now }
    ensures { result.now ≡ unwrap_or request.now.target.host host.now.name }
{
    match &request.target.host {
        Some(name) => known_text(name.as_slice()),
        None => host.name.as_str(),
    }
}

fn protocol_of(version: Version) -> &'static str
    ensures { result.now ≡ protocol_of version }
{
    match version {
        Version::V10 => "HTTP/1.0",
        Version::V11 => "HTTP/1.1",
    }
}

fn push_server(
    alloc: Global,
    variables: &mut Pairs,
    site: &Site,
    host: &VHost,
    request: &Request,
) -> Result<(), NoMemory>
    requires { HasTexts request.now }
    ensures { OnOk result (variables.new ≡ variables.old ++ filter is_kept (server_variables site.now host.now request.now)) }
{
    let port = number_text(alloc, u64::from(site.port))?;
    push_kept(alloc, variables, "SERVER_NAME", server_name(host, request))?;
    push_kept(alloc, variables, "SERVER_PORT", port.as_str())?;
    push_kept(
        alloc,
        variables,
        "SERVER_PROTOCOL",
        protocol_of(request.version),
    )?;
    push_kept(alloc, variables, "SERVER_SOFTWARE", "cgihost/1")
}

// The environment of a script of this host.
pub fn environment_at(
    alloc: Global,
    site: &Site,
    host: &VHost,
    peer: &Peer,
    request: &Request,
    mapped: &Mapped,
) -> Result<Pairs, NoMemory>
    requires { HasTexts request.now }
    ensures { IfOk result (λ variables. variables ≡ environment_at site.now host.now peer.now request.now mapped.now) }
{
    let mut variables = Pairs::new(alloc);
    push_content(alloc, &mut variables, request)?;
    push_path(alloc, &mut variables, host, mapped)?;
    push_client(alloc, &mut variables, peer, request, mapped)?;
    push_server(alloc, &mut variables, site, host, request)?;
    push_headers(alloc, &mut variables, request.fields.as_slice())?;
    Ok(variables)
}

/// The whole environment of a mapped script (RFC 3875 4.1), in the order of the standard's list and then the
/// fields by the first appearance of their names. It must be of the site that the mapping was made for.
pub fn environment(
    alloc: Global,
    site: &Site,
    peer: &Peer,
    request: &Request,
    mapped: &Mapped,
) -> Result<Pairs, NoMemory>
    requires texts { HasTexts request.now }
    requires script { NamesScript site.now mapped.now }
    ensures { IfOk result (λ variables. environment_of site.now peer.now request.now mapped.now ≡ Some variables) }
{
    let host = &site.hosts.as_slice()[mapped.host as usize];
    environment_at(alloc, site, host, peer, request, mapped)
}
