// What a script is started with for a gateway, which gives the variables of its request.
ghost use Rattle.std.specs.Prelude.{◌≡◌, ◌++◌, ◌∷◌, [], ◌<◌, ◌^◌, filter, map, find, length, IfOk, OnOk, Some, IsTrue, codes, option_map, unwrap_or, slice_get, string_bytes};
ghost use Rattle.std.specs.List.{before_first, list_any, list_all, position_or_len, position};
ghost use Rattle.std.specs.Option.{option_copied};
ghost use Rattle.std.specs.Str.{bytes_eq};
ghost use Rattle.host_base.specs.SiteRules.{HasHosts};
ghost use Rattle.script_map.specs.Answers.{IsAnswer};
ghost use Rattle.script_map.specs.Bytes.{begins_with};
ghost use Rattle.script_map.specs.DotSegments.{IsRooted};
ghost use Rattle.script_map.specs.Targets.{is_question};
ghost use Rattle.meta_variables.specs.Variables.{is_kept, pair};
ghost use Rattle.meta_variables.specs.Launch.{launch_with};
ghost use Rattle.meta_variables.specs.Gateway.{is_called, received_value, gateway_host, mapped_by_name, mapped_by_uri, gateway_mapped, withheld_variables, is_variable_char, is_passed_variable, is_passed_pair, received_variable, mapping_variables, gateway_environment, gateway_args, launch_of_kind, launch_script, gateway_launch_of};

use crate::request_variables::translated;
use crate::start::{args_of, launch_with};
use crate::text::{known_text, value_text};
use crate::variables::push_kept;
use host_base::{
    Bytes, Cause, Field, Fields, Launch, Mapped, NoMemory, Pairs, Refusal, Script, ScriptKind,
    Site, Texts, VHost,
};
use script_map::{authority_host, map, map_decoded, path_target};
use std::alloc::Global;

fn received_at<'a>(pairs: &'a [Field], name: &[u8]) -> Option<&'a Field>
    ensures { option_copied result ≡ find (is_called name.now) pairs.now }
{
    pairs.iter().find(|pair| pair.name.as_slice() == name)
}

// The value of a variable, by its whole name.
fn received_value<'a>(pairs: &'a [Field], name: &[u8]) -> Option<&'a [u8]>
    ensures { option_copied result ≡ received_value pairs.now name.now }
{
    match received_at(pairs, name) {
        Some(pair) => Some(pair.value.as_slice()),
        None => None,
    }
}

fn gateway_host(pairs: &[Field]) -> Option<&[u8]>
    ensures { option_copied result ≡ gateway_host pairs.now }
{
    match received_value(pairs, b"HTTP_HOST") {
        Some(value) => authority_host(value),
        None => None,
    }
}

// Whether a path begins with `/`.
fn is_rooted(path: &[u8]) -> bool
    ensures value { result ≡ begins_with 47 path.now }
    ensures rooted { IsTrue result → IsRooted path.now }
{
    match path {
        [first, ..] => *first == b'/',
        [] => false,
    }
}

// The script of SCRIPT_NAME and PATH_INFO, which together are the decoded path.
fn mapped_by_name(
    alloc: Global,
    site: &Site,
    host: Option<&[u8]>,
    path: &[u8],
) -> Result<Mapped, Refusal>
    requires { HasHosts site.now.hosts }
    ensures { IsAnswer (mapped_by_name site.now.hosts (option_copied host.entry) path.now) result }
{
    if !is_rooted(path) {
        return Err(Refusal::Cause(Cause::BadParams));
    }
    map_decoded(alloc, site, host, path)
}

fn question_at(uri: &[u8]) -> Option<usize>
    ensures { result ≡ position is_question uri.now }
{
    uri.iter().position(|byte| *byte == b'?')
}

// The path of a URI, as it was sent.
fn raw_path(uri: &[u8]) -> &[u8]
    ensures { result.now ≡ before_first is_question uri.now }
{
    match question_at(uri) {
        Some(at) => &uri[..at],
        None => uri,
    }
}

// The script of the path of REQUEST_URI.
fn mapped_by_uri(
    alloc: Global,
    site: &Site,
    host: Option<&[u8]>,
    uri: Option<&[u8]>,
) -> Result<Mapped, Refusal>
    requires { HasHosts site.now.hosts }
    ensures { IsAnswer (mapped_by_uri site.now.hosts (option_copied host.entry) (option_copied uri.entry)) result }
{
    let Some(uri) = uri else {
        return Err(Refusal::Cause(Cause::BadParams));
    };
    let path = raw_path(uri);
    if !is_rooted(path) {
        return Err(Refusal::Cause(Cause::BadParams));
    }
    let target = path_target(alloc, path, host)?;
    map(alloc, site, &target)
}

fn value_or_empty(value: Option<&[u8]>) -> &[u8]
    ensures { result.now ≡ unwrap_or (option_copied value.entry) [] }
{
    match value {
        Some(value) => value,
        None => b"",
    }
}

fn joined_path(alloc: Global, name: &[u8], info: &[u8]) -> Result<Vec<u8>, NoMemory>
    ensures { IfOk result (λ path. path.items ≡ name.now ++ info.now) }
{
    let mut path = Vec::from_slice(alloc, name)?;
    path.extend_from_slice(info)?;
    Ok(path)
}

// The script of the received variables.
fn gateway_mapped(alloc: Global, site: &Site, pairs: &[Field]) -> Result<Mapped, Refusal>
    requires { HasHosts site.now.hosts }
    ensures { IsAnswer (gateway_mapped site.now.hosts pairs.now) result }
{
    let host = gateway_host(pairs);
    match received_value(pairs, b"SCRIPT_NAME") {
        Some(name) => {
            let info = value_or_empty(received_value(pairs, b"PATH_INFO"));
            let path = joined_path(alloc, name, info)?;
            mapped_by_name(alloc, site, host, path.as_slice())
        }
        None => mapped_by_uri(alloc, site, host, received_value(pairs, b"REQUEST_URI")),
    }
}

fn is_withheld(name: &[u8]) -> bool
    ensures { result ≡ list_any (bytes_eq name.now) withheld_variables }
{
    name == b"SCGI".as_slice()
        || name == b"GATEWAY_INTERFACE".as_slice()
        || name == b"SCRIPT_NAME".as_slice()
        || name == b"PATH_INFO".as_slice()
        || name == b"PATH_TRANSLATED".as_slice()
        || name == b"HTTP_PROXY".as_slice()
        || name == b"HTTP_AUTHORIZATION".as_slice()
        || name == b"HTTP_PROXY_AUTHORIZATION".as_slice()
}

fn are_variable_chars(name: &[u8]) -> bool
    ensures { result ≡ list_all is_variable_char name.now }
{
    name.iter()
        .all(|byte| byte.is_ascii_alphanumeric() || *byte == b'_')
}

fn is_passed_variable(name: &[u8]) -> bool
    ensures { result ≡ is_passed_variable name.now }
{
    !is_withheld(name) && !name.is_empty() && are_variable_chars(name)
}

// Adds a received variable, where it is passed on.
fn push_received(alloc: Global, variables: &mut Pairs, pair: &Field) -> Result<(), NoMemory>
    ensures { OnOk result (variables.new ≡ variables.old ++ filter is_kept (map received_variable (filter is_passed_pair (pair.now ∷ [])))) }
{
    let name = pair.name.as_slice();
    if !is_passed_variable(name) {
        return Ok(());
    }
    let value = value_text(alloc, pair.value.as_slice())?;
    push_kept(alloc, variables, known_text(name), value.as_str())
}

fn push_all_received(alloc: Global, variables: &mut Pairs, pairs: &[Field]) -> Result<(), NoMemory>
    ensures { OnOk result (variables.new ≡ variables.old ++ filter is_kept (map received_variable (filter is_passed_pair pairs.now))) }
{
    for pair in pairs {
        push_received(alloc, variables, pair)?;
    }
    Ok(())
}

fn push_mapping(
    alloc: Global,
    variables: &mut Pairs,
    root: &str,
    mapped: &Mapped,
) -> Result<(), NoMemory>
    ensures { OnOk result (variables.new ≡ variables.old ++ filter is_kept (mapping_variables root.now mapped.now)) }
{
    let path_info = mapped.path_info.as_str();
    let translated = translated(alloc, root, path_info)?;
    push_kept(alloc, variables, "GATEWAY_INTERFACE", "CGI/1.1")?;
    push_kept(alloc, variables, "SCRIPT_NAME", mapped.script_name.as_str())?;
    push_kept(alloc, variables, "PATH_INFO", path_info)?;
    push_kept(alloc, variables, "PATH_TRANSLATED", translated.as_str())
}

fn gateway_environment(
    alloc: Global,
    root: &str,
    mapped: &Mapped,
    pairs: &[Field],
) -> Result<Pairs, NoMemory>
    ensures { IfOk result (λ variables. variables ≡ gateway_environment root.now mapped.now pairs.now) }
{
    let mut variables = Pairs::new(alloc);
    push_all_received(alloc, &mut variables, pairs)?;
    push_mapping(alloc, &mut variables, root, mapped)?;
    Ok(variables)
}

fn gateway_args(alloc: Global, pairs: &[Field]) -> Result<Texts, NoMemory>
    ensures { IfOk result (λ args. args ≡ gateway_args pairs.now) }
{
    let method = value_or_empty(received_value(pairs, b"REQUEST_METHOD"));
    args_of(alloc, method, received_value(pairs, b"QUERY_STRING"))
}

fn launch_script(
    alloc: Global,
    pairs: &[Field],
    mapped: &Mapped,
    host: &VHost,
    script: &Script,
) -> Result<Launch, Refusal>
    ensures { IsAnswer (launch_script pairs.now mapped.now host.now (Some script.now)) result }
{
    if script.kind == ScriptKind::WebSocket {
        return Err(Refusal::Cause(Cause::NoScript));
    }
    let args = gateway_args(alloc, pairs)?;
    let env = gateway_environment(alloc, host.root.as_str(), mapped, pairs)?;
    Ok(launch_with(alloc, script, args, env)?)
}

/// What a script is started with for a gateway, as SCGI and FastCGI are, which gives the variables of its
/// request. The script is that of SCRIPT_NAME followed by PATH_INFO, and where SCRIPT_NAME is missing that of
/// the path of REQUEST_URI, at the host of HTTP_HOST. In this order: `BadParams` where neither is there or the
/// path doesn't begin with `/`; the causes of `map_decoded` or of `map`; `NoScript` for a script that speaks
/// WebSocket. The environment is what was received, in its order, and then what the mapping gives.
pub fn gateway_launch(alloc: Global, site: &Site, pairs: &Fields) -> Result<Launch, Refusal>
    requires { HasHosts site.now.hosts }
    ensures { IsAnswer (gateway_launch_of site.now.hosts pairs.now) result }
{
    let mapped = gateway_mapped(alloc, site, pairs.as_slice())?;
    let host = &site.hosts.as_slice()[mapped.host as usize];
    let script = &host.scripts.as_slice()[mapped.index as usize];
    launch_script(alloc, pairs.as_slice(), &mapped, host, script)
}
