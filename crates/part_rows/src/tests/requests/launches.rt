// Environments and launches, by the rows of RFC 3875 4.1 and of the other sections that they come from.
ghost use Rattle.std.specs.Prelude.{◌≡◌, IsTrue, is_some, option_and_then, slice_get};
ghost use Rattle.std.specs.Option.{option_copied};
ghost use Rattle.std.specs.Str.{is_utf8};
ghost use Rattle.meta_variables.specs.Launch.{HasTexts, NamesScript, is_text_or_none, script_in};

use super::super::tables::{Cells, bytes_of, is, joined, push, push_field, text_of};
use host_base::{
    Bytes, Cause, Docs, Fields, Framing, Hosts, Launch, Limits, Mapped, NoMemory, Pair, Pairs,
    Peer, Refusal, Request, Script, ScriptKind, Scripts, Site, Target, Text, Texts, VHost,
};
use meta_variables::{environment, gateway_launch, launch};
use site_file::read_site;
use std::alloc::Global;

fn scripts(alloc: Global, program: &str) -> Result<Scripts, NoMemory> {
    let mut scripts = Scripts::new(alloc);
    scripts.push(Script {
        path: text_of(alloc, "/cgi-bin")?,
        program: text_of(alloc, program)?,
        kind: ScriptKind::Cgi,
        origins: None,
    })?;
    Ok(scripts)
}

fn hosts(alloc: Global, program: &str) -> Result<Hosts, NoMemory> {
    let mut hosts = Hosts::new(alloc);
    hosts.push(VHost {
        name: text_of(alloc, "localhost")?,
        aliases: Texts::new(alloc),
        any: true,
        root: text_of(alloc, "/srv/www")?,
        scripts: scripts(alloc, program)?,
    })?;
    Ok(hosts)
}

// A site of one host and one script, `/cgi-bin`.
fn site(alloc: Global, program: &str) -> Result<Site, NoMemory> {
    Ok(Site {
        listen: text_of(alloc, "127.0.0.1")?,
        port: 8080,
        limits: Limits::default(),
        hosts: hosts(alloc, program)?,
        docs: Docs::new(alloc),
    })
}

fn bytes_or_none(alloc: Global, word: Option<&[u8]>) -> Result<Option<Bytes>, NoMemory> {
    match word {
        Some(word) => Ok(Some(bytes_of(alloc, word)?)),
        None => Ok(None),
    }
}

// How many bytes stand before the first `=`.
fn name_len(line: &[u8]) -> usize {
    let mut len: usize = 0;
    for byte in line {
        if *byte == b'=' {
            return len;
        }
        len = len.saturating_add(1);
    }
    len
}

fn push_line(alloc: Global, fields: &mut Fields, line: &[u8]) -> Result<(), NoMemory> {
    if line.is_empty() {
        return Ok(());
    }
    let (name, value) = line.split_at(name_len(line).min(line.len()));
    push_field(alloc, fields, name, value.get(1..).unwrap_or(b""))
}

// Fields, each a line `NAME=VALUE`.
fn fields(alloc: Global, lines: &[u8]) -> Result<Fields, NoMemory> {
    let mut fields = Fields::new(alloc);
    for line in lines.split(|byte| *byte == b'\n') {
        push_line(alloc, &mut fields, line)?;
    }
    Ok(fields)
}

fn target(alloc: Global, row: &Cells) -> Result<Target, NoMemory> {
    let query = bytes_or_none(alloc, row.value_or_none(1))?;
    let host = bytes_or_none(alloc, row.value_or_none(2))?;
    let path = bytes_of(alloc, b"/cgi-bin")?;
    Ok(Target { path, query, host })
}

// What a request is, beside its fields and its framing: method, query, host and version. `-` is none and `_` an empty one.
fn request(
    alloc: Global,
    row: &Cells,
    lines: &[u8],
    framing: Framing,
) -> Result<Request, NoMemory> {
    let target = target(alloc, row)?;
    Ok(Request {
        method: bytes_of(alloc, row.at(0))?,
        target,
        version: row.version(3),
        fields: fields(alloc, lines)?,
        framing,
        body: bytes_of(alloc, b"x=1")?,
    })
}

fn is_text(bytes: &[u8]) -> bool
    ensures { result ≡ is_utf8 bytes.now }
{
    str::from_utf8(bytes).is_ok()
}

fn is_text_or_none(bytes: &Option<Bytes>) -> bool
    ensures { result ≡ is_text_or_none bytes.now }
{
    match bytes {
        Some(bytes) => is_text(bytes.as_slice()),
        None => true,
    }
}

fn has_texts(request: &Request) -> bool
    ensures { IsTrue result → HasTexts request.now }
{
    is_text(request.method.as_slice())
        && is_text_or_none(&request.target.query)
        && is_text_or_none(&request.target.host)
}

fn names_script(site: &Site, mapped: &Mapped) -> bool
    ensures { IsTrue result → NamesScript site.now mapped.now }
{
    match site.hosts.as_slice().get(mapped.host as usize) {
        Some(host) => host.scripts.as_slice().get(mapped.index as usize).is_some(),
        None => false,
    }
}

fn mapped(alloc: Global, name: &str, info: &str) -> Result<Mapped, NoMemory> {
    Ok(Mapped {
        host: 0,
        index: 0,
        script_name: text_of(alloc, name)?,
        path_info: text_of(alloc, info)?,
    })
}

fn push_ended(text: &mut Vec<u8>, word: &Text, end: &[u8]) -> Result<(), NoMemory> {
    push(text, word.as_bytes())?;
    push(text, end)
}

/// Arguments with a bar after each.
pub fn push_args(text: &mut Vec<u8>, args: &[Text]) -> Result<(), NoMemory> {
    for arg in args {
        push_ended(text, arg, b"|")?;
    }
    Ok(())
}

// Variables, each a line `NAME=VALUE`.
fn push_pair(text: &mut Vec<u8>, pair: &Pair) -> Result<(), NoMemory> {
    push_ended(text, &pair.name, b"=")?;
    push_ended(text, &pair.value, b"\n")
}

fn push_pairs(text: &mut Vec<u8>, pairs: &[Pair]) -> Result<(), NoMemory> {
    for pair in pairs {
        push_pair(text, pair)?;
    }
    Ok(())
}

fn shown(alloc: Global, env: &Pairs) -> Result<Vec<u8>, NoMemory> {
    let mut text = Vec::new(alloc);
    push_pairs(&mut text, env.as_slice())?;
    Ok(text)
}

fn peer(alloc: Global) -> Result<Peer, NoMemory> {
    Ok(Peer(text_of(alloc, "192.0.2.1")?))
}

// What is asked for: a site with this program, and its script.
#[derive(Drop)]
struct Asked {
    site: Site,
    mapped: Mapped,
}

impl Asked {
    fn new(alloc: Global, program: &str, name: &str, info: &str) -> Result<Self, NoMemory> {
        let mapped = mapped(alloc, name, info)?;
        Ok(Asked {
            site: site(alloc, program)?,
            mapped,
        })
    }
}

fn no_texts(alloc: Global) -> Result<Vec<u8>, NoMemory> {
    joined(alloc, &[b"no texts"])
}

fn environment_at(alloc: Global, asked: &Asked, request: &Request) -> Result<Pairs, NoMemory>
    requires texts { HasTexts request.now }
    requires script { NamesScript asked.now.site asked.now.mapped }
{
    let peer = peer(alloc)?;
    environment(alloc, &asked.site, &peer, request, &asked.mapped)
}

fn environment_of(alloc: Global, asked: &Asked, request: &Request) -> Result<Vec<u8>, NoMemory> {
    if !has_texts(request) || !names_script(&asked.site, &asked.mapped) {
        return no_texts(alloc);
    }
    shown(alloc, &environment_at(alloc, asked, request)?)
}

// The request of a line: method, query, host and version.
fn request_of(
    alloc: Global,
    line: &str,
    lines: &[u8],
    framing: Framing,
) -> Result<Request, NoMemory> {
    let row = Cells::words(alloc, line)?;
    request(alloc, &row, lines, framing)
}

// The environment of a request for the script `/cgi-bin/hello`.
fn environment_for(
    alloc: Global,
    line: &str,
    lines: &[u8],
    framing: Framing,
    info: &str,
) -> Result<Vec<u8>, NoMemory> {
    let request = request_of(alloc, line, lines, framing)?;
    environment_asked(alloc, &request, info)
}

fn environment_asked(alloc: Global, request: &Request, info: &str) -> Result<Vec<u8>, NoMemory> {
    let asked = Asked::new(alloc, "/srv/cgi/hello", "/cgi-bin/hello", info)?;
    environment_of(alloc, &asked, request)
}

const EVERY_VARIABLE: &str = "\
CONTENT_LENGTH=3
CONTENT_TYPE=a/b, c/d
GATEWAY_INTERFACE=CGI/1.1
PATH_INFO=/a b/
PATH_TRANSLATED=/srv/www/a b/
QUERY_STRING=x=1
REMOTE_ADDR=192.0.2.1
REMOTE_HOST=192.0.2.1
REQUEST_METHOD=POST
SCRIPT_NAME=/cgi-bin/hello
SERVER_NAME=example.com
SERVER_PORT=8080
SERVER_PROTOCOL=HTTP/1.1
SERVER_SOFTWARE=cgihost/1
HTTP_HOST=example.com:8080
HTTP_COOKIE=a=1; b=2
HTTP_X_9=é, ÿ, z
HTTP_ACCEPT_LANGUAGE=en
";

// Whether a request with such fields has every variable.
fn has_every(alloc: Global, lines: &[u8]) -> Result<bool, NoMemory> {
    let line = "POST x=1 example.com 1.1";
    let given = environment_for(alloc, line, lines, Framing::Chunked, "/a b/")?;
    Ok(is(given.as_slice(), EVERY_VARIABLE.as_bytes()))
}

#[test]
fn every_variable(rt: HostRuntime) -> Result<(), NoMemory> {
    let lines = b"Host=example.com:8080\ncOOKIE= a=1 \nX-9=\xC3\xA9\ncontent-TYPE=a/b\nProxy=p\n\
Authorization=s\nproxy-AUTHORIZATION=s\nContent-Length=3\nTransfer-Encoding=chunked\nConnection=X-9\n\
Expect=100-continue\nUpgrade=h2c\nX_9=u\nx.9=u\nx-9=\xFF\nCookie=\nCookie=\tb=2\nContent-Type=c/d\n\
Accept-Language=en\nX-9= z\nEmpty= \nContent-Type=";
    assert!(&rt; has_every(rt.alloc(), lines)?);
    Ok(())
}

const FEW_VARIABLES: &str = "\
GATEWAY_INTERFACE=CGI/1.1
QUERY_STRING=
REMOTE_ADDR=192.0.2.1
REMOTE_HOST=192.0.2.1
REQUEST_METHOD=GET
SCRIPT_NAME=/cgi-bin/hello
SERVER_NAME=localhost
SERVER_PORT=8080
SERVER_PROTOCOL=HTTP/1.0
SERVER_SOFTWARE=cgihost/1
";

// Whether a request without query and host, in HTTP/1.0, has the few variables.
fn has_few(alloc: Global, line: &str) -> Result<bool, NoMemory> {
    let given = environment_for(alloc, line, b"", Framing::Empty, "")?;
    Ok(is(given.as_slice(), FEW_VARIABLES.as_bytes()))
}

#[test]
fn few_variables(rt: HostRuntime) -> Result<(), NoMemory> {
    for line in ["GET - - 1.0", "GET _ - 1.0"] {
        assert!(&rt; has_few(rt.alloc(), line)?, "{line}");
    }
    Ok(())
}

// Whether the environment of a request with such a body begins with a line.
fn begins_with(alloc: Global, framing: Framing, line: &str) -> Result<bool, NoMemory> {
    let given = environment_for(alloc, "GET - [::1]", b"", framing, "")?;
    Ok(is(first_line(given.as_slice()), line.as_bytes()))
}

fn first_line(text: &[u8]) -> &[u8] {
    head_lines::first_line(text)
}

static LENGTHS: [(Framing, &str); 5] = [
    (Framing::Empty, "GATEWAY_INTERFACE=CGI/1.1"),
    (Framing::Length(0), "CONTENT_LENGTH=0"),
    (Framing::Length(1048576), "CONTENT_LENGTH=1048576"),
    (
        Framing::Length(u64::MAX),
        "CONTENT_LENGTH=18446744073709551615",
    ),
    (Framing::Chunked, "CONTENT_LENGTH=3"),
];

#[test]
fn lengths(rt: HostRuntime) -> Result<(), NoMemory> {
    for (framing, line) in &LENGTHS {
        assert!(&rt; begins_with(rt.alloc(), *framing, line)?, "{line}");
    }
    Ok(())
}

// A launch in one line: its program, its folder and its arguments.
fn push_launch(text: &mut Vec<u8>, launch: &Launch) -> Result<(), NoMemory> {
    push_ended(text, &launch.program, b" ")?;
    push_ended(text, &launch.dir, b" ")?;
    push_args(text, launch.args.as_slice())
}

fn shown_launch(alloc: Global, launch: &Launch) -> Result<Vec<u8>, NoMemory> {
    let mut text = Vec::new(alloc);
    push_launch(&mut text, launch)?;
    Ok(text)
}

fn launch_at(alloc: Global, asked: &Asked, request: &Request) -> Result<Launch, NoMemory>
    requires texts { HasTexts request.now }
    requires script { NamesScript asked.now.site asked.now.mapped }
{
    let peer = peer(alloc)?;
    launch(alloc, &asked.site, &peer, request, &asked.mapped)
}

fn launch_of(alloc: Global, asked: &Asked, request: &Request) -> Result<Vec<u8>, NoMemory> {
    if !has_texts(request) || !names_script(&asked.site, &asked.mapped) {
        return no_texts(alloc);
    }
    shown_launch(alloc, &launch_at(alloc, asked, request)?)
}

fn launch_asked(alloc: Global, program: &str, request: &Request) -> Result<Vec<u8>, NoMemory> {
    let asked = Asked::new(alloc, program, "/cgi-bin", "")?;
    launch_of(alloc, &asked, request)
}

// What is started for a request.
fn started(alloc: Global, program: &str, line: &str) -> Result<Vec<u8>, NoMemory> {
    let request = request_of(alloc, line, b"", Framing::Empty)?;
    launch_asked(alloc, program, &request)
}

// Whether a method and a query start what is wanted.
fn starts(alloc: Global, program: &str, line: &str, wanted: &str) -> Result<bool, NoMemory> {
    Ok(is(started(alloc, program, line)?.as_slice(), wanted.as_bytes()))
}

static LAUNCHES: [(&str, &str, &str); 5] = [
    ("/x", "GET a+b%2Fc a", "/x / a|b/c|"),
    ("/a/b", "HEAD a a", "/a/b /a a|"),
    ("/a/b/c", "GET a=b a", "/a/b/c /a/b "),
    ("b", "POST a+b a", "b / "),
    ("/a/b", "GET - a", "/a/b /a "),
];

#[test]
fn launches(rt: HostRuntime) -> Result<(), NoMemory> {
    for (program, line, wanted) in &LAUNCHES {
        assert!(&rt; starts(rt.alloc(), program, line, wanted)?, "{wanted}");
    }
    Ok(())
}

// A launch, and in the lines below it its environment.
fn shown_with_env(alloc: Global, launch: &Launch) -> Result<Vec<u8>, NoMemory> {
    let mut text = Vec::new(alloc);
    push_launch(&mut text, launch)?;
    push(&mut text, b"\n")?;
    push_pairs(&mut text, launch.env.as_slice())?;
    Ok(text)
}

// A site of one host, with `/cgi-bin` and a script that speaks WebSocket.
const SITE: &[u8] = b"\
version = 1
root = \"/srv/www\"
[[script]]
path = \"/cgi-bin\"
program = \"/srv/cgi/hello\"
[[script]]
path = \"/ws\"
program = \"/srv/ws\"
kind = \"websocket\"
";

// What a gateway's variables start.
fn from_pairs(alloc: Global, pairs: &Fields) -> Result<Launch, Refusal> {
    match read_site(alloc, SITE) {
        Ok(site) => gateway_launch(alloc, &site, pairs),
        Err(_) => Err(Refusal::NoMemory),
    }
}

fn from_gateway(alloc: Global, lines: &[u8]) -> Result<Launch, Refusal> {
    let pairs = fields(alloc, lines)?;
    from_pairs(alloc, &pairs)
}

fn is_launch(
    alloc: Global,
    given: &Result<Launch, Refusal>,
    wanted: &str,
) -> Result<bool, NoMemory> {
    match given {
        Ok(launch) => Ok(is(shown_with_env(alloc, launch)?.as_slice(), wanted.as_bytes())),
        Err(_) => Ok(false),
    }
}

fn gives(alloc: Global, lines: &[u8], wanted: &str) -> Result<bool, NoMemory> {
    is_launch(alloc, &from_gateway(alloc, lines), wanted)
}

const BY_NAME: &[u8] = b"CONTENT_LENGTH=0\nSCGI=1\nREQUEST_METHOD=GET\nSCRIPT_NAME=/cgi-bin";

const FROM_NAME: &str = "\
/srv/cgi/hello /srv/cgi \nCONTENT_LENGTH=0
REQUEST_METHOD=GET
GATEWAY_INTERFACE=CGI/1.1
SCRIPT_NAME=/cgi-bin
";

const BY_URI: &[u8] = b"SCGI=1\nREQUEST_METHOD=GET\nQUERY_STRING=a+b\nREQUEST_URI=/x/../cgi-bin?q";

const FROM_URI: &str = "\
/srv/cgi/hello /srv/cgi a|b|
REQUEST_METHOD=GET
QUERY_STRING=a+b
REQUEST_URI=/x/../cgi-bin?q
GATEWAY_INTERFACE=CGI/1.1
SCRIPT_NAME=/cgi-bin
";

const MANY: &[u8] = b"SCRIPT_NAME=/cgi-bin/\xC3\xA9\nPATH_INFO=/%2F\nGATEWAY_INTERFACE=x\n\
PATH_TRANSLATED=/x\nHTTP_PROXY=p\nHTTP_AUTHORIZATION=s\nHTTP_PROXY_AUTHORIZATION=s\nX-1=u\nEMPTY=\n\
QUERY_STRING=\nHTTP_X= \xE9\t\nhttp_x=1";

const FROM_MANY: &str = "\
/srv/cgi/hello /srv/cgi \nQUERY_STRING=
HTTP_X=é
http_x=1
GATEWAY_INTERFACE=CGI/1.1
SCRIPT_NAME=/cgi-bin
PATH_INFO=/é/%2F
PATH_TRANSLATED=/srv/www/é/%2F
";

#[test]
fn gateways(rt: HostRuntime) -> Result<(), NoMemory> {
    for (lines, given) in [(BY_NAME, FROM_NAME), (BY_URI, FROM_URI), (MANY, FROM_MANY)] {
        assert!(&rt; gives(rt.alloc(), lines, given)?, "{given}");
    }
    Ok(())
}

fn is_cause(given: &Result<Launch, Refusal>, cause: Cause) -> bool {
    match given {
        Err(Refusal::Cause(given)) => *given == cause,
        _ => false,
    }
}

// Whether a gateway's variables are refused for a cause.
fn is_refused(alloc: Global, lines: &[u8], cause: Cause) -> bool {
    is_cause(&from_gateway(alloc, lines), cause)
}

static REFUSED: [(&[u8], Cause); 11] = [
    (b"REQUEST_METHOD=GET", Cause::BadParams),
    (b"REQUEST_URI=http://a/cgi-bin", Cause::BadParams),
    (b"SCRIPT_NAME=\nREQUEST_URI=/cgi-bin", Cause::BadParams),
    (b"SCRIPT_NAME=cgi-bin", Cause::BadParams),
    (b"REQUEST_URI=/cgi-bin/%zz", Cause::BadPath),
    (b"SCRIPT_NAME=/cgi-bin\nPATH_INFO=/\xFF", Cause::BadPath),
    (b"SCRIPT_NAME=/cgi-bin\nPATH_INFO=/..", Cause::NoScript),
    (b"SCRIPT_NAME=/cgi-bin\nPATH_INFO=/\0", Cause::NoScript),
    (b"REQUEST_URI=/cgi-bin%2F", Cause::NoScript),
    (b"SCRIPT_NAME=/ws", Cause::NoScript),
    (b"SCRIPT_NAME=/none\nHTTP_HOST=a@b", Cause::NoScript),
];

#[test]
fn refused_gateways(rt: HostRuntime) {
    for (lines, cause) in &REFUSED {
        assert!(&rt; is_refused(rt.alloc(), lines, *cause));
    }
}
