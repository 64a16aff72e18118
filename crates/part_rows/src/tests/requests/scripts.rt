// Targets, dot segments and scripts by the examples of their standards, and the causes at their edges.
// A table has a case a line, its words with a space between: `-` is no value and `_` an empty one.
ghost use Rattle.std.specs.Prelude.{IsTrue};
ghost use Rattle.script_map.specs.DotSegments.{IsRooted};
ghost use Rattle.script_map.specs.Redirects.{is_local};

use super::super::tables::{Cells, Rows, are_words_right, bytes_of, is, joined, push_field, value};
use super::RequestRows;
use host_base::{Bytes, Cause, Fields, Head, Mapped, NoMemory, Refusal, Target, Version};
use percent_encoding::percent_decode;
use script_map::{
    authority_host, is_local, map, map_decoded, path_target, redirect_target, remove_dot_segments,
    split_target,
};
use site_file::read_site;
use std::alloc::Global;
use std::process::Abort;
use std::test::Fail;

fn is_value(given: &Option<Bytes>, row: &Cells, place: usize) -> bool {
    match given {
        Some(bytes) => is(bytes.as_slice(), row.value(place)),
        None => row.is(place, "-"),
    }
}

// The field lines of a head with these values of Host.
fn fields(alloc: Global, hosts: &[Vec<u8>]) -> Result<Fields, NoMemory> {
    let mut fields = Fields::new(alloc);
    push_field(alloc, &mut fields, b"Accept", b"*/*")?;
    for host in hosts {
        push_field(alloc, &mut fields, b"hOST", value(host.as_slice()))?;
    }
    Ok(fields)
}

// The head of a line: method, target and version, and from a place on the values of Host.
fn head(alloc: Global, row: &Cells, place: usize) -> Result<Head, NoMemory> {
    head_with(alloc, row, row.value(1), place)
}

// The head of a line with another target.
fn head_with(alloc: Global, row: &Cells, target: &[u8], place: usize) -> Result<Head, NoMemory> {
    Ok(Head {
        method: bytes_of(alloc, row.at(0))?,
        target: bytes_of(alloc, target)?,
        version: row.version(2),
        fields: fields(alloc, row.from(place))?,
    })
}

fn cause_name(cause: Cause) -> &'static str {
    match cause {
        Cause::NotServed => "NotServed",
        Cause::BadHost => "BadHost",
        Cause::BadTarget => "BadTarget",
        Cause::BadPath => "BadPath",
        Cause::NoScript => "NoScript",
        Cause::UnknownHost => "UnknownHost",
        _ => "other",
    }
}

fn is_cause(refusal: &Refusal, row: &Cells, place: usize) -> bool {
    match refusal {
        Refusal::Cause(cause) => row.is(place, cause_name(*cause)),
        Refusal::NoMemory => false,
    }
}

fn is_target(given: &Result<Target, Refusal>, row: &Cells) -> bool {
    match given {
        Ok(target) => {
            is(target.path.as_slice(), row.at(3))
                && is_value(&target.query, row, 4)
                && is_value(&target.host, row, 5)
        }
        Err(_) => false,
    }
}

const TARGETS: &str = "\
GET / 1.1 / - a a
GET /a? 1.1 /a _ a a
GET /a?x=1?y 1.1 /a x=1?y a a:80
GET /?/../b 1.1 / /../b a a:
GET /a 1.0 /a - -
GET /a 1.0 /a - b b
GET /a 1.1 /a - - _
GET /a 1.1 /a - - :80
GET /a 1.1 /a - [::1] [::1]
GET /a 1.1 /a - [::1] [::1]:8080
GET /a 1.1 /a - [fe80::192.0.2.1] [fe80::192.0.2.1]:
GET /a 1.1 /a - 192.0.2.1 192.0.2.1:1
GET /a 1.1 /a - A-z.0_~!$&'()*+,;=%2F%fa A-z.0_~!$&'()*+,;=%2F%fa
GET //a/b 1.1 //a/b - a a
GET /a/./b/../c?./.. 1.1 /a/c ./.. a a
GET /%2e%2e/ 1.1 /%2e%2e/ - a a
GET http://b 1.1 / - b a
GET HTTP://b:80/c 1.1 /c - b a
GET hTtP://b?x=1 1.1 / x=1 b a
GET http://[::1]:1/../c? 1.1 /c _ [::1] a
GET http://b/http://c 1.1 /http://c - b a
GET http://b/ 1.0 / - b
GET http://b 1.1 / - b _
GET /cgi-bin/hello/a%20b/?x=1 1.1 /cgi-bin/hello/a%20b/ x=1 example.com example.com:8080";

// The target of a head, whose Host values stand in the line from a place on.
fn target_of(alloc: Global, row: &Cells, place: usize) -> Result<Target, Refusal> {
    split_target(alloc, &head(alloc, row, place)?)
}

pub fn is_split(alloc: Global, row: &Cells) -> Result<bool, NoMemory> {
    Ok(is_target(&target_of(alloc, row, 6), row))
}

#[test]
fn targets(rt: HostRuntime) -> Result<(), Fail> {
    are_words_right(
        &rt,
        rt.alloc(),
        TARGETS,
        24,
        Rows::Request(RequestRows::Target),
    )
}

const REFUSED_TARGETS: &str = "\
CONNECT a:80 1.1 NotServed a
CONNECT a:80 1.1 NotServed
CONNECT / 1.1 NotServed a a
OPTIONS * 1.1 NotServed a
OPTIONS * 1.1 NotServed
GET * 1.0 NotServed a @
connect a:80 1.1 BadTarget a
GET / 1.1 BadHost
GET / 1.1 BadHost a a
GET / 1.0 BadHost _ _
GET / 1.1 BadHost a@b
GET / 1.1 BadHost a:b
GET / 1.1 BadHost a:80:80
GET / 1.1 BadHost a/b
GET / 1.1 BadHost %zz
GET / 1.1 BadHost %2
GET / 1.1 BadHost a%
GET / 1.1 BadHost ::1
GET / 1.1 BadHost []
GET / 1.1 BadHost [::1
GET / 1.1 BadHost [::1]a
GET / 1.1 BadHost [v1.a]
GET / 1.1 BadHost a[::1]
GET a 1.1 BadHost a@b
GET a 1.1 BadTarget a
GET _ 1.1 BadTarget a
GET https://b/ 1.1 BadTarget a
GET http:/b/ 1.1 BadTarget a
GET http:// 1.1 BadTarget a
GET http:///a 1.1 BadTarget a
GET http://:80/ 1.1 BadTarget a
GET http://u@b/ 1.1 BadTarget a
GET /a#b 1.1 BadTarget a";

fn is_no_target(given: &Result<Target, Refusal>, row: &Cells) -> bool {
    match given {
        Ok(_) => false,
        Err(refusal) => is_cause(refusal, row, 3),
    }
}

pub fn is_refused_target(alloc: Global, row: &Cells) -> Result<bool, NoMemory> {
    Ok(is_no_target(&target_of(alloc, row, 4), row))
}

// The target of a head for the host of a line, with another target.
fn target_with(alloc: Global, row: &Cells, target: &[u8]) -> Result<Target, Refusal> {
    split_target(alloc, &head_with(alloc, row, target, 4)?)
}

// Whether a query that is no text is refused.
fn is_refused_query(alloc: Global) -> Result<bool, NoMemory> {
    let row = Cells::words(alloc, "GET / 1.1 BadTarget a")?;
    Ok(is_no_target(&target_with(alloc, &row, b"/a?\xFF"), &row))
}

#[test]
fn refused_targets(rt: HostRuntime) -> Result<(), Fail> {
    are_words_right(
        &rt,
        rt.alloc(),
        REFUSED_TARGETS,
        33,
        Rows::Request(RequestRows::RefusedTarget),
    )?;
    assert!(&rt; is_refused_query(rt.alloc())?);
    Ok(())
}

fn is_rooted(path: &[u8]) -> bool
    ensures { IsTrue result → IsRooted path.now }
{
    match path {
        [first, ..] => *first == b'/',
        [] => false,
    }
}

const PATHS: &str = "\
/a/b/c/./../../g /a/g
/mid/content=5/../6 /mid/6
/b/c/g /b/c/g
/b/c/g/ /b/c/g/
/b/c/. /b/c/
/b/c/./ /b/c/
/b/c/.. /b/
/b/c/../ /b/
/b/c/../g /b/g
/b/c/../.. /
/b/c/../../ /
/b/c/../../g /g
/b/c/../../../g /g
/b/c/../../../../g /g
/./g /g
/../g /g
/b/c/g. /b/c/g.
/b/c/.g /b/c/.g
/b/c/g.. /b/c/g..
/b/c/..g /b/c/..g
/b/c/./../g /b/g
/b/c/./g/. /b/c/g/
/b/c/g/./h /b/c/g/h
/b/c/g/../h /b/c/h
/b/c/g;x=1/./y /b/c/g;x=1/y
/b/c/g;x=1/../y /b/c/y
/.. /
/. /
/ /
// //
/a//../b /a/b
/a/... /a/...
/..//a //a
/%2e%2e/ /%2e%2e/";

pub fn is_path(alloc: Global, row: &Cells) -> Result<bool, NoMemory> {
    let path = row.at(0);
    Ok(is_rooted(path) && is(remove_dot_segments(alloc, path)?.as_slice(), row.at(1)))
}

#[test]
fn dot_segments(rt: HostRuntime) -> Result<(), Fail> {
    are_words_right(&rt, rt.alloc(), PATHS, 34, Rows::Request(RequestRows::Path))
}

// The file of a site of three hosts: the first has these scripts, and the last may take any name.
fn site_text(alloc: Global, first: &[u8], second: &[u8], any: bool) -> Result<Vec<u8>, NoMemory> {
    joined(
        alloc,
        &[
            FRONT,
            first,
            BETWEEN,
            second,
            BEHIND,
            if any { b"true\n" } else { b"false\n" },
        ],
    )
}

const FRONT: &[u8] = b"\
version = 2
[[host]]
name = \"a.example\"
aliases = [\"www.a.example\"]
root = \"/srv/www\"
[[host.script]]
program = \"/bin/cat\"
path = \"";

const BETWEEN: &[u8] = b"\"
[[host.script]]
program = \"/bin/cat\"
path = \"";

const BEHIND: &[u8] = b"\"
[[host]]
name = \"b.example\"
aliases = [\"[::1]\"]
root = \"/srv/www\"
script = [{ path = \"/t\", program = \"/bin/cat\" }, { path = \"/both\", program = \"/bin/cat\" }]
[[host]]
name = \"C.Example\"
aliases = [\"D.Example\"]
root = \"/srv/www\"
script = [{ path = \"/u\", program = \"/bin/cat\" }, { path = \"/both\", program = \"/bin/cat\" }]
any = ";

// The script of a target at the site of a file.
fn mapped(alloc: Global, file: &[u8], target: &Target) -> Result<Mapped, Refusal> {
    match read_site(alloc, file) {
        Ok(site) => map(alloc, &site, target),
        Err(_) => Err(Refusal::NoMemory),
    }
}

// Whether the script and the PATH_INFO are those of two words of a line.
fn has_names(mapped: &Mapped, row: &Cells, place: usize) -> bool {
    is(mapped.script_name.as_bytes(), row.at(place))
        && is(
            mapped.path_info.as_bytes(),
            row.value(place.saturating_add(1)),
        )
}

fn is_of_first_host(mapped: &Mapped, row: &Cells) -> bool {
    (mapped.index == 1) == row.is(1, "/cgi-bin/hello") && mapped.host == 0
}

fn is_mapped(given: &Result<Mapped, Refusal>, row: &Cells) -> bool {
    match given {
        Ok(mapped) => has_names(mapped, row, 1) && is_of_first_host(mapped, row),
        Err(_) => false,
    }
}

// The target of a GET in HTTP/1.1.
fn target_asked(alloc: Global, target: &[u8]) -> Result<Target, Refusal> {
    let row = Cells::words(alloc, "GET / 1.1 - a.example:8080")?;
    target_with(alloc, &row, target)
}

// Its script, of a first host with these two.
fn asked(alloc: Global, first: &[u8], second: &[u8], target: &[u8]) -> Result<Mapped, Refusal> {
    let file = site_text(alloc, first, second, true)?;
    mapped(alloc, file.as_slice(), &target_asked(alloc, target)?)
}

fn hello(alloc: Global, target: &[u8]) -> Result<Mapped, Refusal> {
    asked(alloc, b"/cgi-bin", b"/cgi-bin/hello", target)
}

const SCRIPTS: &str = "\
/cgi-bin/hello /cgi-bin/hello _
/%63gi-bin/h%65llo /cgi-bin/hello _
/cgi-bin/hello/ /cgi-bin/hello /
/cgi-bin/hellox /cgi-bin /hellox
/cgi-bin/hell /cgi-bin /hell
/cgi-bin/other/hello /cgi-bin /other/hello
/cgi-bin /cgi-bin _
/cgi-bin//hello /cgi-bin //hello
/cgi-bin/hello/%C3%a9 /cgi-bin/hello /é
/cgi-bin/hello/%2525 /cgi-bin/hello /%25
/cgi-bin/hello/%252F /cgi-bin/hello /%2F
/cgi-bin/hello/..x/.%2e. /cgi-bin/hello /..x/...
/x/../cgi-bin/hello /cgi-bin/hello _
http://www.A.example/cgi-bin/hello/b /cgi-bin/hello /b";

pub fn is_script(alloc: Global, row: &Cells) -> Result<bool, NoMemory> {
    Ok(is_mapped(&hello(alloc, row.at(0)), row))
}

fn has_path_info(given: &Result<Mapped, Refusal>, due: &[u8]) -> bool {
    match given {
        Ok(mapped) => is(mapped.path_info.as_bytes(), due),
        Err(_) => false,
    }
}

#[test]
fn scripts(rt: HostRuntime) -> Result<(), Fail> {
    are_words_right(
        &rt,
        rt.alloc(),
        SCRIPTS,
        14,
        Rows::Request(RequestRows::Script),
    )?;
    assert!(&rt; has_path_info(&hello(rt.alloc(), b"/cgi-bin/hello/a%20b/?x=1"), b"/a b/"));
    Ok(())
}

const REFUSED_PATHS: &str = "\
/a%zz BadPath
/cgi-bin/hello/% BadPath
/cgi-bin/hello/%4 BadPath
/cgi-bin/hello/%4g BadPath
/cgi-bin/hello/%%41 BadPath
/cgi-bin/hello/%FF BadPath
/cgi-bin/hello/%C3 BadPath
/cgi-bin/hello/%C0%AF BadPath
/cgi-bin/hello/%E0%80%AF BadPath
/cgi-bin/hello/%ED%A0%80 BadPath
/cgi-bin/hello/%2F%zz BadPath
/cgi-bin/hello/%00%FF BadPath
/a%2Fb NoScript
/cgi-bin%2fhello NoScript
/cgi-bin/hello/a%2Fb NoScript
/cgi-bin/hello/%2f NoScript
/cgi-bin/hello/%00 NoScript
/cgi-bin/hello%00 NoScript
/%2e%2e/x NoScript
/cgi-bin/hello/%2E%2e NoScript
/cgi-bin/hello/%2e/a NoScript
/cgi-bin/hello/.%2E/a NoScript
/none NoScript
/ NoScript
/cgi-bin NoScript
/cgi-bin/hellox NoScript
//cgi-bin/hello NoScript";

fn is_unmapped(given: &Result<Mapped, Refusal>, row: &Cells, place: usize) -> bool {
    match given {
        Ok(_) => false,
        Err(refusal) => is_cause(refusal, row, place),
    }
}

pub fn is_refused_path(alloc: Global, row: &Cells) -> Result<bool, NoMemory> {
    let given = asked(alloc, b"/cgi-bin/hello", b"/cgi-bin/form", row.at(0));
    Ok(is_unmapped(&given, row, 1))
}

#[test]
fn refused_paths(rt: HostRuntime) -> Result<(), Fail> {
    are_words_right(
        &rt,
        rt.alloc(),
        REFUSED_PATHS,
        27,
        Rows::Request(RequestRows::RefusedPath),
    )
}

// The script of a head: method, target and version, and from the fifth word on the values of Host.
fn asked_at(alloc: Global, any: bool, row: &Cells) -> Result<Mapped, Refusal> {
    let file = site_text(alloc, b"/s", b"/both", any)?;
    mapped(alloc, file.as_slice(), &target_of(alloc, row, 4)?)
}

fn place_name(host: u32) -> &'static str {
    match host {
        0 => "first",
        1 => "second",
        _ => "third",
    }
}

// Whether the fourth word of the line is the place of the mapped host, or the cause.
fn is_answer(given: &Result<Mapped, Refusal>, row: &Cells) -> bool {
    match given {
        Ok(mapped) => row.is(3, place_name(mapped.host)),
        Err(refusal) => is_cause(refusal, row, 3),
    }
}

const KNOWN_HOSTS: &str = "\
GET /s 1.1 first a.example
GET /s 1.1 first A.EXAMPLE
GET /s 1.1 first WWW.A.example:8080
GET /both 1.1 first www.a.example
GET /t 1.1 second b.example
GET /both 1.1 second B.example:
GET /t 1.1 second [::1]:80
GET /u 1.1 third c.example
GET /u 1.1 third d.EXAMPLE
GET /s 1.0 first
GET /s 1.1 first _
GET /s 1.1 first :80
GET http://B.example/t 1.1 second a.example
GET /s 1.1 NoScript b.example
GET /t 1.1 NoScript a.example
GET /%zz 1.1 BadPath a.example";

const OTHER_HOSTS: &str = "\
GET /u 1.1 third c
GET /both 1.1 third a.example.
GET /u 1.1 third ww.a.example
GET http://e.example/u 1.1 third a.example
GET /s 1.1 NoScript c";

const UNKNOWN_HOSTS: &str = "\
GET /s 1.1 UnknownHost c
GET /u 1.1 UnknownHost a.exampl
GET /u 1.1 UnknownHost a.example.
GET /u 1.1 UnknownHost [::2]
GET /%zz 1.1 UnknownHost c
GET /%2e%2e/ 1.1 UnknownHost c
GET http://e.example/u 1.1 UnknownHost a.example";

pub fn is_host_of_any(alloc: Global, row: &Cells) -> Result<bool, NoMemory> {
    Ok(is_answer(&asked_at(alloc, true, row), row))
}

pub fn is_host(alloc: Global, row: &Cells) -> Result<bool, NoMemory> {
    Ok(is_answer(&asked_at(alloc, false, row), row))
}

#[test]
fn hosts(rt: HostRuntime) -> Result<(), Fail> {
    are_hosts(&rt, rt.alloc(), KNOWN_HOSTS)?;
    are_words_right(
        &rt,
        rt.alloc(),
        OTHER_HOSTS,
        5,
        Rows::Request(RequestRows::HostOfAny),
    )?;
    are_words_right(
        &rt,
        rt.alloc(),
        UNKNOWN_HOSTS,
        7,
        Rows::Request(RequestRows::Host),
    )
}

// What a site does whether or not its last host takes any name.
fn are_hosts<R: Abort>(rt: &R, alloc: Global, table: &'static str) -> Result<(), Fail> {
    are_words_right(rt, alloc, table, 16, Rows::Request(RequestRows::HostOfAny))?;
    are_words_right(rt, alloc, table, 16, Rows::Request(RequestRows::Host))
}

// A path with escapes, what it decodes to being asked of a host; its script and PATH_INFO, or the cause.
const DECODED_PATHS: &str = "\
/s a.example /s _
/s - /s _
/s/ A.example /s /
/s/%C3%A9%252F a.example /s /é%2F
/sx a.example NoScript -
/s/. a.example NoScript -
/s/.. a.example NoScript -
/./s a.example NoScript -
/../s a.example NoScript -
/s/%00 a.example NoScript -
/t a.example NoScript -
/s b.example NoScript -
/t b.example /t _
/%2574 b.example NoScript -
/s/../%C3( a.example BadPath -
/%FF b.example BadPath -
/s c UnknownHost -
/%FF c UnknownHost -
/.. c UnknownHost -";

fn decoded(alloc: Global, word: &[u8]) -> Result<Vec<u8>, NoMemory> {
    let mut bytes = Vec::new(alloc);
    percent_decode(word).append_to(&mut bytes)?;
    Ok(bytes)
}

fn is_decoded(given: &Result<Mapped, Refusal>, row: &Cells) -> bool {
    match given {
        Ok(mapped) => has_names(mapped, row, 2),
        Err(refusal) => is_cause(refusal, row, 2),
    }
}

// The script of a path that is decoded, at a host of the site of a file.
fn decoded_at(alloc: Global, file: &[u8], row: &Cells, path: &[u8]) -> Result<Mapped, Refusal> {
    match read_site(alloc, file) {
        Ok(site) => map_decoded(alloc, &site, row.value_or_none(1), path),
        Err(_) => Err(Refusal::NoMemory),
    }
}

pub fn is_decoded_path(alloc: Global, row: &Cells) -> Result<bool, NoMemory> {
    let file = site_text(alloc, b"/s", b"/both", false)?;
    let path = decoded(alloc, row.at(0))?;
    Ok(is_decoded(
        &decoded_at(alloc, file.as_slice(), row, path.as_slice()),
        row,
    ))
}

#[test]
fn decoded_paths(rt: HostRuntime) -> Result<(), Fail> {
    are_words_right(
        &rt,
        rt.alloc(),
        DECODED_PATHS,
        19,
        Rows::Request(RequestRows::DecodedPath),
    )
}

// A Location with escapes, the host of the old target, and the path and the query of the new one where what
// the location decodes to is a local one.
const LOCATIONS: &str = "\
/x - /x -
/x?a=1?b [::1] /x a=1?b
/x? a /x _
/? a / _
/x/../y/. a /y/ -
/%252e%252e/%25zz a /%2e%2e/%zz -
/!\"$%25&'()*+,-.:;<=>@[\\]^_`{|}~ a /!\"$%&'()*+,-.:;<=>@[\\]^_`{|}~ -
/x#y a no -
/x?a#b a no -
x a no -
_ a no -
http://a/x a no -
/%C3%A9 a no -
/a%20b a no -
/a%09b a no -
/a%7F a no -";

fn is_redirected(given: &Target, row: &Cells) -> bool {
    is(given.path.as_slice(), row.at(2))
        && is_value(&given.query, row, 3)
        && is_value(&given.host, row, 1)
}

fn is_old(target: &Target) -> bool {
    is(target.path.as_slice(), b"/o?") && is_none(&target.query)
}

fn is_none(bytes: &Option<Bytes>) -> bool {
    match bytes {
        Some(_) => false,
        None => true,
    }
}

fn old_target(alloc: Global, host: Option<&[u8]>) -> Result<Target, NoMemory> {
    path_target(alloc, b"/old/../o?", host)
}

fn is_redirected_from(
    alloc: Global,
    location: &[u8],
    old: &Target,
    row: &Cells,
) -> Result<bool, NoMemory>
    requires { IsTrue (is_local location.now) }
{
    Ok(is_redirected(&redirect_target(alloc, location, old)?, row) && is_old(old))
}

fn is_location(alloc: Global, location: &[u8], row: &Cells) -> Result<bool, NoMemory> {
    if !is_local(location) {
        return Ok(row.is(2, "no"));
    }
    let old = old_target(alloc, row.value_or_none(1))?;
    is_redirected_from(alloc, location, &old, row)
}

pub fn is_right_location(alloc: Global, row: &Cells) -> Result<bool, NoMemory> {
    let location = decoded(alloc, row.value(0))?;
    is_location(alloc, location.as_slice(), row)
}

#[test]
fn locations(rt: HostRuntime) -> Result<(), Fail> {
    are_words_right(
        &rt,
        rt.alloc(),
        LOCATIONS,
        16,
        Rows::Request(RequestRows::Location),
    )
}

// A value of Host and the host that it names.
const AUTHORITIES: &str = "\
a a
a:80 a
a: a
[::1]:80 [::1]
A-z.0_~%2F A-z.0_~%2F
_ -
:80 -
a:b -
u@a -
[::1 -
a%z -";

pub fn is_authority(_: Global, row: &Cells) -> Result<bool, NoMemory> {
    Ok(match authority_host(row.value(0)) {
        Some(host) => is(host, row.at(1)),
        None => row.is(1, "-"),
    })
}

#[test]
fn authorities(rt: HostRuntime) -> Result<(), Fail> {
    are_words_right(
        &rt,
        rt.alloc(),
        AUTHORITIES,
        11,
        Rows::Request(RequestRows::Authority),
    )
}
