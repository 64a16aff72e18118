// What children are started with and fed.
ghost use Rattle.host_base.specs.SiteRules.{IsServed};

use super::super::are_right;
use super::super::parts::Parts;
use super::super::recorder::Recorder;
use super::{SITE, played, script_of};
use host_base::Site;
use site_file::read_site;
use std::alloc::Global;
use std::test::Fail;

// What is heard, what children are started with, and what they are fed.
#[derive(Clone, Copy)]
struct Case {
    heard: &'static str,
    launched: &'static str,
    fed: &'static str,
}

const ONE_WITHIN_THE_OTHER: &str = "version = 1
name = \"localhost\"
port = 8080
root = \"/srv/www\"

[[script]]
path = \"/cgi-bin\"
program = \"/srv/cgi/all\"

[[script]]
path = \"/cgi-bin/hello\"
program = \"/srv/cgi/hello\"
";

const AT_THE_SECOND: Case = Case {
    heard: r"Accept
Client 0 GET /cgi-bin/hello/a%20b/?x=1 HTTP/1.1\r\nHost: example.com:8080\r\n\r\n
",
    launched: "/srv/cgi/hello
/srv/cgi
GATEWAY_INTERFACE=CGI/1.1
PATH_INFO=/a b/
PATH_TRANSLATED=/srv/www/a b/
QUERY_STRING=x=1
REMOTE_ADDR=192.0.2.1
REMOTE_HOST=192.0.2.1
REQUEST_METHOD=GET
SCRIPT_NAME=/cgi-bin/hello
SERVER_NAME=example.com
SERVER_PORT=8080
SERVER_PROTOCOL=HTTP/1.1
SERVER_SOFTWARE=cgihost/1
HTTP_HOST=example.com:8080
",
    fed: "",
};

const CASES: [Case; 3] = [
    Case {
        heard: r"Accept
Client 0 POST /cgi-bin/form HTTP/1.1\r\nHost: a\r\nConnection: close\r\nContent-Length: 3\r\n\r\nx=1
Started 0
Out 0 Location: /cgi-bin/hello\n\n
OutEnd 0
Exited 0
",
        launched: "/srv/cgi/form
/srv/cgi
CONTENT_LENGTH=3
GATEWAY_INTERFACE=CGI/1.1
QUERY_STRING=
REMOTE_ADDR=192.0.2.1
REMOTE_HOST=192.0.2.1
REQUEST_METHOD=POST
SCRIPT_NAME=/cgi-bin/form
SERVER_NAME=a
SERVER_PORT=8080
SERVER_PROTOCOL=HTTP/1.1
SERVER_SOFTWARE=cgihost/1
HTTP_HOST=a
/srv/cgi/hello
/srv/cgi
GATEWAY_INTERFACE=CGI/1.1
QUERY_STRING=
REMOTE_ADDR=192.0.2.1
REMOTE_HOST=192.0.2.1
REQUEST_METHOD=GET
SCRIPT_NAME=/cgi-bin/hello
SERVER_NAME=a
SERVER_PORT=8080
SERVER_PROTOCOL=HTTP/1.1
SERVER_SOFTWARE=cgihost/1
HTTP_HOST=a
",
        fed: "x=1",
    },
    Case {
        heard: r"Accept
Client 0 POST /cgi-bin/form HTTP/1.1\r\nHost: a\r\nContent-Length: 1048576\r\n\r\n
",
        launched: "/srv/cgi/form
/srv/cgi
CONTENT_LENGTH=1048576
GATEWAY_INTERFACE=CGI/1.1
QUERY_STRING=
REMOTE_ADDR=192.0.2.1
REMOTE_HOST=192.0.2.1
REQUEST_METHOD=POST
SCRIPT_NAME=/cgi-bin/form
SERVER_NAME=a
SERVER_PORT=8080
SERVER_PROTOCOL=HTTP/1.1
SERVER_SOFTWARE=cgihost/1
HTTP_HOST=a
",
        fed: "",
    },
    Case {
        heard: r"Accept
Client 0 GET /cgi-bin/hello HTTP/1.0\r\n\r\n
",
        launched: "/srv/cgi/hello
/srv/cgi
GATEWAY_INTERFACE=CGI/1.1
QUERY_STRING=
REMOTE_ADDR=192.0.2.1
REMOTE_HOST=192.0.2.1
REQUEST_METHOD=GET
SCRIPT_NAME=/cgi-bin/hello
SERVER_NAME=localhost
SERVER_PORT=8080
SERVER_PROTOCOL=HTTP/1.0
SERVER_SOFTWARE=cgihost/1
",
        fed: "",
    },
];

// What a case starts children with, where that or what they are fed is not what it must be.
fn check(said: &mut Parts, case: &Case, out: &Recorder) {
    let launched = out.told.launched.has(case.launched.as_bytes());
    if !launched || !out.told.fed.has(case.fed.as_bytes()) || out.told.is_lost() {
        said.push("started ");
        said.add_parts(&out.told.launched);
    }
}

fn check_at(alloc: Global, site: &Site, case: &Case, said: &mut Parts)
    requires { IsServed site.now }
{
    let script = script_of(alloc, "", case.heard, false);
    let out = played(alloc, site, script, None);
    check(said, case, &out);
}

fn check_all_at(alloc: Global, site: &Site, cases: &[Case], said: &mut Parts)
    requires { IsServed site.now }
{
    for case in cases {
        check_at(alloc, site, case, said);
    }
}

fn check_all(alloc: Global, site: &str, cases: &[Case], said: &mut Parts) {
    match read_site(alloc, site.as_bytes()) {
        Ok(site) => check_all_at(alloc, &site, cases, said),
        Err(_) => said.push("no site"),
    }
}

#[test]
fn children_are_started_with_their_environment(rt: HostRuntime) -> Result<(), Fail> {
    let mut said = Parts::new(rt.alloc());
    check_all(
        rt.alloc(),
        ONE_WITHIN_THE_OTHER,
        &[AT_THE_SECOND],
        &mut said,
    );
    check_all(rt.alloc(), SITE, CASES.as_slice(), &mut said);
    are_right(&rt, &said)
}
