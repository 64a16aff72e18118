// Requests as web servers send them: nginx 1.22 with a header that its client repeats, and without; lighttpd 1.4; Apache 2.4.
ghost use Rattle.std.specs.Prelude.{◌<◌};

use crate::{Heard, Reading, ScgiStep, read_scgi};
use host_base::{Cause, Limits};
use std::alloc::Global;

// The bytes used and a thousand for each byte of body; or a small number for what else is answered.
fn used(alloc: Global, bytes: &[u8]) -> usize {
    match read_scgi(alloc, bytes, &Limits::default()) {
        Ok(ScgiStep::Whole { request, used }) => used.saturating_add(
            request.body.len().saturating_mul(1000),
        ),
        Ok(ScgiStep::More) => 1,
        Ok(ScgiStep::Bad(Cause::BadScgi)) => 2,
        Ok(ScgiStep::Bad(_)) => 3,
        Err(_) => 4,
    }
}

#[test]
fn recorded(rt: HostRuntime) {
    let alloc = rt.alloc();
    assert!(rt;
        used(
            alloc,
            b"489:CONTENT_LENGTH\x003\x00REQUEST_METHOD\x00POST\x00REQUEST_URI\x00/cgi-bin/hello/a%20b?x=1\x00QUERY_STRING\x00x=1\x00CONTENT_TYPE\x00application/x-www-form-urlencoded\x00DOCUMENT_URI\x00/cgi-bin/hello/a b\x00DOCUMENT_ROOT\x00/usr/share/nginx/html\x00SCGI\x001\x00SERVER_PROTOCOL\x00HTTP/1.1\x00REQUEST_SCHEME\x00http\x00REMOTE_ADDR\x00127.0.0.1\x00REMOTE_PORT\x0042820\x00SERVER_PORT\x0019110\x00SERVER_NAME\x00\x00HTTP_HOST\x00127.0.0.1\x00HTTP_USER_AGENT\x00curl/7.88.1\x00HTTP_ACCEPT\x00*/*\x00HTTP_X_A\x001\x00HTTP_X_A\x002\x00HTTP_CONTENT_LENGTH\x003\x00HTTP_CONTENT_TYPE\x00application/x-www-form-urlencoded\x00,x=1"
        ) == 2
    );
    assert!(rt;
        used(
            alloc,
            b"597:CONTENT_LENGTH\x003\x00QUERY_STRING\x00x=1\x00REQUEST_URI\x00/cgi-bin/hello/a%20b?x=1\x00REDIRECT_STATUS\x00200\x00SCRIPT_NAME\x00/cgi-bin/hello\x00PATH_INFO\x00/a b\x00PATH_TRANSLATED\x00/srv/a b\x00SCRIPT_FILENAME\x00/srv/cgi-bin/hello\x00DOCUMENT_ROOT\x00/tmp\x00REQUEST_METHOD\x00POST\x00SERVER_PROTOCOL\x00HTTP/1.1\x00SERVER_SOFTWARE\x00lighttpd/1.4.69\x00GATEWAY_INTERFACE\x00CGI/1.1\x00REQUEST_SCHEME\x00http\x00SERVER_PORT\x0019111\x00SERVER_ADDR\x00127.0.0.1\x00SERVER_NAME\x00127.0.0.1\x00REMOTE_ADDR\x00127.0.0.1\x00REMOTE_PORT\x0054530\x00HTTP_HOST\x00127.0.0.1:19111\x00HTTP_USER_AGENT\x00curl/7.88.1\x00HTTP_ACCEPT\x00*/*\x00HTTP_X_A\x001, 2\x00HTTP_CONTENT_LENGTH\x003\x00CONTENT_TYPE\x00application/x-www-form-urlencoded\x00SCGI\x001\x00,x=1"
        ) == 3605
    );
    assert!(rt;
        used(
            alloc,
            b"597:CONTENT_LENGTH\x003\x00QUERY_STRING\x00x=1\x00REQUEST_URI\x00/cgi-bin/hello/a%20b?x=1\x00REDIRECT_STATUS\x00200\x00SCRIPT_NAME\x00/cgi-bin/hello\x00PATH_INFO\x00/a b\x00PATH_TRANSLATED\x00/srv/a b\x00SCRIPT_FILENAME\x00/srv/cgi-bin/hello\x00DOCUMENT_ROOT\x00/tmp\x00REQUEST_METHOD\x00POST\x00SERVER_PROTOCOL\x00HTTP/1.1\x00SERVER_SOFTWARE\x00lighttpd/1.4.69\x00GATEWAY_INTERFACE\x00CGI/1.1\x00REQUEST_SCHEME\x00http\x00SERVER_PORT\x0019111\x00SERVER_ADDR\x00127.0.0.1\x00SERVER_NAME\x00127.0.0.1\x00REMOTE_ADDR\x00127.0.0.1\x00REMOTE_PORT\x0054530\x00HTTP_HOST\x00127.0.0.1:19111\x00HTTP_USER_AGENT\x00curl/7.88.1\x00HTTP_ACCEPT\x00*/*\x00HTTP_X_A\x001, 2\x00HTTP_CONTENT_LENGTH\x003\x00CONTENT_TYPE\x00application/x-www-form-urlencoded\x00SCGI\x001\x00,x="
        ) == 1
    );
    assert!(rt;
        used(
            alloc,
            b"655:CONTENT_LENGTH\x003\x00SCGI\x001\x00HTTP_HOST\x00127.0.0.1:19112\x00HTTP_USER_AGENT\x00curl/7.88.1\x00HTTP_ACCEPT\x00*/*\x00HTTP_X_A\x001, 2\x00CONTENT_TYPE\x00application/x-www-form-urlencoded\x00PATH\x00/usr/bin\x00SERVER_SIGNATURE\x00\x00SERVER_SOFTWARE\x00Apache/2.4.71 (Debian)\x00SERVER_NAME\x00127.0.0.1\x00SERVER_ADDR\x00127.0.0.1\x00SERVER_PORT\x0019112\x00REMOTE_ADDR\x00127.0.0.1\x00DOCUMENT_ROOT\x00/var/www/html\x00REQUEST_SCHEME\x00http\x00CONTEXT_PREFIX\x00\x00CONTEXT_DOCUMENT_ROOT\x00/var/www/html\x00SERVER_ADMIN\x00[no address given]\x00SCRIPT_FILENAME\x00proxy:scgi://127.0.0.1:19101/cgi-bin/hello/a%20b\x00REMOTE_PORT\x0043782\x00SERVER_PROTOCOL\x00HTTP/1.1\x00REQUEST_METHOD\x00POST\x00QUERY_STRING\x00x=1\x00REQUEST_URI\x00/cgi-bin/hello/a%20b?x=1\x00SCRIPT_NAME\x00/cgi-bin/hello/a b\x00,x=1"
        ) == 3663
    );
    assert!(rt;
        used(
            alloc,
            b"655:CONTENT_LENGTH\x003\x00SCGI\x001\x00HTTP_HOST\x00127.0.0.1:19112\x00HTTP_USER_AGENT\x00curl/7.88.1\x00HTTP_ACCEPT\x00*/*\x00HTTP_X_A\x001, 2\x00CONTENT_TYPE\x00application/x-www-form-urlencoded\x00PATH\x00/usr/bin\x00SERVER_SIGNATURE\x00\x00SERVER_SOFTWARE\x00Apache/2.4.71 (Debian)\x00SERVER_NAME\x00127.0.0.1\x00SERVER_ADDR\x00127.0.0.1\x00SERVER_PORT\x0019112\x00REMOTE_ADDR\x00127.0.0.1\x00DOCUMENT_ROOT\x00/var/www/html\x00REQUEST_SCHEME\x00http\x00CONTEXT_PREFIX\x00\x00CONTEXT_DOCUMENT_ROOT\x00/var/www/html\x00SERVER_ADMIN\x00[no address given]\x00SCRIPT_FILENAME\x00proxy:scgi://127.0.0.1:19101/cgi-bin/hello/a%20b\x00REMOTE_PORT\x0043782\x00SERVER_PROTOCOL\x00HTTP/1.1\x00REQUEST_METHOD\x00POST\x00QUERY_STRING\x00x=1\x00REQUEST_URI\x00/cgi-bin/hello/a%20b?x=1\x00SCRIPT_NAME\x00/cgi-bin/hello/a b\x00,x="
        ) == 1
    );
    assert!(rt;
        used(
            alloc,
            b"478:CONTENT_LENGTH\x003\x00REQUEST_METHOD\x00POST\x00REQUEST_URI\x00/cgi-bin/hello/a%20b?x=1\x00QUERY_STRING\x00x=1\x00CONTENT_TYPE\x00application/x-www-form-urlencoded\x00DOCUMENT_URI\x00/cgi-bin/hello/a b\x00DOCUMENT_ROOT\x00/usr/share/nginx/html\x00SCGI\x001\x00SERVER_PROTOCOL\x00HTTP/1.1\x00REQUEST_SCHEME\x00http\x00REMOTE_ADDR\x00127.0.0.1\x00REMOTE_PORT\x0042820\x00SERVER_PORT\x0019110\x00SERVER_NAME\x00\x00HTTP_HOST\x00127.0.0.1\x00HTTP_USER_AGENT\x00curl/7.88.1\x00HTTP_ACCEPT\x00*/*\x00HTTP_X_A\x001\x00HTTP_CONTENT_LENGTH\x003\x00HTTP_CONTENT_TYPE\x00application/x-www-form-urlencoded\x00,x=1"
        ) == 3486
    );
}

// How many variables and how many bytes of body a request has that is heard in pieces of so many bytes; none where it is
// refused or not whole.
fn heard(alloc: Global, bytes: &[u8], size: usize) -> Option<(usize, usize)>
    requires { 0 < size }
{
    let mut reading = Reading::new(alloc, &Limits::default());
    for piece in bytes.chunks(size) {
        match reading.hear(piece) {
            Ok(Heard::More(next)) => reading = next,
            Ok(Heard::Whole(request)) => return Some((
                request.fields().len(),
                request.body().len(),
            )),
            Ok(Heard::Bad(_)) | Err(_) => return None,
        }
    }
    None
}

// Whether a request that is heard in pieces of so many bytes is refused for this cause.
fn refused(alloc: Global, bytes: &[u8], size: usize, cause: Cause) -> bool
    requires { 0 < size }
{
    let mut reading = Reading::new(alloc, &Limits::default());
    for piece in bytes.chunks(size) {
        match reading.hear(piece) {
            Ok(Heard::More(next)) => reading = next,
            Ok(Heard::Bad(found)) => return found == cause,
            Ok(Heard::Whole(_)) | Err(_) => return false,
        }
    }
    false
}

const SHORT: &[u8] =
    b"70:CONTENT_LENGTH\x000\x00SCGI\x001\x00REQUEST_METHOD\x00GET\x00SCRIPT_NAME\x00/cgi-bin/hello\x00,";

const WITH_BODY: &[u8] = b"28:CONTENT_LENGTH\x003\x00SCGI\x001\x00X\x00y\x00,abcdef";

#[test]
fn in_pieces(rt: HostRuntime) {
    let alloc = rt.alloc();
    for size in 1..80 {
        assert_eq!(rt; heard(alloc, SHORT, size), Some((4, 0)));
        assert_eq!(rt; heard(alloc, WITH_BODY, size), Some((3, 3)));
        assert!(rt; refused(alloc, b"x", size, Cause::BadScgi));
        assert!(rt; refused(alloc, b"123456:", size, Cause::HeadTooLong));
        assert!(rt;
            refused(
                alloc,
                b"24:CONTENT_LENGTH\x000\x00SCGI\x001\x00;",
                size,
                Cause::BadScgi
            )
        );
    }
}
