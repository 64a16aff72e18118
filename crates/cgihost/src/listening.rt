// Where the site listens that a check found good.
ghost use Rattle.std.specs.Prelude.{Some};
ghost use Rattle.cgihost.specs.StatusLines.{listening_line};

use site_file::{one_script, read_site};
use std::alloc::Global;
use std::fmt;

/// The line on standard error for the IPv4 address and the port of a site.
#[derive(Clone, Copy)]
pub struct ListeningLine<'s> {
    pub address: &'s str,
    pub port: u16,
}

impl fmt::Display for ListeningLine<'_> {
    ghost output = { λ line. Some (listening_line line.address.now line.port) };

    fn fmt<W: fmt::Write>(&self, f: &mut fmt::Formatter<W>) -> fmt::Result {
        write!(f, "cgihost: listens at {}:{}", self.address, self.port)
    }
}

/// Says where the site listens that `check` found good: that of the file with these bytes, or of one script, where no file was
/// read.
pub fn say_listening<R: Eprint>(rt: &R, alloc: Global, file: Option<&[u8]>) {
    let site = match file {
        Some(bytes) => read_site(alloc, bytes),
        None => one_script(alloc, "/x", "/x"),
    };
    if let Ok(site) = site {
        let line = ListeningLine {
            address: site.listen.as_str(),
            port: site.port,
        };
        let _ = rt.eprintln(line);
    }
}
