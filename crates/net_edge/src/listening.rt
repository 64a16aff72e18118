// The lines that say where a server listens, or can't.
ghost use Rattle.std.specs.Prelude.{Some};
ghost use Rattle.net_edge.specs.Makers.{listening_text, refused_text};

use std::{fmt, io};

/// Says where a server listens.
#[derive(Clone, Copy)]
pub struct Listening<'s> {
    pub address: &'s str,
    pub port: u16,
}

impl fmt::Display for Listening<'_> {
    ghost output = { λ l. Some (listening_text l.address.now l.port) };

    fn fmt<W: fmt::Write>(&self, f: &mut fmt::Formatter<W>) -> fmt::Result {
        write!(f, "cgihost: listening on {}:{}", self.address, self.port)
    }
}

/// Says where a server can't listen, and the system's reason.
#[derive(Clone, Copy)]
pub struct NotHad<'s> {
    pub address: &'s str,
    pub port: u16,
    pub reason: &'s io::Error,
}

impl fmt::Display for NotHad<'_> {
    fn fmt<W: fmt::Write>(&self, f: &mut fmt::Formatter<W>) -> fmt::Result {
        write!(
            f,
            "cgihost: can't listen on {}:{}: {}",
            self.address, self.port, self.reason
        )
    }
}

/// Says where a server can't listen, as somebody does, and what to do.
#[derive(Clone, Copy)]
pub struct Refused<'s> {
    pub address: &'s str,
    pub port: u16,
}

impl fmt::Display for Refused<'_> {
    ghost output = { λ r. Some (refused_text r.address.now r.port) };

    fn fmt<W: fmt::Write>(&self, f: &mut fmt::Formatter<W>) -> fmt::Result {
        write!(
            f,
            "cgihost: end what listens there, or set another port in the site file: {}:{}",
            self.address, self.port
        )
    }
}
