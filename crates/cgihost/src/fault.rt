// What the program says of a status, and the number that it ends with.
ghost use Rattle.std.specs.Prelude.{◌≡◌, Some};
ghost use Rattle.cgihost.specs.StatusLines.{number_of as number, line_of, dropped_line, refusal_of};

use host_run::Status;
use shown_text::Shown;
use site_file::SiteFault;
use std::fmt;

/// The number that the program ends with.
pub fn number_of(status: &Status) -> u8
    ensures { result ≡ number status.now }
{
    match status {
        Status::Done => 0,
        Status::Usage => 2,
        Status::SiteRefused(_) => 3,
        Status::SiteUnread => 4,
        Status::WorldRefused => 5,
        Status::Spent => 6,
        Status::ReportFault => 7,
        Status::NoMemory => 8,
    }
}

/// The line on standard error for a status; empty where the work was done.
#[derive(Clone, Copy)]
pub struct FaultLine<'s>(pub &'s Status);

/// The line on standard error for as many events that didn't fit.
#[derive(Clone, Copy)]
pub struct DroppedLine(pub u64);

impl fmt::Display for DroppedLine {
    ghost output = { λ line. Some (dropped_line line.0) };

    fn fmt<W: fmt::Write>(&self, f: &mut fmt::Formatter<W>) -> fmt::Result {
        write!(f, "cgihost: events dropped: {}", self.0)
    }
}

// What a site file was refused for.
#[derive(Clone, Copy)]
struct Refusal<'s>(&'s SiteFault);

impl fmt::Display for FaultLine<'_> {
    ghost output = { λ line. Some (line_of line.0.now) };

    fn fmt<W: fmt::Write>(&self, f: &mut fmt::Formatter<W>) -> fmt::Result {
        match self.0 {
            Status::Done => Ok(()),
            Status::Usage => f.write_str(
                "cgihost: usage: once SITE, serve SITE, check SITE, explain SITE, sample SEED N, upgrade SITE",
            ),
            Status::SiteRefused(fault) => write!(f, "cgihost: site refused: {}", Refusal(fault)),
            Status::SiteUnread => f.write_str("cgihost: site file not read"),
            Status::WorldRefused => f.write_str("cgihost: could not begin"),
            Status::Spent => f.write_str("cgihost: turns spent"),
            Status::ReportFault => f.write_str("cgihost: report not written"),
            Status::NoMemory => f.write_str("cgihost: out of memory"),
        }
    }
}

impl fmt::Display for Refusal<'_> {
    ghost output = { λ refusal. Some (refusal_of refusal.0.now) };

    fn fmt<W: fmt::Write>(&self, f: &mut fmt::Formatter<W>) -> fmt::Result {
        match self.0 {
            SiteFault::NotToml => f.write_str("not TOML"),
            SiteFault::Missing(key) => write!(f, "missing {}", Shown(key.as_str())),
            SiteFault::WrongKind(key) => write!(f, "wrong kind {}", Shown(key.as_str())),
            SiteFault::OutOfRange(key) => write!(f, "out of range {}", Shown(key.as_str())),
            SiteFault::Unknown(key) => write!(f, "unknown {}", Shown(key.as_str())),
            SiteFault::DoubleHost(name) => write!(f, "double host {}", Shown(name.as_str())),
            SiteFault::DoubleScript(path) => write!(f, "double script {}", Shown(path.as_str())),
            SiteFault::NoMemory => f.write_str("out of memory"),
        }
    }
}
