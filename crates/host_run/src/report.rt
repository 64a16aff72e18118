// The reports of commands that need no loop.
ghost use Rattle.std.specs.Prelude.{◌≡◌, ◌<◌, ◌^◌, Ok, IfOk, sum_by, length, string_bytes};
ghost use Rattle.host_base.specs.Outsides.{Rose};
ghost use Rattle.host_base.specs.SiteRules.{HasHosts, IsServed};
ghost use Rattle.sample_run.specs.Run.{IsSampleText};
ghost use Rattle.site_file.specs.SiteFile.{IsSaid, site_said};
ghost use Rattle.host_run.specs.Statuses.{IsReported, PutsBy, check_text, script_count, scripts_len};

use super::top::Status;
use host_base::{NoMemory, Sink, SinkFault, Site, VHost};
use sample_run::sample_report;
use site_file::write_site;
use std::alloc::Global;

/// The text of `--help`.
pub const HELP: &str =
    "cgihost runs a program for a request and answers from its output (CGI/1.1, RFC 3875).

  cgihost once SITE            serves one connection over standard input and output
  cgihost serve SITE           serves sockets; with --loops N in N loops beside each other, with --turns N until each of them
                               heard N events, and with --log FILE a line for each reply is added to that file, in any order
  cgihost check SITE           reads the site and says how many scripts it has
  cgihost upgrade SITE         writes the site as a site file of version 2
  cgihost explain SITE         reads one request and says what would be started for it, or how it is refused
  cgihost sample SEED N        runs N connections in memory, which the number SEED chooses, and says what came of them
  cgihost --help               writes this text
  cgihost --version            writes the version

SITE is PATH=PROGRAM, a path and the file of the program that is served under it, or the name of a site file.

It ends with one of these, and says so on standard error where it is not 0:
  0  the work was done
  2  usage: the words have none of these forms
  3  site refused: the site file has the fault that is named
  4  site file not read: it is missing, unreadable or too long
  5  could not begin: mostly, the port is taken
  6  turns spent: so many events were heard, and the work had not ended
  7  report not written
  8  out of memory

The manual is cgihost(1) and cgihost.toml(5), in the folder docs of the sources.
";

/// The text of `--version`.
pub const VERSION: &str = "cgihost 1\n";

// How many scripts hosts have. Each has fewer than 2^32, and there are fewer than 2^32 hosts.
fn script_count(hosts: &[VHost]) -> u64
    requires { HasHosts hosts.now }
    ensures { result ≡ sum_by scripts_len hosts.now }
{
    let mut count = 0;
    for host in hosts {
        count += host.scripts.len() as u64;
    }
    count
}

fn check_text(alloc: Global, site: &Site) -> Result<String, NoMemory>
    requires { IsServed site.now }
    ensures { IfOk result (λ text. string_bytes text ≡ check_text site.now) }
{
    let count = script_count(site.hosts.as_slice());
    Ok(format!(in alloc; "ok: {count} scripts\n")?)
}

/// Puts a report that is one text.
pub fn put<S: Sink>(report: &mut S, text: &str) -> Status
    ensures status { IsReported result }
    ensures text { PutsBy (λ put. put ≡ text.now) result (S.written report.old) (S.written report.new) }
    ensures fault { result ≡ Status.ReportFault → Rose (S.faults report.old) (S.faults report.new) }
{
    match report.put(text.as_bytes()) {
        Ok(()) => Status::Done,
        Err(SinkFault::Failed) => Status::ReportFault,
        Err(SinkFault::NoMemory) => Status::NoMemory,
    }
}

/// Reports how many scripts a site has.
pub fn check<S: Sink>(alloc: Global, site: &Site, report: &mut S) -> Status
    requires { IsServed site.now }
    ensures status { IsReported result }
    ensures text { PutsBy (λ put. put ≡ check_text site.now) result (S.written report.old) (S.written report.new) }
    ensures fault { result ≡ Status.ReportFault → Rose (S.faults report.old) (S.faults report.new) }
{
    match check_text(alloc, site) {
        Ok(text) => put(report, text.as_str()),
        Err(_) => Status::NoMemory,
    }
}

/// Reports a version 2 file that says the site.
pub fn upgrade<S: Sink>(alloc: Global, site: &Site, report: &mut S) -> Status
    requires { IsSaid site.now }
    ensures status { IsReported result }
    ensures text { PutsBy (λ put. site_said put ≡ Ok site.now) result (S.written report.old) (S.written report.new) }
    ensures fault { result ≡ Status.ReportFault → Rose (S.faults report.old) (S.faults report.new) }
{
    match write_site(alloc, site) {
        Ok(text) => put(report, text.as_str()),
        Err(_) => Status::NoMemory,
    }
}

/// Reports what came of the connections of a sample.
pub fn report_sample<S: Sink>(alloc: Global, seed: u64, count: u32, report: &mut S) -> Status
    ensures status { IsReported result }
    ensures text { PutsBy (IsSampleText seed count) result (S.written report.old) (S.written report.new) }
    ensures fault { result ≡ Status.ReportFault → Rose (S.faults report.old) (S.faults report.new) }
{
    match sample_report(alloc, seed, count) {
        Ok(text) => put(report, text.as_str()),
        Err(_) => Status::NoMemory,
    }
}
