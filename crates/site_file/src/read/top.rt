// The top of a site file, in both versions.
ghost use Rattle.std.specs.Prelude.{◌≡◌, [], ◌∷◌, IfOk};
ghost use Rattle.toml.specs.Data.{as_str};
ghost use Rattle.toml.specs.View.{table_view};
ghost use Rattle.site_file.specs.Keys.{optional};
ghost use Rattle.site_file.specs.SiteFile.{host_of_1, port_in, file_1, file_2, file_in};
ghost use Rattle.site_file.specs.Steps.{Reads};
ghost use Rattle.site_file.specs.TextRanges.{admits};

use super::host::hosts_in;
use super::limits::limits_of;
use super::script::scripts_in;
use crate::fault::{Key, SiteFault};
use crate::keys::{optional_number, optional_text};
use crate::ranges::TextRange;
use crate::said::{SaidHost, SaidSite};
use crate::tables::required_tables;
use host_base::{NoMemory, Scripts, Sequence, Text, Texts};
use std::alloc::Global;
use toml::Table;

#[tactic(auto, unfolding(crate::specs::SiteFile::port_in))]
fn port_in(alloc: Global, table: &Table) -> Result<u16, SiteFault>
    ensures { Reads (port_in (table_view table.now)) result }
{
    let port = optional_number(
        alloc,
        table,
        Key {
            place: "",
            name: "port",
        },
        1,
        65_535,
        8_080,
    )?;
    Ok(port as u16)
}

fn top_text(
    alloc: Global,
    table: &Table,
    name: &str,
    range: TextRange,
    default: &str,
) -> Result<Text, SiteFault>
    ensures { Reads (optional as_str (admits range) [] (table_view table.now) name.now default.now) result }
{
    optional_text(alloc, table, Key { place: "", name }, range, default)
}

// The one host of version 1, which takes any name.
fn host_of_1(
    alloc: Global,
    name: Text,
    root: Text,
    scripts: Scripts,
) -> Result<Sequence<SaidHost>, NoMemory>
    ensures { IfOk result (λ hosts. hosts ≡ host_of_1 name root scripts ∷ []) }
{
    let mut hosts = Sequence::new(alloc);
    hosts.push(SaidHost {
        name,
        aliases: Texts::new(alloc),
        any: true,
        root,
        scripts,
        documents: Sequence::new(alloc),
    })?;
    Ok(hosts)
}

#[tactic(auto, unfolding(crate::specs::SiteFile::file_1))]
fn file_1(alloc: Global, table: &Table) -> Result<SaidSite, SiteFault>
    ensures { Reads (file_1 (table_view table.now)) result }
{
    let name = top_text(alloc, table, "name", TextRange::HostName, "localhost")?;
    let listen = top_text(alloc, table, "listen", TextRange::Address, "127.0.0.1")?;
    let port = port_in(alloc, table)?;
    let root = top_text(alloc, table, "root", TextRange::Folder, "/srv/www")?;
    let limits = limits_of(alloc, table)?;
    let tables = required_tables(
        alloc,
        table,
        Key {
            place: "",
            name: "script",
        },
        1,
        256,
    )?;
    let scripts = scripts_in(alloc, "", tables.as_slice())?;
    let hosts = host_of_1(alloc, name, root, scripts)?;
    Ok(SaidSite {
        listen,
        port,
        limits,
        hosts,
    })
}

#[tactic(auto, unfolding(crate::specs::SiteFile::file_2))]
fn file_2(alloc: Global, table: &Table) -> Result<SaidSite, SiteFault>
    ensures { Reads (file_2 (table_view table.now)) result }
{
    let listen = top_text(alloc, table, "listen", TextRange::Address, "127.0.0.1")?;
    let port = port_in(alloc, table)?;
    let limits = limits_of(alloc, table)?;
    let tables = required_tables(
        alloc,
        table,
        Key {
            place: "",
            name: "host",
        },
        1,
        64,
    )?;
    let hosts = hosts_in(alloc, tables.as_slice())?;
    Ok(SaidSite {
        listen,
        port,
        limits,
        hosts,
    })
}

/// What the keys of a file of a version say.
pub fn said(alloc: Global, version: u64, table: &Table) -> Result<SaidSite, SiteFault>
    ensures { Reads (file_in version (table_view table.now)) result }
{
    if version == 1 {
        file_1(alloc, table)
    } else {
        file_2(alloc, table)
    }
}
