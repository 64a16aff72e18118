// Tables of hosts.
ghost use Rattle.std.specs.Prelude.{◌≡◌, IfOk};
ghost use Rattle.toml.specs.View.{table_view};
ghost use Rattle.site_file.specs.SiteFile.{has_documents, script_tables_in, host_in, hosts_in};
ghost use Rattle.site_file.specs.Steps.{Reads};
ghost use Rattle.site_file.specs.Tables.{members_of_all, ReadsTables};

use super::documents::all_documents_in;
use super::script::scripts_in;
use crate::fault::{Key, SiteFault};
use crate::keys::{optional_aliases, optional_flag, optional_text, required_text};
use crate::ranges::TextRange;
use crate::said::SaidHost;
use crate::tables::{entry, optional_tables, required_tables, tables_at};
use host_base::{NoMemory, Sequence};
use std::alloc::Global;
use toml::Table;

#[tactic(auto, unfolding(crate::specs::SiteFile::has_documents))]
fn has_documents(alloc: Global, table: &Table) -> Result<bool, NoMemory>
    ensures { IfOk result (λ some. some ≡ has_documents (table_view table.now)) }
{
    let documents = tables_at(alloc, table, "documents")?;
    Ok(!documents.is_empty())
}

// The tables of a host's scripts, which may be missing beside documents.
#[tactic(auto, unfolding(crate::specs::SiteFile::script_tables_in))]
fn script_tables_in<'t>(
    alloc: Global,
    place: &str,
    table: &'t Table,
) -> Result<Vec<&'t Table>, SiteFault>
    ensures { ReadsTables (script_tables_in place.now (table_view table.now)) result }
{
    let key = Key {
        place,
        name: "script",
    };
    if has_documents(alloc, table)? {
        optional_tables(alloc, table, key, 1, 256)
    } else {
        required_tables(alloc, table, key, 1, 256)
    }
}

#[tactic(auto, unfolding(crate::specs::SiteFile::host_in))]
fn host_in(alloc: Global, place: &str, table: &Table) -> Result<SaidHost, SiteFault>
    ensures { Reads (host_in place.now (table_view table.now)) result }
{
    let name = required_text(
        alloc,
        table,
        Key {
            place,
            name: "name",
        },
        TextRange::HostName,
    )?;
    let aliases = optional_aliases(
        alloc,
        table,
        Key {
            place,
            name: "aliases",
        },
    )?;
    let any = optional_flag(alloc, table, Key { place, name: "any" })?;
    let root = optional_text(
        alloc,
        table,
        Key {
            place,
            name: "root",
        },
        TextRange::Folder,
        "/srv/www",
    )?;
    let script = script_tables_in(alloc, place, table)?;
    let scripts = scripts_in(alloc, place, script.as_slice())?;
    let tables = optional_tables(
        alloc,
        table,
        Key {
            place,
            name: "documents",
        },
        0,
        16,
    )?;
    let documents = all_documents_in(alloc, place, tables.as_slice())?;
    Ok(SaidHost {
        name,
        aliases,
        any,
        root,
        scripts,
        documents,
    })
}

/// The hosts of the tables of `host`.
#[tactic(auto, unfolding(crate::specs::SiteFile::hosts_in))]
pub fn hosts_in(alloc: Global, tables: &[&Table]) -> Result<Sequence<SaidHost>, SiteFault>
    ensures { Reads (hosts_in (members_of_all tables.now)) result }
{
    let mut hosts = Sequence::new(alloc);
    for (index, table) in tables.iter().enumerate() {
        let inner = entry(alloc, "", "host", index)?;
        hosts.push(host_in(alloc, inner.as_str(), table)?)?;
    }
    Ok(hosts)
}
