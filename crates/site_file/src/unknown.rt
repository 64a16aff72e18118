// Keys that there are none of.
ghost use Rattle.std.specs.Prelude.{◌≡◌, if◌then◌else◌};
ghost use Rattle.toml.specs.View.{table_view};
ghost use Rattle.site_file.specs.SiteFile.{unknown_in};
ghost use Rattle.site_file.specs.Steps.{Finds};
ghost use Rattle.site_file.specs.Tables.{members_of_all};
ghost use Rattle.site_file.specs.Unknown.{unknown_at, is_web_socket, level_of_script, unknown_in_script, unknown_in_scripts, unknown_in_documents, unknown_in_limits, unknown_in_host, unknown_in_hosts, unknown_in_1, unknown_in_2};

use crate::fault::{Key, SiteFault};
use crate::keys::value_at;
use crate::levels::Level;
use crate::tables::{entry, table_at, tables_at};
use std::alloc::Global;
use toml::Table;

// The first unknown key of a table, if there is one.
fn unknown_at(alloc: Global, level: Level, place: &str, table: &Table) -> Result<(), SiteFault>
    ensures { Finds (unknown_at level place.now (table_view table.now)) result }
{
    for (key, _) in table.iter() {
        let name = key.as_str();
        if !level.knows(name) {
            return Err(Key { place, name }.unknown(alloc));
        }
    }
    Ok(())
}

// Whether a script's kind is websocket, so that it may have origins.
#[tactic(auto, unfolding(crate::specs::Unknown::is_web_socket))]
fn is_web_socket(table: &Table) -> bool
    ensures { result ≡ is_web_socket (table_view table.now) }
{
    match value_at(table, "kind") {
        Some(value) => match value.as_str() {
            Some(kind) => "websocket" == kind,
            None => false,
        },
        None => false,
    }
}

fn level_of_script(table: &Table) -> Level
    ensures { result ≡ level_of_script (table_view table.now) }
{
    if is_web_socket(table) {
        Level::WebSocketScript
    } else {
        Level::Script
    }
}

#[tactic(auto, unfolding(crate::specs::Unknown::unknown_in_script))]
fn unknown_in_script(alloc: Global, place: &str, table: &Table) -> Result<(), SiteFault>
    ensures { Finds (unknown_in_script place.now (table_view table.now)) result }
{
    unknown_at(alloc, level_of_script(table), place, table)
}

#[tactic(auto, unfolding(crate::specs::Unknown::unknown_in_scripts))]
fn unknown_in_scripts(alloc: Global, place: &str, tables: &[&Table]) -> Result<(), SiteFault>
    ensures { Finds (unknown_in_scripts place.now (members_of_all tables.now)) result }
{
    for (index, table) in tables.iter().enumerate() {
        let inner = entry(alloc, place, "script", index)?;
        unknown_in_script(alloc, inner.as_str(), table)?;
    }
    Ok(())
}

#[tactic(auto, unfolding(crate::specs::Unknown::unknown_in_documents))]
fn unknown_in_documents(alloc: Global, place: &str, tables: &[&Table]) -> Result<(), SiteFault>
    ensures { Finds (unknown_in_documents place.now (members_of_all tables.now)) result }
{
    for (index, table) in tables.iter().enumerate() {
        let inner = entry(alloc, place, "documents", index)?;
        unknown_at(alloc, Level::Documents, inner.as_str(), table)?;
    }
    Ok(())
}

#[tactic(auto, unfolding(crate::specs::Unknown::unknown_in_limits))]
fn unknown_in_limits(alloc: Global, table: &Table) -> Result<(), SiteFault>
    ensures { Finds (unknown_in_limits (table_view table.now)) result }
{
    match table_at(table, "limits") {
        Some(limits) => unknown_at(alloc, Level::Limits, "limits.", limits),
        None => unknown_at(alloc, Level::Limits, "limits.", &Table::new(alloc)),
    }
}

#[tactic(auto, unfolding(crate::specs::Unknown::unknown_in_host))]
fn unknown_in_host(alloc: Global, place: &str, table: &Table) -> Result<(), SiteFault>
    ensures { Finds (unknown_in_host place.now (table_view table.now)) result }
{
    unknown_at(alloc, Level::Host, place, table)?;
    unknown_in_scripts(alloc, place, tables_at(alloc, table, "script")?.as_slice())?;
    unknown_in_documents(
        alloc,
        place,
        tables_at(alloc, table, "documents")?.as_slice(),
    )
}

#[tactic(auto, unfolding(crate::specs::Unknown::unknown_in_hosts))]
fn unknown_in_hosts(alloc: Global, tables: &[&Table]) -> Result<(), SiteFault>
    ensures { Finds (unknown_in_hosts (members_of_all tables.now)) result }
{
    for (index, table) in tables.iter().enumerate() {
        let inner = entry(alloc, "", "host", index)?;
        unknown_in_host(alloc, inner.as_str(), table)?;
    }
    Ok(())
}

#[tactic(auto, unfolding(crate::specs::Unknown::unknown_in_1))]
fn unknown_in_1(alloc: Global, table: &Table) -> Result<(), SiteFault>
    ensures { Finds (unknown_in_1 (table_view table.now)) result }
{
    unknown_at(alloc, Level::Version1, "", table)?;
    unknown_in_limits(alloc, table)?;
    unknown_in_scripts(alloc, "", tables_at(alloc, table, "script")?.as_slice())
}

#[tactic(auto, unfolding(crate::specs::Unknown::unknown_in_2))]
fn unknown_in_2(alloc: Global, table: &Table) -> Result<(), SiteFault>
    ensures { Finds (unknown_in_2 (table_view table.now)) result }
{
    unknown_at(alloc, Level::Version2, "", table)?;
    unknown_in_limits(alloc, table)?;
    unknown_in_hosts(alloc, tables_at(alloc, table, "host")?.as_slice())
}

/// The first unknown key of a file of a version, if there is one.
pub fn unknown(alloc: Global, version: u64, table: &Table) -> Result<(), SiteFault>
    ensures { Finds (unknown_in version (table_view table.now)) result }
{
    if version == 1 {
        unknown_in_1(alloc, table)
    } else {
        unknown_in_2(alloc, table)
    }
}
