// Tables at a key: one, or those of an array.
ghost use Rattle.std.specs.Prelude.{◌≡◌, ◌++◌, ◌<◌, ◌^◌, [], option_map, IfOk, string_bytes};
ghost use Rattle.toml.specs.Data.{as_table, no_members};
ghost use Rattle.toml.specs.View.{view, array_view, table_view};
ghost use Rattle.site_file.specs.Keys.{ranged, required, optional, any_value, each_of, as_tables, are_between, entry};
ghost use Rattle.site_file.specs.Tables.{members_of_all, members_or_none, ReadsTable, ReadsTables};
ghost use Rattle.site_file.specs.Unknown.{tables_at, table_at};

use crate::fault::{Key, SiteFault};
use crate::keys::value_at;
use host_base::NoMemory;
use std::alloc::Global;
use toml::value::Array;
use toml::{Table, Value};

/// The table at a key, if there is one.
#[tactic(auto, unfolding(crate::specs::Keys::optional))]
pub fn optional_table<'t>(
    alloc: Global,
    table: &'t Table,
    key: Key,
) -> Result<Option<&'t Table>, SiteFault>
    ensures { ReadsTable (optional as_table any_value key.entry.place.now (table_view table.now) key.entry.name.now no_members) result }
{
    match value_at(table, key.name) {
        Some(value) => match value.as_table() {
            Some(inner) => Ok(Some(inner)),
            None => Err(key.wrong_kind(alloc)),
        },
        None => Ok(None),
    }
}

// The tables of an array that has nothing else.
fn tables_of(alloc: Global, array: &Array) -> Result<Option<Vec<&Table>>, NoMemory>
    ensures { IfOk result (λ tables. option_map (λ found. members_of_all found.items) tables ≡ each_of as_table (array_view array.now)) }
{
    let mut tables = Vec::new(alloc);
    for value in array {
        match value.as_table() {
            Some(table) => tables.push(table)?,
            None => return Ok(None),
        }
    }
    Ok(Some(tables))
}

// The value as an array of tables.
fn as_tables(alloc: Global, value: &Value) -> Result<Option<Vec<&Table>>, NoMemory>
    ensures { IfOk result (λ tables. option_map (λ found. members_of_all found.items) tables ≡ as_tables (view value.now)) }
{
    match value.as_array() {
        Some(array) => tables_of(alloc, array),
        None => Ok(None),
    }
}

fn ranged_tables<'t>(
    alloc: Global,
    value: &'t Value,
    key: Key,
    least: usize,
    greatest: usize,
) -> Result<Vec<&'t Table>, SiteFault>
    ensures { ReadsTables (ranged (are_between least greatest) (key.entry.place.now ++ key.entry.name.now) (as_tables (view value.now))) result }
{
    match as_tables(alloc, value)? {
        Some(tables) => {
            if least <= tables.len() && tables.len() <= greatest {
                Ok(tables)
            } else {
                Err(key.out_of_range(alloc))
            }
        }
        None => Err(key.wrong_kind(alloc)),
    }
}

/// The tables of an array that the table must have, from `least` to `greatest` of them.
#[tactic(auto, unfolding(crate::specs::Keys::required))]
pub fn required_tables<'t>(
    alloc: Global,
    table: &'t Table,
    key: Key,
    least: usize,
    greatest: usize,
) -> Result<Vec<&'t Table>, SiteFault>
    ensures { ReadsTables (required as_tables (are_between least greatest) key.entry.place.now (table_view table.now) key.entry.name.now) result }
{
    match value_at(table, key.name) {
        Some(value) => ranged_tables(alloc, value, key, least, greatest),
        None => Err(key.missing(alloc)),
    }
}

/// The tables of an array, from `least` to `greatest` of them, or none where there is no such key.
#[tactic(auto, unfolding(crate::specs::Keys::optional))]
pub fn optional_tables<'t>(
    alloc: Global,
    table: &'t Table,
    key: Key,
    least: usize,
    greatest: usize,
) -> Result<Vec<&'t Table>, SiteFault>
    ensures { ReadsTables (optional as_tables (are_between least greatest) key.entry.place.now (table_view table.now) key.entry.name.now []) result }
{
    match value_at(table, key.name) {
        Some(value) => ranged_tables(alloc, value, key, least, greatest),
        None => Ok(Vec::new(alloc)),
    }
}

/// The table at a key; None where there is none.
pub fn table_at<'t>(table: &'t Table, key: &str) -> Option<&'t Table>
    ensures { members_or_none result ≡ table_at key.now (table_view table.now) }
{
    match value_at(table, key) {
        Some(value) => value.as_table(),
        None => None,
    }
}

/// The tables of an array at a key; none where there is no such array.
pub fn tables_at<'t>(alloc: Global, table: &'t Table, key: &str) -> Result<Vec<&'t Table>, NoMemory>
    ensures { IfOk result (λ tables. members_of_all tables.items ≡ tables_at key.now (table_view table.now)) }
{
    match value_at(table, key) {
        Some(value) => match as_tables(alloc, value)? {
            Some(tables) => Ok(tables),
            None => Ok(Vec::new(alloc)),
        },
        None => Ok(Vec::new(alloc)),
    }
}

/// Where the table at an index of an array stands, as `host[0].script[1].`.
#[tactic(auto, unfolding(crate::specs::Keys::entry))]
pub fn entry(alloc: Global, place: &str, key: &str, index: usize) -> Result<String, NoMemory>
    ensures { IfOk result (λ text. string_bytes text ≡ entry place.now key.now index) }
{
    Ok(format!(in alloc; "{place}{key}[{index}].")?)
}
