// A site as a version 2 file.
ghost use Rattle.std.specs.Prelude.{◌≡◌, ◌<◌, ◌^◌, map, filter, drop, count_by, IfOk, OnOk, option_map, codes, Some, Ok};
ghost use Rattle.toml.specs.Data.{string, integer, boolean, array, table, no_members};
ghost use Rattle.toml.specs.Parse.{parse_document};
ghost use Rattle.toml.specs.View.{view, table_view, items_of};
ghost use Rattle.host_base.specs.LimitRanges.{AreInRange};
ghost use Rattle.site_file.specs.SiteFile.{site_said, IsSaid};
ghost use Rattle.site_file.specs.Tables.{script_at};
ghost use Rattle.site_file.specs.SiteText.{put, put_some, number, texts, tables, some_array, some_tables, put_bytes, put_ticks, put_counts, limits_members, script_members, types_members, documents_members, has_file, is_documents, script_tables, zip_documents, documents_tables, host_members, host_tables, document_of};

use crate::ranges::word_of;
use host_base::{DocRoot, Limits, NoMemory, Pair, Script, Site, Text, VHost};
use std::alloc::Global;
use toml::{Table, Value};

// Puts a value under a key.
fn put(alloc: Global, table: &mut Table, key: &str, value: Value) -> Result<(), NoMemory>
    ensures { OnOk result (table_view table.new ≡ put key.now (view value) (table_view table.old)) }
{
    let key = String::from_str(alloc, key)?;
    table.insert(key, value)?;
    Ok(())
}

fn put_text(alloc: Global, table: &mut Table, key: &str, text: &str) -> Result<(), NoMemory>
    ensures { OnOk result (table_view table.new ≡ put key.now (string text.now) (table_view table.old)) }
{
    put(alloc, table, key, Value::string(alloc, text)?)
}

fn number(n: u64) -> Value
    requires { n < 2 ^ 63 }
    ensures { view result ≡ number n }
{
    Value::Integer(n as i64)
}

fn put_number(alloc: Global, table: &mut Table, key: &str, n: u64) -> Result<(), NoMemory>
    requires { n < 2 ^ 63 }
    ensures { OnOk result (table_view table.new ≡ put key.now (number n) (table_view table.old)) }
{
    put(alloc, table, key, number(n))
}

fn flag(flag: bool) -> Value
    ensures { view result ≡ boolean flag }
{
    Value::Boolean(flag)
}

fn array_of(values: Vec<Value>) -> Value
    ensures { view result ≡ array (items_of (map view values.items)) }
{
    Value::Array(values)
}

fn table_of(members: Table) -> Value
    ensures { view result ≡ table (table_view members) }
{
    Value::Table(members)
}

// A text for each text, as an array.
fn texts_of(alloc: Global, list: &[Text]) -> Result<Value, NoMemory>
    ensures { IfOk result (λ value. view value ≡ texts list.now) }
{
    let mut values = Vec::new(alloc);
    for text in list {
        values.push(Value::string(alloc, text.as_str())?)?;
    }
    Ok(array_of(values))
}

// Puts an array under a key, where it has an item.
fn put_some_array(
    alloc: Global,
    table: &mut Table,
    key: &str,
    values: Vec<Value>,
) -> Result<(), NoMemory>
    ensures { OnOk result (table_view table.new ≡ put_some key.now (some_array (map view values.items)) (table_view table.old)) }
{
    if values.is_empty() {
        Ok(())
    } else {
        put(alloc, table, key, array_of(values))
    }
}

#[tactic(auto, unfolding(crate::specs::SiteText::put_bytes))]
fn put_bytes(alloc: Global, table: &mut Table, limits: &Limits) -> Result<(), NoMemory>
    requires { AreInRange limits.now }
    ensures { OnOk result (table_view table.new ≡ put_bytes limits.now (table_view table.old)) }
{
    put_number(alloc, table, "output", limits.output)?;
    put_number(alloc, table, "body", limits.body)?;
    put_number(alloc, table, "target", limits.target)?;
    put_number(alloc, table, "head", limits.head)
}

#[tactic(auto, unfolding(crate::specs::SiteText::put_ticks))]
fn put_ticks(alloc: Global, table: &mut Table, limits: &Limits) -> Result<(), NoMemory>
    requires { AreInRange limits.now }
    ensures { OnOk result (table_view table.new ≡ put_ticks limits.now (table_view table.old)) }
{
    put_number(alloc, table, "linger_ticks", u64::from(limits.linger_ticks))?;
    put_number(alloc, table, "idle_ticks", u64::from(limits.idle_ticks))?;
    put_number(alloc, table, "run_ticks", u64::from(limits.run_ticks))
}

#[tactic(auto, unfolding(crate::specs::SiteText::put_counts))]
fn put_counts(alloc: Global, table: &mut Table, limits: &Limits) -> Result<(), NoMemory>
    requires { AreInRange limits.now }
    ensures { OnOk result (table_view table.new ≡ put_counts limits.now (table_view table.old)) }
{
    put_number(alloc, table, "ws_text", limits.ws_text)?;
    put_number(alloc, table, "children", u64::from(limits.children))?;
    put_number(alloc, table, "connections", u64::from(limits.connections))?;
    put_number(alloc, table, "redirects", u64::from(limits.redirects))
}

#[tactic(auto, unfolding(crate::specs::SiteText::limits_members))]
fn limits_table(alloc: Global, limits: &Limits) -> Result<Table, NoMemory>
    requires { AreInRange limits.now }
    ensures { IfOk result (λ table. table_view table ≡ limits_members limits.now) }
{
    let mut table = Table::new(alloc);
    put_counts(alloc, &mut table, limits)?;
    put_ticks(alloc, &mut table, limits)?;
    put_bytes(alloc, &mut table, limits)?;
    Ok(table)
}

fn put_origins(alloc: Global, table: &mut Table, script: &Script) -> Result<(), NoMemory>
    ensures { OnOk result (table_view table.new ≡ put_some (codes "origins") (option_map texts script.now.origins) (table_view table.old)) }
{
    match &script.origins {
        Some(origins) => put(
            alloc,
            table,
            "origins",
            texts_of(alloc, origins.as_slice())?,
        ),
        None => Ok(()),
    }
}

#[tactic(auto, unfolding(crate::specs::SiteText::script_members))]
fn script_table(alloc: Global, script: &Script) -> Result<Table, NoMemory>
    ensures { IfOk result (λ table. table_view table ≡ script_members script.now) }
{
    let mut table = Table::new(alloc);
    put_origins(alloc, &mut table, script)?;
    put_text(alloc, &mut table, "kind", word_of(script.kind))?;
    put_text(alloc, &mut table, "program", script.program.as_str())?;
    put_text(alloc, &mut table, "path", script.path.as_str())?;
    Ok(table)
}

// From the last type to the first, so that each goes before the others.
fn types_table(alloc: Global, types: &[Pair]) -> Result<Table, NoMemory>
    ensures { IfOk result (λ table. table_view table ≡ types_members types.now) }
{
    let mut table = Table::new(alloc);
    let mut index = types.len();
    while index > 0 {
        index -= 1;
        let pair = &types[index];
        put_text(alloc, &mut table, pair.name.as_str(), pair.value.as_str())?;
    }
    Ok(table)
}

#[tactic(auto, unfolding(crate::specs::SiteText::documents_members))]
fn documents_table(alloc: Global, path: &str, folder: &DocRoot) -> Result<Table, NoMemory>
    ensures { IfOk result (λ table. table_view table ≡ documents_members path.now folder.now) }
{
    let mut table = Table::new(alloc);
    put(
        alloc,
        &mut table,
        "types",
        table_of(types_table(alloc, folder.types.as_slice())?),
    )?;
    put_text(alloc, &mut table, "root", folder.root.as_str())?;
    put_text(alloc, &mut table, "path", path)?;
    Ok(table)
}

// Whether a script's program is a file; else it stands for documents.
fn has_file(script: &Script) -> bool
    ensures { result ≡ has_file script.now }
{
    script.program.as_bytes().starts_with(b"/".as_slice())
}

fn script_values(alloc: Global, scripts: &[Script]) -> Result<Vec<Value>, NoMemory>
    ensures { IfOk result (λ values. map view values.items ≡ map table (script_tables scripts.now)) }
{
    let mut values = Vec::new(alloc);
    for script in scripts {
        if has_file(script) {
            values.push(table_of(script_table(alloc, script)?))?;
        }
    }
    Ok(values)
}

// The scripts that stand for documents.
fn documents_of(alloc: Global, scripts: &[Script]) -> Result<Vec<&Script>, NoMemory>
    ensures { IfOk result (λ list. map script_at list.items ≡ filter is_documents scripts.now) }
{
    let mut list = Vec::new(alloc);
    for script in scripts {
        if !has_file(script) {
            list.push(script)?;
        }
    }
    Ok(list)
}

fn zip_documents(
    alloc: Global,
    scripts: &[&Script],
    folders: &[DocRoot],
) -> Result<Vec<Value>, NoMemory>
    ensures { IfOk result (λ values. map view values.items ≡ map table (zip_documents (map script_at scripts.now) folders.now)) }
{
    let mut values = Vec::new(alloc);
    for (index, script) in scripts.iter().enumerate() {
        if index >= folders.len() {
            return Ok(values);
        }
        let folder = &folders[index];
        values.push(table_of(documents_table(alloc, script.path.as_str(), folder)?))?;
    }
    Ok(values)
}

fn documents_values(
    alloc: Global,
    scripts: &[Script],
    folders: &[DocRoot],
) -> Result<Vec<Value>, NoMemory>
    ensures { IfOk result (λ values. map view values.items ≡ map table (documents_tables scripts.now folders.now)) }
{
    zip_documents(alloc, documents_of(alloc, scripts)?.as_slice(), folders)
}

fn documents_count(scripts: &[Script]) -> usize
    ensures { result ≡ count_by is_documents scripts.now }
{
    scripts.iter().filter(|script| !has_file(script)).count()
}

// The folders after the first `count`.
fn after(folders: &[DocRoot], count: usize) -> &[DocRoot]
    ensures { result.now ≡ drop count folders.now }
{
    if count < folders.len() {
        &folders[count..]
    } else {
        &[]
    }
}

#[tactic(auto, unfolding(crate::specs::SiteText::host_members))]
fn host_table(alloc: Global, host: &VHost, folders: &[DocRoot]) -> Result<Table, NoMemory>
    ensures { IfOk result (λ table. table_view table ≡ host_members host.now folders.now) }
{
    let mut table = Table::new(alloc);
    let documents = documents_values(alloc, host.scripts.as_slice(), folders)?;
    put_some_array(alloc, &mut table, "documents", documents)?;
    let scripts = script_values(alloc, host.scripts.as_slice())?;
    put_some_array(alloc, &mut table, "script", scripts)?;
    put_text(alloc, &mut table, "root", host.root.as_str())?;
    put(alloc, &mut table, "any", flag(host.any))?;
    put(
        alloc,
        &mut table,
        "aliases",
        texts_of(alloc, host.aliases.as_slice())?,
    )?;
    put_text(alloc, &mut table, "name", host.name.as_str())?;
    Ok(table)
}

fn host_values(alloc: Global, hosts: &[VHost], folders: &[DocRoot]) -> Result<Vec<Value>, NoMemory>
    ensures { IfOk result (λ values. map view values.items ≡ map table (host_tables hosts.now folders.now)) }
{
    let mut values = Vec::new(alloc);
    let mut left = folders;
    for host in hosts {
        values.push(table_of(host_table(alloc, host, left)?))?;
        left = after(left, documents_count(host.scripts.as_slice()));
    }
    Ok(values)
}

#[tactic(auto, unfolding(crate::specs::SiteText::document_of))]
fn document(alloc: Global, site: &Site) -> Result<Table, NoMemory>
    requires { AreInRange site.now.limits }
    ensures { IfOk result (λ table. table_view table ≡ document_of site.now) }
{
    let mut table = Table::new(alloc);
    let hosts = host_values(alloc, site.hosts.as_slice(), site.docs.as_slice())?;
    put(alloc, &mut table, "host", array_of(hosts))?;
    put(
        alloc,
        &mut table,
        "limits",
        table_of(limits_table(alloc, &site.limits)?),
    )?;
    let port = u64::from(site.port);
    put_number(alloc, &mut table, "port", port)?;
    put_text(alloc, &mut table, "listen", site.listen.as_str())?;
    put_number(alloc, &mut table, "version", 2)?;
    Ok(table)
}

/// The text of a version 2 file that says a site, for a site that a site file or `one_script` gave.
pub fn write_site(alloc: Global, site: &Site) -> Result<Text, NoMemory>
    requires { IsSaid site.now }
    ensures document { IfOk result (λ text. parse_document text ≡ Some (document_of site.now)) }
    ensures reads_back { IfOk result (λ text. site_said text ≡ Ok site.now) }
{
    let table = document(alloc, site)?;
    match toml::table_to_string(alloc, &table) {
        Ok(text) => Ok(Text::from_string(text)),
        Err(_) => Err(NoMemory),
    }
}
