// Tables of documents.
ghost use Rattle.std.specs.Prelude.{◌≡◌, ◌++◌, IfOk, codes, string_bytes};
ghost use Rattle.toml.specs.Data.{as_str};
ghost use Rattle.toml.specs.View.{view, table_view};
ghost use Rattle.site_file.specs.Keys.{ranged};
ghost use Rattle.site_file.specs.SiteFile.{type_in, types_in, types_of, documents_in, all_documents_in};
ghost use Rattle.site_file.specs.Steps.{Reads};
ghost use Rattle.site_file.specs.Tables.{members_of_all};

use crate::fault::{Key, SiteFault};
use crate::keys::{optional_text, required_text};
use crate::ranges::{TextRange, is_extension, is_media_type};
use crate::said::SaidDocuments;
use crate::tables::{entry, optional_table};
use host_base::{NoMemory, Pair, Pairs, Sequence, Text};
use std::alloc::Global;
use toml::{Table, Value};

// The media type of an extension.
#[tactic(auto, unfolding(crate::specs::SiteFile::type_in))]
fn type_in(alloc: Global, place: &str, extension: &str, value: &Value) -> Result<Pair, SiteFault>
    ensures { Reads (type_in place.now extension.now (view value.now)) result }
{
    let key = Key {
        place,
        name: extension,
    };
    match value.as_str() {
        Some(text) => {
            if is_extension(extension) && is_media_type(text) {
                Ok(Pair {
                    name: Text::copy_of(alloc, extension)?,
                    value: Text::copy_of(alloc, text)?,
                })
            } else {
                Err(key.out_of_range(alloc))
            }
        }
        None => Err(key.wrong_kind(alloc)),
    }
}

fn types_in(alloc: Global, place: &str, table: &Table) -> Result<Pairs, SiteFault>
    ensures { Reads (types_in place.now (table_view table.now)) result }
{
    let mut types = Pairs::new(alloc);
    for (extension, value) in table.iter() {
        types.push(type_in(alloc, place, extension.as_str(), value)?)?;
    }
    Ok(types)
}

fn types_place(alloc: Global, place: &str) -> Result<String, NoMemory>
    ensures { IfOk result (λ text. string_bytes text ≡ place.now ++ codes "types.") }
{
    Ok(format!(in alloc; "{place}types.")?)
}

#[tactic(auto, unfolding(crate::specs::SiteFile::types_of, crate::specs::SiteFile::types_in))]
fn types_of(alloc: Global, place: &str, table: &Table) -> Result<Pairs, SiteFault>
    ensures { Reads (types_of place.now (table_view table.now)) result }
{
    match optional_table(
        alloc,
        table,
        Key {
            place,
            name: "types",
        },
    )? {
        Some(types) => types_in(alloc, types_place(alloc, place)?.as_str(), types),
        None => Ok(Pairs::new(alloc)),
    }
}

#[tactic(auto, unfolding(crate::specs::SiteFile::documents_in))]
fn documents_in(alloc: Global, place: &str, table: &Table) -> Result<SaidDocuments, SiteFault>
    ensures { Reads (documents_in place.now (table_view table.now)) result }
{
    let path = required_text(
        alloc,
        table,
        Key {
            place,
            name: "path",
        },
        TextRange::ScriptPath,
    )?;
    let root = optional_text(
        alloc,
        table,
        Key {
            place,
            name: "root",
        },
        TextRange::Folder,
        "/srv/www",
    )?;
    let types = types_of(alloc, place, table)?;
    Ok(SaidDocuments { path, root, types })
}

/// The documents of tables that stand at `place`.
#[tactic(auto, unfolding(crate::specs::SiteFile::all_documents_in))]
pub fn all_documents_in(
    alloc: Global,
    place: &str,
    tables: &[&Table],
) -> Result<Sequence<SaidDocuments>, SiteFault>
    ensures { Reads (all_documents_in place.now (members_of_all tables.now)) result }
{
    let mut documents = Sequence::new(alloc);
    for (index, table) in tables.iter().enumerate() {
        let inner = entry(alloc, place, "documents", index)?;
        documents.push(documents_in(alloc, inner.as_str(), table)?)?;
    }
    Ok(documents)
}
