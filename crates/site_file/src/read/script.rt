// Tables of scripts.
ghost use Rattle.std.specs.Prelude.{◌≡◌};
ghost use Rattle.toml.specs.View.{table_view};
ghost use Rattle.site_file.specs.SiteFile.{origins_in, script_in, scripts_in};
ghost use Rattle.site_file.specs.Steps.{Reads};
ghost use Rattle.site_file.specs.Tables.{members_of_all};

use crate::fault::{Key, SiteFault};
use crate::keys::{optional_text, optional_texts, required_text};
use crate::ranges::{TextRange, kind_named};
use crate::tables::entry;
use host_base::{Script, ScriptKind, Scripts, Texts};
use std::alloc::Global;
use toml::Table;

#[tactic(auto, unfolding(crate::specs::SiteFile::origins_in))]
fn origins_in(
    alloc: Global,
    kind: ScriptKind,
    place: &str,
    table: &Table,
) -> Result<Option<Texts>, SiteFault>
    ensures { Reads (origins_in kind place.now (table_view table.now)) result }
{
    match kind {
        ScriptKind::WebSocket => optional_texts(
            alloc,
            table,
            Key {
                place,
                name: "origins",
            },
        ),
        ScriptKind::Cgi => Ok(None),
        ScriptKind::Nph => Ok(None),
    }
}

#[tactic(auto, unfolding(crate::specs::SiteFile::script_in))]
fn script_in(alloc: Global, place: &str, table: &Table) -> Result<Script, SiteFault>
    ensures { Reads (script_in place.now (table_view table.now)) result }
{
    let path = required_text(
        alloc,
        table,
        Key {
            place,
            name: "path",
        },
        TextRange::ScriptPath,
    )?;
    let program = required_text(
        alloc,
        table,
        Key {
            place,
            name: "program",
        },
        TextRange::Program,
    )?;
    let word = optional_text(
        alloc,
        table,
        Key {
            place,
            name: "kind",
        },
        TextRange::Kind,
        "cgi",
    )?;
    let kind = kind_named(word.as_str());
    let origins = origins_in(alloc, kind, place, table)?;
    Ok(Script {
        path,
        program,
        kind,
        origins,
    })
}

/// The scripts of tables that stand at `place`.
#[tactic(auto, unfolding(crate::specs::SiteFile::scripts_in))]
pub fn scripts_in(alloc: Global, place: &str, tables: &[&Table]) -> Result<Scripts, SiteFault>
    ensures { Reads (scripts_in place.now (members_of_all tables.now)) result }
{
    let mut scripts = Scripts::new(alloc);
    for (index, table) in tables.iter().enumerate() {
        let inner = entry(alloc, place, "script", index)?;
        scripts.push(script_in(alloc, inner.as_str(), table)?)?;
    }
    Ok(scripts)
}
