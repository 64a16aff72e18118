// The site of a file.
ghost use Rattle.std.specs.Prelude.{◌≡◌, ◌≢◌, IfOk, IfErr, if◌then◌else◌};
ghost use Rattle.toml.specs.View.{table_view};
ghost use Rattle.toml.specs.Parse.{parse_document};
ghost use Rattle.host_base.specs.SiteRules.{IsServed};
ghost use Rattle.site_file.specs.SiteFile.{single, site_in, site_in_document, site_said, IsSaid};
ghost use Rattle.site_file.specs.Steps.{Reads};

use crate::doubles::double;
use crate::fault::{Key, SiteFault};
use crate::keys::required_number;
use crate::number::site_of;
use crate::read::said;
use crate::unknown::unknown;
use host_base::Site;
use std::alloc::Global;
use toml::Table;

#[tactic(auto, unfolding(crate::specs::SiteFile::site_in))]
fn site_in(alloc: Global, table: &Table) -> Result<Site, SiteFault>
    ensures { Reads (site_in (table_view table.now)) result }
{
    let version = required_number(
        alloc,
        table,
        Key {
            place: "",
            name: "version",
        },
        1,
        2,
    )?;
    let said = said(alloc, version, table)?;
    unknown(alloc, version, table)?;
    let site = site_of(alloc, said)?;
    double(alloc, site.hosts.as_slice())?;
    Ok(site)
}

fn site_in_text(alloc: Global, text: &str) -> Result<Site, SiteFault>
    ensures { Reads (site_in_document (parse_document text.now)) result }
{
    match toml::table_from_str(alloc, text) {
        Ok(table) => site_in(alloc, &table),
        Err(error) => {
            if error.is_memory() {
                Err(SiteFault::NoMemory)
            } else {
                Err(SiteFault::NotToml)
            }
        }
    }
}

fn read(alloc: Global, bytes: &[u8]) -> Result<Site, SiteFault>
    ensures { Reads (site_said bytes.now) result }
{
    match std::str::from_utf8(bytes) {
        Ok(text) => site_in_text(alloc, text),
        Err(_) => Err(SiteFault::NotToml),
    }
}

/// The site that the bytes of a site file say, in version 1 or 2, or the first fault: no TOML in UTF-8;
/// then the first key, in the order of the format, that is missing, of another kind or out of its range;
/// then the first unknown key; then a name of a host that stands twice, and a path that does.
pub fn read_site(alloc: Global, bytes: &[u8]) -> Result<Site, SiteFault>
    ensures site { IfOk result (λ site. site_said bytes.now ≡ Ok site) }
    ensures fault { IfErr result (λ fault. fault ≢ SiteFault.NoMemory → site_said bytes.now ≡ Err fault) }
    ensures said { IfOk result IsSaid }
    ensures served { IfOk result IsServed }
{
    read(alloc, bytes)
}
