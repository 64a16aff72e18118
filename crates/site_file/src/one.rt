// The site of one script.
ghost use Rattle.std.specs.Prelude.{◌≡◌, ◌≢◌, [], ◌∷◌, IfOk, IfErr, None, Some};
ghost use Rattle.host_base.specs.SiteRules.{IsServed};
ghost use Rattle.site_file.specs.OneScript.{fault_of, site_of_one};
ghost use Rattle.site_file.specs.SiteFile.{IsSaid};

use crate::fault::{Key, SiteFault};
use crate::ranges::{is_program, is_script_path};
use host_base::{
    Docs, Hosts, Limits, NoMemory, Script, ScriptKind, Scripts, Site, Text, Texts, VHost,
};
use std::alloc::Global;

fn host(alloc: Global, path: &str, program: &str) -> Result<VHost, NoMemory>
    ensures { IfOk result (λ host. host ∷ [] ≡ (site_of_one path.now program.now).hosts) }
{
    let mut scripts = Scripts::new(alloc);
    scripts.push(Script {
        path: Text::copy_of(alloc, path)?,
        program: Text::copy_of(alloc, program)?,
        kind: ScriptKind::Cgi,
        origins: None,
    })?;
    Ok(VHost {
        name: Text::copy_of(alloc, "localhost")?,
        aliases: Texts::new(alloc),
        any: true,
        root: Text::copy_of(alloc, "/srv/www")?,
        scripts,
    })
}

fn site(alloc: Global, path: &str, program: &str) -> Result<Site, NoMemory>
    ensures { IfOk result (λ site. site ≡ site_of_one path.now program.now) }
{
    let mut hosts = Hosts::new(alloc);
    hosts.push(host(alloc, path, program)?)?;
    Ok(Site {
        listen: Text::copy_of(alloc, "127.0.0.1")?,
        port: 8080,
        limits: Limits::default(),
        hosts,
        docs: Docs::new(alloc),
    })
}

/// The site with one script of kind cgi and the defaults of a site file for all else, for a host that
/// takes any name. The path is looked at first, then the program.
pub fn one_script(alloc: Global, path: &str, program: &str) -> Result<Site, SiteFault>
    ensures site { IfOk result (λ site. (fault_of path.now program.now ≡ None) × (site ≡ site_of_one path.now program.now)) }
    ensures fault { IfErr result (λ fault. fault ≢ SiteFault.NoMemory → fault_of path.now program.now ≡ Some fault) }
    ensures said { IfOk result IsSaid }
    ensures served { IfOk result IsServed }
{
    if !is_script_path(path) {
        return Err(Key {
            place: "script[0].",
            name: "path",
        }
        .out_of_range(alloc));
    }
    if !is_program(program) {
        return Err(Key {
            place: "script[0].",
            name: "program",
        }
        .out_of_range(alloc));
    }
    Ok(site(alloc, path, program)?)
}
