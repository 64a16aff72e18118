// Names of hosts, and paths of a host, that stand twice.
ghost use Rattle.std.specs.Prelude.{◌≡◌, ◌++◌, [], map, option_map, IfOk, OnOk};
ghost use Rattle.std.specs.List.{list_any, flat_map};
ghost use Rattle.std.specs.Option.{option_copied};
ghost use Rattle.host_base.specs.SiteRules.{names_of, path_of};
ghost use Rattle.site_file.specs.Doubles.{same_by, first_again, name_again, any_again, name_of, path_again_in, path_again, double_in};
ghost use Rattle.site_file.specs.Steps.{Finds};
ghost use Rattle.site_file.specs.Tables.{text_at};

use crate::fault::SiteFault;
use host_base::{NoMemory, Script, Text, VHost};
use std::alloc::Global;

/// How two texts are compared.
#[derive(Clone, Copy)]
pub enum Sameness {
    /// Byte for byte.
    Exact,
    /// Without regard to ASCII case.
    AnyCase,
}

fn is_same(sameness: Sameness, a: &Text, b: &Text) -> bool
    ensures { result ≡ same_by sameness a.now b.now }
{
    match sameness {
        Sameness::Exact => a.as_bytes() == b.as_bytes(),
        Sameness::AnyCase => a.as_bytes().eq_ignore_ascii_case(b.as_bytes()),
    }
}

fn is_among(sameness: Sameness, text: &Text, texts: &[&Text]) -> bool
    ensures { result ≡ list_any (λ other. same_by sameness text.now other.now) texts.now }
{
    texts.iter().any(|other| is_same(sameness, text, other))
}

// The first text that is the same as one before it.
fn first_again<'t>(sameness: Sameness, texts: &[&'t Text]) -> Option<&'t Text>
    ensures { option_copied result ≡ first_again (same_by sameness) [] (map text_at texts.now) }
{
    for (index, text) in texts.iter().enumerate() {
        let (before, _) = texts.split_at(index);
        if is_among(sameness, text, before) {
            return Some(text);
        }
    }
    None
}

fn add_names<'t>(names: &mut Vec<&'t Text>, host: &'t VHost) -> Result<(), NoMemory>
    ensures { OnOk result (map text_at names.new.items ≡ map text_at names.old.items ++ names_of host.now) }
{
    names.push(&host.name)?;
    for alias in host.aliases.as_slice() {
        names.push(alias)?;
    }
    Ok(())
}

// The names and aliases of the hosts, in their order.
fn names_of(alloc: Global, hosts: &[VHost]) -> Result<Vec<&Text>, NoMemory>
    ensures { IfOk result (λ names. map text_at names.items ≡ flat_map names_of hosts.now) }
{
    let mut names = Vec::new(alloc);
    for host in hosts {
        add_names(&mut names, host)?;
    }
    Ok(names)
}

fn paths_of(alloc: Global, scripts: &[Script]) -> Result<Vec<&Text>, NoMemory>
    ensures { IfOk result (λ paths. map text_at paths.items ≡ map path_of scripts.now) }
{
    let mut paths = Vec::new(alloc);
    for script in scripts {
        paths.push(&script.path)?;
    }
    Ok(paths)
}

// The second host that takes any name.
fn any_again(hosts: &[VHost]) -> Option<&VHost>
    ensures { option_map (λ host. name_of host.now) result ≡ any_again hosts.now }
{
    let mut is_taken = false;
    for host in hosts {
        if host.any {
            if is_taken {
                return Some(host);
            }
            is_taken = true;
        }
    }
    None
}

// The first path of a host that stood before.
fn path_again_in(alloc: Global, host: &VHost) -> Result<Option<&Text>, NoMemory>
    ensures { IfOk result (λ path. option_copied path ≡ path_again_in host.now) }
{
    let paths = paths_of(alloc, host.scripts.as_slice())?;
    Ok(first_again(Sameness::Exact, paths.as_slice()))
}

fn path_again(alloc: Global, hosts: &[VHost]) -> Result<Option<&Text>, NoMemory>
    ensures { IfOk result (λ path. option_copied path ≡ path_again hosts.now) }
{
    for host in hosts {
        match path_again_in(alloc, host)? {
            Some(path) => return Ok(Some(path)),
            None => {}
        }
    }
    Ok(None)
}

fn name_again(alloc: Global, hosts: &[VHost]) -> Result<Option<&Text>, NoMemory>
    ensures { IfOk result (λ name. option_copied name ≡ name_again hosts.now) }
{
    let names = names_of(alloc, hosts)?;
    Ok(first_again(Sameness::AnyCase, names.as_slice()))
}

/// The first name of a host that stood before, the second host that takes any name, or the first path
/// of a host that stood before, in this order.
#[tactic(auto, unfolding(crate::specs::Doubles::double_in))]
pub fn double(alloc: Global, hosts: &[VHost]) -> Result<(), SiteFault>
    ensures { Finds (double_in hosts.now) result }
{
    if let Some(name) = name_again(alloc, hosts)? {
        return Err(SiteFault::DoubleHost(Text::copy_of(alloc, name.as_str())?));
    }
    if let Some(host) = any_again(hosts) {
        return Err(SiteFault::DoubleHost(Text::copy_of(alloc, host.name.as_str())?));
    }
    if let Some(path) = path_again(alloc, hosts)? {
        return Err(SiteFault::DoubleScript(Text::copy_of(alloc, path.as_str())?));
    }
    Ok(())
}
