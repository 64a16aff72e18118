// Documents are numbered over the whole site.
ghost use Rattle.std.specs.Prelude.{◌≡◌, [], ◌∷◌, ◌++◌, length, IfOk, OnOk};
ghost use Rattle.site_file.specs.Numbering.{documents_program, documents_script, doc_root_of, host_of, folders_of, site_of};

use crate::said::{SaidDocuments, SaidHost, SaidSite};
use host_base::{DocRoot, Docs, Hosts, NoMemory, Script, ScriptKind, Scripts, Site, Text, VHost};
use std::alloc::Global;

fn documents_program(alloc: Global, number: usize) -> Result<Text, NoMemory>
    ensures { IfOk result (λ text. text ≡ documents_program number) }
{
    Ok(Text::from_string(format!(in alloc; "documents:{number}")?))
}

// Adds documents as a script and as a folder of the next number.
fn add_documents(
    alloc: Global,
    documents: SaidDocuments,
    scripts: &mut Scripts,
    docs: &mut Docs,
) -> Result<(), NoMemory>
    ensures scripts { OnOk result (scripts.new ≡ scripts.old ++ documents_script (length docs.old) documents ∷ []) }
    ensures docs { OnOk result (docs.new ≡ docs.old ++ doc_root_of documents ∷ []) }
{
    let SaidDocuments { path, root, types } = documents;
    scripts.push(Script {
        path,
        program: documents_program(alloc, docs.len())?,
        kind: ScriptKind::Cgi,
        origins: None,
    })?;
    docs.push(DocRoot { root, types })
}

fn host_of(alloc: Global, host: SaidHost, docs: &mut Docs) -> Result<VHost, NoMemory>
    ensures host { IfOk result (λ made. made ≡ host_of (length docs.old) host) }
    ensures docs { OnOk result (docs.new ≡ docs.old ++ folders_of host) }
{
    let SaidHost {
        name,
        aliases,
        any,
        root,
        mut scripts,
        documents,
    } = host;
    let mut rest = documents.into_vec().into_iter();
    while let Some(table) = rest.next() {
        add_documents(alloc, table, &mut scripts, docs)?;
    }
    Ok(VHost {
        name,
        aliases,
        any,
        root,
        scripts,
    })
}

/// The site of a file.
pub fn site_of(alloc: Global, said: SaidSite) -> Result<Site, NoMemory>
    ensures { IfOk result (λ site. site ≡ site_of said) }
{
    let SaidSite {
        listen,
        port,
        limits,
        hosts: said_hosts,
    } = said;
    let mut hosts = Hosts::new(alloc);
    let mut docs = Docs::new(alloc);
    let mut rest = said_hosts.into_vec().into_iter();
    while let Some(host) = rest.next() {
        hosts.push(host_of(alloc, host, &mut docs)?)?;
    }
    Ok(Site {
        listen,
        port,
        limits,
        hosts,
        docs,
    })
}
