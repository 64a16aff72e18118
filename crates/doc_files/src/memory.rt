// A store of documents in memory.
ghost use Rattle.std.specs.Prelude.{◌≡◌, ◌+◌, ◌-◌, ◌^◌, min, Some, find, IfOk};
ghost use Rattle.std.specs.Option.{option_copied};
ghost use Rattle.doc_files.specs.Files.{is_at};

use crate::alike::are_alike;
use crate::store::{DocFault, DocStore};
use document_output::DocRead;
use host_base::{Bytes, NoMemory, Sequence, Text};

/// A document of a store in memory.
#[derive(Clone, Drop, Debug)]
pub struct DocFile {
    pub root: Text,
    pub path: Text,
    pub bytes: Bytes,
}

/// A store of some documents, which tells what it holds. Where it is made to fail, each read fails.
#[derive(Drop, Debug)]
pub struct MemoryDocs {
    pub files: Sequence<DocFile>,
    pub fails: bool,
    pub faults: u64,
}

fn file_at<'a>(files: &'a [DocFile], root: &str, path: &str) -> Option<&'a DocFile>
    ensures { option_copied result ≡ find (is_at root.now path.now) files.now }
{
    files.iter().find(|file| file.root.as_bytes() == root.as_bytes()
        && file.path.as_bytes() == path.as_bytes())
}

impl MemoryDocs {
    ghost use Rattle.std.specs.Prelude.{◌≡◌};

    pub fn new(files: Sequence<DocFile>, fails: bool) -> Self
        ensures files { result.files ≡ files }
        ensures fails { result.fails ≡ fails }
        ensures none { result.faults ≡ 0 }
    {
        MemoryDocs {
            files,
            fails,
            faults: 0,
        }
    }
}

impl DocStore for MemoryDocs {
    ghost use Rattle.std.specs.Prelude.{Some};
    ghost use Rattle.doc_files.specs.Files.{held_in};

    ghost held = { λ s. Some (held_in s.files) };

    ghost faults = { λ s. s.faults };

    fn another(&mut self) -> Result<Self, NoMemory> {
        Ok(MemoryDocs {
            files: self.files.clone()?,
            fails: self.fails,
            faults: 0,
        })
    }

    fn take_back(&mut self, other: Self) {
        self.faults = self.faults.saturating_add(other.faults);
    }

    fn holds_as(&self, other: &Self) -> bool {
        are_alike(self.files.as_slice(), other.files.as_slice())
    }

    fn read(&mut self, root: &str, path: &str) -> Result<DocRead, DocFault> {
        if self.fails {
            self.faults = self.faults.saturating_add(1);
            return Err(DocFault::Failed);
        }
        match file_at(self.files.as_slice(), root, path) {
            Some(file) => match file.bytes.clone() {
                Ok(bytes) => Ok(DocRead::Found(bytes)),
                Err(_) => Err(DocFault::NoMemory),
            },
            None => Ok(DocRead::Missing),
        }
    }
}
