// The real store of documents.
ghost use Rattle.std.specs.Prelude.{◌≡◌, ◌+◌, take, IfOk, IfSome};

use super::below::is_below;
use doc_files::{DocFault, DocRead, DocStore};
use host_base::{Bytes, NoMemory};
use std::alloc::Global;
use std::fs::File;
use std::io::{ErrorKind, Read};
use std::rt::Files;
use std::{fs, io};

/// The longest document.
const LONGEST: u64 = 8_388_608;

/// The files of the system. It tells nothing of what they hold.
///
/// Links are followed as long as what they lead to stands below the folder. Only a regular file is opened: a FIFO is
/// never, since opening it waits for its other end. Who may write below the folder can put another file in the place of
/// one between the test and the opening, and is trusted not to.
#[derive(Drop)]
pub struct FileDocs<R> {
    rt: R,
    alloc: Global,
    faults: u64,
}

// What became of a file.
enum FileRead {
    Found(Vec<u8>),
    Missing,
    Failed,
    NoMemory,
}

// What an error says of the file: that there is none, or that something else is wrong.
fn missing_by(error: &io::Error) -> FileRead {
    match error.kind() {
        ErrorKind::NotFound
        | ErrorKind::NotADirectory
        | ErrorKind::FilesystemLoop
        | ErrorKind::InvalidFilename
        | ErrorKind::InvalidInput => FileRead::Missing,
        ErrorKind::OutOfMemory => FileRead::NoMemory,
        _ => FileRead::Failed,
    }
}

// All that the file has left, where that is not longer than the longest; else one byte more than that of it.
fn front_of<F: Read + Drop>(alloc: Global, file: F) -> io::Result<Vec<u8>>
    ensures { IfOk result (λ front. IfSome (F.remaining file) (λ all. front.items ≡ take (LONGEST + 1) all)) }
{
    let mut bytes = Vec::new(alloc);
    file.take(LONGEST + 1).read_to_end(&mut bytes)?;
    Ok(bytes)
}

impl<R> FileDocs<R> {
    pub fn new(rt: R, alloc: Global) -> Self
        ensures { result.faults ≡ 0 }
    {
        FileDocs {
            rt,
            alloc,
            faults: 0,
        }
    }
}

// The bytes of a regular file of that path.
fn read_regular<R: Files>(rt: &R, alloc: Global, path: &str) -> FileRead {
    match fs::metadata(rt, path) {
        Ok(about) if !about.is_file() => return FileRead::Missing,
        Ok(about) if about.len() > LONGEST => return FileRead::Failed,
        Ok(_) => {}
        Err(error) => return missing_by(&error),
    }
    match File::open(rt, path).and_then(|file| front_of(alloc, file)) {
        Ok(bytes) if bytes.len() as u64 <= LONGEST => FileRead::Found(bytes),
        Ok(_) => FileRead::Failed,
        Err(error) => missing_by(&error),
    }
}

// The bytes of the file at a path below a folder, once every link of both was followed.
fn read_below<R: Files>(rt: &R, alloc: Global, root: &str, path: &str) -> FileRead {
    let Ok(wanted) = format!(in alloc; "{root}{path}") else {
        return FileRead::NoMemory;
    };
    let folder = match rt.canonicalize(alloc, root) {
        Ok(folder) => folder,
        Err(error) => return missing_by(&error),
    };
    let file = match rt.canonicalize(alloc, wanted.as_str()) {
        Ok(file) => file,
        Err(error) => return missing_by(&error),
    };
    if !is_below(folder.as_str().as_bytes(), file.as_str().as_bytes()) {
        return FileRead::Missing;
    }
    read_regular(rt, alloc, file.as_str())
}

impl<R: Files + Copy> DocStore for FileDocs<R> {
    ghost use Rattle.std.specs.Prelude.{◌≡◌, ◌≤◌, ◌+◌, ◌-◌, ◌^◌, min, None, Err, IfOk, true};

    ghost held = { λ _. None };

    ghost faults = { λ s. s.faults };

    fn another(&mut self) -> Result<Self, NoMemory> {
        Ok(FileDocs::new(self.rt, self.alloc))
    }

    fn take_back(&mut self, other: Self) {
        self.faults = self.faults.saturating_add(other.faults);
    }

    // Neither tells.
    fn holds_as(&self, _other: &Self) -> bool {
        true
    }

    fn read(&mut self, root: &str, path: &str) -> Result<DocRead, DocFault> {
        match read_below(&self.rt, self.alloc, root, path) {
            FileRead::Found(bytes) => Ok(DocRead::Found(Bytes::from_vec(bytes))),
            FileRead::Missing => Ok(DocRead::Missing),
            FileRead::NoMemory => Err(DocFault::NoMemory),
            FileRead::Failed => {
                self.faults = self.faults.saturating_add(1);
                Err(DocFault::Failed)
            }
        }
    }
}
