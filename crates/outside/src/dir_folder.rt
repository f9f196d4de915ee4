//! A real folder. It tells nothing of what it holds, so of the contract of `Folder` only the count of faults speaks here.

ghost use Rattle.std.specs.Prelude.{◌≡◌, ◌≤◌, ◌<◌, ◌↔◌, IfErr, IfOk, Ok, Err, Some, vec_len};
ghost use Rattle.std.specs.IoError.{error_kind};
ghost use Rattle.outside.specs.Causes.{Rose};
ghost use Rattle.outside.specs.FolderCalls.{FolderCause};

use crate::disk;
use crate::faults::Faults;
use crate::folder::{Change, Expect, FileEntry, Folder, FolderError};
use std::fs::Files;
use std::io;
use std::io::ErrorKind;
use values::Text;

/// The answer of a folder to what the system found. A failure is counted, unless memory ran out.
fn counted<T>(faults: &mut Faults, found: io::Result<T>) -> Result<T, FolderError>
    ensures later { faults.old.count ≤ faults.new.count }
    ensures cause { IfErr result (FolderCause (Rose faults.old.count faults.new.count)) }
    ensures found { IfOk result (λ value. found ≡ Ok value) }
    ensures answered { IfOk found (λ value. result ≡ Ok value) }
    ensures memory { IfErr found (λ error. result ≡ Err FolderError.NoMemory ↔ (error_kind error ≡ ErrorKind.OutOfMemory)) }
{
    match found {
        Ok(value) => Ok(value),
        Err(error) => {
            if error.kind() == ErrorKind::OutOfMemory {
                return Err(FolderError::NoMemory);
            }
            faults.raise();
            Err(FolderError::Fault)
        }
    }
}

/// What was read of a file, where it is within the limit.
fn within(bytes: Vec<u8>, limit: u64) -> Result<Option<Vec<u8>>, FolderError>
    ensures long { result ≡ Err FolderError.TooLong ↔ limit < vec_len bytes }
    ensures whole { result ≡ Ok (Some bytes) ↔ vec_len bytes ≤ limit }
{
    if bytes.len() as u64 > limit {
        return Err(FolderError::TooLong);
    }
    Ok(Some(bytes))
}

/// A folder of the file system, by its path. A write goes to `NAME.tmp` beside the file, is carried to the disk and
/// then takes the file's name. An edit that another program makes between the comparison and that moment isn't seen.
#[derive(Drop)]
pub struct DirFolder<R: Files + AllocGlobal + Clone + Drop> {
    rt: R,
    path: Text,
    faults: Faults,
}

impl<R: Files + AllocGlobal + Clone + Drop> DirFolder<R> {
    /// The folder under a path, whether it is there or not.
    pub fn new(rt: R, path: Text) -> DirFolder<R>
        ensures { ⟦<DirFolder<R> as Folder>⟧.count result ≡ 0 }
    {
        DirFolder {
            rt,
            path,
            faults: Faults::new(),
        }
    }
}

impl<R: Files + AllocGlobal + Clone + Drop> Folder for DirFolder<R> {
    ghost use Rattle.std.specs.Prelude.{None};
    ghost use Rattle.outside.specs.Files.{nothing_told};

    ghost count = { λ d. d.faults.count };

    ghost course = { λ _. None };

    ghost tells = { λ _. ⊥ };

    ghost state = { λ _. nothing_told };

    ghost absent_is_empty = { λ d told absent. absurd told };

    ghost absent_has_no_folders = { λ d told absent. absurd told };

    ghost folders_rise = { λ d told. absurd told };

    fn faults(&self) -> u64 {
        self.faults.count
    }

    fn names(&mut self, ending: &str) -> Result<Option<Vec<FileEntry>>, FolderError> {
        let found = disk::entries(&self.rt, self.path.as_str(), ending);
        counted(&mut self.faults, found)
    }

    fn folders(&mut self) -> Result<Option<Vec<Text>>, FolderError> {
        let found = disk::subfolders(&self.rt, self.path.as_str());
        counted(&mut self.faults, found)
    }

    fn read(&mut self, name: &str, limit: u64) -> Result<Option<Vec<u8>>, FolderError> {
        let found = disk::read_file(&self.rt, self.path.as_str(), name, limit);
        match counted(&mut self.faults, found) {
            Ok(None) => Ok(None),
            Ok(Some(bytes)) => within(bytes, limit),
            Err(error) => Err(error),
        }
    }

    fn replace(&mut self, name: &str, expect: Expect, new: &[u8]) -> Result<Change, FolderError> {
        let done = disk::replace_file(&self.rt, self.path.as_str(), name, expect, new);
        counted(&mut self.faults, done)
    }

    fn remove(&mut self, name: &str, tag: &str) -> Result<Change, FolderError> {
        let done = disk::remove_file(&self.rt, self.path.as_str(), name, tag);
        counted(&mut self.faults, done)
    }

    fn make(&mut self) -> Result<(), FolderError> {
        let done = disk::make_folder(&self.rt, self.path.as_str());
        counted(&mut self.faults, done)
    }
}
