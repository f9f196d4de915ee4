//! A folder of files.

ghost use Rattle.std.specs.Prelude.{◌≡◌, ℕ, Some, None, IfErr};
ghost use Rattle.outside.specs.Causes.{Rose};
ghost use Rattle.outside.specs.declared.folder.FolderError.TheVariants.{NoMemory as out_of_memory};

use std::alloc::{AllocError, AllocFailed};
use thiserror::Error;
use values::{Bytes, Text};

/// Memory ran out.
#[derive(Debug, Drop, Error)]
#[error("out of memory")]
pub struct NoMemory;

impl From<AllocError> for NoMemory {
    fn from(_e: AllocError) -> NoMemory {
        NoMemory
    }
}

impl<T: Drop> From<AllocFailed<T>> for NoMemory {
    fn from(_e: AllocFailed<T>) -> NoMemory {
        NoMemory
    }
}

/// Why a folder didn't do what it was asked.
#[derive(Debug, Drop, Error)]
pub enum FolderError {
    /// The device failed, and its count of faults rose.
    #[error("fault")]
    Fault,
    /// The file is longer than the limit of the call.
    #[error("too long")]
    TooLong,
    /// Memory ran out, and nothing was changed.
    #[error("out of memory")]
    NoMemory,
}

impl From<NoMemory> for FolderError {
    ghost from_gives = { λ _ e. e ≡ out_of_memory };

    fn from(_e: NoMemory) -> FolderError {
        FolderError::NoMemory
    }
}

impl<T: Drop> From<AllocFailed<T>> for FolderError {
    ghost from_gives = { λ _ e. e ≡ out_of_memory };

    fn from(_e: AllocFailed<T>) -> FolderError {
        FolderError::NoMemory
    }
}

/// A file's name and the etag of its bytes.
#[derive(Debug, Drop)]
pub struct FileEntry {
    pub name: Text,
    pub etag: Text,
}

/// What a conditional write expects to find.
#[derive(Clone, Copy, Debug)]
pub enum Expect<'a> {
    /// No file under the name.
    Absent,
    /// A file with this etag.
    Etag(&'a str),
}

/// What a conditional write has done.
#[derive(Clone, Copy, Debug, PartialEq, Eq)]
pub enum Change {
    /// The write was done.
    Done,
    /// The file or the folder isn't as it was expected, and nothing was changed.
    Moved,
}

/// Something that happened to a folder.
#[derive(Debug, Drop)]
pub enum FolderEvent {
    /// An edit from outside.
    Edited {
        name: Text,
        old: Option<Bytes>,
        new: Option<Bytes>,
    },
    /// The folder came or went by an edit from outside.
    Toggled,
    /// An own write.
    Wrote {
        name: Text,
        old: Option<Bytes>,
        new: Option<Bytes>,
    },
    /// The file was read, and had these bytes.
    Read {
        name: Text,
        bytes: Bytes,
    },
    /// The folder was made by `make`.
    Made,
}

pub trait Folder {
    ghost use Rattle.std.specs.Prelude.{Option, IsErr, false, []};
    ghost use Rattle.std.specs.Ordering.{nat_cmp};
    ghost use Rattle.std.specs.Cmp.Lexicographic.{slice_cmp};
    ghost use Rattle.std.specs.List.Sorted.{IsStrictlySortedBy};
    ghost use Rattle.std.specs.FinMap as fin;
    ghost use Rattle.outside.specs.Files.{FolderState, Changes, IsOutside, IsReadOf, IsWriteOf, IsMaking};
    ghost use Rattle.outside.specs.Plans.{Course, GoesBy};
    ghost use Rattle.outside.specs.FolderCalls.{AfterEdits, FolderCause, ReadCause, IsWithin, NamesAnswer, FoldersAnswer, ReadAnswer, ReplaceAnswer, RemoveAnswer, MakeAnswer};

    /// The count of faults.
    ghost count: { Self → ℕ };

    /// The plan by which its calls fail, and how many calls have begun, where that is told.
    ghost course: { Self → Option Course };

    /// Whether contracts can see the folder's state.
    ghost tells: { Self → Type 0 };

    /// The folder's state, where it is told.
    ghost state: { Self → FolderState };

    /// How often a call has failed. The count stays at the last value of a `u64`.
    fn faults(&self) -> u64
        ensures { result ≡ count self.now };

    /// The files whose name ends so, with their etags, in byte order of names. `None` where the folder isn't there.
    fn names(&mut self, ending: &str) -> Result<Option<Vec<FileEntry>>, FolderError>
        ensures changes { Changes count tells state IsOutside self.old self.new }
        ensures cause { IfErr result (FolderCause (Rose (count self.old) (count self.new))) }
        ensures goes { GoesBy (course self.old) (course self.new) (count self.old) (count self.new) (IsErr result) }
        ensures answer { tells self.old → AfterEdits (state self.old) (λ m. NamesAnswer m (state self.new) ending.now result) };

    /// The names of the subfolders, in byte order. `None` where the folder isn't there.
    fn folders(&mut self) -> Result<Option<Vec<Text>>, FolderError>
        ensures changes { Changes count tells state IsOutside self.old self.new }
        ensures cause { IfErr result (FolderCause (Rose (count self.old) (count self.new))) }
        ensures goes { GoesBy (course self.old) (course self.new) (count self.old) (count self.new) (IsErr result) }
        ensures answer { tells self.old → AfterEdits (state self.old) (λ m. FoldersAnswer m (state self.new) result) };

    /// A file's bytes. `None` where the file isn't there, `TooLong` where it has more than `limit` bytes.
    fn read(&mut self, name: &str, limit: u64) -> Result<Option<Vec<u8>>, FolderError>
        ensures changes { Changes count tells state (IsReadOf name.now) self.old self.new }
        ensures cause { IfErr result (ReadCause (Rose (count self.old) (count self.new)) limit) }
        ensures goes { GoesBy (course self.old) (course self.new) (count self.old) (count self.new) (IsErr result) }
        ensures within { IsWithin limit result }
        ensures answer { tells self.old → AfterEdits (state self.old) (λ m. ReadAnswer m (state self.new) name.now limit result) };

    /// Writes the file whole, where it is as `expect` says, and answers `Moved` otherwise. After `Fault` it has been
    /// written whole or not at all.
    fn replace(&mut self, name: &str, expect: Expect, new: &[u8]) -> Result<Change, FolderError>
        ensures changes { Changes count tells state (IsWriteOf name.now (Some new.now)) self.old self.new }
        ensures cause { IfErr result (FolderCause (Rose (count self.old) (count self.new))) }
        ensures goes { GoesBy (course self.old) (course self.new) (count self.old) (count self.new) (IsErr result) }
        ensures answer { tells self.old → AfterEdits (state self.old) (λ m. ReplaceAnswer m (state self.new) name.now expect.entry new.now result) };

    /// Takes the file away, where it has this etag, and answers `Moved` otherwise. After `Fault` it is gone or
    /// as it was.
    fn remove(&mut self, name: &str, tag: &str) -> Result<Change, FolderError>
        ensures changes { Changes count tells state (IsWriteOf name.now None) self.old self.new }
        ensures cause { IfErr result (FolderCause (Rose (count self.old) (count self.new))) }
        ensures goes { GoesBy (course self.old) (course self.new) (count self.old) (count self.new) (IsErr result) }
        ensures answer { tells self.old → AfterEdits (state self.old) (λ m. RemoveAnswer m (state self.new) name.now tag.now result) };

    /// Makes the folder and its parents. It changes nothing where the folder is there.
    fn make(&mut self) -> Result<(), FolderError>
        ensures changes { Changes count tells state IsMaking self.old self.new }
        ensures cause { IfErr result (FolderCause (Rose (count self.old) (count self.new))) }
        ensures goes { GoesBy (course self.old) (course self.new) (count self.old) (count self.new) (IsErr result) }
        ensures answer { tells self.old → AfterEdits (state self.old) (λ m. MakeAnswer m (state self.new) result) };

    /// A folder that isn't there has no files.
    ghost absent_is_empty: { (f : Self) → tells f → (state f).is_there ≡ false → (state f).files ≡ fin.empty };

    /// A folder that isn't there has no subfolders.
    ghost absent_has_no_folders: { (f : Self) → tells f → (state f).is_there ≡ false → (state f).folders ≡ [] };

    /// The names of the subfolders stand in byte order, each of them once.
    ghost folders_rise: { (f : Self) → tells f → IsStrictlySortedBy (slice_cmp nat_cmp) (state f).folders };
}
