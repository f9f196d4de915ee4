//! A folder in memory, with faults and edits by a plan.

mod looking;

ghost use Rattle.std.specs.Prelude.{◌≡◌, ◌≤◌, true, false, IfOk, OnOk, vec_len, Some};
ghost use Rattle.outside.specs.Shelf.{state_of};
ghost use Rattle.outside.specs.MemFolder.{after_due, after_edits};
ghost use Rattle.outside.specs.Plans.{begun, next, next_call, next_fate, CountsFate};
ghost use Rattle.outside.specs.Planned.{course_of};
ghost use Rattle.outside.specs.Files.{Evolves, IsOutside};

use crate::file_map::collect;
use crate::folder::{Change, Expect, FileEntry, Folder, FolderError, NoMemory};
use crate::plan::{Fate, FaultPlan, OutsideEdit};
use crate::planned::Planned;
use crate::shelf::Shelf;
use crate::subfolders::ordered;
use std::alloc::Global;
use values::{Bytes, Text};

/// Makes an edit that comes before a call.
fn edit_due(shelf: &mut Shelf, edit: &OutsideEdit, call: u64) -> Result<(), NoMemory>
    ensures edits { Evolves IsOutside (state_of shelf.old) (state_of shelf.new) }
    ensures ok { OnOk result (state_of shelf.new ≡ after_due edit.now call (state_of shelf.old)) }
{
    if edit.before_call != call {
        return Ok(());
    }
    match &edit.new {
        None => shelf.outside(edit.name.as_str(), None),
        Some(bytes) => shelf.outside(edit.name.as_str(), Some(bytes.as_slice())),
    }
}

/// Makes the edits that come before a call.
fn edit_before(shelf: &mut Shelf, edits: &[OutsideEdit], call: u64) -> Result<(), NoMemory>
    ensures edits { Evolves IsOutside (state_of shelf.old) (state_of shelf.new) }
    ensures ok { OnOk result (state_of shelf.new ≡ after_edits edits.now call (state_of shelf.old)) }
{
    for edit in edits {
        edit_due(shelf, edit, call)?;
    }
    Ok(())
}

/// A folder in memory.
#[derive(Drop)]
pub struct MemFolder {
    shelf: Shelf,
    planned: Planned,
}

impl MemFolder {
    ghost use Rattle.outside.specs.Files.{is_new};
    ghost use Rattle.outside.specs.Subfolders.{IsInByteOrder};

    /// A folder with these files and subfolders. Of several files under one name the first counts, and a subfolder
    /// that is given twice stands once. `plan` says which calls fail, and what is edited from outside.
    pub fn new(
        alloc: Global,
        there: bool,
        files: Vec<(Text, Bytes)>,
        folders: Vec<Text>,
        plan: FaultPlan,
    ) -> Result<MemFolder, NoMemory>
        requires no_files { there ≡ false → vec_len files ≡ 0 }
        requires no_folders { there ≡ false → vec_len folders ≡ 0 }
        ensures tells { IfOk result (λ m. ⟦<MemFolder as Folder>⟧.tells m × (⟦<MemFolder as Folder>⟧.state m ≡ is_new there files.items (⟦<MemFolder as Folder>⟧.state m).folders)) }
        ensures folders { IfOk result (λ m. IsInByteOrder folders.items (⟦<MemFolder as Folder>⟧.state m).folders) }
        ensures count { IfOk result (λ m. ⟦<MemFolder as Folder>⟧.count m ≡ 0) }
        ensures course { IfOk result (λ m. ⟦<MemFolder as Folder>⟧.course m ≡ Some (begun plan)) }
    {
        let files = collect(alloc, files)?;
        Ok(MemFolder {
            shelf: Shelf::new(alloc, there, files, ordered(folders)),
            planned: Planned::new(plan),
        })
    }

    /// Begins a call: makes the edits from outside that come before it, and finds what becomes of it.
    fn begin(&mut self) -> Result<Fate, NoMemory>
        ensures edits { Evolves IsOutside (state_of self.old.shelf) (state_of self.new.shelf) }
        ensures later { self.old.planned.faults.count ≤ self.new.planned.faults.count }
        ensures course { course_of self.new.planned ≡ next (course_of self.old.planned) }
        ensures fate { IfOk result (λ fate. fate ≡ next_fate (course_of self.old.planned)) }
        ensures planned { OnOk result (state_of self.new.shelf ≡ after_edits self.old.planned.plan.edits.items (next_call (course_of self.old.planned)) (state_of self.old.shelf)) }
        ensures counted { CountsFate (next_fate (course_of self.old.planned)) self.old.planned.faults.count self.new.planned.faults.count }
    {
        let fate = self.planned.begin();
        let edits = self.planned.plan.edits.as_slice();
        edit_before(&mut self.shelf, edits, self.planned.calls)?;
        Ok(fate)
    }
}

impl Folder for MemFolder {
    ghost use Rattle.outside.specs.FileMapEmpty.{files_of-no_len};
    ghost use Rattle.outside.specs.Subfolders.{no_names};
    ghost use Rattle.std.specs.Prelude.{Some};
    ghost use Rattle.outside.specs.Planned.{course_of};
    ghost use Rattle.outside.specs.Shelf.{state_of};

    ghost count = { λ m. m.planned.faults.count };

    ghost course = { λ m. Some (course_of m.planned) };

    ghost tells = { λ _. Unit {0} };

    ghost state = { λ m. state_of m.shelf };

    ghost absent_is_empty = { λ m told absent. files_of-no_len m.shelf.files (m.shelf.holds_none absent) };

    ghost absent_has_no_folders = { λ m told absent. no_names m.shelf.folders.items (m.shelf.no_folders absent) };

    ghost folders_rise = { λ m told. m.shelf.folders_rise };

    fn faults(&self) -> u64 {
        self.planned.faults.count
    }

    fn names(&mut self, ending: &str) -> Result<Option<Vec<FileEntry>>, FolderError> {
        match self.begin() {
            Err(NoMemory) => Err(FolderError::NoMemory),
            Ok(Fate::Acts) => self.shelf.names(ending),
            Ok(Fate::Fails) => Err(FolderError::Fault),
            Ok(Fate::ActsAndFails) => Err(FolderError::Fault),
        }
    }

    fn folders(&mut self) -> Result<Option<Vec<Text>>, FolderError> {
        match self.begin() {
            Err(NoMemory) => Err(FolderError::NoMemory),
            Ok(Fate::Acts) => self.shelf.folders(),
            Ok(Fate::Fails) => Err(FolderError::Fault),
            Ok(Fate::ActsAndFails) => Err(FolderError::Fault),
        }
    }

    fn read(&mut self, name: &str, limit: u64) -> Result<Option<Vec<u8>>, FolderError> {
        match self.begin() {
            Err(NoMemory) => Err(FolderError::NoMemory),
            Ok(Fate::Acts) => self.shelf.read(name, limit),
            Ok(Fate::Fails) => Err(FolderError::Fault),
            Ok(Fate::ActsAndFails) => Err(FolderError::Fault),
        }
    }

    fn replace(&mut self, name: &str, expect: Expect, new: &[u8]) -> Result<Change, FolderError> {
        match self.begin() {
            Err(NoMemory) => Err(FolderError::NoMemory),
            Ok(Fate::Acts) => self.shelf.replace(name, expect, new),
            Ok(Fate::Fails) => Err(FolderError::Fault),
            Ok(Fate::ActsAndFails) => match self.shelf.replace(name, expect, new) {
                Ok(_) => Err(FolderError::Fault),
                Err(error) => Err(error),
            },
        }
    }

    fn remove(&mut self, name: &str, tag: &str) -> Result<Change, FolderError> {
        match self.begin() {
            Err(NoMemory) => Err(FolderError::NoMemory),
            Ok(Fate::Acts) => self.shelf.remove(name, tag),
            Ok(Fate::Fails) => Err(FolderError::Fault),
            Ok(Fate::ActsAndFails) => match self.shelf.remove(name, tag) {
                Ok(_) => Err(FolderError::Fault),
                Err(error) => Err(error),
            },
        }
    }

    fn make(&mut self) -> Result<(), FolderError> {
        match self.begin() {
            Err(NoMemory) => Err(FolderError::NoMemory),
            Ok(Fate::Acts) => match self.shelf.make() {
                Ok(()) => Ok(()),
                Err(NoMemory) => Err(FolderError::NoMemory),
            },
            Ok(Fate::Fails) => Err(FolderError::Fault),
            Ok(Fate::ActsAndFails) => match self.shelf.make() {
                Ok(()) => Err(FolderError::Fault),
                Err(NoMemory) => Err(FolderError::NoMemory),
            },
        }
    }
}
