//! What a folder in memory holds, and what has happened to it.

ghost use Rattle.std.specs.Prelude.{◌≡◌, ◌≢◌, ◌<◌, ◌-◌, ◌^◌, true, false, IfOk, OnOk, OnErr, [], option_copied, length};
ghost use Rattle.std.specs.Ordering.{nat_cmp};
ghost use Rattle.std.specs.Cmp.Lexicographic.{slice_cmp};
ghost use Rattle.std.specs.List.Sorted.{IsStrictlySortedBy};
ghost use Rattle.std.proofs.Props.{props};
ghost use Rattle.std.specs.BTreeMap.{btree_map_len};
ghost use Rattle.std.specs.FinMap as fin;

use crate::etag::etag_of;
use crate::file_map::{FileMap, copy_of, entries, lent, set};
use crate::folder::{Change, Expect, FileEntry, FolderError, FolderEvent, NoMemory};
use crate::subfolders::copied;
use std::alloc::Global;
use values::{Bytes, Text};

/// A folder's files, its subfolders and its trail.
#[derive(Drop)]
pub struct Shelf {
    alloc: Global,
    there: bool,
    files: FileMap,
    folders: Vec<Text>,
    trail: Vec<FolderEvent>,
    ghost holds_none: { there ≡ false → btree_map_len files ≡ 0 },
    ghost no_folders: { there ≡ false → length folders.items ≡ 0 },
    ghost folders_rise: { IsStrictlySortedBy (slice_cmp nat_cmp) folders.items } by { Prim.hlevel props },
}

/// What the trail keeps of a change.
#[derive(Drop)]
struct Kept {
    name: Text,
    old: Option<Bytes>,
    new: Option<Bytes>,
}

fn copy(alloc: Global, bytes: &[u8]) -> Result<Bytes, NoMemory>
    ensures { IfOk result (λ copied. copied ≡ bytes.now) }
{
    Ok(Bytes::of(Vec::from_slice(alloc, bytes)?))
}

fn copy_text(alloc: Global, text: &str) -> Result<Text, NoMemory>
    ensures { IfOk result (λ copied. copied ≡ text.now) }
{
    Ok(Text::of(String::from_str(alloc, text)?))
}

impl Shelf {
    ghost use Rattle.outside.specs.Files.{happens, Evolves, IsOutside};
    ghost use Rattle.outside.specs.FileMap.{files_of};
    ghost use Rattle.outside.specs.Shelf.{state_of, is_started};
    ghost use Rattle.outside.specs.FolderCalls.{meets, has_etag, wrote, edited, made, after_edit, NamesAnswer, FoldersAnswer, ReadAnswer, ReplaceAnswer, RemoveAnswer, MakeAnswer};

    pub fn new(alloc: Global, there: bool, files: FileMap, folders: Vec<Text>) -> Shelf
        requires no_files { there ≡ false → btree_map_len files ≡ 0 }
        requires no_folders { there ≡ false → length folders.items ≡ 0 }
        requires folders_rise { IsStrictlySortedBy (slice_cmp nat_cmp) folders.items }
        ensures { state_of result ≡ is_started there files folders }
    {
        Shelf {
            alloc,
            there,
            files,
            folders,
            trail: Vec::new(alloc),
        }
    }

    pub fn is_there(&self) -> bool
        ensures { result ≡ (state_of self.now).is_there }
    {
        self.there
    }

    pub fn files(&self) -> &FileMap
        ensures { files_of result.now ≡ (state_of self.now).files }
    {
        &self.files
    }

    pub fn subfolders(&self) -> &[Text]
        ensures { result.now ≡ (state_of self.now).folders }
    {
        self.folders.as_slice()
    }

    pub fn trail(&self) -> &[FolderEvent]
        ensures { result.now ≡ (state_of self.now).trail }
    {
        self.trail.as_slice()
    }

    fn kept(&self, name: &str, new: Option<&[u8]>) -> Result<Kept, NoMemory>
        ensures name { IfOk result (λ kept. kept.name ≡ name.now) }
        ensures old { IfOk result (λ kept. kept.old ≡ fin.get (state_of self.now).files name.now) }
        ensures new { IfOk result (λ kept. kept.new ≡ option_copied new.entry) }
    {
        let kept = match new {
            None => None,
            Some(bytes) => Some(copy(self.alloc, bytes)?),
        };
        Ok(Kept {
            name: copy_text(self.alloc, name)?,
            old: copy_of(self.alloc, &self.files, name)?,
            new: kept,
        })
    }

    /// Writes a file, or takes it away.
    pub fn write(&mut self, name: &str, new: Option<&[u8]>) -> Result<(), NoMemory>
        requires { (state_of self.old).is_there ≡ true }
        ensures ok { OnOk result (state_of self.new ≡ wrote (state_of self.old) name.now (option_copied new.entry)) }
        ensures err { OnErr result (state_of self.new ≡ state_of self.old) }
    {
        let kept = self.kept(name, new)?;
        self.trail.reserve(1)?;
        set(self.alloc, &mut self.files, name, new)?;
        let Kept { name, old, new } = kept;
        self.trail
            .push(FolderEvent::Wrote { name, old, new })
            .unwrap();
        Ok(())
    }

    /// Changes a file, or takes it away, as from outside.
    pub fn edit(&mut self, name: &str, new: Option<&[u8]>) -> Result<(), NoMemory>
        requires { (state_of self.old).is_there ≡ true }
        ensures ok { OnOk result (state_of self.new ≡ edited (state_of self.old) name.now (option_copied new.entry)) }
        ensures err { OnErr result (state_of self.new ≡ state_of self.old) }
    {
        let kept = self.kept(name, new)?;
        self.trail.reserve(1)?;
        set(self.alloc, &mut self.files, name, new)?;
        let Kept { name, old, new } = kept;
        self.trail
            .push(FolderEvent::Edited { name, old, new })
            .unwrap();
        Ok(())
    }

    /// Makes the folder, as from outside.
    pub fn appear(&mut self) -> Result<(), NoMemory>
        requires { (state_of self.old).is_there ≡ false }
        ensures empty { (state_of self.old).files ≡ fin.empty }
        ensures ok { OnOk result (state_of self.new ≡ happens (state_of self.old) FolderEvent.Toggled) }
        ensures err { OnErr result (state_of self.new ≡ state_of self.old) }
    {
        self.trail.push(FolderEvent::Toggled)?;
        self.there = true;
        Ok(())
    }

    /// Makes an edit from outside. One that brings a file makes the folder first.
    pub fn outside(&mut self, name: &str, new: Option<&[u8]>) -> Result<(), NoMemory>
        ensures edits { Evolves IsOutside (state_of self.old) (state_of self.new) }
        ensures ok { OnOk result (state_of self.new ≡ after_edit (state_of self.old) name.now (option_copied new.entry)) }
    {
        if self.there {
            return self.edit(name, new);
        }
        if new.is_none() {
            return Ok(());
        }
        self.appear()?;
        self.edit(name, new)
    }

    pub fn names(&self, ending: &str) -> Result<Option<Vec<FileEntry>>, FolderError>
        ensures answer { NamesAnswer (state_of self.now) (state_of self.now) ending.now result }
        ensures no_fault { result ≢ Err FolderError.Fault }
    {
        if !self.there {
            return Ok(None);
        }
        Ok(Some(entries(self.alloc, &self.files, ending)?))
    }

    pub fn folders(&self) -> Result<Option<Vec<Text>>, FolderError>
        ensures answer { FoldersAnswer (state_of self.now) (state_of self.now) result }
        ensures no_fault { result ≢ Err FolderError.Fault }
    {
        if !self.there {
            return Ok(None);
        }
        Ok(Some(copied(self.alloc, self.folders.as_slice())?))
    }

    pub fn read(&mut self, name: &str, limit: u64) -> Result<Option<Vec<u8>>, FolderError>
        ensures answer { ReadAnswer (state_of self.old) (state_of self.new) name.now limit result }
        ensures long { result ≡ Err FolderError.TooLong → limit < 2 ^ 64 - 1 }
        ensures no_fault { result ≢ Err FolderError.Fault }
    {
        let Some(held) = lent(&self.files, name) else {
            return Ok(None);
        };
        if held.len() as u64 > limit {
            return Err(FolderError::TooLong);
        }
        let bytes = copy(self.alloc, held)?;
        let given = copy(self.alloc, held)?.into_vec();
        let name = copy_text(self.alloc, name)?;
        self.trail.push(FolderEvent::Read { name, bytes })?;
        Ok(Some(given))
    }

    /// Whether a file is as a conditional write expects it.
    fn meets(&self, name: &str, expect: Expect) -> Result<bool, NoMemory>
        ensures { IfOk result (λ met. met ≡ meets (state_of self.now) name.now expect.entry) }
    {
        if !self.there {
            return Ok(false);
        }
        match expect {
            Expect::Absent => Ok(lent(&self.files, name).is_none()),
            Expect::Etag(tag) => self.has_etag(name, tag),
        }
    }

    /// Whether a file is there with this etag.
    fn has_etag(&self, name: &str, tag: &str) -> Result<bool, NoMemory>
        ensures { IfOk result (λ has. has ≡ has_etag tag.now (fin.get (state_of self.now).files name.now)) }
    {
        let Some(bytes) = lent(&self.files, name) else {
            return Ok(false);
        };
        let etag = etag_of(self.alloc, bytes)?;
        Ok(etag.as_str() == tag)
    }

    pub fn replace(&mut self, name: &str, expect: Expect, new: &[u8]) -> Result<Change, FolderError>
        ensures answer { ReplaceAnswer (state_of self.old) (state_of self.new) name.now expect.entry new.now result }
        ensures no_fault { result ≢ Err FolderError.Fault }
    {
        if !self.meets(name, expect)? {
            return Ok(Change::Moved);
        }
        self.write(name, Some(new))?;
        Ok(Change::Done)
    }

    pub fn remove(&mut self, name: &str, tag: &str) -> Result<Change, FolderError>
        ensures answer { RemoveAnswer (state_of self.old) (state_of self.new) name.now tag.now result }
        ensures no_fault { result ≢ Err FolderError.Fault }
    {
        if !self.there {
            return Ok(Change::Moved);
        }
        if !self.has_etag(name, tag)? {
            return Ok(Change::Moved);
        }
        self.write(name, None)?;
        Ok(Change::Done)
    }

    pub fn make(&mut self) -> Result<(), NoMemory>
        ensures ok { OnOk result (state_of self.new ≡ made (state_of self.old)) }
        ensures err { OnErr result (state_of self.new ≡ state_of self.old) }
    {
        if self.there {
            return Ok(());
        }
        self.trail.push(FolderEvent::Made)?;
        self.there = true;
        Ok(())
    }
}
