//! What a store in memory holds, and what has happened to it.

ghost use Rattle.std.specs.Prelude.{◌≡◌, IfOk, OnOk, OnErr, None, Some, option_copied, map};
ghost use Rattle.std.specs.FinMap as fin;
ghost use Rattle.outside.specs.FileMap.{files_of};
ghost use Rattle.store_model.specs.StoreCalls.{entry_of};
ghost use Rattle.store_model.specs.Waits.{fits_at};
ghost use Rattle.vdir_store.specs.VdirCalls.{expected_by, change_of};
ghost use Rattle.mem_store.specs.Memory.{content_of};

use outside::file_map::{FileMap, copy_of, lent, set};
use outside::{Change, Expect, NoMemory, etag_of};
use std::alloc::Global;
use store_model::Entry;
use values::{Bytes, Text};

/// A change of what a store in memory holds: what stood at the href, and what stands there now.
#[derive(Debug, Drop)]
pub enum MemEvent {
    /// An edit from outside.
    Edited {
        href: Text,
        old: Option<Bytes>,
        new: Option<Bytes>,
    },
    /// An own write. A removal leaves nothing.
    Wrote {
        href: Text,
        old: Option<Bytes>,
        new: Option<Bytes>,
    },
}

/// A text that `get` read, and its href.
#[derive(Debug, Drop)]
pub struct MemRead {
    pub href: Text,
    pub text: Bytes,
}

/// What the trail keeps of a change.
#[derive(Drop)]
struct Kept {
    href: Text,
    old: Option<Bytes>,
    new: Option<Bytes>,
}

/// The texts by their hrefs, what has changed them, and what was read.
#[derive(Drop)]
pub struct Shelf {
    alloc: Global,
    files: FileMap,
    trail: Vec<MemEvent>,
    reads: Vec<MemRead>,
}

fn copied(alloc: Global, bytes: &[u8]) -> Result<Bytes, NoMemory>
    ensures { IfOk result (λ copy. copy ≡ bytes.now) }
{
    Ok(Bytes::of(Vec::from_slice(alloc, bytes)?))
}

/// The entries of all texts, in byte order of hrefs.
fn entries(alloc: Global, files: &FileMap) -> Result<Vec<Entry>, NoMemory>
    ensures { IfOk result (λ found. found.items ≡ map entry_of (fin.entries (content_of (files_of files.now)))) }
{
    let mut found = Vec::new(alloc);
    for (name, bytes) in files.iter() {
        let etag = etag_of(alloc, bytes.as_slice())?;
        let href = Text::copy_of(alloc, name.as_str())?;
        found.push(Entry { href, etag })?;
    }
    Ok(found)
}

/// A copy of the texts.
fn copy_files(files: &FileMap) -> Result<FileMap, NoMemory>
    ensures { IfOk result (λ copy. files_of copy ≡ files_of files.now) }
{
    let Ok(copy) = files.clone() else {
        return Err(NoMemory);
    };
    Ok(copy)
}

impl Shelf {
    ghost use Rattle.std.specs.Prelude.{[]};
    ghost use Rattle.mem_store.specs.Memory.{event_of, read_of, side_of, side_at, wrote, edited, bare, joined};
    ghost use Rattle.mem_store.specs.MemCalls.{ReadAnswer, ActAnswer};

    pub fn new(alloc: Global, files: FileMap) -> Shelf
        ensures { side_of result ≡ side_at (files_of files) [] [] }
    {
        Shelf {
            alloc,
            files,
            trail: Vec::new(alloc),
            reads: Vec::new(alloc),
        }
    }

    pub fn files(&self) -> &FileMap
        ensures { content_of (files_of result.now) ≡ (side_of self.now).content }
    {
        &self.files
    }

    pub fn trail(&self) -> &[MemEvent]
        ensures { map event_of result.now ≡ (side_of self.now).trail }
    {
        self.trail.as_slice()
    }

    pub fn reads(&self) -> &[MemRead]
        ensures { map read_of result.now ≡ (side_of self.now).reads }
    {
        self.reads.as_slice()
    }

    pub fn listing(&self) -> Result<Vec<Entry>, NoMemory>
        ensures { IfOk result (λ found. found.items ≡ map entry_of (fin.entries (side_of self.now).content)) }
    {
        entries(self.alloc, &self.files)
    }

    fn kept(&self, href: &str, new: Option<&[u8]>) -> Result<Kept, NoMemory>
        ensures href { IfOk result (λ kept. kept.href ≡ href.now) }
        ensures old { IfOk result (λ kept. kept.old ≡ fin.get (files_of self.now.files) href.now) }
        ensures new { IfOk result (λ kept. kept.new ≡ option_copied new.entry) }
    {
        let kept = match new {
            None => None,
            Some(bytes) => Some(copied(self.alloc, bytes)?),
        };
        Ok(Kept {
            href: Text::copy_of(self.alloc, href)?,
            old: copy_of(self.alloc, &self.files, href)?,
            new: kept,
        })
    }

    /// Writes a text, or takes it away.
    pub fn write(&mut self, href: &str, new: Option<&[u8]>) -> Result<(), NoMemory>
        ensures ok { OnOk result (side_of self.new ≡ wrote (side_of self.old) href.now (option_copied new.entry)) }
        ensures err { OnErr result (side_of self.new ≡ side_of self.old) }
    {
        let kept = self.kept(href, new)?;
        self.trail.reserve(1)?;
        set(self.alloc, &mut self.files, href, new)?;
        let Kept { href, old, new } = kept;
        self.trail.push(MemEvent::Wrote { href, old, new }).unwrap();
        Ok(())
    }

    /// Changes a text, or takes it away, as from outside.
    pub fn edit(&mut self, href: &str, new: Option<&[u8]>) -> Result<(), NoMemory>
        ensures ok { OnOk result (side_of self.new ≡ edited (side_of self.old) href.now (option_copied new.entry)) }
        ensures err { OnErr result (side_of self.new ≡ side_of self.old) }
    {
        let kept = self.kept(href, new)?;
        self.trail.reserve(1)?;
        set(self.alloc, &mut self.files, href, new)?;
        let Kept { href, old, new } = kept;
        self.trail
            .push(MemEvent::Edited { href, old, new })
            .unwrap();
        Ok(())
    }

    /// The text at an href. `None` where nothing stands there.
    pub fn read(&mut self, href: &str) -> Result<Option<Vec<u8>>, NoMemory>
        ensures { ReadAnswer (side_of self.old) (side_of self.new) href.now result }
    {
        let Some(held) = lent(&self.files, href) else {
            return Ok(None);
        };
        let given = copied(self.alloc, held)?.into_vec();
        let text = copied(self.alloc, held)?;
        let href = Text::copy_of(self.alloc, href)?;
        self.reads.push(MemRead { href, text })?;
        Ok(Some(given))
    }

    /// Whether what stands at an href is as a conditional write expects it.
    pub fn fits(&self, href: &str, expect: Expect) -> Result<bool, NoMemory>
        ensures { IfOk result (λ fit. fit ≡ fits_at (expected_by expect.entry) (fin.get (side_of self.now).content href.now)) }
    {
        match expect {
            Expect::Absent => Ok(self.has_none(href)),
            Expect::Etag(tag) => self.has_etag(href, tag),
        }
    }

    fn has_none(&self, href: &str) -> bool
        ensures { result ≡ fits_at None (fin.get (side_of self.now).content href.now) }
    {
        match lent(&self.files, href) {
            None => true,
            Some(_) => false,
        }
    }

    fn has_etag(&self, href: &str, tag: &str) -> Result<bool, NoMemory>
        ensures { IfOk result (λ has. has ≡ fits_at (Some tag.now) (fin.get (side_of self.now).content href.now)) }
    {
        let Some(bytes) = lent(&self.files, href) else {
            return Ok(false);
        };
        let etag = etag_of(self.alloc, bytes)?;
        Ok(etag.as_str() == tag)
    }

    /// Writes a text or takes it away, where what stands there is as expected.
    pub fn change(
        &mut self,
        href: &str,
        expect: Expect,
        new: Option<&[u8]>,
    ) -> Result<Change, NoMemory>
        ensures { ActAnswer (change_of href.now expect.entry (option_copied new.entry)) (side_of self.old) (side_of self.new) result }
    {
        if !self.fits(href, expect)? {
            return Ok(Change::Moved);
        }
        self.write(href, new)?;
        Ok(Change::Done)
    }

    /// The same texts, to which nothing has happened.
    pub fn draft(&self) -> Result<Shelf, NoMemory>
        ensures { IfOk result (λ draft. side_of draft ≡ bare (side_of self.now).content) }
    {
        Ok(Shelf::new(self.alloc, copy_files(&self.files)?))
    }

    /// Makes room in the trail for the changes of a draft and for one more.
    pub fn make_room(&mut self, draft: &Shelf) -> Result<(), NoMemory>
        ensures { side_of self.new ≡ side_of self.old }
    {
        self.trail.reserve(draft.trail.len().saturating_add(1))?;
        Ok(())
    }

    /// Takes over what a draft holds, and what has changed it.
    pub fn take_over(&mut self, draft: Shelf) -> Result<(), NoMemory>
        ensures ok { OnOk result (side_of self.new ≡ joined (side_of self.old) (side_of draft)) }
        ensures err { OnErr result (side_of self.new ≡ side_of self.old) }
    {
        let Shelf {
            alloc: _,
            files,
            mut trail,
            reads: _,
        } = draft;
        self.trail.append(&mut trail)?;
        self.files = files;
        Ok(())
    }
}
