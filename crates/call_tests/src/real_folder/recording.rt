//! The real files, with the steps of a change as they are tried, of which one can fail.

use std::alloc::{Allocator, Global};
use std::cell::{Cell, RefCell};
use std::fs::{File, Files, Metadata, OpenFile, OpenOptions, Permissions};
use std::io;
use std::io::{ErrorKind, Read, Seek, SeekFrom, Write};

/// The steps, each followed by a blank, and which of them fails and how.
#[derive(Drop)]
pub struct Record {
    pub steps: RefCell<String>,
    pub fails: Cell<(&'static str, ErrorKind)>,
}

impl Record {
    fn enter(&self, step: &str) -> io::Result<()> {
        let mut steps = self.steps.try_borrow_mut()?;
        steps.push_str(step)?;
        steps.push(' ')?;
        let (fails, kind) = self.fails.get();
        if step == fails {
            return Err(io::Error::from(kind));
        }
        Ok(())
    }
}

/// The runtime of a test, recorded.
#[derive(Clone, Drop)]
pub struct Recorded<'a> {
    pub rt: HostRuntime,
    pub record: &'a Record,
}

impl<'a> Alloc for Recorded<'a> {
    type A = Global;

    fn alloc(&self) -> Global {
        self.rt.alloc()
    }
}

#[derive(Drop)]
pub struct RecordedFile<'a> {
    file: File,
    record: &'a Record,
}

impl<'a> Read for RecordedFile<'a> {
    fn read(&mut self, buf: &mut [u8]) -> io::Result<usize> {
        self.file.read(buf)
    }
}

impl<'a> Write for RecordedFile<'a> {
    fn write(&mut self, buf: &[u8]) -> io::Result<usize> {
        self.record.enter("write")?;
        self.file.write(buf)
    }

    fn flush(&mut self) -> io::Result<()> {
        self.file.flush()
    }
}

impl<'a> Seek for RecordedFile<'a> {
    fn seek(&mut self, to: SeekFrom) -> io::Result<u64> {
        self.file.seek(to)
    }
}

impl<'a> OpenFile for RecordedFile<'a> {
    fn metadata(&self) -> io::Result<Metadata> {
        self.file.metadata()
    }

    fn set_len(&self, size: u64) -> io::Result<()> {
        self.file.set_len(size)
    }

    fn sync_all(&self) -> io::Result<()> {
        let is_folder = self.file.metadata()?.is_dir();
        self.record
            .enter(if is_folder { "sync-folder" } else { "sync" })?;
        self.file.sync_all()
    }

    fn sync_data(&self) -> io::Result<()> {
        self.file.sync_data()
    }

    fn set_permissions(&self, perm: Permissions) -> io::Result<()> {
        self.file.set_permissions(perm)
    }
}

impl<'a> Files for Recorded<'a> {
    type File = RecordedFile<'a>;

    type Dir = <HostRuntime as Files>::Dir;

    fn open_file(&self, how: &OpenOptions, path: &str) -> io::Result<RecordedFile<'a>> {
        let file = self.rt.open_file(how, path)?;
        Ok(RecordedFile {
            file,
            record: self.record,
        })
    }

    fn open_dir(&self, path: &str) -> io::Result<<HostRuntime as Files>::Dir> {
        self.rt.open_dir(path)
    }

    fn metadata(&self, path: &str) -> io::Result<Metadata> {
        self.rt.metadata(path)
    }

    fn symlink_metadata(&self, path: &str) -> io::Result<Metadata> {
        self.rt.symlink_metadata(path)
    }

    fn copy(&self, from: &str, to: &str) -> io::Result<u64> {
        self.rt.copy(from, to)
    }

    fn rename(&self, from: &str, to: &str) -> io::Result<()> {
        self.record.enter("rename")?;
        self.rt.rename(from, to)
    }

    fn remove_file(&self, path: &str) -> io::Result<()> {
        self.record.enter("unlink")?;
        self.rt.remove_file(path)
    }

    fn create_dir(&self, path: &str) -> io::Result<()> {
        self.rt.create_dir(path)
    }

    fn remove_dir(&self, path: &str) -> io::Result<()> {
        self.rt.remove_dir(path)
    }

    fn remove_dir_all<B: Allocator>(&self, alloc: B, path: &str) -> io::Result<()> {
        self.rt.remove_dir_all(alloc, path)
    }
}
