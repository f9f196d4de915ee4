//! Changes of a folder, each carried to the disk before it is answered.

ghost use Rattle.std.specs.Prelude.{◌≡◌, ◌≢◌, IfErr, IfOk, Ok};
ghost use Rattle.std.specs.IoError.{error_kind};

use super::reading::has_etag;
use super::{Kind, is_absent, kind_of, path_of};
use crate::folder::{Change, Expect};
use std::fs::{File, Files, OpenFile, OpenOptions};
use std::io::{ErrorKind, Write};
use std::{fs, io};

/// Whether no file is there. A name under which something else stands is no place for a file.
fn is_free<R: Files>(rt: &R, path: &str) -> io::Result<bool> {
    match kind_of(rt, path)? {
        Kind::Nothing => Ok(true),
        Kind::File => Ok(false),
        Kind::Folder | Kind::Other => Err(io::Error::from(ErrorKind::AlreadyExists)),
    }
}

/// Whether the file is as a conditional write expects it, where the folder is there.
fn meets<R: Files + AllocGlobal>(rt: &R, path: &str, expect: Expect) -> io::Result<bool> {
    match expect {
        Expect::Absent => is_free(rt, path),
        Expect::Etag(tag) => has_etag(rt, path, tag),
    }
}

/// What a change came to that may have been done. Want of memory would say that it wasn't: it is a failure like
/// any other here.
fn acted<T>(done: io::Result<T>) -> io::Result<T>
    ensures known { IfErr result (λ error. error_kind error ≢ ErrorKind.OutOfMemory) }
    ensures done { IfOk result (λ value. done ≡ Ok value) }
{
    match done {
        Ok(value) => Ok(value),
        Err(error) => {
            if error.kind() == ErrorKind::OutOfMemory {
                return Err(io::Error::from(ErrorKind::Other));
            }
            Err(error)
        }
    }
}

/// The error that says that a file system can't carry a folder to the disk.
fn is_not_for_folders(error: &io::Error) -> bool {
    match error.kind() {
        ErrorKind::InvalidInput => true,
        ErrorKind::Unsupported => true,
        _ => false,
    }
}

/// Carries to the disk which names a folder has, where its file system can.
fn sync_folder<R: Files>(rt: &R, folder: &str) -> io::Result<()> {
    match File::open(rt, folder)?.sync_all() {
        Err(error) if is_not_for_folders(&error) => Ok(()),
        done => done,
    }
}

/// Makes the file beside, which is not to be there.
fn create_beside<R: Files>(rt: &R, beside: &str) -> io::Result<R::File> {
    let mut options = OpenOptions::new();
    options.write(true).create_new(true);
    match options.open(rt, beside) {
        Err(error) if error.kind() == ErrorKind::AlreadyExists => {
            // What a write that was cut off has left there goes, and isn't written through where it is a link.
            let _ = fs::remove_file(rt, beside);
            options.open(rt, beside)
        }
        made => made,
    }
}

/// Gives a file the permissions of the one whose name it is to take.
fn keep_permissions<R: Files>(rt: &R, file: &R::File, path: &str) -> io::Result<()> {
    match fs::metadata(rt, path) {
        Ok(found) => file.set_permissions(found.permissions()),
        Err(_) => Ok(()),
    }
}

/// Fills the file beside, and carries it to the disk.
fn fill<R: Files>(
    rt: &R,
    mut file: R::File,
    path: &str,
    expect: Expect,
    bytes: &[u8],
) -> io::Result<()> {
    match expect {
        Expect::Absent => {}
        Expect::Etag(_) => keep_permissions(rt, &file, path)?,
    }
    file.write_all(bytes)?;
    file.sync_all()
}

/// Fills the file beside, which goes where that fails.
fn write_beside<R: Files>(
    rt: &R,
    file: R::File,
    beside: &str,
    path: &str,
    expect: Expect,
    bytes: &[u8],
) -> io::Result<()> {
    let filled = fill(rt, file, path, expect, bytes);
    if filled.is_err() {
        let _ = fs::remove_file(rt, beside);
    }
    filled
}

fn rename<R: Files>(rt: &R, folder: &str, beside: &str, path: &str) -> io::Result<()> {
    match fs::rename(rt, beside, path) {
        Ok(()) => sync_folder(rt, folder),
        Err(error) => {
            let _ = fs::remove_file(rt, beside);
            Err(error)
        }
    }
}

/// Gives the file beside the file's name, and carries that to the disk.
fn take_name<R: Files>(rt: &R, folder: &str, beside: &str, path: &str) -> io::Result<()>
    ensures { IfErr result (λ error. error_kind error ≢ ErrorKind.OutOfMemory) }
{
    acted(rename(rt, folder, beside, path))
}

/// Whether a file could not be made since its folder isn't there.
fn lacks_folder<R: Files>(rt: &R, folder: &str, error: &io::Error) -> io::Result<bool> {
    if !is_absent(error) {
        return Ok(false);
    }
    Ok(kind_of(rt, folder)? != Kind::Folder)
}

/// Replaces a file that is as it was expected: a file beside it is written whole, and then takes its name.
pub fn replace_file<R: Files + AllocGlobal>(
    rt: &R,
    folder: &str,
    name: &str,
    expect: Expect,
    new: &[u8],
) -> io::Result<Change> {
    let path = path_of(rt, folder, name)?;
    if !meets(rt, path.as_str(), expect)? {
        return Ok(Change::Moved);
    }
    let beside = format!(in rt.alloc(); "{}.tmp", path.as_str())?;
    let file = match create_beside(rt, beside.as_str()) {
        Ok(file) => file,
        Err(error) if lacks_folder(rt, folder, &error)? => return Ok(Change::Moved),
        Err(error) => return Err(error),
    };
    write_beside(rt, file, beside.as_str(), path.as_str(), expect, new)?;
    take_name(rt, folder, beside.as_str(), path.as_str())?;
    Ok(Change::Done)
}

fn unlink<R: Files>(rt: &R, folder: &str, path: &str) -> io::Result<Change> {
    match fs::remove_file(rt, path) {
        Ok(()) => {
            sync_folder(rt, folder)?;
            Ok(Change::Done)
        }
        Err(error) if is_absent(&error) => Ok(Change::Moved),
        Err(error) => Err(error),
    }
}

/// Takes a file's name away, and carries that to the disk.
fn drop_name<R: Files>(rt: &R, folder: &str, path: &str) -> io::Result<Change>
    ensures { IfErr result (λ error. error_kind error ≢ ErrorKind.OutOfMemory) }
{
    acted(unlink(rt, folder, path))
}

/// Removes a file that has this etag.
pub fn remove_file<R: Files + AllocGlobal>(
    rt: &R,
    folder: &str,
    name: &str,
    tag: &str,
) -> io::Result<Change> {
    let path = path_of(rt, folder, name)?;
    if !has_etag(rt, path.as_str(), tag)? {
        return Ok(Change::Moved);
    }
    drop_name(rt, folder, path.as_str())
}

/// Makes the folder and those above it, of which some may have been made where it fails.
pub fn make_folder<R: Files>(rt: &R, folder: &str) -> io::Result<()>
    ensures { IfErr result (λ error. error_kind error ≢ ErrorKind.OutOfMemory) }
{
    acted(fs::create_dir_all(rt, folder))
}
