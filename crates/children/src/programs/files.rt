//! Two files for an editor, which no other user can read.

use std::fs::{DirBuilder, File, OpenOptions};
use std::io::{ErrorKind, Read, Write};
use std::os::unix::fs::{DirBuilderExt, OpenOptionsExt};
use std::rt::{Env, Files};
use std::{env, fs, io};
use values::Bytes;

/// Who may do what with the folder: its user alone.
const FOLDER_MODE: u32 = 0o700;

/// Who may do what with a file: its user alone, who may read and write it.
const FILE_MODE: u32 = 0o600;

/// A folder of its own for two files, by their paths.
#[derive(Drop)]
pub struct Pair {
    folder: String,
    pub a: String,
    pub b: String,
}

/// Makes a new folder among the temporary ones. A name that is taken, by whatever, is passed over.
fn make_folder<R: Files + Env + AllocGlobal>(rt: &R) -> io::Result<String> {
    let root = env::temp_dir(rt)?;
    let mut builder = DirBuilder::new();
    builder.mode(FOLDER_MODE);
    for number in 0..u64::MAX {
        let path = format!(in rt.alloc(); "{}/vdirsyncer-{number}", root.as_str())?;
        match builder.create(rt, path.as_str()) {
            Ok(()) => return Ok(path),
            Err(error) if error.kind() == ErrorKind::AlreadyExists => {}
            Err(error) => return Err(error),
        }
    }
    Err(io::Error::from(ErrorKind::AlreadyExists))
}

/// The paths of two files in a folder.
fn pair_in<R: AllocGlobal>(rt: &R, folder: &str) -> io::Result<Pair> {
    Ok(Pair {
        folder: String::from_str(rt.alloc(), folder)?,
        a: format!(in rt.alloc(); "{folder}/a")?,
        b: format!(in rt.alloc(); "{folder}/b")?,
    })
}

/// Makes a file that wasn't there, and fills it.
fn put_file<R: Files>(rt: &R, path: &str, bytes: &[u8]) -> io::Result<()> {
    let mut options = OpenOptions::new();
    options.write(true).create_new(true).mode(FILE_MODE);
    let mut file = options.open(rt, path)?;
    file.write_all(bytes)
}

/// The bytes of a file, but no more than one above the limit. What isn't a file isn't read.
pub fn read_file<R: Files + AllocGlobal>(rt: &R, path: &str, limit: u64) -> io::Result<Bytes> {
    if !fs::metadata(rt, path)?.is_file() {
        return Err(io::Error::from(ErrorKind::InvalidInput));
    }
    let mut bytes = Vec::new(rt.alloc());
    File::open(rt, path)?
        .take(limit.saturating_add(1))
        .read_to_end(&mut bytes)?;
    Ok(Bytes::of(bytes))
}

impl Pair {
    /// Makes the folder. The files aren't there yet.
    pub fn make<R: Files + Env + AllocGlobal>(rt: &R) -> io::Result<Pair> {
        let folder = make_folder(rt)?;
        match pair_in(rt, folder.as_str()) {
            Ok(pair) => Ok(pair),
            Err(error) => {
                let _ = fs::remove_dir(rt, folder.as_str());
                Err(error)
            }
        }
    }

    /// Makes both files.
    pub fn fill<R: Files>(&self, rt: &R, a: &[u8], b: &[u8]) -> io::Result<()> {
        put_file(rt, self.a.as_str(), a)?;
        put_file(rt, self.b.as_str(), b)
    }

    /// Removes both files, and then the folder with whatever an editor left in it.
    pub fn remove<R: Files + AllocGlobal>(self, rt: &R) {
        let _ = fs::remove_file(rt, self.a.as_str());
        let _ = fs::remove_file(rt, self.b.as_str());
        let _ = fs::remove_dir_all(rt, self.folder.as_str());
    }
}
