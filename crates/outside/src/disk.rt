//! The calls of the file system that a real folder is made of.

mod listing;
mod reading;
mod writing;

pub use listing::{entries, subfolders};
pub use reading::read_file;
use std::fs::{Files, Metadata};
use std::io::ErrorKind;
use std::{fs, io};
pub use writing::{make_folder, remove_file, replace_file};

/// What stands under a path. A link counts as what it leads to.
#[derive(Clone, Copy, PartialEq, Eq)]
enum Kind {
    File,
    Folder,
    /// A link that leads nowhere, or something else, as a pipe.
    Other,
    Nothing,
}

/// The error that says that nothing stands under a path.
fn is_absent(error: &io::Error) -> bool {
    match error.kind() {
        ErrorKind::NotFound => true,
        ErrorKind::NotADirectory => true,
        ErrorKind::FilesystemLoop => true,
        _ => false,
    }
}

fn kind_found(found: &Metadata) -> Kind {
    if found.is_file() {
        Kind::File
    } else if found.is_dir() {
        Kind::Folder
    } else {
        Kind::Other
    }
}

/// What a link leads to.
fn kind_led_to<R: Files>(rt: &R, path: &str) -> io::Result<Kind> {
    match fs::metadata(rt, path) {
        Ok(found) => Ok(kind_found(&found)),
        Err(error) if is_absent(&error) => Ok(Kind::Other),
        Err(error) => Err(error),
    }
}

fn kind_of<R: Files>(rt: &R, path: &str) -> io::Result<Kind> {
    match fs::symlink_metadata(rt, path) {
        Ok(found) if found.is_symlink() => kind_led_to(rt, path),
        Ok(found) => Ok(kind_found(&found)),
        Err(error) if is_absent(&error) => Ok(Kind::Nothing),
        Err(error) => Err(error),
    }
}

fn path_of<R: AllocGlobal>(rt: &R, folder: &str, name: &str) -> io::Result<String> {
    Ok(format!(in rt.alloc(); "{folder}/{name}")?)
}
