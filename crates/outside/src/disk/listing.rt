//! What a folder holds.

use super::reading::etag_at;
use super::{Kind, is_absent, kind_of, path_of};
use crate::etag::Piece;
use crate::folder::FileEntry;
use std::fs::Files;
use std::{fs, io};
use values::Text;

/// The names in a folder that end so, in byte order. `None` where the folder isn't there.
fn listed<R: Files + AllocGlobal + Clone + Drop>(
    rt: &R,
    folder: &str,
    ending: &str,
) -> io::Result<Option<Vec<String>>> {
    let entries = match fs::read_dir(rt, folder) {
        Ok(entries) => entries,
        Err(error) if is_absent(&error) => return Ok(None),
        Err(error) => return Err(error),
    };
    let mut names = Vec::new(rt.alloc());
    for entry in entries {
        let entry = entry?;
        if entry.file_name().ends_with(ending) {
            names.push(String::from_str(rt.alloc(), entry.file_name())?)?;
        }
    }
    names.sort_unstable();
    Ok(Some(names))
}

/// The files whose name ends so, in byte order of names. A file that is gone when it is read is left out.
pub fn entries<R: Files + AllocGlobal + Clone + Drop>(
    rt: &R,
    folder: &str,
    ending: &str,
) -> io::Result<Option<Vec<FileEntry>>> {
    let Some(names) = listed(rt, folder, ending)? else {
        return Ok(None);
    };
    let mut entries = Vec::new(rt.alloc());
    let mut piece = Piece::new(rt.alloc())?;
    for name in names {
        let path = path_of(rt, folder, name.as_str())?;
        if let Some(etag) = etag_at(rt, path.as_str(), &mut piece)? {
            let name = Text::of(name);
            entries.push(FileEntry { name, etag })?;
        }
    }
    Ok(Some(entries))
}

/// The names of the subfolders, in byte order.
pub fn subfolders<R: Files + AllocGlobal + Clone + Drop>(
    rt: &R,
    folder: &str,
) -> io::Result<Option<Vec<Text>>> {
    let Some(names) = listed(rt, folder, "")? else {
        return Ok(None);
    };
    let mut folders = Vec::new(rt.alloc());
    for name in names {
        let path = path_of(rt, folder, name.as_str())?;
        if kind_of(rt, path.as_str())? == Kind::Folder {
            folders.push(Text::of(name))?;
        }
    }
    Ok(Some(folders))
}
