//! Runs over real folders.

use crate::error::RowError;
use crate::memory::print_into;
use crate::places::{Held, Places, below};
use crate::ran::Ran;
use crate::rows::Edit;
use outfits::RealOutfit;
use std::alloc::Global;
use std::collections::BTreeMap;
use std::{fs, io};
use values::Text;

/// How many bytes of output there is room for.
const ROOM: u64 = 65_536;

/// The path of a file in a folder.
fn inside(alloc: Global, path: &str, name: &str) -> io::Result<String> {
    let mut made = below(alloc, path, "/")?;
    made.push_str(name)?;
    Ok(made)
}

fn make_folder(rt: &HostRuntime, path: &str, held: &Held) -> io::Result<()> {
    fs::create_dir_all(rt, path)?;
    for (name, bytes) in held.files.iter() {
        fs::write(
            rt,
            inside(rt.alloc(), path, name.as_str())?.as_str(),
            bytes.as_slice(),
        )?;
    }
    for name in held.folders.iter() {
        fs::create_dir(rt, inside(rt.alloc(), path, name.as_str())?.as_str())?;
    }
    Ok(())
}

/// Makes the folders that are there.
pub fn make(rt: &HostRuntime, places: &Places) -> io::Result<()> {
    for (path, held) in places.iter() {
        if let Some(held) = held {
            make_folder(rt, path.as_str(), held)?;
        }
    }
    Ok(())
}

/// Makes the edits from outside that come before a run.
pub fn edit(rt: &HostRuntime, edits: &[Edit]) -> io::Result<()> {
    for edit in edits {
        match edit {
            Edit::Gone(path) => remove_folder(rt, path.as_str())?,
            Edit::There(path) => fs::create_dir_all(rt, path.as_str())?,
            Edit::File { path, name, new } => {
                let file = inside(rt.alloc(), path.as_str(), name.as_str())?;
                match new {
                    Some(bytes) => fs::write(rt, file.as_str(), bytes.as_slice())?,
                    None => fs::remove_file(rt, file.as_str())?,
                }
            }
        }
    }
    Ok(())
}

/// Removes a folder with its files and its empty subfolders.
fn remove_folder(rt: &HostRuntime, path: &str) -> io::Result<()> {
    let Some(held) = look_at(rt, path)? else {
        return Ok(());
    };
    for name in held.files.keys() {
        fs::remove_file(rt, inside(rt.alloc(), path, name.as_str())?.as_str())?;
    }
    for name in held.folders.iter() {
        fs::remove_dir(rt, inside(rt.alloc(), path, name.as_str())?.as_str())?;
    }
    fs::remove_dir(rt, path)
}

/// Whether a folder is there.
fn is_folder(rt: &HostRuntime, path: &str) -> io::Result<bool> {
    match fs::metadata(rt, path) {
        Ok(found) => Ok(found.is_dir()),
        Err(error) if error.kind() == io::ErrorKind::NotFound => Ok(false),
        Err(error) => Err(error),
    }
}

/// What a folder holds.
fn look_at(rt: &HostRuntime, path: &str) -> io::Result<Option<Held>> {
    let alloc = rt.alloc();
    if !is_folder(rt, path)? {
        return Ok(None);
    }
    let mut held = Held::nothing(alloc);
    for entry in fs::read_dir(rt, path)? {
        let entry = entry?;
        let name = String::from_str(alloc, entry.file_name())?;
        if fs::metadata(rt, entry.path())?.is_dir() {
            held.folders.insert(name)?;
        } else {
            held.files.insert(name, fs::read(rt, entry.path())?)?;
        }
    }
    Ok(Some(held))
}

fn look(rt: &HostRuntime, paths: &Places) -> io::Result<Places> {
    let mut places = BTreeMap::new(rt.alloc());
    for path in paths.keys() {
        places.insert(path.clone()?, look_at(rt, path.as_str())?)?;
    }
    Ok(places)
}

/// Runs the program over real folders.
pub fn run(
    rt: &HostRuntime,
    places: &Places,
    words: &[Text],
    input: Vec<u8>,
) -> Result<Ran, RowError> {
    let alloc = rt.alloc();
    let mut outfit = RealOutfit::new(alloc, rt.clone()?);
    let printed = print_into(alloc, words, &mut outfit, input, ROOM)?;
    Ok(Ran {
        exit: printed.exit,
        out: printed.out,
        err: printed.err,
        places: look(rt, places)?,
        trails: None,
        programs: None,
    })
}
