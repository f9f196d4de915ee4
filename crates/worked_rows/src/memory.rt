//! Runs over folders in memory.

ghost use Rattle.std.specs.Prelude.{◌≡◌, ◌≢◌, true, All, AllPairs, IfOk};
ghost use Rattle.outfits.specs.Places.{IsWhole};

use crate::error::RowError;
use crate::places::{Held, Places};
use crate::plans::no_plan;
use crate::ran::{Ran, Trail};
use crate::rows::{Edit, Run};
use children::{ChildEvent, Ended, MemChild};
use outfits::{MemOutfit, Outfit};
use outside::{FaultPlan, FolderEvent, MemFolder, MemSink, MemSource};
use std::alloc::{AllocError, Global};
use std::collections::{BTreeMap, BTreeSet};
use values::{Bytes, Text};
use vdirsyncer_cli::{Env, run_words};

/// How many bytes of output there is room for where a row doesn't say it.
pub const ROOM: u64 = 65_536;

fn folder_of(alloc: Global, held: &Option<Held>, plan: FaultPlan) -> Result<MemFolder, RowError> {
    let Some(held) = held else {
        let absent = MemFolder::new(alloc, false, Vec::new(alloc), Vec::new(alloc), plan)?;
        return Ok(absent);
    };
    let mut files = Vec::new(alloc);
    for (name, bytes) in held.files.iter() {
        files.push((Text::of(name.clone()?), Bytes::of(bytes.clone()?)))?;
    }
    let mut folders = Vec::new(alloc);
    for name in held.folders.iter() {
        folders.push(Text::of(name.clone()?))?;
    }
    Ok(MemFolder::new(alloc, true, files, folders, plan)?)
}

fn held_in(alloc: Global, folder: &MemFolder) -> Result<Option<Held>, AllocError> {
    if !folder.is_there() {
        return Ok(None);
    }
    let mut files = BTreeMap::new(alloc);
    for (name, bytes) in folder.files().iter() {
        files.insert(name.clone()?, bytes.clone()?)?;
    }
    let mut folders = BTreeSet::new(alloc);
    for name in folder.subfolders() {
        folders.insert(String::from_str(alloc, name.as_str())?)?;
    }
    Ok(Some(Held { files, folders }))
}

fn trail_of(alloc: Global, folder: &MemFolder) -> Result<Trail, AllocError> {
    let mut trail = Trail {
        writes: Vec::new(alloc),
        reads: Vec::new(alloc),
    };
    for event in folder.trail() {
        match event {
            FolderEvent::Wrote { name, .. } => {
                trail.writes.push(String::from_str(alloc, name.as_str())?)?;
            }
            FolderEvent::Read { name, .. } => {
                trail.reads.push(String::from_str(alloc, name.as_str())?)?;
            }
            _ => {}
        }
    }
    Ok(trail)
}

/// Whether no folder of these has this path.
fn is_new(path: &Text, dirs: &[(Text, MemFolder)]) -> bool
    ensures { result ≡ true → All (λ d. path.now ≢ d.0) dirs.now }
{
    dirs.iter().all(|dir| dir.0 != *path)
}

/// Whether each folder has a path of its own.
fn are_apart(dirs: &[(Text, MemFolder)]) -> bool
    ensures { result ≡ true → AllPairs (λ d e. d.0 ≢ e.0) dirs.now }
{
    match dirs.split_first() {
        None => true,
        Some((first, rest)) => is_new(&first.0, rest) && are_apart(rest),
    }
}

/// What the devices of a run are made of.
#[derive(Drop)]
pub struct Devices {
    /// By the path of a folder, what becomes of its calls.
    pub plans: BTreeMap<String, FaultPlan>,
    pub programs: Vec<Ended>,
    pub input: Vec<u8>,
    /// How many bytes of output there is room for.
    pub room: u64,
}

fn outfit_of(
    alloc: Global,
    dirs: Vec<(Text, MemFolder)>,
    programs: Vec<Ended>,
) -> Result<MemOutfit, RowError>
    ensures { IfOk result (λ o. IsWhole (⟦<MemOutfit as Outfit>⟧.places o)) }
{
    if !are_apart(dirs.as_slice()) {
        return Err(RowError::PlaceTwice(String::new(alloc)));
    }
    let child = MemChild::new(alloc, programs, Vec::new(alloc), no_plan(alloc))?;
    match MemOutfit::new(alloc, dirs, child) {
        Ok(outfit) => Ok(outfit),
        Err(_) => Err(RowError::System(AllocError.into())),
    }
}

fn folders_of(
    alloc: Global,
    places: &Places,
    mut plans: BTreeMap<String, FaultPlan>,
) -> Result<Vec<(Text, MemFolder)>, RowError> {
    let mut dirs = Vec::new(alloc);
    for (path, held) in places.iter() {
        let plan = match plans.remove(path.as_str()) {
            Some(plan) => plan,
            None => no_plan(alloc),
        };
        dirs.push((Text::of(path.clone()?), folder_of(alloc, held, plan)?))?;
    }
    Ok(dirs)
}

/// Makes the edits from outside that come before a run.
pub fn edit(alloc: Global, places: &mut Places, edits: &[Edit]) -> Result<(), AllocError> {
    for edit in edits {
        match edit {
            Edit::Gone(path) => {
                places.insert(path.clone()?, None)?;
            }
            Edit::There(path) => {
                if !matches!(places.get(path.as_str()), Some(Some(_))) {
                    places.insert(path.clone()?, Some(Held::nothing(alloc)))?;
                }
            }
            Edit::File { path, name, new } => {
                if let Some(Some(held)) = places.get_mut(path.as_str()) {
                    set(held, name, new)?;
                }
            }
        }
    }
    Ok(())
}

fn set(held: &mut Held, name: &String, new: &Option<Vec<u8>>) -> Result<(), AllocError> {
    match new {
        Some(bytes) => {
            held.files.insert(name.clone()?, bytes.clone()?)?;
        }
        None => {
            let _ = held.files.remove(name.as_str());
        }
    }
    Ok(())
}

/// What stands at these places of an outfit, and what happened there.
fn look(
    alloc: Global,
    paths: &Places,
    outfit: &mut MemOutfit,
) -> Result<(Places, BTreeMap<String, Trail>), RowError> {
    let mut places = BTreeMap::new(alloc);
    let mut trails = BTreeMap::new(alloc);
    for path in paths.keys() {
        let Some(folder) = outfit.open_dir(path.as_str())? else {
            return Err(RowError::NoPlace(path.clone()?));
        };
        places.insert(path.clone()?, held_in(alloc, &folder)?)?;
        trails.insert(path.clone()?, trail_of(alloc, &folder)?)?;
    }
    Ok((places, trails))
}

/// The words of each program that was run, in order.
fn programs_of(alloc: Global, outfit: &MemOutfit) -> Result<Vec<Vec<String>>, AllocError> {
    let mut programs = Vec::new(alloc);
    for child in outfit.children() {
        for call in child.calls() {
            if let ChildEvent::Ran { argv, .. } = call {
                programs.push(words_of(alloc, argv.as_slice())?)?;
            }
        }
    }
    Ok(programs)
}

fn words_of(alloc: Global, argv: &[Text]) -> Result<Vec<String>, AllocError> {
    let mut words = Vec::new(alloc);
    for word in argv {
        words.push(String::from_str(alloc, word.as_str())?)?;
    }
    Ok(words)
}

/// Runs the program over folders in memory that hold this.
pub fn run(
    alloc: Global,
    places: &Places,
    words: &[Text],
    devices: Devices,
) -> Result<Ran, RowError> {
    let Devices {
        plans,
        programs,
        input,
        room,
    } = devices;
    let dirs = folders_of(alloc, places, plans)?;
    let mut outfit = outfit_of(alloc, dirs, programs)?;
    let printed = print_into(alloc, words, &mut outfit, input, room)?;
    let programs = programs_of(alloc, &outfit)?;
    let (places, trails) = look(alloc, places, &mut outfit)?;
    Ok(Ran {
        exit: printed.exit,
        out: printed.out,
        err: printed.err,
        places,
        trails: Some(trails),
        programs: Some(programs),
    })
}

/// What a run printed, and its exit status.
#[derive(Drop)]
pub struct Printed {
    pub exit: u8,
    pub out: Vec<u8>,
    pub err: Vec<u8>,
}

/// Runs the program over an outfit, and keeps what it prints in memory: no more of `out` than there is room for.
pub fn print_into<O: Outfit>(
    alloc: Global,
    words: &[Text],
    outfit: &mut O,
    input: Vec<u8>,
    room: u64,
) -> Result<Printed, RowError>
    requires { IsWhole (O.places outfit.old) }
{
    let environment = Env {
        home: None,
        xdg_config: None,
        vdirsyncer_config: None,
    };
    let mut input = MemSource::new(alloc, Bytes::of(input), no_plan(alloc))?;
    let mut out = MemSink::new(alloc, room, no_plan(alloc))?;
    let mut err = MemSink::new(alloc, ROOM, no_plan(alloc))?;
    let exit = run_words(
        alloc,
        words,
        &environment,
        outfit,
        &mut input,
        &mut out,
        &mut err,
    );
    Ok(Printed {
        exit,
        out: Vec::from_slice(alloc, out.bytes())?,
        err: Vec::from_slice(alloc, err.bytes())?,
    })
}
