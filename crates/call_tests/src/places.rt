//! Places and children of an outfit, in memory and real.

use children::{Ended, MemChild, Spawner};
use outfits::{MemOutfit, Outfit, RealOutfit};
use outside::{Change, Expect, FaultPlan, Folder, MemFolder};
use std::alloc::{AllocError, Global};
use std::test::Fail;
use values::{Bytes, Text};

fn no_plan(alloc: Global) -> FaultPlan {
    FaultPlan {
        places: Vec::new(alloc),
        stop_at: None,
        edits: Vec::new(alloc),
    }
}

/// A child whose only program ends with this status.
fn child_of(alloc: Global, status: i32) -> Result<MemChild, Fail> {
    let ended = Ended {
        status,
        output: Bytes::of(Vec::new(alloc)),
    };
    Ok(MemChild::new(
        alloc,
        vec![in alloc; ended]?,
        Vec::new(alloc),
        no_plan(alloc),
    )?)
}

/// The status of a program without words of its own.
fn status_of<C: Spawner>(
    alloc: Global,
    child: &mut C,
    program: &str,
) -> Result<Option<i32>, AllocError> {
    let argv = vec![in alloc; Text::copy_of(alloc, program)?]?;
    Ok(child.run(argv.as_slice(), 0).ok().map(|ended| ended.status))
}

#[test]
fn a_child_plays_from_its_start_and_is_kept(rt: HostRuntime) -> Result<(), Fail> {
    let alloc = rt.alloc();
    let mut outfit = MemOutfit::new(alloc, Vec::new(alloc), child_of(alloc, 4)?)?;
    let mut first = outfit.open_child()?;
    let mut second = outfit.open_child()?;
    assert_eq!(rt; status_of(alloc, &mut first, "x")?, Some(4));
    assert_eq!(rt; status_of(alloc, &mut first, "x")?, None);
    assert_eq!(rt; status_of(alloc, &mut second, "x")?, Some(4));
    outfit.give_child(first);
    outfit.give_child(second);
    let faults = outfit.children().iter().map(|child| child.faults());
    assert!(rt; faults.eq([1, 0]));
    let mut real = RealOutfit::new(alloc, rt.clone()?);
    let mut child = real.open_child()?;
    assert_eq!(rt; status_of(alloc, &mut child, "true")?, Some(0));
    real.give_child(child);
    Ok(())
}

#[test]
fn a_place_comes_back_as_it_was_left(rt: HostRuntime) -> Result<(), Fail> {
    let alloc = rt.alloc();
    let folder = MemFolder::new(
        alloc,
        true,
        Vec::new(alloc),
        Vec::new(alloc),
        no_plan(alloc),
    )?;
    let mut dirs = Vec::new(alloc);
    dirs.push((Text::copy_of(alloc, "dir:a")?, folder))?;
    let mut outfit = MemOutfit::new(alloc, dirs, child_of(alloc, 0)?)?;
    let mut dir = outfit.open_dir("dir:a")?.ok_or("out")?;
    assert!(rt; outfit.open_dir("dir:a")?.is_none());
    assert_eq!(rt; dir.replace("x", Expect::Absent, b"text")?, Change::Done);
    outfit.give_dir("dir:a", dir);
    let mut dir = outfit.open_dir("dir:a")?.ok_or("out")?;
    assert!(rt; dir.read("x", 10)?.is_some());
    let mut other = outfit.open_dir("dir:b")?.ok_or("out")?;
    assert!(rt; other.names("")?.is_none());
    let mut real = RealOutfit::new(alloc, rt.clone()?);
    let dir = real.open_dir("no-such-folder")?.ok_or("out")?;
    assert!(rt; real.open_dir("no-such-folder")?.is_none());
    real.give_dir("no-such-folder", dir);
    assert!(rt; real.open_dir("no-such-folder")?.is_some());
    Ok(())
}
