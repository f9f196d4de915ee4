//! Calls of a folder in memory, and its plan.

use outside::{Change, Expect, FaultPlace, FaultPlan, Folder, FolderError, MemFolder, OutsideEdit};
use std::alloc::Global;
use std::test::Fail;
use values::{Bytes, Text};

const ABC: &str = "ba7816bf8f01cfea414140de5dae2223b00361a396177a9cb410ff61f20015ad";

const NO_BYTES: &str = "e3b0c44298fc1c149afbf4c8996fb92427ae41e4649b934ca495991b7852b855";

fn text(alloc: Global, s: &str) -> Result<Text, Fail> {
    Ok(Text::copy_of(alloc, s)?)
}

fn bytes(alloc: Global, s: &str) -> Result<Bytes, Fail> {
    Ok(Bytes::of(Vec::from_slice(alloc, s.as_bytes())?))
}

fn no_plan(alloc: Global) -> FaultPlan {
    FaultPlan {
        places: Vec::new(alloc),
        stop_at: None,
        edits: Vec::new(alloc),
    }
}

#[test]
fn a_folder_in_memory_answers_its_calls(rt: HostRuntime) -> Result<(), Fail> {
    let alloc = rt.alloc();
    let mut files = Vec::new(alloc);
    files.push((text(alloc, "b.vcf")?, bytes(alloc, "")?))?;
    files.push((text(alloc, "a.vcf")?, bytes(alloc, "abc")?))?;
    files.push((text(alloc, "color")?, bytes(alloc, "C")?))?;
    let mut folders = Vec::new(alloc);
    folders.push(text(alloc, "z")?)?;
    folders.push(text(alloc, "Work")?)?;
    folders.push(text(alloc, "z")?)?;
    let mut folder = MemFolder::new(alloc, true, files, folders, no_plan(alloc))?;
    let names = folder.names(".vcf")?.ok_or("absent")?;
    assert_eq!(rt; names.len(), 2);
    for (found, (name, etag)) in names.iter().zip([("a.vcf", ABC), ("b.vcf", NO_BYTES)]) {
        assert_eq!(rt; found.name.as_str(), name);
        assert_eq!(rt; found.etag.as_str(), etag);
    }
    let folders = folder.folders()?.ok_or("absent")?;
    assert_eq!(rt; folders.len(), 2);
    assert_eq!(rt; folders[0].as_str(), "Work");
    let answer = folder.replace("a.vcf", Expect::Etag(ABC), b"1234")?;
    assert_eq!(rt; answer, Change::Done);
    let read = folder.read("a.vcf", 4)?.ok_or("no file")?;
    assert_eq!(rt; read.as_slice(), b"1234".as_slice());
    assert_eq!(rt; folder.remove("b.vcf", NO_BYTES)?, Change::Done);
    assert_eq!(rt; folder.faults(), 0);
    Ok(())
}

#[test]
fn a_plan_is_followed(rt: HostRuntime) -> Result<(), Fail> {
    let alloc = rt.alloc();
    let mut plan = no_plan(alloc);
    plan.edits.push(OutsideEdit {
        before_call: 2,
        name: text(alloc, "x")?,
        new: Some(bytes(alloc, "abc")?),
    })?;
    plan.places.push(FaultPlace {
        call: 3,
        acted: true,
    })?;
    plan.stop_at = Some(6);
    let mut folder = MemFolder::new(alloc, false, Vec::new(alloc), Vec::new(alloc), plan)?;
    assert!(rt; folder.names("")?.is_none());
    assert_eq!(rt; folder.replace("x", Expect::Absent, b"1")?, Change::Moved);
    assert!(rt; matches!(folder.remove("x", ABC), Err(FolderError::Fault)));
    assert!(rt; folder.read("x", 9)?.is_none());
    folder.make()?;
    assert!(rt; matches!(folder.make(), Err(FolderError::Fault)));
    assert_eq!(rt; folder.faults(), 2);
    Ok(())
}
