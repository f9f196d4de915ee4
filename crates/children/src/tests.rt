//! Real programs: what they end with, what they write, and what becomes of an editor's files. Programs in memory.

use super::*;
use outside::FaultPlan;
use std::alloc::{AllocError, Global};
use std::fs;
use std::test::Fail;
use values::{Bytes, Text};

fn words(alloc: Global, words: &[&str]) -> Result<Vec<Text>, AllocError> {
    let mut all = Vec::new(alloc);
    for word in words {
        all.push(Text::copy_of(alloc, word)?)?;
    }
    Ok(all)
}

/// Runs a line of the shell. None where its answer can't be had.
fn shell<C: Spawner>(
    alloc: Global,
    child: &mut C,
    line: &str,
    limit: u64,
) -> Result<Option<Ended>, AllocError> {
    let argv = words(alloc, &["/bin/sh", "-c", line])?;
    if argv.is_empty() {
        return Ok(None);
    }
    Ok(child.run(argv.as_slice(), limit).ok())
}

#[test]
fn programs_end(rt: HostRuntime) -> Result<(), Fail> {
    let alloc = rt.alloc();
    let mut child = ProcChild::new(rt.clone()?);
    let ended = shell(alloc, &mut child, "printf hi; exit 3", 2)?.ok_or("no answer")?;
    assert_eq!(rt; ended.status, 3);
    assert_eq!(rt; ended.output.as_slice(), b"hi".as_slice());
    let ended = shell(alloc, &mut child, "kill -9 $$", 2)?.ok_or("no answer")?;
    assert_eq!(rt; ended.status, -1);
    let ended = shell(alloc, &mut child, "printf '\\377'; cat", 2)?.ok_or("no answer")?;
    assert_eq!(rt; ended.output.as_slice(), b"\xff".as_slice());
    assert!(rt; shell(alloc, &mut child, "printf hi", 1)?.is_none());
    assert!(rt; shell(alloc, &mut child, "yes", 100_000)?.is_none());
    assert_eq!(rt; child.faults(), 0);
    let argv = words(alloc, &["/no/such/program"])?;
    assert!(rt; !argv.is_empty());
    assert!(rt; matches!(child.run(argv.as_slice(), 2), Err(SpawnError::Fault)));
    assert_eq!(rt; child.faults(), 1);
    Ok(())
}

#[test]
fn editors_have_files_of_their_own(rt: HostRuntime) -> Result<(), Fail> {
    let mut child = ProcChild::new(rt.clone()?);
    let line = "printf x >> \"$0\"; cd \"${0%/a}\"; stat -c %a . a b > b; printf \"$PWD\" >> b";
    let argv = words(rt.alloc(), &["/bin/sh", "-c", line])?;
    assert!(rt; !argv.is_empty());
    let edited = child
        .edit(argv.as_slice(), b"one", b"two", 900)
        .map_err(|_| "edit")?;
    assert_eq!(rt; edited.status, 0);
    assert_eq!(rt; edited.a.as_slice(), b"onex".as_slice());
    let told = str::from_utf8(edited.b.as_slice())?;
    let folder = told
        .strip_prefix("700\n600\n600\n")
        .ok_or("open to others")?;
    assert!(rt; fs::metadata(&rt, folder).is_err());
    assert!(rt;
        matches!(
            child.edit(argv.as_slice(), b"one", b"two", 3),
            Err(SpawnError::TooLong)
        )
    );
    Ok(())
}

#[test]
fn programs_are_played(rt: HostRuntime) -> Result<(), Fail> {
    let alloc = rt.alloc();
    let plan = FaultPlan {
        places: Vec::new(alloc),
        stop_at: None,
        edits: Vec::new(alloc),
    };
    let ended = Ended {
        status: 4,
        output: Bytes::of(Vec::new(alloc)),
    };
    let mut child = MemChild::new(alloc, vec![in alloc; ended]?, Vec::new(alloc), plan)?;
    let ended = shell(alloc, &mut child, "exit", 0)?.ok_or("no answer")?;
    assert_eq!(rt; ended.status, 4);
    assert!(rt; shell(alloc, &mut child, "exit", 0)?.is_none());
    assert_eq!(rt; child.faults(), 1);
    assert_eq!(rt; child.calls().len(), 1);
    Ok(())
}
