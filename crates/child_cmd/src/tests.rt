//! Texts that are fetched from devices in memory.

use super::*;
use children::{Ended, MemChild};
use outside::{FaultPlan, MemSink, MemSource, NoMemory};
use std::alloc::{AllocError, Global};
use std::test::Fail;
use values::{Bytes, Text};

fn no_faults(alloc: Global) -> FaultPlan {
    FaultPlan {
        places: Vec::new(alloc),
        stop_at: None,
        edits: Vec::new(alloc),
    }
}

fn bytes_of(alloc: Global, text: &str) -> Result<Bytes, AllocError> {
    Ok(Bytes::of(Vec::from_slice(alloc, text.as_bytes())?))
}

/// A program that ends so, if it is run.
fn program(alloc: Global, status: i32, output: &str) -> Result<MemChild, NoMemory> {
    let ended = Ended {
        status,
        output: bytes_of(alloc, output)?,
    };
    let mut runs = Vec::new(alloc);
    runs.push(ended)?;
    MemChild::new(alloc, runs, Vec::new(alloc), no_faults(alloc))
}

/// What is fetched by two words, and what is then written.
fn fetched(
    alloc: Global,
    words: [&str; 2],
    child: &mut MemChild,
    input: &str,
    err: &mut MemSink,
) -> Result<Result<Text, FetchError>, NoMemory> {
    let mut input = MemSource::new(alloc, bytes_of(alloc, input)?, no_faults(alloc))?;
    let mut all = Vec::new(alloc);
    for word in words {
        all.push(Text::copy_of(alloc, word)?)?;
    }
    if !is_fetch(all.as_slice()) {
        return Ok(Err(FetchError::Fault));
    }
    Ok(fetch_one(alloc, all.as_slice(), child, &mut input, err))
}

#[test]
fn prompts_are_answered(rt: HostRuntime) -> Result<(), Fail> {
    let alloc = rt.alloc();
    let mut child = program(alloc, 0, "")?;
    let mut err = MemSink::new(alloc, 100, no_faults(alloc))?;
    let value = fetched(alloc, ["prompt", "pw? "], &mut child, "s\n", &mut err)??;
    assert_eq!(rt; value.as_str(), "s");
    assert_eq!(rt; err.bytes(), b"pw? ".as_slice());
    let ended = fetched(alloc, ["prompt", "pw? "], &mut child, "", &mut err)?;
    assert!(rt; matches!(ended, Err(FetchError::Ended)));
    let value = fetched(alloc, ["prompt", ""], &mut child, "\r\n", &mut err)??;
    assert_eq!(rt; value.as_str(), "");
    assert_eq!(rt; child.calls().len(), 0);
    Ok(())
}

#[test]
fn programs_are_run(rt: HostRuntime) -> Result<(), Fail> {
    let alloc = rt.alloc();
    let mut err = MemSink::new(alloc, 0, no_faults(alloc))?;
    let mut child = program(alloc, 0, "/a\n")?;
    let value = fetched(alloc, ["command", "f"], &mut child, "", &mut err)??;
    assert_eq!(rt; value.as_str(), "/a");
    let mut child = program(alloc, 3, "/a\n")?;
    let refused = fetched(alloc, ["shell", "f"], &mut child, "", &mut err)?;
    assert!(rt; matches!(refused, Err(FetchError::Status(3))));
    Ok(())
}
