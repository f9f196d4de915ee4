//! Copies of what a program was told and what it did.

ghost use Rattle.std.specs.Prelude.{◌≡◌, IfOk};
ghost use Rattle.children.specs.Plays.{FailsAlike};

use crate::spawner::{Edited, Ended};
use outside::{FaultPlace, FaultPlan};
use std::alloc::{AllocError, Global};
use values::{Bytes, Sequence, Text};

pub fn copy_bytes(alloc: Global, bytes: &[u8]) -> Result<Bytes, AllocError>
    ensures { IfOk result (λ copy. copy ≡ bytes.now) }
{
    Ok(Bytes::of(Vec::from_slice(alloc, bytes)?))
}

pub fn copy_words(alloc: Global, words: &[Text]) -> Result<Sequence<Text>, AllocError>
    ensures { IfOk result (λ copy. copy ≡ words.now) }
{
    let mut copied = Vec::with_capacity(alloc, words.len())?;
    for word in words {
        copied.push(Text::copy_of(alloc, word.as_str())?)?;
    }
    Ok(Sequence::of(copied))
}

pub fn copy_ended(alloc: Global, ended: &Ended) -> Result<Ended, AllocError>
    ensures { IfOk result (λ copy. copy ≡ ended.now) }
{
    Ok(Ended {
        status: ended.status,
        output: copy_bytes(alloc, ended.output.as_slice())?,
    })
}

pub fn copy_edited(alloc: Global, edited: &Edited) -> Result<Edited, AllocError>
    ensures { IfOk result (λ copy. copy ≡ edited.now) }
{
    Ok(Edited {
        status: edited.status,
        a: copy_bytes(alloc, edited.a.as_slice())?,
        b: copy_bytes(alloc, edited.b.as_slice())?,
    })
}

pub fn copy_runs(alloc: Global, runs: &[Ended]) -> Result<Vec<Ended>, AllocError>
    ensures { IfOk result (λ copy. copy.items ≡ runs.now) }
{
    let mut copied = Vec::with_capacity(alloc, runs.len())?;
    for ended in runs {
        copied.push(copy_ended(alloc, ended)?)?;
    }
    Ok(copied)
}

pub fn copy_edits(alloc: Global, edits: &[Edited]) -> Result<Vec<Edited>, AllocError>
    ensures { IfOk result (λ copy. copy.items ≡ edits.now) }
{
    let mut copied = Vec::with_capacity(alloc, edits.len())?;
    for edited in edits {
        copied.push(copy_edited(alloc, edited)?)?;
    }
    Ok(copied)
}

fn copy_places(alloc: Global, places: &[FaultPlace]) -> Result<Vec<FaultPlace>, AllocError>
    ensures { IfOk result (λ copy. copy.items ≡ places.now) }
{
    let mut copied = Vec::with_capacity(alloc, places.len())?;
    for place in places {
        copied.push(FaultPlace {
            call: place.call,
            acted: place.acted,
        })?;
    }
    Ok(copied)
}

/// A plan by which the same calls fail. It has no edits.
pub fn copy_plan(alloc: Global, plan: &FaultPlan) -> Result<FaultPlan, AllocError>
    ensures { IfOk result (FailsAlike plan.now) }
{
    Ok(FaultPlan {
        places: copy_places(alloc, plan.places.as_slice())?,
        stop_at: plan.stop_at,
        edits: Vec::new(alloc),
    })
}
