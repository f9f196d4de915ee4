//! What is past the limit of a call.

ghost use Rattle.std.specs.Prelude.{IfErr, length};
ghost use Rattle.children.specs.ChildCalls.{SpawnCause, longest};
ghost use Rattle.children.specs.Plays.{IsWithin};

use crate::spawner::{Edited, Ended, SpawnError};

/// How a program ended, where its output is within the limit.
pub fn ended_within(ended: Ended, limit: u64) -> Result<Ended, SpawnError>
    ensures within { IsWithin ended (length ended.output) limit result }
    ensures cause { IfErr result (SpawnCause ⊥ limit) }
{
    if ended.output.as_slice().len() as u64 > limit {
        return Err(SpawnError::TooLong);
    }
    Ok(ended)
}

/// How an editor ended, where both files are within the limit.
pub fn edited_within(edited: Edited, limit: u64) -> Result<Edited, SpawnError>
    ensures within { IsWithin edited (longest edited) limit result }
    ensures cause { IfErr result (SpawnCause ⊥ limit) }
{
    let longest = edited.a.as_slice().len().max(edited.b.as_slice().len());
    if longest as u64 > limit {
        return Err(SpawnError::TooLong);
    }
    Ok(edited)
}
