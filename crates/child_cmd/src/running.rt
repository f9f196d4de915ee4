//! Texts that programs write.

ghost use Rattle.std.specs.Prelude.{◌≡◌, ◌<◌, ◌≤◌, ◌∷◌, codes, IfErr, IfOk, length};
ghost use Rattle.outside.specs.Causes.{Rose};
ghost use Rattle.child_cmd.specs.Fetching.{EndedText, ProgramAnswer, ProgramCause};

use crate::fetch_error::FetchError;
use crate::value_text::value_text;
use children::{Ended, SpawnError, Spawner};
use std::alloc::{AllocError, Global};
use values::Text;

/// The most bytes that a program may write: 1 MiB.
pub const MAX_OUTPUT: u64 = 1_048_576;

/// The value of what a program wrote, where it ended with status 0.
fn ended_text(ended: Ended) -> Result<Text, FetchError>
    ensures text { EndedText ended result }
    ensures cause { IfErr result (ProgramCause ⊥) }
{
    if ended.status != 0 {
        return Err(FetchError::Status(ended.status));
    }
    value_text(ended.output.into_vec())
}

/// Runs a program, by its words, for what it writes.
pub fn run_program<C: Spawner>(child: &mut C, argv: &[Text]) -> Result<Text, FetchError>
    requires { 0 < length argv.now }
    ensures later { C.count child.old ≤ C.count child.new }
    ensures cause { IfErr result (ProgramCause (Rose (C.count child.old) (C.count child.new))) }
    ensures told { C.tells child.old → C.tells child.new × ProgramAnswer (C.state child.old) (C.state child.new) argv.now result }
{
    match child.run(argv, MAX_OUTPUT) {
        Ok(ended) => ended_text(ended),
        Err(SpawnError::Fault) => Err(FetchError::Fault),
        Err(SpawnError::TooLong) => Err(FetchError::TooLong),
        Err(SpawnError::NoMemory) => Err(FetchError::NoMemory),
    }
}

/// The words that run a line of the shell.
fn shell_words(alloc: Global, line: &[Text]) -> Result<Vec<Text>, AllocError>
    ensures { IfOk result (λ words. words.items ≡ codes "sh" ∷ codes "-c" ∷ line.now) }
{
    let mut words = Vec::new(alloc);
    words.push(Text::copy_of(alloc, "sh")?)?;
    words.push(Text::copy_of(alloc, "-c")?)?;
    for word in line {
        words.push(Text::copy_of(alloc, word.as_str())?)?;
    }
    Ok(words)
}

/// Runs a line of the shell for what it writes.
pub fn run_shell<C: Spawner>(
    alloc: Global,
    child: &mut C,
    line: &[Text],
) -> Result<Text, FetchError>
    ensures later { C.count child.old ≤ C.count child.new }
    ensures cause { IfErr result (ProgramCause (Rose (C.count child.old) (C.count child.new))) }
    ensures told { C.tells child.old → C.tells child.new × ProgramAnswer (C.state child.old) (C.state child.new) (codes "sh" ∷ codes "-c" ∷ line.now) result }
{
    match shell_words(alloc, line) {
        Ok(words) => run_program(child, words.as_slice()),
        Err(_) => Err(FetchError::NoMemory),
    }
}
