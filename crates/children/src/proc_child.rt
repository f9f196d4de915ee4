//! The real programs. They tell nothing of what they do, so of the contract of `Spawner` only the count of faults and
//! the limits speak here.

ghost use Rattle.std.specs.Prelude.{◌≡◌, ◌≤◌, ◌↔◌, ℕ, IfErr, IfOk, Ok, Err};
ghost use Rattle.std.specs.IoError.{error_kind};
ghost use Rattle.outside.specs.Causes.{Rose};
ghost use Rattle.children.specs.ChildCalls.{SpawnCause};

use crate::limits::{edited_within, ended_within};
use crate::programs::{edit_files, run_program};
use crate::spawner::{Edited, Ended, SpawnError, Spawner};
use std::io;
use std::io::ErrorKind;
use std::process::Processes;
use std::rt::{Env, Files};
use values::Text;

/// What the system answered. A failure is counted, unless memory ran out.
fn counted<T>(count: &mut u64, found: io::Result<T>) -> Result<T, SpawnError>
    ensures later { count.old ≤ count.new }
    ensures cause { (limit : ℕ) → IfErr result (SpawnCause (Rose count.old count.new) limit) }
    ensures found { IfOk result (λ value. found ≡ Ok value) }
    ensures answered { IfOk found (λ value. result ≡ Ok value) }
    ensures memory { IfErr found (λ error. result ≡ Err SpawnError.NoMemory ↔ (error_kind error ≡ ErrorKind.OutOfMemory)) }
{
    match found {
        Ok(value) => Ok(value),
        Err(error) => {
            if error.kind() == ErrorKind::OutOfMemory {
                return Err(SpawnError::NoMemory);
            }
            *count = count.saturating_add(1);
            Err(SpawnError::Fault)
        }
    }
}

/// Starts the real programs. A program that `run` starts has no input; what it writes past the limit isn't read, and
/// it is ended there. The files of `edit` stand in a folder that no other user can look into, and are gone behind it.
#[derive(Drop)]
pub struct ProcChild<R: Processes + Files + Env + AllocGlobal + Drop> {
    rt: R,
    count: u64,
}

impl<R: Processes + Files + Env + AllocGlobal + Drop> ProcChild<R> {
    /// Takes no memory.
    pub fn new(rt: R) -> ProcChild<R>
        ensures { ⟦<ProcChild<R> as Spawner>⟧.count result ≡ 0 }
    {
        ProcChild { rt, count: 0 }
    }
}

impl<R: Processes + Files + Env + AllocGlobal + Drop> Spawner for ProcChild<R> {
    ghost use Rattle.std.specs.Prelude.{None};
    ghost use Rattle.children.specs.Children.{nothing_told};

    ghost count = { λ p. p.count };

    ghost course = { λ _. None };

    ghost tells = { λ _. ⊥ };

    ghost state = { λ _. nothing_told };

    fn faults(&self) -> u64 {
        self.count
    }

    fn run(&mut self, argv: &[Text], limit: u64) -> Result<Ended, SpawnError> {
        let found = run_program(&self.rt, argv, limit);
        match counted(&mut self.count, found) {
            Ok(ended) => ended_within(ended, limit),
            Err(error) => Err(error),
        }
    }

    fn edit(
        &mut self,
        argv: &[Text],
        a: &[u8],
        b: &[u8],
        limit: u64,
    ) -> Result<Edited, SpawnError> {
        let found = edit_files(&self.rt, argv, a, b, limit);
        match counted(&mut self.count, found) {
            Ok(edited) => edited_within(edited, limit),
            Err(error) => Err(error),
        }
    }
}
