//! A starter of other programs.

ghost use Rattle.std.specs.Prelude.{◌≡◌, ◌<◌, ◌≤◌, ℕ, IfErr, IfOk, length};
ghost use Rattle.outside.specs.Causes.{Rose};
ghost use Rattle.children.specs.declared.spawner.SpawnError.TheVariants.{NoMemory as out_of_memory};

use outside::NoMemory;
use thiserror::Error;
use values::{Bytes, Sequence, Text};

/// How a program ended, and what it wrote to its standard output.
#[derive(Drop)]
pub struct Ended {
    /// The status that it ended with, or -1 where a signal ended it.
    pub status: i32,
    pub output: Bytes,
}

/// How an editor ended, and what its two files then held.
#[derive(Drop)]
pub struct Edited {
    /// The status that it ended with, or -1 where a signal ended it.
    pub status: i32,
    pub a: Bytes,
    pub b: Bytes,
}

/// Why a program's answer can't be had.
#[derive(Debug, Drop, Error)]
pub enum SpawnError {
    /// The device failed, and its count of faults rose. The program ran, or it didn't.
    #[error("fault")]
    Fault,
    /// The program wrote more than the limit of the call, or left a file that is longer.
    #[error("too long")]
    TooLong,
    /// Memory ran out. The program ran, or it didn't.
    #[error("out of memory")]
    NoMemory,
}

impl From<NoMemory> for SpawnError {
    ghost from_gives = { λ _ e. e ≡ out_of_memory };

    fn from(_e: NoMemory) -> SpawnError {
        SpawnError::NoMemory
    }
}

/// A program that was run.
#[derive(Drop)]
pub enum ChildEvent {
    /// A program, by its words: its name and what it was told. It ended so.
    Ran {
        argv: Sequence<Text>,
        ended: Ended,
    },
    /// An editor, by its words without the two files, and what the files held before. It ended so.
    RanEditor {
        argv: Sequence<Text>,
        a: Bytes,
        b: Bytes,
        edited: Edited,
    },
}

/// Starts other programs, and waits for their ends.
pub trait Spawner {
    ghost use Rattle.std.specs.Prelude.{Option, IsErr};
    ghost use Rattle.outside.specs.Plans.{Course, GoesBeside};
    ghost use Rattle.children.specs.Children.{ChildState, Changes, IsRunOf, IsEditOf, no_run_left, no_edit_left};
    ghost use Rattle.children.specs.ChildCalls.{SpawnCause, RunAnswer, EditAnswer, longest};

    /// The count of faults.
    ghost count: { Self → ℕ };

    /// The plan by which its calls fail, and how many calls have begun, where that is told. A call that has no
    /// program to play fails besides.
    ghost course: { Self → Option Course };

    /// Whether contracts can see which programs were run.
    ghost tells: { Self → Type 0 };

    /// The programs that were run and those still to come, where they are told.
    ghost state: { Self → ChildState };

    /// How often a call has failed. The count stays at the last value of a `u64`.
    fn faults(&self) -> u64
        ensures { result ≡ count self.now };

    /// Runs a program without input, by its words, and gives its status and what it wrote to its standard output.
    /// `TooLong` where that is more than `limit` bytes.
    fn run(&mut self, argv: &[Text], limit: u64) -> Result<Ended, SpawnError>
        requires { 0 < length argv.now }
        ensures changes { Changes count tells state (IsRunOf argv.now) self.old self.new }
        ensures cause { IfErr result (SpawnCause (Rose (count self.old) (count self.new)) limit) }
        ensures goes { GoesBeside (no_run_left (state self.old).ahead) (course self.old) (course self.new) (count self.old) (count self.new) (IsErr result) }
        ensures within { IfOk result (λ ended. length ended.output ≤ limit) }
        ensures answer { tells self.old → RunAnswer (state self.old) (state self.new) argv.now limit result };

    /// Puts two texts into files of their own, runs an editor by its words with the paths of both files behind
    /// them, and gives its status and what the files then hold. `TooLong` where one of them has more than `limit`
    /// bytes.
    fn edit(&mut self, argv: &[Text], a: &[u8], b: &[u8], limit: u64) -> Result<Edited, SpawnError>
        requires { 0 < length argv.now }
        ensures changes { Changes count tells state (IsEditOf argv.now a.now b.now) self.old self.new }
        ensures cause { IfErr result (SpawnCause (Rose (count self.old) (count self.new)) limit) }
        ensures goes { GoesBeside (no_edit_left (state self.old).ahead) (course self.old) (course self.new) (count self.old) (count self.new) (IsErr result) }
        ensures within { IfOk result (λ edited. longest edited ≤ limit) }
        ensures answer { tells self.old → EditAnswer (state self.old) (state self.new) argv.now a.now b.now limit result };
}
