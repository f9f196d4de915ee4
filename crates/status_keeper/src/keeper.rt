//! The keeper of a status.

ghost use Rattle.std.specs.Prelude.{map, true, IfOk, OnOk, Result, List, ◌≡◌, ℕ, Bool};
ghost use Rattle.outside.specs.Causes.{Rose};
ghost use Rattle.status_keeper.specs.Idents.{IsRising};

use crate::row::Row;
use thiserror::Error;

/// Why a status can't be loaded or committed.
#[derive(Debug, Drop, Error)]
pub enum KeeperError {
    /// The device failed.
    #[error("fault")]
    Fault,
    /// The file isn't as it was loaded. From `commit` alone.
    #[error("moved")]
    Moved,
    /// The file is outside its form: 0 for the whole, else the number of the first bad row in byte order of idents.
    #[error("damaged {0}")]
    Damaged(u32),
    /// More than 2 GiB, read or to be written.
    #[error("too long")]
    TooLong,
    #[error("out of memory")]
    NoMemory,
}

/// Keeps the rows of a job between its runs.
pub trait Keeper {
    ghost use Rattle.std.specs.Prelude.{Option, IsErr, IfErr, OnErr};
    ghost use Rattle.std.specs.declared.vec.Vec.{Vec};
    ghost use Rattle.std.specs.declared.alloc.Global.{Global};
    ghost use Rattle.outside.specs.Plans.{Course, GoesBy};
    ghost use Rattle.status_keeper.specs.declared.row.Row.{Row};
    ghost use Rattle.status_keeper.specs.declared.keeper.KeeperError.{KeeperError};
    ghost use Rattle.status_keeper.specs.Kept.{KeeperState, Changes, IsEdit, IsCommitOf};
    ghost use Rattle.status_keeper.specs.KeeperCalls.{AfterEdits, KeeperCause, LoadAnswer, CommitAnswer, IsOfLoad, IsOfCommit, FoundAfter, found_at};

    /// The count of faults.
    ghost count: { Self → ℕ };

    /// The plan by which its calls fail, and how many calls have begun, where that is told.
    ghost course: { Self → Option Course };

    /// Whether contracts can see what is kept.
    ghost tells: { Self → Type 0 };

    /// What is kept and what has happened to it, where the keeper tells it.
    ghost state: { Self → KeeperState };

    /// `load` has answered Ok.
    ghost is_loaded: { Self → Bool };

    /// The etag of the status as it was loaded or last committed, or None where there was none.
    ghost found: { Self → Option (List ℕ) };

    /// What a load did to what the keeper stands on.
    ghost loads: { Self → Self → Result (Vec Row Global) KeeperError → Type 0 };

    /// What a commit did to what the keeper stands on, exactly.
    ghost commits: { Self → Self → List Row → Result (Unit {0}) KeeperError → Type 0 };

    fn faults(&self) -> u64
        ensures { result ≡ count self.now };

    /// The rows, in byte order of idents. A status that isn't there has none.
    fn load(&mut self) -> Result<Vec<Row>, KeeperError>
        ensures changes { Changes count tells state IsEdit self.old self.new }
        ensures cause { IfErr result (KeeperCause (Rose (count self.old) (count self.new))) }
        ensures goes { GoesBy (course self.old) (course self.new) (count self.old) (count self.new) (IsErr result) }
        ensures refusal { IfErr result IsOfLoad }
        ensures rising { IfOk result (λ rows. IsRising (map (λ r. r.ident) rows.items)) }
        ensures loaded { OnOk result (is_loaded self.new ≡ true) }
        ensures unloaded { OnErr result (is_loaded self.new ≡ is_loaded self.old) }
        ensures found { tells self.old → OnOk result (found self.new ≡ found_at (state self.new).stamp) }
        ensures still { OnErr result (found self.new ≡ found self.old) }
        ensures exact { loads self.old self.new result }
        ensures answer { tells self.old → AfterEdits (state self.old) (λ m. LoadAnswer m (state self.new) result) };

    /// Keeps these rows in place of those that were loaded.
    fn commit(&mut self, rows: &[Row]) -> Result<(), KeeperError>
        requires loaded { is_loaded self.old ≡ true }
        requires rising { IsRising (map (λ r. r.ident) rows.now) }
        ensures changes { Changes count tells state (IsCommitOf rows.now) self.old self.new }
        ensures cause { IfErr result (KeeperCause (Rose (count self.old) (count self.new))) }
        ensures goes { GoesBy (course self.old) (course self.new) (count self.old) (count self.new) (IsErr result) }
        ensures refusal { IfErr result IsOfCommit }
        ensures kept { is_loaded self.new ≡ is_loaded self.old }
        ensures found { FoundAfter (found self.old) (found self.new) rows.now result }
        ensures exact { commits self.old self.new rows.now result }
        ensures answer { tells self.old → CommitAnswer (found self.old) (state self.old) (state self.new) rows.now result };
}
