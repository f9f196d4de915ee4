//! What comes after all steps: both flushes, then the status.

ghost use Rattle.std.specs.Prelude.{◌≡◌, true};
ghost use Rattle.outside.specs.Causes.{Rose};
ghost use Rattle.store_model.specs.Sides.{IsAnyEvent};
ghost use Rattle.store_model.specs.StoreCalls.{Changes, Stays};
ghost use Rattle.status_keeper.specs.Idents.{IsRising};
ghost use Rattle.status_keeper.specs.Rows.{row_idents};
ghost use Rattle.status_keeper.specs.Kept.{Changes as KeeperChanges};
ghost use Rattle.job_writes.specs.Writings.{now_of};
ghost use Rattle.sync_run.specs.Lines.{IsCausedEnd};
ghost use Rattle.sync_run.specs.Ends.{IsKeeping, closing, end_of_flush, end_of_commit, CommitsBy, EndsBy};

use job_rows::RowsAfter;
use status_keeper::{Keeper, KeeperError};
use store_model::{Store, StoreError};
use sync_plan::{JobEnd, Side};

/// The end by a flush that answered the error.
fn not_flushed(side: Side, error: StoreError) -> JobEnd
    ensures { result ≡ end_of_flush side error }
{
    match error {
        StoreError::NoMemory => JobEnd::NoMemory,
        error => JobEnd::NotFlushed { side, error },
    }
}

/// The end by a commit that answered the error.
fn not_committed(error: KeeperError) -> JobEnd
    ensures { result ≡ end_of_commit error }
{
    match error {
        KeeperError::NoMemory => JobEnd::NoMemory,
        error => JobEnd::NotCommitted(error),
    }
}

/// Commits the rows where they differ.
fn commit<K: Keeper>(keeper: &mut K, rows: &RowsAfter) -> JobEnd
    requires loaded { K.is_loaded keeper.old ≡ true }
    requires rising { IsRising (row_idents rows.now.rows.items) }
    ensures keeper { KeeperChanges K.count K.tells K.state IsKeeping keeper.old keeper.new }
    ensures commits { K.tells keeper.old → CommitsBy rows.now.changed (K.found keeper.old) (K.state keeper.old) (K.state keeper.new) rows.now.rows.items result }
    ensures cause { IsCausedEnd ⊥ ⊥ (Rose (K.count keeper.old) (K.count keeper.new)) result }
{
    if !rows.changed {
        return JobEnd::Synced;
    }
    match keeper.commit(rows.rows.as_slice()) {
        Ok(()) => JobEnd::Synced,
        Err(error) => not_committed(error),
    }
}

/// Flushes side a, then side b, and then commits the rows where they differ. The first of these calls that fails is the
/// last.
pub fn ending<A: Store, B: Store, K: Keeper>(
    a: &mut A,
    b: &mut B,
    keeper: &mut K,
    rows: &RowsAfter,
) -> JobEnd
    requires loaded { K.is_loaded keeper.old ≡ true }
    requires rising { IsRising (row_idents rows.now.rows.items) }
    ensures changes_a { Changes A.count A.tells A.side IsAnyEvent a.old a.new }
    ensures changes_b { Changes B.count B.tells B.side IsAnyEvent b.old b.new }
    ensures keeper { KeeperChanges K.count K.tells K.state IsKeeping keeper.old keeper.new }
    ensures ends { A.tells a.old → B.tells b.old → K.tells keeper.old → EndsBy rows.now.changed (K.found keeper.old) (closing (now_of (A.side a.old) (A.waiting a.old)) (A.side a.new) (now_of (B.side b.old) (B.waiting b.old)) (B.side b.new) (K.state keeper.old) (K.state keeper.new)) rows.now.rows.items result }
    ensures cause { IsCausedEnd (Rose (A.count a.old) (A.count a.new)) (Rose (B.count b.old) (B.count b.new)) (Rose (K.count keeper.old) (K.count keeper.new)) result }
    ensures kind_a { Stays A.waits A.is_sure a.old a.new }
    ensures kind_b { Stays B.waits B.is_sure b.old b.new }
    ensures same_a { A.setting a.new ≡ A.setting a.old }
    ensures same_b { B.setting b.new ≡ B.setting b.old }
{
    match a.flush() {
        Ok(()) => {}
        Err(error) => return not_flushed(Side::A, error),
    }
    match b.flush() {
        Ok(()) => {}
        Err(error) => return not_flushed(Side::B, error),
    }
    commit(keeper, rows)
}
