//! One run of one job.

ghost use Rattle.std.specs.Prelude.{◌≡◌, ◌≤◌, ◌⊎◌, Bool, [], true, length};
ghost use Rattle.std.specs.List.{AllByRecursion};
ghost use Rattle.outside.specs.Causes.{Rose};
ghost use Rattle.store_model.specs.Sides.{IsAnyEvent};
ghost use Rattle.store_model.specs.StoreCalls.{Changes, Stays, IsKnown};
ghost use Rattle.status_keeper.specs.Idents.{IsRising};
ghost use Rattle.status_keeper.specs.Rows.{row_idents};
ghost use Rattle.status_keeper.specs.Kept.{Changes as KeeperChanges};
ghost use Rattle.status_keeper.specs.KeeperCalls.{found_at};
ghost use Rattle.sync_plan.specs.Verdicts.{IsWritable};
ghost use Rattle.sync_plan.specs.Plans.{IsPlan};
ghost use Rattle.job_reads.specs.Readings.{span};
ghost use Rattle.job_writes.specs.Writings.{now_of, sources, IsWhole, AreCaused};
ghost use Rattle.job_rows.specs.RowsAfter.{rows_after};
ghost use Rattle.sync_plan.specs.declared.report.Side.TheVariants as side;
ghost use Rattle.job_writes.specs.Faults.{RoseBy};
ghost use Rattle.sync_run.specs.Lines.{lines_of, LinesAt, IsCausedEnd, IsCausedLine, report_faults};
ghost use Rattle.sync_run.specs.Whole.{WholeRun, counts};
ghost use Rattle.sync_run.specs.Ends.{IsKeeping, closing, end_of_reading, end_of_load, end_of_stop, end_of_plan, ClosesAs, going, GoesOn, IsJob};

use crate::ending::ending;
use crate::lines::lines_of;
use job_reads::{ReadJob, Stop, read_job};
use job_rows::rows_after;
use job_writes::{Outcomes, write_all};
use status_keeper::{Keeper, KeeperError};
use std::alloc::Global;
use store_model::{MAX_ITEMS, Store, StoreError};
use sync_plan::{JobEnd, Line, PlanError, Planned, Refusal, Report, Rules, Side, plan};

/// How a job is to be run.
#[derive(Clone, Copy, Debug)]
pub struct SyncOrder {
    pub rules: Rules,
    /// A side without items is taken as it is.
    pub force_delete: bool,
}

fn ended(alloc: Global, end: JobEnd) -> Report
    ensures end { result.end ≡ end }
    ensures lines { result.lines.items ≡ [] }
{
    Report {
        end,
        lines: Vec::new(alloc),
    }
}

/// The end by a reading call of a side that answered the error.
fn end_of_reading(side: Side, error: StoreError) -> JobEnd
    ensures { result ≡ end_of_reading side error }
{
    match error {
        StoreError::NoMemory => JobEnd::NoMemory,
        error => JobEnd::Refused(Refusal::Storage { side, error }),
    }
}

/// The end by a load that answered the error.
fn end_of_load(error: KeeperError) -> JobEnd
    ensures { result ≡ end_of_load error }
{
    match error {
        KeeperError::NoMemory => JobEnd::NoMemory,
        error => JobEnd::Refused(Refusal::Status(error)),
    }
}

/// The end of a run that stops while it reads.
fn end_of_stop(stop: Stop) -> JobEnd
    ensures { result ≡ end_of_stop stop }
{
    match stop {
        Stop::Unloaded(error) => end_of_load(error),
        Stop::Unlisted { side, error } => end_of_reading(side, error),
        Stop::Emptied(side) => JobEnd::Refused(Refusal::StorageEmpty(side)),
        Stop::Unfetched { side, error } => end_of_reading(side, error),
        Stop::NoMemory => JobEnd::NoMemory,
    }
}

/// The end of a run that has no plan.
fn end_of_plan(error: PlanError) -> JobEnd
    ensures { result ≡ end_of_plan error }
{
    match error {
        PlanError::SameIdent {
            side,
            ident,
            first,
            second,
        } => JobEnd::Refused(Refusal::SameIdent {
            side,
            ident,
            first,
            second,
        }),
        PlanError::NoMemory => JobEnd::NoMemory,
    }
}

/// The report of a run that ended so; want of memory leaves no lines.
fn report_of(alloc: Global, end: JobEnd, lines: Vec<Line>) -> Report
    ensures end { result.end ≡ end }
    ensures lines { LinesAt end result.lines.items lines.items }
{
    match end {
        JobEnd::NoMemory => ended(alloc, JobEnd::NoMemory),
        end => Report { end, lines },
    }
}

/// Makes the rows and the lines of what became of all steps, and ends the run.
fn close<A: Store, B: Store, K: Keeper>(
    alloc: Global,
    a: &mut A,
    b: &mut B,
    keeper: &mut K,
    read: &ReadJob,
    plan: &[Planned],
    outcomes: Outcomes,
) -> Report
    requires loaded { K.is_loaded keeper.old ≡ true }
    requires rising { IsRising (row_idents read.now.rows.items) }
    requires whole { IsWhole (sources read.now.a read.now.b) plan.now outcomes }
    requires rise { IsRising (row_idents (rows_after (sources read.now.a read.now.b) read.now.rows.items plan.now outcomes.put.items outcomes.removed.items)) }
    ensures changes_a { Changes A.count A.tells A.side IsAnyEvent a.old a.new }
    ensures changes_b { Changes B.count B.tells B.side IsAnyEvent b.old b.new }
    ensures keeper { KeeperChanges K.count K.tells K.state IsKeeping keeper.old keeper.new }
    ensures closes { A.tells a.old → B.tells b.old → K.tells keeper.old → ClosesAs (sources read.now.a read.now.b) read.now.rows.items plan.now outcomes (K.found keeper.old) (closing (now_of (A.side a.old) (A.waiting a.old)) (A.side a.new) (now_of (B.side b.old) (B.waiting b.old)) (B.side b.new) (K.state keeper.old) (K.state keeper.new)) result result.end }
    ensures lines { (result.lines.items ≡ []) ⊎ (result.lines.items ≡ lines_of plan.now outcomes.put.items outcomes.removed.items) }
    ensures cause { IsCausedEnd (Rose (A.count a.old) (A.count a.new)) (Rose (B.count b.old) (B.count b.new)) (Rose (K.count keeper.old) (K.count keeper.new)) result.end }
    ensures kind_a { Stays A.waits A.is_sure a.old a.new }
    ensures kind_b { Stays B.waits B.is_sure b.old b.new }
    ensures same_a { A.setting a.new ≡ A.setting a.old }
    ensures same_b { B.setting b.new ≡ B.setting b.old }
{
    let Ok(rows) = rows_after(alloc, &read.rows, &read.a, &read.b, plan, &outcomes) else {
        return ended(alloc, JobEnd::NoMemory);
    };
    let Ok(lines) = lines_of(alloc, plan, outcomes) else {
        return ended(alloc, JobEnd::NoMemory);
    };
    let end = ending(a, b, keeper, &rows);
    report_of(alloc, end, lines)
}

/// Plans by what was read, does all steps, and ends the run.
fn go_on<A: Store, B: Store, K: Keeper>(
    alloc: Global,
    a: &mut A,
    b: &mut B,
    keeper: &mut K,
    rules: &Rules,
    read: &ReadJob,
) -> Report
    requires listed_a { A.is_listed a.old ≡ true }
    requires listed_b { B.is_listed b.old ≡ true }
    requires loaded { K.is_loaded keeper.old ≡ true }
    requires rising { IsRising (row_idents read.now.rows.items) }
    requires few_a { length read.now.a.seen.items ≤ MAX_ITEMS }
    requires few_b { length read.now.b.seen.items ≤ MAX_ITEMS }
    requires writable { IsWritable rules.now }
    requires idle_a { A.waiting a.old ≡ [] }
    requires idle_b { B.waiting b.old ≡ [] }
    ensures changes_a { Changes A.count A.tells A.side IsAnyEvent a.old a.new }
    ensures changes_b { Changes B.count B.tells B.side IsAnyEvent b.old b.new }
    ensures keeper { KeeperChanges K.count K.tells K.state IsKeeping keeper.old keeper.new }
    ensures goes_on { A.tells a.old → B.tells b.old → K.tells keeper.old → K.found keeper.old ≡ found_at (K.state keeper.old).stamp → (known_a known_b : Bool) → (known_a ≡ true → IsKnown (A.taken a.old) (A.side a.old)) → (known_b ≡ true → IsKnown (B.taken b.old) (B.side b.old)) → GoesOn rules.now (A.waits a.old) (B.waits b.old) (going known_a known_b read.now (K.state keeper.old) (K.state keeper.new) (A.side a.old) (A.side a.new) (B.side b.old) (B.side b.new)) result result.end }
    ensures faults_a { RoseBy (A.count a.old) (report_faults side.A result) (A.count a.new) }
    ensures faults_b { RoseBy (B.count b.old) (report_faults side.B result) (B.count b.new) }
    ensures lines { AllByRecursion (IsCausedLine (Rose (A.count a.old) (A.count a.new)) (Rose (B.count b.old) (B.count b.new))) result.lines.items }
    ensures cause { IsCausedEnd (Rose (A.count a.old) (A.count a.new)) (Rose (B.count b.old) (B.count b.new)) (Rose (K.count keeper.old) (K.count keeper.new)) result.end }
    ensures kind_a { Stays A.waits A.is_sure a.old a.new }
    ensures kind_b { Stays B.waits B.is_sure b.old b.new }
    ensures same_a { A.setting a.new ≡ A.setting a.old }
    ensures same_b { B.setting b.new ≡ B.setting b.old }
{
    let plan = match plan(alloc, &read.a.seen, &read.b.seen, &read.rows, rules) {
        Ok(plan) => plan,
        Err(error) => return ended(alloc, end_of_plan(error)),
    };
    match write_all(alloc, a, b, &read.a, &read.b, &plan) {
        Ok(outcomes) => close(alloc, a, b, keeper, read, &plan, outcomes),
        Err(_) => ended(alloc, JobEnd::NoMemory),
    }
}

/// Reads, and goes on by what was read.
fn read_and_go_on<A: Store, B: Store, K: Keeper>(
    alloc: Global,
    a: &mut A,
    b: &mut B,
    keeper: &mut K,
    order: &SyncOrder,
) -> Report
    requires writable { IsWritable order.now.rules }
    requires idle_a { A.waiting a.old ≡ [] }
    requires idle_b { B.waiting b.old ≡ [] }
    ensures changes_a { Changes A.count A.tells A.side IsAnyEvent a.old a.new }
    ensures changes_b { Changes B.count B.tells B.side IsAnyEvent b.old b.new }
    ensures keeper { KeeperChanges K.count K.tells K.state IsKeeping keeper.old keeper.new }
    ensures job { A.tells a.old → B.tells b.old → K.tells keeper.old → IsJob order.now.force_delete order.now.rules (A.waits a.old) (B.waits b.old) (span (K.state keeper.old) (K.state keeper.new) (A.side a.old) (A.side a.new) (B.side b.old) (B.side b.new)) result }
    ensures faults_a { RoseBy (A.count a.old) (report_faults side.A result) (A.count a.new) }
    ensures faults_b { RoseBy (B.count b.old) (report_faults side.B result) (B.count b.new) }
    ensures lines { AllByRecursion (IsCausedLine (Rose (A.count a.old) (A.count a.new)) (Rose (B.count b.old) (B.count b.new))) result.lines.items }
    ensures cause { IsCausedEnd (Rose (A.count a.old) (A.count a.new)) (Rose (B.count b.old) (B.count b.new)) (Rose (K.count keeper.old) (K.count keeper.new)) result.end }
    ensures kind_a { Stays A.waits A.is_sure a.old a.new }
    ensures kind_b { Stays B.waits B.is_sure b.old b.new }
    ensures same_a { A.setting a.new ≡ A.setting a.old }
    ensures same_b { B.setting b.new ≡ B.setting b.old }
{
    match read_job(alloc, a, b, keeper, order.force_delete) {
        Ok(read) => go_on(alloc, a, b, keeper, &order.rules, &read),
        Err(stop) => ended(alloc, end_of_stop(stop)),
    }
}

/// Runs one job: loads the status, lists both sides, fetches what no row knows, plans, writes, removes, flushes both sides and
/// commits the rows where they differ.
///
/// Nothing is removed after a write that failed, and nothing is sent after a flush that failed. It takes both sides with no
/// change that waits, and at most one of them read-only.
pub fn sync_collection<A: Store, B: Store, K: Keeper>(
    alloc: Global,
    a: &mut A,
    b: &mut B,
    keeper: &mut K,
    order: &SyncOrder,
) -> Report
    requires writable { IsWritable order.now.rules }
    requires idle_a { A.waiting a.old ≡ [] }
    requires idle_b { B.waiting b.old ≡ [] }
    ensures step { WholeRun order.now (A.waits a.old) (B.waits b.old) (counts (A.count a.old) (A.count a.new) (B.count b.old) (B.count b.new) (K.count keeper.old) (K.count keeper.new)) (A.tells a.old) (A.tells a.new) (B.tells b.old) (B.tells b.new) (K.tells keeper.old) (K.tells keeper.new) (span (K.state keeper.old) (K.state keeper.new) (A.side a.old) (A.side a.new) (B.side b.old) (B.side b.new)) result }

    // Of what kind a store is, and what it was set up with, it keeps.
    ensures kind_a { Stays A.waits A.is_sure a.old a.new }
    ensures kind_b { Stays B.waits B.is_sure b.old b.new }
    ensures same_a { A.setting a.new ≡ A.setting a.old }
    ensures same_b { B.setting b.new ≡ B.setting b.old }
{
    read_and_go_on(alloc, a, b, keeper, order)
}
