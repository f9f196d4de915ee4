//! Runs of one job over stores in memory, of which side b waits for its flush.

ghost use Rattle.std.specs.Prelude.{◌≡◌, [], IfOk};
ghost use Rattle.sync_plan.specs.Verdicts.{IsWritable};

use mem_store::MemStore;
use outside::file_map::lent;
use outside::{FaultPlace, FaultPlan};
use status_keeper::MemKeeper;
use std::alloc::Global;
use std::test::Fail;
use store_model::{Store, StoreError};
use sync_plan::{ConflictRule, JobEnd, Partial, Refusal, Report, Rules, Side, What};
use sync_run::{SyncOrder, sync_collection};
use values::{Bytes, Text};

const ANN: &str = "BEGIN:VCARD\r\nVERSION:3.0\r\nUID:x\r\nFN:Ann\r\nEND:VCARD\r\n";

const BOB: &str = "BEGIN:VCARD\r\nVERSION:3.0\r\nUID:x\r\nFN:Bob\r\nEND:VCARD\r\n";

const DAN: &str = "BEGIN:VCARD\r\nVERSION:3.0\r\nUID:y\r\nFN:Dan\r\nEND:VCARD\r\n";

const CYD: &str = "BEGIN:VCARD\r\nVERSION:3.0\r\nUID:x\r\nFN:Cyd\r\nEND:VCARD\r\n";

/// A call that faults without acting, or none.
fn plan(alloc: Global, fault: Option<u64>) -> Result<FaultPlan, Fail> {
    let mut places = Vec::new(alloc);
    if let Some(call) = fault {
        places.push(FaultPlace { call, acted: false })?;
    }
    Ok(FaultPlan {
        places,
        stop_at: None,
        edits: Vec::new(alloc),
    })
}

/// A store of these texts by their names.
fn store(
    alloc: Global,
    texts: &[(&str, &str)],
    waiting: bool,
    fault: Option<u64>,
) -> Result<MemStore, Fail>
    ensures { IfOk result (λ m. ⟦<MemStore as Store>⟧.waiting m ≡ []) }
{
    let mut items = Vec::new(alloc);
    for (name, text) in texts {
        let bytes = Vec::from_slice(alloc, text.as_bytes())?;
        items.push((Text::copy_of(alloc, name)?, Bytes::of(bytes)))?;
    }
    Ok(MemStore::new(alloc, items, waiting, plan(alloc, fault)?)?)
}

fn order(force_delete: bool) -> SyncOrder
    ensures { IsWritable result.rules }
{
    SyncOrder {
        rules: Rules {
            conflict: ConflictRule::Null,
            partial: Partial::Error,
            a_read_only: false,
            b_read_only: false,
        },
        force_delete,
    }
}

/// Both sides behind a run, and what it reported.
#[derive(Drop)]
struct Ran {
    a: MemStore,
    b: MemStore,
    report: Report,
}

/// One run over these texts; side b waits for its flush.
fn run(
    alloc: Global,
    keeper: &mut MemKeeper,
    a: &[(&str, &str)],
    b: &[(&str, &str)],
    fault_of_b: Option<u64>,
    force_delete: bool,
) -> Result<Ran, Fail> {
    let mut a = store(alloc, a, false, None)?;
    let mut b = store(alloc, b, true, fault_of_b)?;
    let report = sync_collection(alloc, &mut a, &mut b, keeper, &order(force_delete));
    Ok(Ran { a, b, report })
}

fn no_rows(alloc: Global) -> Result<MemKeeper, Fail> {
    Ok(MemKeeper::new(alloc, Vec::new(alloc), plan(alloc, None)?)?)
}

/// Whether a store has this text by this name.
fn holds(store: &MemStore, name: &str, text: &str) -> bool {
    matches!(lent(store.texts(), name), Some(bytes) if bytes == text.as_bytes())
}

fn is_in_sync(ran: &Ran) -> bool {
    matches!(&ran.report.end, JobEnd::Synced) && ran.report.lines.is_empty()
}

#[test]
fn what_happens_on_one_side_happens_on_the_other(rt: HostRuntime) -> Result<(), Fail> {
    let alloc = rt.alloc();
    let mut keeper = no_rows(alloc)?;
    let copied = run(alloc, &mut keeper, &[("x.vcf", ANN)], &[], None, false)?;
    assert!(rt; is_in_sync(&copied) && holds(&copied.b, "x.vcf", ANN));
    let both = [("x.vcf", ANN)];
    let changed = run(alloc, &mut keeper, &[("x.vcf", BOB)], &both, None, false)?;
    assert!(rt; is_in_sync(&changed) && holds(&changed.b, "x.vcf", BOB));
    let removed = run(alloc, &mut keeper, &[], &[("x.vcf", BOB)], None, true)?;
    assert!(rt; is_in_sync(&removed) && !holds(&removed.b, "x.vcf", BOB));
    Ok(())
}

#[test]
fn a_conflict_is_told(rt: HostRuntime) -> Result<(), Fail> {
    let alloc = rt.alloc();
    let mut keeper = no_rows(alloc)?;
    let told = run(
        alloc,
        &mut keeper,
        &[("x.vcf", BOB)],
        &[("x.vcf", CYD)],
        None,
        false,
    )?;
    assert!(rt; matches!(&told.report.end, JobEnd::Synced));
    assert_eq!(rt; told.report.lines.len(), 1);
    for line in &told.report.lines {
        assert!(rt; matches!(&line.what, What::Conflict));
        assert_eq!(rt; line.ident.as_str(), "x");
    }
    assert!(rt; holds(&told.a, "x.vcf", BOB) && holds(&told.b, "x.vcf", CYD));
    Ok(())
}

#[test]
fn a_side_that_came_to_be_empty_is_told(rt: HostRuntime) -> Result<(), Fail> {
    let alloc = rt.alloc();
    let mut keeper = no_rows(alloc)?;
    let both = [("x.vcf", ANN)];
    let kept = run(alloc, &mut keeper, &both, &both, None, false)?;
    assert!(rt; is_in_sync(&kept));
    let told = run(alloc, &mut keeper, &[], &both, None, false)?;
    assert!(rt;
        matches!(
            &told.report.end,
            JobEnd::Refused(Refusal::StorageEmpty(Side::A))
        )
    );
    assert!(rt; holds(&told.b, "x.vcf", ANN));
    Ok(())
}

/// The flush of side b is its fourth call, behind the listing and two new items: nothing is fetched there.
#[test]
fn what_a_flush_did_not_write_the_next_run_writes(rt: HostRuntime) -> Result<(), Fail> {
    let alloc = rt.alloc();
    let mut keeper = no_rows(alloc)?;
    let cards = [("x.vcf", ANN), ("y.vcf", DAN)];
    let told = run(alloc, &mut keeper, &cards, &[], Some(4), false)?;
    assert!(rt;
        matches!(
            &told.report.end,
            JobEnd::NotFlushed {
                side: Side::B,
                error: StoreError::Fault
            }
        )
    );
    assert!(rt; told.report.lines.is_empty() && !holds(&told.b, "x.vcf", ANN));
    let next = run(alloc, &mut keeper, &cards, &[], None, false)?;
    assert!(rt; is_in_sync(&next));
    assert!(rt; holds(&next.b, "x.vcf", ANN) && holds(&next.b, "y.vcf", DAN));
    Ok(())
}
