//! What a run reads.

ghost use Rattle.std.specs.Prelude.{◌⊎◌, ◌≡◌, ◌≤◌, ℕ, List, [], true, false, IfOk, IfErr, OnOk, length};
ghost use Rattle.outside.specs.Causes.{Rose};
ghost use Rattle.store_model.specs.Sides.{IsNoWrite, WasEdited};
ghost use Rattle.store_model.specs.StoreCalls.{StoreCause, Changes, Stays, Keeps, IsKnown, IsGetOf};
ghost use Rattle.store_model.specs.declared.store.Entry.{Entry};
ghost use Rattle.status_keeper.specs.Idents.{IsRising};
ghost use Rattle.status_keeper.specs.Rows.{row_idents};
ghost use Rattle.status_keeper.specs.Kept.{IsEdit, Changes as KeeperChanges};
ghost use Rattle.status_keeper.specs.KeeperCalls.{KeeperCause, found_at};
ghost use Rattle.side_reads.specs.Holdings.{asked};
ghost use Rattle.job_reads.specs.Readings.{emptied_side, span, IsRead, IsStop, IsCausedStop, IsFetchStop, HoldAnswer};

use crate::stop::Stop;
use side_reads::{Holding, Places, asked};
use status_keeper::{Keeper, Row};
use std::alloc::Global;
use store_model::{Entry, MAX_ITEMS, Store};
use sync_plan::Side;

/// The rows of the status, and what both sides are taken to hold.
#[derive(Drop)]
pub struct ReadJob {
    pub rows: Vec<Row>,
    pub a: Holding,
    pub b: Holding,
}

/// The side that came to be empty, where the other has an item and the status a row.
fn emptied_side(force_delete: bool, rows: &[Row], a: &[Entry], b: &[Entry]) -> Option<Side>
    ensures { result ≡ emptied_side force_delete rows.now a.now b.now }
{
    if force_delete || rows.is_empty() {
        return None;
    }
    match (a.is_empty(), b.is_empty()) {
        (true, false) => Some(Side::A),
        (false, true) => Some(Side::B),
        _ => None,
    }
}

/// What a side that was listed is taken to hold: the items whose place no row has are fetched.
fn hold_side<S: Store>(
    alloc: Global,
    store: &mut S,
    side: Side,
    rows: &[Row],
    entries: Vec<Entry>,
) -> Result<Holding, Stop>
    requires { S.is_listed store.old ≡ true }
    ensures changes { Changes S.count S.tells S.side (IsGetOf (asked side rows.now entries.items)) store.old store.new }
    ensures answer { S.tells store.old → HoldAnswer (S.recalls store.old) side rows.now entries (S.side store.old) (S.side store.new) result }
    ensures cause { IfErr result (IsFetchStop side (StoreCause (Rose (S.count store.old) (S.count store.new)))) }
    ensures count { IfOk result (λ h. length h.seen.items ≡ length entries.items) }
    ensures kind { Stays S.waits S.is_sure store.old store.new }
    ensures kept { Keeps S.is_listed S.recalls store.old store.new }
    ensures taken { (q : List ℕ) → S.taken store.new q ≡ S.taken store.old q }
    ensures waiting { S.waiting store.new ≡ S.waiting store.old }
    ensures same { S.setting store.new ≡ S.setting store.old }
{
    let Ok(places) = Places::of(alloc, side, rows) else {
        return Err(Stop::NoMemory);
    };
    let Ok(hrefs) = asked(alloc, &entries, &places) else {
        return Err(Stop::NoMemory);
    };
    match store.get(&hrefs) {
        Ok(fetched) => match Holding::of(alloc, entries, &places, fetched) {
            Ok(holding) => Ok(holding),
            Err(_) => Err(Stop::NoMemory),
        },
        Err(error) => Err(Stop::Unfetched { side, error }),
    }
}

/// Reads the status and both sides; it writes nothing. The first call in this order that fails is the stop.
#[tactic(auto, using(store_model::proofs::Moments::moments))]
pub fn read_job<A: Store, B: Store, K: Keeper>(
    alloc: Global,
    a: &mut A,
    b: &mut B,
    keeper: &mut K,
    force_delete: bool,
) -> Result<ReadJob, Stop>
    ensures a { Changes A.count A.tells A.side IsNoWrite a.old a.new }
    ensures b { Changes B.count B.tells B.side IsNoWrite b.old b.new }
    ensures keeper { KeeperChanges K.count K.tells K.state IsEdit keeper.old keeper.new }
    ensures read { A.tells a.old → B.tells b.old → K.tells keeper.old → IfOk result (IsRead force_delete (span (K.state keeper.old) (K.state keeper.new) (A.side a.old) (A.side a.new) (B.side b.old) (B.side b.new))) }
    ensures stopped { A.tells a.old → B.tells b.old → K.tells keeper.old → IfErr result (IsStop force_delete (span (K.state keeper.old) (K.state keeper.new) (A.side a.old) (A.side a.new) (B.side b.old) (B.side b.new))) }
    ensures cause { IfErr result (IsCausedStop (StoreCause (Rose (A.count a.old) (A.count a.new))) (StoreCause (Rose (B.count b.old) (B.count b.new))) (KeeperCause (Rose (K.count keeper.old) (K.count keeper.new)))) }
    ensures rising { IfOk result (λ r. IsRising (row_idents r.rows.items)) }
    ensures few_a { IfOk result (λ r. length r.a.seen.items ≤ MAX_ITEMS) }
    ensures few_b { IfOk result (λ r. length r.b.seen.items ≤ MAX_ITEMS) }
    ensures listed_a { OnOk result (A.is_listed a.new ≡ true) }
    ensures listed_b { OnOk result (B.is_listed b.new ≡ true) }
    ensures known_a { A.tells a.old → OnOk result (WasEdited (A.side a.old) (A.side a.new) ⊎ IsKnown (A.taken a.new) (A.side a.new)) }
    ensures known_b { B.tells b.old → OnOk result (WasEdited (B.side b.old) (B.side b.new) ⊎ IsKnown (B.taken b.new) (B.side b.new)) }
    ensures kind_a { Stays A.waits A.is_sure a.old a.new }
    ensures kind_b { Stays B.waits B.is_sure b.old b.new }
    ensures waiting_a { A.waiting a.new ≡ A.waiting a.old }
    ensures waiting_b { B.waiting b.new ≡ B.waiting b.old }
    ensures same_a { A.setting a.new ≡ A.setting a.old }
    ensures same_b { B.setting b.new ≡ B.setting b.old }
    ensures loaded { OnOk result (K.is_loaded keeper.new ≡ true) }
    ensures found { K.tells keeper.old → OnOk result (K.found keeper.new ≡ found_at (K.state keeper.new).stamp) }
{
    let rows = match keeper.load() {
        Ok(rows) => rows,
        Err(error) => return Err(Stop::Unloaded(error)),
    };
    let entries_a = match a.list() {
        Ok(entries) => entries,
        Err(error) => return Err(Stop::Unlisted {
            side: Side::A,
            error,
        }),
    };
    let entries_b = match b.list() {
        Ok(entries) => entries,
        Err(error) => return Err(Stop::Unlisted {
            side: Side::B,
            error,
        }),
    };
    if let Some(side) = emptied_side(force_delete, &rows, &entries_a, &entries_b) {
        return Err(Stop::Emptied(side));
    }
    let held_a = match hold_side(alloc, a, Side::A, &rows, entries_a) {
        Ok(held) => held,
        Err(stop) => return Err(stop),
    };
    let held_b = match hold_side(alloc, b, Side::B, &rows, entries_b) {
        Ok(held) => held,
        Err(stop) => return Err(stop),
    };
    Ok(ReadJob {
        rows,
        a: held_a,
        b: held_b,
    })
}
