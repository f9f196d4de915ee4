//! All steps of a plan: first all but the removals, then the removals.

ghost use Rattle.std.specs.Prelude.{◌≡◌, ◌+◌, ◌||◌, ◌++◌, ◌∷◌, [], false, true, IfOk, OnOk};
ghost use Rattle.std.specs.List.{AllByRecursion};
ghost use Rattle.outside.specs.Causes.{Rose};
ghost use Rattle.store_model.specs.Sides.{IsAnyEvent};
ghost use Rattle.store_model.specs.Waits.{ActsOrWaits};
ghost use Rattle.store_model.specs.StoreCalls.{Changes, Stays, IsKnown};
ghost use Rattle.sync_plan.specs.declared.report.Side.TheVariants as side;
ghost use Rattle.job_writes.specs.Knowns.{AllMoveByEdit};
ghost use Rattle.job_writes.specs.Faults.{RoseBy, faults_of};
ghost use Rattle.job_writes.specs.Writings.{now_of, sources, IsNamedFor, FitsPut, FitsRemoval, AllFit, PutsAnswer, RemovalsAnswer, WritesAnswer, IsWhole, IsCausedOutcome, AreCaused, is_failure, failed_after};

use crate::outcome::Outcome;
use crate::steps::{put_step, removal_turn};
use side_reads::{Holding, room_for};
use std::alloc::{AllocError, Global};
use store_model::Store;
use sync_plan::Planned;

fn add(outcomes: &mut Vec<Outcome>, outcome: Outcome) -> Result<(), AllocError>
    ensures { OnOk result (outcomes.new.items ≡ outcomes.old.items ++ outcome ∷ []) }
{
    outcomes.push(outcome)?;
    Ok(())
}

/// Does all steps of a plan but the removals, in their order.
fn put_all<A: Store, B: Store>(
    alloc: Global,
    a: &mut A,
    b: &mut B,
    held_a: &Holding,
    held_b: &Holding,
    plan: &[Planned],
) -> Result<Vec<Outcome>, AllocError>
    requires listed_a { A.is_listed a.old ≡ true }
    requires listed_b { B.is_listed b.old ≡ true }
    ensures changes_a { Changes A.count A.tells A.side IsAnyEvent a.old a.new }
    ensures changes_b { Changes B.count B.tells B.side IsAnyEvent b.old b.new }
    ensures answer_a { A.tells a.old → PutsAnswer (A.waits a.old) side.A (sources held_a.now held_b.now) plan.now (now_of (A.side a.old) (A.waiting a.old)) (now_of (A.side a.new) (A.waiting a.new)) result }
    ensures acts_a { A.tells a.old → ActsOrWaits (A.waits a.old) (A.side a.old) (A.side a.new) }
    ensures answer_b { B.tells b.old → PutsAnswer (B.waits b.old) side.B (sources held_a.now held_b.now) plan.now (now_of (B.side b.old) (B.waiting b.old)) (now_of (B.side b.new) (B.waiting b.new)) result }
    ensures acts_b { B.tells b.old → ActsOrWaits (B.waits b.old) (B.side b.old) (B.side b.new) }
    ensures fits { IfOk result (λ os. AllFit (λ failed p. FitsPut p.step) false plan.now os.items) }
    ensures named { IfOk result (λ os. AllFit (λ failed. IsNamedFor (sources held_a.now held_b.now)) false plan.now os.items) }
    ensures causes { IfOk result (λ os. AllByRecursion (IsCausedOutcome (Rose (A.count a.old) (A.count a.new)) (Rose (B.count b.old) (B.count b.new))) os.items) }
    ensures faults_a { IfOk result (λ os. RoseBy (A.count a.old) (faults_of side.A os.items) (A.count a.new)) }
    ensures faults_b { IfOk result (λ os. RoseBy (B.count b.old) (faults_of side.B os.items) (B.count b.new)) }
    ensures moved_a { A.tells a.old → IsKnown (A.taken a.old) (A.side a.old) → IfOk result (λ os. AllMoveByEdit side.A (A.side a.old) (A.side a.new) plan.now os.items) }
    ensures moved_b { B.tells b.old → IsKnown (B.taken b.old) (B.side b.old) → IfOk result (λ os. AllMoveByEdit side.B (B.side b.old) (B.side b.new) plan.now os.items) }
    ensures kind_a { Stays A.waits A.is_sure a.old a.new }
    ensures kind_b { Stays B.waits B.is_sure b.old b.new }
    ensures listed_a { A.is_listed a.new ≡ A.is_listed a.old }
    ensures listed_b { B.is_listed b.new ≡ B.is_listed b.old }
    ensures same_a { A.setting a.new ≡ A.setting a.old }
    ensures same_b { B.setting b.new ≡ B.setting b.old }
{
    let mut outcomes = room_for(alloc, plan.len());
    for planned in plan {
        match put_step(alloc, a, b, held_a, held_b, planned) {
            Ok(outcome) => {
                let Ok(()) = add(&mut outcomes, outcome) else {
                    return Err(AllocError);
                };
            }
            Err(error) => return Err(error),
        }
    }
    Ok(outcomes)
}

/// Whether one has failed, or one before it.
fn fails(before: bool, outcome: &Outcome) -> bool
    ensures { result ≡ (before || is_failure outcome.now) }
{
    match outcome {
        Outcome::NotWritten { side: _, error: _ } => true,
        Outcome::NotRemoved { side: _, error: _ } => true,
        _ => before,
    }
}

/// Whether one of them has failed.
fn any_failure(outcomes: &[Outcome]) -> bool
    ensures { result ≡ failed_after false outcomes.now }
{
    let mut failed = false;
    for outcome in outcomes {
        failed = fails(failed, outcome);
    }
    failed
}

/// Does the removals of a plan, in their order; after a write that wasn't Ok none is sent any more.
fn remove_all<A: Store, B: Store>(
    alloc: Global,
    a: &mut A,
    b: &mut B,
    held_a: &Holding,
    held_b: &Holding,
    plan: &[Planned],
    failed: bool,
) -> Result<Vec<Outcome>, AllocError>
    requires listed_a { A.is_listed a.old ≡ true }
    requires listed_b { B.is_listed b.old ≡ true }
    ensures changes_a { Changes A.count A.tells A.side IsAnyEvent a.old a.new }
    ensures changes_b { Changes B.count B.tells B.side IsAnyEvent b.old b.new }
    ensures answer_a { A.tells a.old → RemovalsAnswer (A.waits a.old) side.A (sources held_a.now held_b.now) failed plan.now (now_of (A.side a.old) (A.waiting a.old)) (now_of (A.side a.new) (A.waiting a.new)) result }
    ensures acts_a { A.tells a.old → ActsOrWaits (A.waits a.old) (A.side a.old) (A.side a.new) }
    ensures answer_b { B.tells b.old → RemovalsAnswer (B.waits b.old) side.B (sources held_a.now held_b.now) failed plan.now (now_of (B.side b.old) (B.waiting b.old)) (now_of (B.side b.new) (B.waiting b.new)) result }
    ensures acts_b { B.tells b.old → ActsOrWaits (B.waits b.old) (B.side b.old) (B.side b.new) }
    ensures fits { IfOk result (λ os. AllFit (λ failed p. FitsRemoval failed p.step) failed plan.now os.items) }
    ensures causes { IfOk result (λ os. AllByRecursion (IsCausedOutcome (Rose (A.count a.old) (A.count a.new)) (Rose (B.count b.old) (B.count b.new))) os.items) }
    ensures faults_a { IfOk result (λ os. RoseBy (A.count a.old) (faults_of side.A os.items) (A.count a.new)) }
    ensures faults_b { IfOk result (λ os. RoseBy (B.count b.old) (faults_of side.B os.items) (B.count b.new)) }
    ensures kind_a { Stays A.waits A.is_sure a.old a.new }
    ensures kind_b { Stays B.waits B.is_sure b.old b.new }
    ensures listed_a { A.is_listed a.new ≡ A.is_listed a.old }
    ensures listed_b { B.is_listed b.new ≡ B.is_listed b.old }
    ensures same_a { A.setting a.new ≡ A.setting a.old }
    ensures same_b { B.setting b.new ≡ B.setting b.old }
{
    let mut outcomes = room_for(alloc, plan.len());
    let mut halted = failed;
    for planned in plan {
        match removal_turn(a, b, held_a, held_b, planned, halted) {
            Ok(outcome) => {
                halted = fails(halted, &outcome);
                let Ok(()) = add(&mut outcomes, outcome) else {
                    return Err(AllocError);
                };
            }
            Err(error) => return Err(error),
        }
    }
    Ok(outcomes)
}

/// What became of all steps of a plan: in the first phase of all but the removals, in the second of the removals.
#[derive(Debug, Drop)]
pub struct Outcomes {
    pub put: Vec<Outcome>,
    pub removed: Vec<Outcome>,
}

/// Does all steps of a plan: those that write, then the removals. Nothing is removed after a write that wasn't Ok.
pub fn write_all<A: Store, B: Store>(
    alloc: Global,
    a: &mut A,
    b: &mut B,
    held_a: &Holding,
    held_b: &Holding,
    plan: &[Planned],
) -> Result<Outcomes, AllocError>
    requires listed_a { A.is_listed a.old ≡ true }
    requires listed_b { B.is_listed b.old ≡ true }
    ensures changes_a { Changes A.count A.tells A.side IsAnyEvent a.old a.new }
    ensures changes_b { Changes B.count B.tells B.side IsAnyEvent b.old b.new }
    ensures answer_a { A.tells a.old → WritesAnswer (A.waits a.old) side.A (sources held_a.now held_b.now) plan.now (now_of (A.side a.old) (A.waiting a.old)) (now_of (A.side a.new) (A.waiting a.new)) result }
    ensures acts_a { A.tells a.old → ActsOrWaits (A.waits a.old) (A.side a.old) (A.side a.new) }
    ensures answer_b { B.tells b.old → WritesAnswer (B.waits b.old) side.B (sources held_a.now held_b.now) plan.now (now_of (B.side b.old) (B.waiting b.old)) (now_of (B.side b.new) (B.waiting b.new)) result }
    ensures acts_b { B.tells b.old → ActsOrWaits (B.waits b.old) (B.side b.old) (B.side b.new) }
    ensures fits { IfOk result (IsWhole (sources held_a.now held_b.now) plan.now) }
    ensures causes { IfOk result (AreCaused (Rose (A.count a.old) (A.count a.new)) (Rose (B.count b.old) (B.count b.new))) }
    ensures faults_a { IfOk result (λ os. RoseBy (A.count a.old) (faults_of side.A os.put.items + faults_of side.A os.removed.items) (A.count a.new)) }
    ensures faults_b { IfOk result (λ os. RoseBy (B.count b.old) (faults_of side.B os.put.items + faults_of side.B os.removed.items) (B.count b.new)) }
    ensures moved_a { A.tells a.old → IsKnown (A.taken a.old) (A.side a.old) → IfOk result (λ os. AllMoveByEdit side.A (A.side a.old) (A.side a.new) plan.now os.put.items) }
    ensures moved_b { B.tells b.old → IsKnown (B.taken b.old) (B.side b.old) → IfOk result (λ os. AllMoveByEdit side.B (B.side b.old) (B.side b.new) plan.now os.put.items) }
    ensures kind_a { Stays A.waits A.is_sure a.old a.new }
    ensures kind_b { Stays B.waits B.is_sure b.old b.new }
    ensures listed_a { A.is_listed a.new ≡ A.is_listed a.old }
    ensures listed_b { B.is_listed b.new ≡ B.is_listed b.old }
    ensures same_a { A.setting a.new ≡ A.setting a.old }
    ensures same_b { B.setting b.new ≡ B.setting b.old }
{
    let put = match put_all(alloc, a, b, held_a, held_b, plan) {
        Ok(put) => put,
        Err(error) => return Err(error),
    };
    let failed = any_failure(&put);
    match remove_all(alloc, a, b, held_a, held_b, plan, failed) {
        Ok(removed) => Ok(Outcomes { put, removed }),
        Err(error) => Err(error),
    }
}
