//! The calls of a step that writes an item.

ghost use Rattle.std.specs.Prelude.{◌≡◌, ℕ, List, true, IfOk};
ghost use Rattle.outside.specs.Causes.{Rose};
ghost use Rattle.store_model.specs.Sides.{IsAnyEvent, WasEdited};
ghost use Rattle.store_model.specs.Waits.{ActsOrWaits};
ghost use Rattle.store_model.specs.StoreCalls.{Changes, Stays, Keeps, IsKnown};
ghost use Rattle.sync_plan.specs.declared.report.Side.TheVariants as side;
ghost use Rattle.job_writes.specs.Knowns.{KnownAfter, IsMovedOut, IsCopyMoved};
ghost use Rattle.job_writes.specs.Writings.{now_of, sources, IsPut, IsRemoval, IsRowFrom, IsNamedFor, FitsPut, FitsRemoval, CopyStep, OverStep, RemovalStep, PutStep, RemovalTurn, IsCausedOn, IsCausedOutcome};

use crate::outcome::Outcome;
use crate::putting::{copy_to, remove_from, write_over};
use crate::sources::{seen_at, source_at};
use side_reads::Holding;
use std::alloc::{AllocError, Global};
use store_model::Store;
use sync_plan::{Planned, Side, Step};

/// Copies the item at the other side's place.
#[tactic(auto, using(store_model::proofs::Waits::acting))]
fn copy_step<S: Store>(
    alloc: Global,
    store: &mut S,
    side: Side,
    other: &Holding,
    place: Option<u32>,
) -> Result<Outcome, AllocError>
    requires { S.is_listed store.old ≡ true }
    ensures changes { Changes S.count S.tells S.side IsAnyEvent store.old store.new }
    ensures answer { S.tells store.old → CopyStep (S.waits store.old) side other.now place (now_of (S.side store.old) (S.waiting store.old)) (now_of (S.side store.new) (S.waiting store.new)) result }
    ensures acts { S.tells store.old → ActsOrWaits (S.waits store.old) (S.side store.old) (S.side store.new) }
    ensures fits { IfOk result (IsPut side) }
    ensures named { IfOk result (IsRowFrom other.now place) }
    ensures cause { IfOk result (IsCausedOn side (Rose (S.count store.old) (S.count store.new))) }
    ensures known { S.tells store.old → IsKnown (S.taken store.old) (S.side store.old) → IfOk result (KnownAfter (S.side store.old) (S.taken store.new) (S.side store.new)) }
    ensures moved { S.tells store.old → IsKnown (S.taken store.old) (S.side store.old) → IfOk result (λ o. IsMovedOut o → WasEdited (S.side store.old) (S.side store.new)) }
    ensures kind { Stays S.waits S.is_sure store.old store.new }
    ensures kept { Keeps S.is_listed S.recalls store.old store.new }
    ensures same { S.setting store.new ≡ S.setting store.old }
{
    match source_at(other, place) {
        Some(from) => copy_to(alloc, store, side, from),
        // It was fetched, since its version isn't its row's: so it is always there.
        None => Err(AllocError),
    }
}

/// Writes the item at the other side's place over the one at this side's place.
#[tactic(auto, using(store_model::proofs::Waits::acting))]
fn over_step<S: Store>(
    alloc: Global,
    store: &mut S,
    side: Side,
    own: &Holding,
    own_place: Option<u32>,
    other: &Holding,
    place: Option<u32>,
) -> Result<Outcome, AllocError>
    requires { S.is_listed store.old ≡ true }
    ensures changes { Changes S.count S.tells S.side IsAnyEvent store.old store.new }
    ensures answer { S.tells store.old → OverStep (S.waits store.old) side own.now own_place other.now place (now_of (S.side store.old) (S.waiting store.old)) (now_of (S.side store.new) (S.waiting store.new)) result }
    ensures acts { S.tells store.old → ActsOrWaits (S.waits store.old) (S.side store.old) (S.side store.new) }
    ensures fits { IfOk result (IsPut side) }
    ensures named { IfOk result (IsRowFrom other.now place) }
    ensures cause { IfOk result (IsCausedOn side (Rose (S.count store.old) (S.count store.new))) }
    ensures known { S.tells store.old → IsKnown (S.taken store.old) (S.side store.old) → IfOk result (KnownAfter (S.side store.old) (S.taken store.new) (S.side store.new)) }
    ensures kind { Stays S.waits S.is_sure store.old store.new }
    ensures kept { Keeps S.is_listed S.recalls store.old store.new }
    ensures taken { (q : List ℕ) → S.taken store.new q ≡ S.taken store.old q }
    ensures same { S.setting store.new ≡ S.setting store.old }
{
    let Some(over) = seen_at(own, own_place) else {
        return Err(AllocError);
    };
    match source_at(other, place) {
        Some(from) => write_over(alloc, store, side, over, from),
        None => Err(AllocError),
    }
}

/// Does one step, but for removals, whose turn comes later.
#[tactic(auto, using(store_model::proofs::Waits::acting))]
pub fn put_step<A: Store, B: Store>(
    alloc: Global,
    a: &mut A,
    b: &mut B,
    held_a: &Holding,
    held_b: &Holding,
    planned: &Planned,
) -> Result<Outcome, AllocError>
    requires listed_a { A.is_listed a.old ≡ true }
    requires listed_b { B.is_listed b.old ≡ true }
    ensures changes_a { Changes A.count A.tells A.side IsAnyEvent a.old a.new }
    ensures changes_b { Changes B.count B.tells B.side IsAnyEvent b.old b.new }
    ensures answer_a { A.tells a.old → PutStep (A.waits a.old) side.A (sources held_a.now held_b.now) planned.now (now_of (A.side a.old) (A.waiting a.old)) (now_of (A.side a.new) (A.waiting a.new)) result }
    ensures acts_a { A.tells a.old → ActsOrWaits (A.waits a.old) (A.side a.old) (A.side a.new) }
    ensures answer_b { B.tells b.old → PutStep (B.waits b.old) side.B (sources held_a.now held_b.now) planned.now (now_of (B.side b.old) (B.waiting b.old)) (now_of (B.side b.new) (B.waiting b.new)) result }
    ensures acts_b { B.tells b.old → ActsOrWaits (B.waits b.old) (B.side b.old) (B.side b.new) }
    ensures fits { IfOk result (FitsPut planned.now.step) }
    ensures named { IfOk result (IsNamedFor (sources held_a.now held_b.now) planned.now) }
    ensures cause { IfOk result (IsCausedOutcome (Rose (A.count a.old) (A.count a.new)) (Rose (B.count b.old) (B.count b.new))) }
    ensures known_a { A.tells a.old → IsKnown (A.taken a.old) (A.side a.old) → IfOk result (KnownAfter (A.side a.old) (A.taken a.new) (A.side a.new)) }
    ensures moved_a { A.tells a.old → IsKnown (A.taken a.old) (A.side a.old) → IfOk result (λ o. IsCopyMoved side.A planned.now.step o → WasEdited (A.side a.old) (A.side a.new)) }
    ensures known_b { B.tells b.old → IsKnown (B.taken b.old) (B.side b.old) → IfOk result (KnownAfter (B.side b.old) (B.taken b.new) (B.side b.new)) }
    ensures moved_b { B.tells b.old → IsKnown (B.taken b.old) (B.side b.old) → IfOk result (λ o. IsCopyMoved side.B planned.now.step o → WasEdited (B.side b.old) (B.side b.new)) }
    ensures kind_a { Stays A.waits A.is_sure a.old a.new }
    ensures kind_b { Stays B.waits B.is_sure b.old b.new }
    ensures listed_a { A.is_listed a.new ≡ A.is_listed a.old }
    ensures listed_b { B.is_listed b.new ≡ B.is_listed b.old }
    ensures same_a { A.setting a.new ≡ A.setting a.old }
    ensures same_b { B.setting b.new ≡ B.setting b.old }
{
    match planned.step {
        Step::Keep => Ok(Outcome::Kept),
        Step::Forget => Ok(Outcome::Gone),
        Step::Conflict => Ok(Outcome::Conflict),
        Step::RemoveFrom(_) => Ok(Outcome::Left),
        Step::HandOver => Ok(Outcome::Left),
        Step::Held(_) => Ok(Outcome::Left),
        Step::CopyTo(Side::A) => copy_step(alloc, a, Side::A, held_b, planned.b),
        Step::CopyTo(Side::B) => copy_step(alloc, b, Side::B, held_a, planned.a),
        Step::WriteOver(Side::A) => {
            over_step(alloc, a, Side::A, held_a, planned.a, held_b, planned.b)
        }
        Step::WriteOver(Side::B) => {
            over_step(alloc, b, Side::B, held_b, planned.b, held_a, planned.a)
        }
    }
}

/// Removes the item at this side's place.
#[tactic(auto, using(store_model::proofs::Waits::acting))]
fn removal_step<S: Store>(
    store: &mut S,
    side: Side,
    own: &Holding,
    own_place: Option<u32>,
) -> Result<Outcome, AllocError>
    requires { S.is_listed store.old ≡ true }
    ensures changes { Changes S.count S.tells S.side IsAnyEvent store.old store.new }
    ensures answer { S.tells store.old → RemovalStep (S.waits store.old) side own.now own_place (now_of (S.side store.old) (S.waiting store.old)) (now_of (S.side store.new) (S.waiting store.new)) result }
    ensures acts { S.tells store.old → ActsOrWaits (S.waits store.old) (S.side store.old) (S.side store.new) }
    ensures fits { IfOk result (IsRemoval side) }
    ensures cause { IfOk result (IsCausedOn side (Rose (S.count store.old) (S.count store.new))) }
    ensures kind { Stays S.waits S.is_sure store.old store.new }
    ensures kept { Keeps S.is_listed S.recalls store.old store.new }
    ensures same { S.setting store.new ≡ S.setting store.old }
{
    match seen_at(own, own_place) {
        Some(over) => remove_from(store, side, over),
        None => Err(AllocError),
    }
}

/// Does the turn of one step among the removals; after a write that wasn't Ok nothing is removed.
#[tactic(auto, using(store_model::proofs::Waits::acting))]
pub fn removal_turn<A: Store, B: Store>(
    a: &mut A,
    b: &mut B,
    held_a: &Holding,
    held_b: &Holding,
    planned: &Planned,
    failed: bool,
) -> Result<Outcome, AllocError>
    requires listed_a { A.is_listed a.old ≡ true }
    requires listed_b { B.is_listed b.old ≡ true }
    ensures changes_a { Changes A.count A.tells A.side IsAnyEvent a.old a.new }
    ensures changes_b { Changes B.count B.tells B.side IsAnyEvent b.old b.new }
    ensures answer_a { A.tells a.old → RemovalTurn (A.waits a.old) side.A (sources held_a.now held_b.now) failed planned.now (now_of (A.side a.old) (A.waiting a.old)) (now_of (A.side a.new) (A.waiting a.new)) result }
    ensures acts_a { A.tells a.old → ActsOrWaits (A.waits a.old) (A.side a.old) (A.side a.new) }
    ensures answer_b { B.tells b.old → RemovalTurn (B.waits b.old) side.B (sources held_a.now held_b.now) failed planned.now (now_of (B.side b.old) (B.waiting b.old)) (now_of (B.side b.new) (B.waiting b.new)) result }
    ensures acts_b { B.tells b.old → ActsOrWaits (B.waits b.old) (B.side b.old) (B.side b.new) }
    ensures fits { IfOk result (FitsRemoval failed planned.now.step) }
    ensures cause { IfOk result (IsCausedOutcome (Rose (A.count a.old) (A.count a.new)) (Rose (B.count b.old) (B.count b.new))) }
    ensures kind_a { Stays A.waits A.is_sure a.old a.new }
    ensures kind_b { Stays B.waits B.is_sure b.old b.new }
    ensures listed_a { A.is_listed a.new ≡ A.is_listed a.old }
    ensures listed_b { B.is_listed b.new ≡ B.is_listed b.old }
    ensures same_a { A.setting a.new ≡ A.setting a.old }
    ensures same_b { B.setting b.new ≡ B.setting b.old }
{
    match planned.step {
        Step::RemoveFrom(_) if failed => Ok(Outcome::Skipped),
        Step::RemoveFrom(Side::A) => removal_step(a, Side::A, held_a, planned.a),
        Step::RemoveFrom(Side::B) => removal_step(b, Side::B, held_b, planned.b),
        Step::Keep => Ok(Outcome::Left),
        Step::Forget => Ok(Outcome::Left),
        Step::Conflict => Ok(Outcome::Left),
        Step::HandOver => Ok(Outcome::Left),
        Step::Held(_) => Ok(Outcome::Left),
        Step::CopyTo(_) => Ok(Outcome::Left),
        Step::WriteOver(_) => Ok(Outcome::Left),
    }
}
