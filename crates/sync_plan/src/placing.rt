//! The items of a listing in byte order of their idents, with their places.

ghost use Rattle.std.specs.Prelude.{◌≡◌, ◌<◌, ◌^◌, ◌-◌, ℕ, IfOk, IfErr, IfNone, IfSome, OnOk, length};
ghost use Rattle.std.specs.List.{AllAdjacentBelow};
ghost use Rattle.std.specs.List.Sorted.{IsPermutation, IsSorted};
ghost use Rattle.status_keeper.specs.Idents.{Precedes, IsRising};
ghost use Rattle.sync_plan.specs.Placing.{ident_in, placed_idents, placed_cmp, IsIndex, IsIndexInOrder, IsNotRisingAt, NamesTwins};
ghost use Rattle.sync_plan.specs.Plans.{IsTwinRefusal};

use crate::report::Side;
use crate::seen::{PlanError, Seen};
use item_text::Fp;
use std::alloc::{AllocError, Global};
use std::cmp::Ordering;
use values::Text;

/// A place in a listing, and the version that stands there.
#[derive(Clone, Copy, Debug)]
pub struct Found {
    pub fp: Fp,
    pub place: u32,
}

/// What a listing has of an ident.
#[derive(Clone, Copy, Debug)]
pub struct Placed<'p> {
    pub ident: &'p str,
    pub found: Found,
}

/// The items of a listing, in its order.
fn index<'p>(alloc: Global, list: &'p [Seen]) -> Result<Vec<Placed<'p>>, AllocError>
    requires { length list.now < 2 ^ 32 }
    ensures { IfOk result (λ placed. IsIndex list.now placed.items) }
{
    let mut placed = Vec::with_capacity(alloc, list.len())?;
    for (place, seen) in list.iter().enumerate() {
        placed.push(Placed {
            ident: seen.ident.as_str(),
            found: Found {
                fp: seen.fp,
                place: place as u32,
            },
        })?;
    }
    Ok(placed)
}

/// Compares idents, and the places of one ident.
fn compare(x: &Placed, y: &Placed) -> Ordering
    ensures { result ≡ placed_cmp x.now y.now }
{
    x.ident.cmp(y.ident).then(x.found.place.cmp(&y.found.place))
}

/// Sorts by ident, and what has one ident by place.
fn sort_by_ident(placed: &mut Vec<Placed>) -> Result<(), AllocError>
    ensures permutation { IsPermutation placed.old.items placed.new.items }
    ensures sorted { OnOk result (IsSorted placed_cmp placed.new.items) }
{
    placed.sort_by(|x, y| compare(x, y))
}

/// The first place whose ident does not rise above the one before.
fn first_not_rising(placed: &[Placed]) -> Option<usize>
    ensures none { IfNone result (IsRising (placed_idents placed.now)) }
    ensures place { IfSome result (λ i. (0 < i) × (i < length placed.now)) }
    ensures not_rising { IfSome result (λ i. IsNotRisingAt placed.now i) }
    ensures before { IfSome result (AllAdjacentBelow (λ x y. Precedes (ident_in x) (ident_in y)) placed.now) }
{
    for i in 1..placed.len() {
        if placed[i - 1].ident.cmp(placed[i].ident) != Ordering::Less {
            return Some(i);
        }
    }
    None
}

/// The refusal of a listing with two items of one ident.
fn same_ident(alloc: Global, side: Side, first: &Seen, second: &Seen) -> PlanError
    ensures { NamesTwins side first.now second.now result }
{
    let Ok(ident) = Text::copy_of(alloc, first.ident.as_str()) else {
        return PlanError::NoMemory;
    };
    let Ok(first) = Text::copy_of(alloc, first.href.as_str()) else {
        return PlanError::NoMemory;
    };
    let Ok(second) = Text::copy_of(alloc, second.href.as_str()) else {
        return PlanError::NoMemory;
    };
    PlanError::SameIdent {
        side,
        ident,
        first,
        second,
    }
}

/// The items of a listing in byte order of idents; an ident that comes twice refuses the plan.
pub fn by_ident<'p>(
    alloc: Global,
    side: Side,
    list: &'p [Seen],
) -> Result<Vec<Placed<'p>>, PlanError>
    requires { length list.now < 2 ^ 32 }
    ensures ok { IfOk result (λ placed. IsIndexInOrder list.now placed.items) }
    ensures refused { IfErr result (IsTwinRefusal side list.now) }
{
    let Ok(mut placed) = index(alloc, list) else {
        return Err(PlanError::NoMemory);
    };
    if sort_by_ident(&mut placed).is_err() {
        return Err(PlanError::NoMemory);
    }
    match first_not_rising(&placed) {
        Some(i) => {
            let first = placed[i - 1].found.place as usize;
            let second = placed[i].found.place as usize;
            Err(same_ident(alloc, side, &list[first], &list[second]))
        }
        None => Ok(placed),
    }
}
