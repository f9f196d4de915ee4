//! One step for each ident of both listings and the status.

ghost use Rattle.std.specs.Prelude.{◌≡◌, ◌≤◌, ◌<◌, ℕ, IfOk, IfErr, option_map, length, drop};
ghost use Rattle.status_keeper.specs.Idents.{IsRising};
ghost use Rattle.status_keeper.specs.Rows.{row_idents};
ghost use Rattle.sync_plan.specs.Merging.{row_ident, texts, head_ident, least_text, head_of, rest_of, found_in, IsMerged};
ghost use Rattle.sync_plan.specs.Placing.{ident_in, placed_idents};
ghost use Rattle.sync_plan.specs.Plans.{IsPlan, IsPlanRefusal};
ghost use Rattle.sync_plan.specs.Verdicts.{IsWritable, versions_in, step_of};

use crate::placing::{Found, Placed, by_ident};
use crate::report::Side;
use crate::rules::Rules;
use crate::seen::{PlanError, Planned, Seen};
use crate::table::decide;
use item_text::Fp;
use status_keeper::Row;
use std::alloc::Global;
use std::cmp::Ordering;
use store_model::MAX_ITEMS;

/// How far each of three lists is taken.
#[derive(Clone, Copy, Debug)]
struct Cursor {
    a: usize,
    b: usize,
    row: usize,
}

fn head<'p>(list: &[Placed<'p>], at: usize) -> Option<&'p str>
    ensures { texts result ≡ head_ident ident_in (drop at list.now) }
{
    match list.get(at) {
        Some(first) => Some(first.ident),
        None => None,
    }
}

fn head_row(rows: &[Row], at: usize) -> Option<&str>
    ensures { texts result ≡ head_ident row_ident (drop at rows.now) }
{
    match rows.get(at) {
        Some(first) => Some(first.ident.as_str()),
        None => None,
    }
}

fn least<'t>(x: Option<&'t str>, y: Option<&'t str>) -> Option<&'t str>
    ensures { texts result ≡ least_text (texts x.entry) (texts y.entry) }
{
    match (x, y) {
        (Some(x), Some(y)) => {
            if y.cmp(x) == Ordering::Less {
                Some(y)
            } else {
                Some(x)
            }
        }
        (Some(x), None) => Some(x),
        (None, y) => y,
    }
}

/// The least ident that is not taken yet of three lists that rise.
fn next_ident<'p>(
    a: &[Placed<'p>],
    b: &[Placed<'p>],
    rows: &'p [Row],
    at: Cursor,
) -> Option<&'p str>
    ensures { texts result ≡ least_text (least_text (head_ident ident_in (drop at.a a.now)) (head_ident ident_in (drop at.b b.now))) (head_ident row_ident (drop at.row rows.now)) }
{
    least(least(head(a, at.a), head(b, at.b)), head_row(rows, at.row))
}

/// What the next entry has where it is of the ident, and where the list goes on.
fn take(list: &[Placed], at: usize, ident: &str) -> (Option<Found>, usize)
    ensures found { result.0 ≡ option_map found_in (head_of ident_in ident.now (drop at list.now)) }
    ensures rest { drop result.1 list.now ≡ rest_of ident_in ident.now (drop at list.now) }
{
    match list.get(at) {
        Some(first) if first.ident == ident => (Some(first.found), at + 1),
        _ => (None, at),
    }
}

fn take_row(rows: &[Row], at: usize, ident: &str) -> (Option<Fp>, usize)
    ensures found { result.0 ≡ option_map (λ r. r.fp) (head_of row_ident ident.now (drop at rows.now)) }
    ensures rest { drop result.1 rows.now ≡ rest_of row_ident ident.now (drop at rows.now) }
{
    match rows.get(at) {
        Some(first) if first.ident.as_str() == ident => (Some(first.fp), at + 1),
        _ => (None, at),
    }
}

fn fp_of(found: Option<Found>) -> Option<Fp>
    ensures { result ≡ option_map (λ f. f.fp) found }
{
    match found {
        Some(found) => Some(found.fp),
        None => None,
    }
}

fn place_of(found: Option<Found>) -> Option<u32>
    ensures { result ≡ option_map (λ f. f.place) found }
{
    match found {
        Some(found) => Some(found.place),
        None => None,
    }
}

/// The step for an ident with what both listings and the status have of it.
fn planned<'p>(
    ident: &'p str,
    a: Option<Found>,
    b: Option<Found>,
    row: Option<Fp>,
    rules: &Rules,
) -> Planned<'p>
    requires { IsWritable rules.now }
    ensures ident { result.ident.now ≡ ident.now }
    ensures a { result.a ≡ option_map (λ f. f.place) a }
    ensures b { result.b ≡ option_map (λ f. f.place) b }
    ensures step { result.step ≡ step_of rules.now (versions_in (option_map (λ f. f.fp) a) (option_map (λ f. f.fp) b) row) }
{
    Planned {
        ident,
        step: decide(fp_of(a), fp_of(b), row, rules),
        a: place_of(a),
        b: place_of(b),
    }
}

/// One step for each ident of three lists that rise.
fn merge<'p>(
    alloc: Global,
    a: &[Placed<'p>],
    b: &[Placed<'p>],
    rows: &'p [Row],
    rules: &Rules,
) -> Result<Vec<Planned<'p>>, PlanError>
    requires writable { IsWritable rules.now }
    requires rising_a { IsRising (placed_idents a.now) }
    requires rising_b { IsRising (placed_idents b.now) }
    requires rising_rows { IsRising (row_idents rows.now) }
    ensures ok { IfOk result (λ steps. IsMerged a.now b.now rows.now rules.now steps.items) }
    ensures refused { IfErr result (λ e. e ≡ PlanError.NoMemory) }
{
    let mut steps = Vec::new(alloc);
    let mut at = Cursor { a: 0, b: 0, row: 0 };
    while let Some(ident) = next_ident(a, b, rows, at) {
        let (found_a, next_a) = take(a, at.a, ident);
        let (found_b, next_b) = take(b, at.b, ident);
        let (row, next_row) = take_row(rows, at.row, ident);
        let step = planned(ident, found_a, found_b, row, rules);
        if steps.push(step).is_err() {
            return Err(PlanError::NoMemory);
        }
        at = Cursor {
            a: next_a,
            b: next_b,
            row: next_row,
        };
    }
    Ok(steps)
}

/// One step for each ident of two listings and the rows, in byte order of idents, with the places of its items.
///
/// The idents are lent by the listings and the rows.
pub fn plan<'p>(
    alloc: Global,
    a: &'p [Seen],
    b: &'p [Seen],
    rows: &'p [Row],
    rules: &Rules,
) -> Result<Vec<Planned<'p>>, PlanError>
    requires writable { IsWritable rules.now }
    requires few_a { length a.now ≤ MAX_ITEMS }
    requires few_b { length b.now ≤ MAX_ITEMS }
    requires rising { IsRising (row_idents rows.now) }
    ensures ok { IfOk result (λ steps. IsPlan a.now b.now rows.now rules.now steps.items) }
    ensures refused { IfErr result (IsPlanRefusal a.now b.now) }
{
    let sorted_a = match by_ident(alloc, Side::A, a) {
        Ok(sorted) => sorted,
        Err(error) => return Err(error),
    };
    let sorted_b = match by_ident(alloc, Side::B, b) {
        Ok(sorted) => sorted,
        Err(error) => return Err(error),
    };
    merge(alloc, &sorted_a, &sorted_b, rows, rules)
}
