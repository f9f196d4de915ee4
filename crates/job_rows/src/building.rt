//! The rows that a run comes to.

ghost use Rattle.std.specs.Prelude.{◌||◌, ◌≡◌, ◌≢◌, ◌↔◌, ◌++◌, [], Some, None, true, false, IfOk, OnOk, IsTrue, option_to_list};
ghost use Rattle.status_keeper.specs.Idents.{IsRising};
ghost use Rattle.status_keeper.specs.Rows.{row_of, row_idents};
ghost use Rattle.side_reads.specs.Places.{lent_row};
ghost use Rattle.job_writes.specs.Writings.{sources, lent_seen, IsWhole};
ghost use Rattle.job_rows.specs.RowsAfter.{outcome_of, row_of_both, row_kept, row_after, rows_after, IsUnchanged};

use crate::finding::row_of;
use job_writes::{Outcome, Outcomes, seen_at};
use side_reads::{Holding, room_for};
use status_keeper::Row;
use std::alloc::{AllocError, Global};
use sync_plan::{Planned, Seen, Step};
use values::Text;

/// Whether the rows that a run comes to differ from those that it loaded; only then they stand here.
#[derive(Debug, Drop)]
pub struct RowsAfter {
    pub rows: Vec<Row>,
    pub changed: bool,
}

fn copy_text(alloc: Global, text: &Option<Text>) -> Result<Option<Text>, AllocError>
    ensures { IfOk result (λ copy. copy ≡ text.now) }
{
    match text {
        Some(text) => Ok(Some(Text::copy_of(alloc, text.as_str())?)),
        None => Ok(None),
    }
}

fn copy_row(alloc: Global, row: &Row) -> Result<Row, AllocError>
    ensures { IfOk result (λ copy. copy ≡ row.now) }
{
    Ok(Row {
        ident: Text::copy_of(alloc, row.ident.as_str())?,
        fp: row.fp,
        href_a: copy_text(alloc, &row.href_a)?,
        etag_a: copy_text(alloc, &row.etag_a)?,
        href_b: copy_text(alloc, &row.href_b)?,
        etag_b: copy_text(alloc, &row.etag_b)?,
    })
}

fn row_of_both(alloc: Global, a: &Seen, b: &Seen) -> Result<Row, AllocError>
    ensures { IfOk result (λ row. row ≡ row_of_both a.now b.now) }
{
    Ok(Row {
        ident: Text::copy_of(alloc, a.ident.as_str())?,
        fp: a.fp,
        href_a: Some(Text::copy_of(alloc, a.href.as_str())?),
        etag_a: Some(Text::copy_of(alloc, a.etag.as_str())?),
        href_b: Some(Text::copy_of(alloc, b.href.as_str())?),
        etag_b: Some(Text::copy_of(alloc, b.etag.as_str())?),
    })
}

fn is_same_text(x: &Option<Text>, y: &Option<Text>) -> bool
    ensures { IsTrue result ↔ (x.now ≡ y.now) }
{
    match (x, y) {
        (Some(x), Some(y)) => x.as_str() == y.as_str(),
        (None, None) => true,
        _ => false,
    }
}

fn is_same_row(x: &Row, y: &Row) -> bool
    ensures { IsTrue result ↔ (x.now ≡ y.now) }
{
    x.ident.as_str() == y.ident.as_str()
        && x.fp == y.fp
        && is_same_text(&x.href_a, &y.href_a)
        && is_same_text(&x.etag_a, &y.etag_a)
        && is_same_text(&x.href_b, &y.href_b)
        && is_same_text(&x.etag_b, &y.etag_b)
}

/// The old row.
fn old_row(alloc: Global, old: Option<&Row>) -> Result<Option<Row>, AllocError>
    ensures { IfOk result (λ row. row ≡ lent_row old.entry) }
{
    match old {
        Some(old) => Ok(Some(copy_row(alloc, old)?)),
        None => Ok(None),
    }
}

/// The row of an item that both sides have.
fn kept_row(alloc: Global, a: Option<&Seen>, b: Option<&Seen>) -> Result<Option<Row>, AllocError>
    ensures { IfOk result (λ row. row ≡ row_kept (lent_seen a.entry) (lent_seen b.entry)) }
{
    match (a, b) {
        (Some(a), Some(b)) => Ok(Some(row_of_both(alloc, a, b)?)),
        _ => Ok(None),
    }
}

/// The row of an ident at the end.
fn next_row(
    alloc: Global,
    rows: &[Row],
    a: &Holding,
    b: &Holding,
    planned: &Planned,
    outcome: &Outcome,
) -> Result<Option<Row>, AllocError>
    requires { IsRising (row_idents rows.now) }
    ensures { IfOk result (λ row. row ≡ row_after (sources a.now b.now) rows.now planned.now outcome.now) }
{
    match outcome {
        Outcome::Kept => kept_row(alloc, seen_at(a, planned.a), seen_at(b, planned.b)),
        Outcome::Gone => Ok(None),
        Outcome::Written(row) => match copy_row(alloc, row.get()) {
            Ok(row) => Ok(Some(row)),
            Err(error) => Err(error),
        },
        Outcome::Left => old_row(alloc, row_of(rows, planned.ident)),
        Outcome::Conflict => old_row(alloc, row_of(rows, planned.ident)),
        Outcome::NotWritten { side: _, error: _ } => old_row(alloc, row_of(rows, planned.ident)),
        Outcome::NotRemoved { side: _, error: _ } => old_row(alloc, row_of(rows, planned.ident)),
        Outcome::Skipped => old_row(alloc, row_of(rows, planned.ident)),
    }
}

/// Whether a row differs from the old one.
fn differs_from(row: &Row, old: Option<&Row>) -> bool
    ensures same { result ≡ false → Some row.now ≡ lent_row old.entry }
    ensures differs { result ≡ true → Some row.now ≢ lent_row old.entry }
{
    match old {
        Some(old) => !is_same_row(old, row),
        None => true,
    }
}

fn is_text(x: &Option<Text>, y: &Text) -> bool
    ensures { IsTrue result ↔ (x.now ≡ Some y.now) }
{
    match x {
        Some(x) => x.as_str() == y.as_str(),
        None => false,
    }
}

fn is_row_of_both(row: &Row, a: &Seen, b: &Seen) -> bool
    ensures { IsTrue result ↔ (row.now ≡ row_of_both a.now b.now) }
{
    row.ident.as_str() == a.ident.as_str()
        && row.fp == a.fp
        && is_text(&row.href_a, &a.href)
        && is_text(&row.etag_a, &a.etag)
        && is_text(&row.href_b, &b.href)
        && is_text(&row.etag_b, &b.etag)
}

/// Whether the row of an item that both sides have differs from the old one.
fn both_differ(a: &Seen, b: &Seen, old: Option<&Row>) -> bool
    ensures same { result ≡ false → Some (row_of_both a.now b.now) ≡ lent_row old.entry }
    ensures differs { result ≡ true → Some (row_of_both a.now b.now) ≢ lent_row old.entry }
{
    match old {
        Some(old) => !is_row_of_both(old, a, b),
        None => true,
    }
}

/// Whether there was a row.
fn had_row(old: Option<&Row>) -> bool
    ensures same { result ≡ false → None ≡ lent_row old.entry }
    ensures differs { result ≡ true → None ≢ lent_row old.entry }
{
    match old {
        Some(_) => true,
        None => false,
    }
}

fn kept_differs(a: Option<&Seen>, b: Option<&Seen>, old: Option<&Row>) -> bool
    ensures same { result ≡ false → row_kept (lent_seen a.entry) (lent_seen b.entry) ≡ lent_row old.entry }
    ensures differs { result ≡ true → row_kept (lent_seen a.entry) (lent_seen b.entry) ≢ lent_row old.entry }
{
    match (a, b) {
        (Some(a), Some(b)) => both_differ(a, b, old),
        _ => had_row(old),
    }
}

/// Whether the row of an ident at the end differs from the one before.
fn differs_at(rows: &[Row], a: &Holding, b: &Holding, planned: &Planned, outcome: &Outcome) -> bool
    requires { IsRising (row_idents rows.now) }
    ensures same { result ≡ false → row_after (sources a.now b.now) rows.now planned.now outcome.now ≡ row_of planned.now.ident.now rows.now }
    ensures differs { result ≡ true → row_after (sources a.now b.now) rows.now planned.now outcome.now ≢ row_of planned.now.ident.now rows.now }
{
    match outcome {
        Outcome::Kept => {
            let old = row_of(rows, planned.ident);
            kept_differs(seen_at(a, planned.a), seen_at(b, planned.b), old)
        }
        Outcome::Gone => had_row(row_of(rows, planned.ident)),
        Outcome::Written(row) => differs_from(row.get(), row_of(rows, planned.ident)),
        Outcome::Left => false,
        Outcome::Conflict => false,
        Outcome::NotWritten { side: _, error: _ } => false,
        Outcome::NotRemoved { side: _, error: _ } => false,
        Outcome::Skipped => false,
    }
}

/// A removal's outcome comes in the second phase, any other step's in the first.
fn outcome_of<'o>(step: Step, first: &'o Outcome, second: &'o Outcome) -> &'o Outcome
    ensures { result.now ≡ outcome_of step first.now second.now }
{
    match step {
        Step::RemoveFrom(_) => second,
        _ => first,
    }
}

fn either(before: bool, one: bool) -> bool
    ensures { result ≡ (before || one) }
{
    before || one
}

/// Whether the row of any ident differs from the one before.
fn any_differs(
    rows: &[Row],
    a: &Holding,
    b: &Holding,
    plan: &[Planned],
    outcomes: &Outcomes,
) -> bool
    requires rising { IsRising (row_idents rows.now) }
    requires whole { IsWhole (sources a.now b.now) plan.now outcomes.now }
    ensures same { result ≡ false → IsUnchanged (sources a.now b.now) rows.now plan.now outcomes.now.put.items outcomes.now.removed.items }
    ensures differs { result ≡ true → IsUnchanged (sources a.now b.now) rows.now plan.now outcomes.now.put.items outcomes.now.removed.items → ⊥ }
{
    let mut differs = false;
    for i in 0..plan.len() {
        let outcome = outcome_of(plan[i].step, &outcomes.put[i], &outcomes.removed[i]);
        let one = differs_at(rows, a, b, &plan[i], outcome);
        differs = either(differs, one);
    }
    differs
}

/// Adds the row of one ident.
fn add(rows: &mut Vec<Row>, row: Option<Row>) -> Result<(), AllocError>
    ensures { OnOk result (rows.new.items ≡ rows.old.items ++ option_to_list row) }
{
    if let Some(row) = row {
        rows.push(row)?;
    }
    Ok(())
}

/// The rows of all idents.
fn all_rows(
    alloc: Global,
    rows: &[Row],
    a: &Holding,
    b: &Holding,
    plan: &[Planned],
    outcomes: &Outcomes,
) -> Result<Vec<Row>, AllocError>
    requires rising { IsRising (row_idents rows.now) }
    requires whole { IsWhole (sources a.now b.now) plan.now outcomes.now }
    ensures { IfOk result (λ after. after.items ≡ rows_after (sources a.now b.now) rows.now plan.now outcomes.now.put.items outcomes.now.removed.items) }
{
    let mut after = room_for(alloc, plan.len());
    for i in 0..plan.len() {
        let outcome = outcome_of(plan[i].step, &outcomes.put[i], &outcomes.removed[i]);
        match next_row(alloc, rows, a, b, &plan[i], outcome) {
            Ok(row) => {
                let Ok(()) = add(&mut after, row) else {
                    return Err(AllocError);
                };
            }
            Err(error) => return Err(error),
        }
    }
    Ok(after)
}

/// Whether the rows that a run comes to differ from those that it loaded, and where they do the rows, ident by ident in the
/// order of its plan. Where none differs no row is copied.
pub fn rows_after(
    alloc: Global,
    rows: &[Row],
    a: &Holding,
    b: &Holding,
    plan: &[Planned],
    outcomes: &Outcomes,
) -> Result<RowsAfter, AllocError>
    requires rising { IsRising (row_idents rows.now) }
    requires whole { IsWhole (sources a.now b.now) plan.now outcomes.now }
    ensures rows { IfOk result (λ r. r.changed ≡ true → r.rows.items ≡ rows_after (sources a.now b.now) rows.now plan.now outcomes.now.put.items outcomes.now.removed.items) }
    ensures none { IfOk result (λ r. r.changed ≡ false → r.rows.items ≡ []) }
    ensures same { IfOk result (λ r. r.changed ≡ false → IsUnchanged (sources a.now b.now) rows.now plan.now outcomes.now.put.items outcomes.now.removed.items) }
    ensures differs { IfOk result (λ r. r.changed ≡ true → IsUnchanged (sources a.now b.now) rows.now plan.now outcomes.now.put.items outcomes.now.removed.items → ⊥) }
{
    if !any_differs(rows, a, b, plan, outcomes) {
        return Ok(RowsAfter {
            rows: Vec::new(alloc),
            changed: false,
        });
    }
    match all_rows(alloc, rows, a, b, plan, outcomes) {
        Ok(rows) => Ok(RowsAfter {
            rows,
            changed: true,
        }),
        Err(error) => Err(error),
    }
}
