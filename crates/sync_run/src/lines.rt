//! The lines of a report.

ghost use Rattle.std.specs.Prelude.{◌≡◌, IfOk};
ghost use Rattle.job_rows.specs.RowsAfter.{outcome_of};
ghost use Rattle.sync_run.specs.Lines.{what_of, line_of, lines_of};

use job_writes::{Outcome, Outcomes};
use std::alloc::{AllocError, Global};
use sync_plan::{Line, Planned, Step, What};
use values::Text;

/// What is told of an outcome, if anything is.
fn what_of(outcome: Outcome) -> Option<What>
    ensures { result ≡ what_of outcome }
{
    match outcome {
        Outcome::Kept => None,
        Outcome::Gone => None,
        Outcome::Written(_) => None,
        Outcome::Left => None,
        Outcome::Conflict => Some(What::Conflict),
        Outcome::NotWritten { side, error } => Some(What::NotWritten { side, error }),
        Outcome::NotRemoved { side, error } => Some(What::NotRemoved { side, error }),
        Outcome::Skipped => Some(What::Skipped),
    }
}

/// A removal's outcome comes in the second phase, any other step's in the first.
fn outcome_of(step: Step, first: Outcome, second: Outcome) -> Outcome
    ensures { result ≡ outcome_of step first second }
{
    match step {
        Step::RemoveFrom(_) => second,
        _ => first,
    }
}

/// The line of one step.
fn line_of(
    alloc: Global,
    planned: &Planned,
    first: Outcome,
    second: Outcome,
) -> Result<Option<Line>, AllocError>
    ensures { IfOk result (λ line. line ≡ line_of planned.now first second) }
{
    let Some(what) = what_of(outcome_of(planned.step, first, second)) else {
        return Ok(None);
    };
    let ident = Text::copy_of(alloc, planned.ident)?;
    Ok(Some(Line { ident, what }))
}

/// The lines of all steps, in the order of the plan.
pub fn lines_of(
    alloc: Global,
    plan: &[Planned],
    outcomes: Outcomes,
) -> Result<Vec<Line>, AllocError>
    ensures { IfOk result (λ lines. lines.items ≡ lines_of plan.now outcomes.put.items outcomes.removed.items) }
{
    let Outcomes { put, removed } = outcomes;
    let mut firsts = put.into_iter();
    let mut seconds = removed.into_iter();
    let mut lines = Vec::new(alloc);
    for planned in plan {
        let Some(first) = firsts.next() else {
            return Ok(lines);
        };
        let Some(second) = seconds.next() else {
            return Ok(lines);
        };
        match line_of(alloc, planned, first, second) {
            Ok(Some(line)) => {
                let Ok(()) = lines.push(line) else {
                    return Err(AllocError);
                };
            }
            Ok(None) => {}
            Err(error) => return Err(error),
        }
    }
    Ok(lines)
}
