//! What one run does, by its calls.

ghost use Rattle.std.specs.Prelude.{Bool, List, []};
ghost use Rattle.store_model.specs.Sides.{SideState, WasEdited};
ghost use Rattle.status_keeper.specs.declared.row.Row.{Row};
ghost use Rattle.sync_plan.specs.declared.rules.Rules.{Rules};
ghost use Rattle.job_runs.specs.Jobs.{JobOf};
ghost use Rattle.job_reads.specs.declared.reading.ReadJob.{ReadJob};
ghost use Rattle.job_reads.specs.Readings.{Span, IsRead, course_of_a, course_of_b};
ghost use Rattle.sync_plan.specs.declared.report.Side.TheVariants.{A, B};
ghost use Rattle.sync_plan.specs.declared.seen.Planned.{Planned};
ghost use Rattle.sync_plan.specs.Plans.{IsPlan};
ghost use Rattle.job_writes.specs.declared.outcome.Outcome.{Outcome};
ghost use Rattle.job_writes.specs.declared.phases.Outcomes.{Outcomes};
ghost use Rattle.job_writes.specs.Writings.{SideNow, now_of, sources, WritesDid, IsWhole};
ghost use Rattle.job_rows.specs.RowsAfter.{outcome_of, IsStepAt};
ghost use Rattle.job_traces.specs.Traces.{Ran, HasMoved};

/// Whatever its calls answer and wherever it stops: a run that has read does a job. For each ident it writes on a side
/// nothing, or once what the ident's step says, over what it took the side to hold, with a text that it read on the other
/// side; the ident's row is the one before, or is of what both sides have come to; and where a removal acted on a side, all
/// that was to be put there has acted. So it is also where changes wait until the side is flushed.
pub fn runs_are_jobs()
    ensures { (force : Bool) (rules : Rules) (x : Span) (r : ReadJob) (exit_a exit_b : SideState) (after : List Row) →
        Ran force rules x r exit_a exit_b after → JobOf rules (course_of_a x r exit_a) (course_of_b x r exit_b) r.rows.items after }
{}

/// A change or a removal of what a run took is answered `moved` only where an edit from outside came to that side since the
/// run began: no own write of the run touches it before.
pub fn moved_is_by_edit()
    ensures on_a { (force : Bool) (rules : Rules) (x : Span) (r : ReadJob) (plan : List Planned) (waits : Bool) (os : Outcomes) (end : SideNow) (p : Planned) (f g : Outcome) →
        IsRead force x r → IsPlan r.a.seen.items r.b.seen.items r.rows.items rules plan → IsWhole (sources r.a r.b) plan os →
        WritesDid waits A (sources r.a r.b) plan (now_of x.a_now []) end os → IsStepAt p f g plan os.put.items os.removed.items →
        HasMoved A p.step (outcome_of p.step f g) → WasEdited x.a end.state }
    ensures on_b { (force : Bool) (rules : Rules) (x : Span) (r : ReadJob) (plan : List Planned) (waits : Bool) (os : Outcomes) (end : SideNow) (p : Planned) (f g : Outcome) →
        IsRead force x r → IsPlan r.a.seen.items r.b.seen.items r.rows.items rules plan → IsWhole (sources r.a r.b) plan os →
        WritesDid waits B (sources r.a r.b) plan (now_of x.b_now []) end os → IsStepAt p f g plan os.put.items os.removed.items →
        HasMoved B p.step (outcome_of p.step f g) → WasEdited x.b end.state }
{}
