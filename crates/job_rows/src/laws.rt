//! What the rows that a run comes to are.

ghost use Rattle.std.specs.Prelude.{◌≡◌, List};
ghost use Rattle.status_keeper.specs.declared.row.Row.{Row};
ghost use Rattle.status_keeper.specs.Idents.{IsRising};
ghost use Rattle.status_keeper.specs.Rows.{row_of, row_idents};
ghost use Rattle.sync_plan.specs.declared.rules.Rules.{Rules};
ghost use Rattle.sync_plan.specs.declared.seen.Planned.{Planned};
ghost use Rattle.sync_plan.specs.Plans.{IsPlan};
ghost use Rattle.job_writes.specs.declared.outcome.Outcome.{Outcome};
ghost use Rattle.job_writes.specs.declared.phases.Outcomes.{Outcomes};
ghost use Rattle.job_writes.specs.Writings.{Sources, IsWhole};
ghost use Rattle.job_rows.specs.RowsAfter.{outcome_of, row_after, rows_after, IsStepAt};

/// The rows that a run comes to are in byte order of idents, and each is the row of its step's ident.
pub fn rows_are_of_the_plan()
    ensures rise { (x : Sources) (rows : List Row) (rules : Rules) (plan : List Planned) (os : Outcomes) →
        IsPlan x.a.seen.items x.b.seen.items rows rules plan → IsWhole x plan os → IsRising (row_idents (rows_after x rows plan os.put.items os.removed.items)) }
    ensures each { (x : Sources) (rows : List Row) (rules : Rules) (plan : List Planned) (os : Outcomes) (p : Planned) (f g : Outcome) →
        IsPlan x.a.seen.items x.b.seen.items rows rules plan → IsWhole x plan os → IsStepAt p f g plan os.put.items os.removed.items →
        row_of p.ident.now (rows_after x rows plan os.put.items os.removed.items) ≡ row_after x rows p (outcome_of p.step f g) }
{}
