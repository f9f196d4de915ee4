//! What follows of a run from its report.

ghost use Rattle.std.specs.Prelude.{◌≡◌, ◌⊎◌, ℕ, Bool, false, List, [], None};
ghost use Rattle.status_keeper.specs.declared.row.Row.{Row};
ghost use Rattle.status_keeper.specs.declared.keeper.KeeperError.TheVariants.{TooLong};
ghost use Rattle.sync_plan.specs.Verdicts.{Unsettled, due_of};
ghost use Rattle.sync_plan.specs.JobSteps.{clean_of};
ghost use Rattle.job_runs.specs.Jobs.{state_of, IsHonest, IsUntouched};
ghost use Rattle.sync_plan.specs.declared.rules.Rules.{Rules};
ghost use Rattle.job_reads.specs.Readings.{Span, span, OnlyReads, course_of_a, course_of_b};
ghost use Rattle.sync_plan.specs.declared.report.Refusal.{Refusal};
ghost use Rattle.sync_plan.specs.declared.report.Report.{Report};
ghost use Rattle.sync_plan.specs.declared.report.JobEnd.TheVariants as job_end;
ghost use Rattle.sync_run.specs.Ends.{IsJob, RunsOn, JobRun};
ghost use Rattle.sync_run.specs.Promise.{IsPromised};
ghost use Rattle.sync_run.specs.Quiet.{IsQuiet, IsQuietEnd, AreConflicts, EndsWell};
ghost use Rattle.sync_run.specs.Reading.{ReadsAsked, ReadsAll};
ghost use Rattle.sync_run.specs.Ready.{IsReady, EndsReady, ComesTooLong};
ghost use Rattle.sync_run.specs.Settled.{IsTold, InSync};

/// However a run ends, it only read, or it did a job, read nothing behind its reading, and the status keeps the rows that the
/// job came to.
pub fn ends_are_runs()
    ensures { (force : Bool) (rules : Rules) (waits_a waits_b : Bool) (x : Span) (report : Report) →
        IsJob force rules waits_a waits_b x report → OnlyReads x ⊎ JobRun force rules x }
{}

/// Whatever faults and edits from outside a run meets, and wherever it stops: it only read; or it wrote over items only at the
/// version that the status held at entry, or that the conflict rule names, sent only texts that it read on the other side, and
/// left each undisputed ident undisputed and due the same, where etags tell texts apart and rows are true.
pub fn promises_are_kept()
    ensures { (force : Bool) (rules : Rules) (waits_a waits_b : Bool) (x : Span) (report : Report) →
        IsJob force rules waits_a waits_b x report → IsPromised force rules x }
{}

/// Whatever a run meets and wherever it stops, of each side it read nothing but entries of its listing whose href and etag don't
/// both stand in one row of the status, as it was loaded. Where it went on past its reading it has read each of these once, in
/// the listing's order, and nothing after them.
pub fn reads_are_asked()
    ensures only { (force : Bool) (rules : Rules) (waits_a waits_b : Bool) (x : Span) (report : Report) →
        IsJob force rules waits_a waits_b x report → ReadsAsked x }
    ensures each { (force : Bool) (rules : Rules) (waits_a waits_b : Bool) (x : Span) (report : Report) →
        RunsOn force rules waits_a waits_b x report → ReadsAll x }
{}

/// Where a run ended in sync, whatever failed: for each ident a line tells why it was not done, or its step is one that no run
/// does yet, or both sides have all that the step says and its row is of what both have come to.
pub fn synced_or_told()
    ensures { (force : Bool) (rules : Rules) (waits_a waits_b : Bool) (x : Span) (report : Report) →
        IsJob force rules waits_a waits_b x report → report.end ≡ job_end.Synced → InSync force rules x report }
{}

/// So an ident that no edit from outside touches, that no line names and that is due something is there on both sides and in
/// the status, where etags tell texts apart and rows are true.
pub fn untold_is_at_its_due()
    ensures { (force : Bool) (rules : Rules) (x : Span) (report : Report) (s : InSync force rules x report) (ident : List ℕ) →
        IsHonest (course_of_a (span x.k s.k x.a s.a x.b s.b) s.r x.a_now) → IsHonest (course_of_b (span x.k s.k x.a s.a x.b s.b) s.r x.b_now) →
        IsUntouched ident (course_of_a (span x.k s.k x.a s.a x.b s.b) s.r x.a_now) (course_of_b (span x.k s.k x.a s.a x.b s.b) s.r x.b_now) →
        (IsTold ident report.lines.items → ⊥) → (due_of rules (state_of x.a x.b s.r.rows.items ident) ≡ Unsettled → ⊥) →
        state_of x.a_now x.b_now s.after ident ≡ clean_of rules None (state_of x.a x.b s.r.rows.items ident) }
{}

/// A run that nothing disturbs, where no edit from outside came to a side and its lines tell no fault, tells conflicts alone:
/// no step failed.
pub fn quiet_runs_tell_conflicts()
    ensures { (force : Bool) (rules : Rules) (waits_a waits_b : Bool) (x : Span) (report : Report) →
        IsJob force rules waits_a waits_b x report → IsQuiet x report → AreConflicts report.lines.items }
{}

/// Over sides whose writes act at once a run that nothing disturbs, and that isn't refused, ends in sync or by want of memory;
/// or the text of its rows passes the limit of a status.
pub fn quiet_runs_end_well()
    ensures { (force : Bool) (rules : Rules) (x : Span) (report : Report) →
        IsJob force rules false false x report → IsQuietEnd x report → EndsWell report.end }
{}

/// A run that nothing disturbs, of a job that is ready, over sides whose writes act at once: it is in sync, it tells exactly the
/// conflicts that no rule settles, both sides and the status have all else that each ident is due, and what no run does yet is as
/// it was; or memory ran out, or the text of its rows passes the limit of a status.
pub fn ready_runs_end_clean()
    ensures { (force : Bool) (rules : Rules) (x : Span) (report : Report) (rows : List Row) →
        IsJob force rules false false x report → IsReady force x rows →
        IsQuiet x report → IsQuietEnd x report → EndsReady rules x rows report }
{}

/// Where a run tells that the text of its rows passes the limit, it does: these are the rows that its job came to, and none were
/// written.
pub fn too_long_is_so()
    ensures { (force : Bool) (rules : Rules) (waits_a waits_b : Bool) (x : Span) (report : Report) →
        IsJob force rules waits_a waits_b x report → report.end ≡ job_end.NotCommitted TooLong → ComesTooLong force rules x }
{}

/// A run that is refused has changed nothing, and tells no line.
pub fn refusals_change_nothing()
    ensures { (force : Bool) (rules : Rules) (waits_a waits_b : Bool) (x : Span) (report : Report) (refusal : Refusal) →
        IsJob force rules waits_a waits_b x report → report.end ≡ job_end.Refused refusal → OnlyReads x × (report.lines.items ≡ []) }
{}
