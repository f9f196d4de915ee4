//! What follows from the table for one ident, and for runs of one job, whatever faults they meet.

ghost use Rattle.std.specs.Prelude.{◌≡◌, ◌⊎◌, ℕ, List, [], ◌∷◌, Option, Some, None, Contains, true, false};
ghost use Rattle.sync_plan.specs.declared.report.Side.{Side};
ghost use Rattle.sync_plan.specs.declared.report.Side.TheVariants.{A, B};
ghost use Rattle.sync_plan.specs.declared.rules.Rules.{Rules};
ghost use Rattle.sync_plan.specs.declared.dues.Step.TheVariants.{RemoveFrom};
ghost use Rattle.sync_plan.specs.Verdicts.{Versions, At, Unsettled, is_read_only, other_side, due_of, step_of, version_of, IsOpen, IsUndisputed};
ghost use Rattle.sync_plan.specs.JobSteps.{State, all_at, on_side, written, IsNamed, CleanStep};
ghost use Rattle.sync_plan.specs.Stories.{Run, IsRun, IsStory, IsWholeStory, IsFull, IsEmptied};

/// No step writes to a read-only side, whatever a command answers.
pub fn read_only_is_not_written()
    ensures { (rules : Rules) (v : Versions) (answer : Option (List ℕ)) (side : Side) →
        is_read_only rules side ≡ true → written (step_of rules v) answer side v ≡ None }
{}

/// A removal is of the version that the status has, and the other side lacks the ident.
pub fn removal_is_of_the_row()
    ensures { (rules : Rules) (v : Versions) (side : Side) →
        step_of rules v ≡ RemoveFrom side → (on_side side v ≡ v.s) × (on_side (other_side side) v ≡ None) }
{}

/// Where a step writes something, or nothing, in the place of a version, that is the version that the status has; or neither
/// side is at it, and the conflict rule names what is written.
pub fn overwrite_is_named()
    ensures { (rules : Rules) (v : Versions) (answer : Option (List ℕ)) (side : Side) (version : List ℕ) (to : Option (List ℕ)) →
        on_side side v ≡ Some version → written (step_of rules v) answer side v ≡ Some to → IsNamed rules answer side v version to }
{}

/// An ident is unsettled exactly where its step is HandOver, Conflict or Held.
pub fn unsettled_is_open()
    ensures open { (rules : Rules) (v : Versions) → due_of rules v ≡ Unsettled → IsOpen (step_of rules v) }
    ensures unsettled { (rules : Rules) (v : Versions) → IsOpen (step_of rules v) → due_of rules v ≡ Unsettled }
{}

/// An ident that is undisputed before a run, and that no edit from outside touches, is undisputed after it with the same due.
pub fn due_is_kept()
    ensures { (rules : Rules) (run : Run) (ident : List ℕ) →
        IsRun rules run → ¬ Contains run.touched ident → IsUndisputed rules (run.before ident) →
        IsUndisputed rules (run.after ident) × (due_of rules (run.after ident) ≡ due_of rules (run.before ident)) }
{}

/// After any runs and then a clean run, an ident that was undisputed at first stands at its first due on both sides and in
/// the status, and the next run writes it nowhere.
pub fn rerun()
    ensures { (rules : Rules) (ident : List ℕ) (first last after : State) (runs : List Run) (next : Run) →
        IsUndisputed rules (first ident) → IsStory rules ident first runs last →
        CleanStep rules last after →
        IsStory rules ident after (next ∷ []) next.after →
        (after ident ≡ all_at (version_of (due_of rules (first ident)))) × (¬ Contains next.writes_a ident) × (¬ Contains next.writes_b ident) }
{}

/// Where at first the status has no row or neither side is empty, and an undisputed ident is due a version, no list of runs
/// ends with a side that came to be empty.
pub fn not_emptied()
    ensures { (rules : Rules) (first last : State) (runs : List Run) (ident version : List ℕ) (side : Side) →
        IsFull first → due_of rules (first ident) ≡ At version → IsWholeStory rules first runs last → ¬ IsEmptied side last }
{}

/// Where something was removed from a side in a run, what was to be copied there is there.
pub fn no_removal_after_a_lost_copy()
    ensures { (rules : Rules) (run : Run) (gone put old version : List ℕ) →
        IsRun rules run → ¬ Contains run.touched gone → ¬ Contains run.touched put → rules.a_read_only ≡ false →
        run.before gone ≡ record { a = Some old; b = None; s = Some old } → run.before put ≡ record { a = None; b = Some version; s = None } →
        (run.after gone).a ≡ None → (run.after put).a ≡ Some version }
{}

/// A clean run is one of the runs that may be: it leaves nothing that a run with faults may not.
pub fn clean_is_a_run()
    ensures { (rules : Rules) (run : Run) (clean : CleanStep rules run.before run.after) →
        ((ident : List ℕ) → Contains run.writes_a ident → (to : Option (List ℕ)) × (written (step_of rules (run.before ident)) (clean.answers ident) A (run.before ident) ≡ Some to)) →
        ((ident : List ℕ) → Contains run.writes_b ident → (to : Option (List ℕ)) × (written (step_of rules (run.before ident)) (clean.answers ident) B (run.before ident) ≡ Some to)) →
        IsRun rules run }
{}
