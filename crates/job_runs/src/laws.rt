//! What follows from the relation of one run.

ghost use Rattle.std.specs.Prelude.{◌≡◌, ℕ, List, Option, Some};
ghost use Rattle.item_text.specs.Items.{ItemValue, item_of};
ghost use Rattle.status_keeper.specs.declared.row.Row.{Row};
ghost use Rattle.status_keeper.specs.Rows.{row_of};
ghost use Rattle.store_model.specs.declared.event.Held.{Held};
ghost use Rattle.sync_plan.specs.declared.report.Side.TheVariants.{A, B};
ghost use Rattle.sync_plan.specs.declared.rules.Rules.{Rules};
ghost use Rattle.sync_plan.specs.JobSteps.{JobStep};
ghost use Rattle.job_runs.specs.Courses.{Course, IsCourse, AreTrueRows};
ghost use Rattle.job_runs.specs.Taken.{Took, Saw, IsOverTaken, IsOverSeen};
ghost use Rattle.job_runs.specs.Writes.{IsSource};
ghost use Rattle.job_runs.specs.Jobs.{JobOf, state_of, IsHonest, IsUntouched, OwnWrite};
ghost use Rattle.job_runs.specs.Named.{OwnEvent, IsNamedWrite};
ghost use Rattle.job_runs.specs.Held.{IsByStep};

/// A run is a job step, where its sides tell texts apart by their etags and its rows are true: so runs keep what an
/// undisputed ident is due, and a clean run brings it there.
pub fn run_is_a_job_step()
    ensures { (rules : Rules) (a b : Course) (before after : List Row) →
        IsHonest a → IsHonest b → JobOf rules a b before after →
        JobStep rules (λ ident. IsUntouched ident a b) (state_of a.entry b.entry before) (state_of a.exit b.exit after)
        (λ ident. OwnWrite ident a) (λ ident. OwnWrite ident b) }
{}

/// Where rows are true, what a run took from them was so.
pub fn rows_may_be_trusted()
    ensures took { (c : Course) (ident : List ℕ) (saw : Option (List ℕ)) → IsCourse c → AreTrueRows c → Took c ident saw → Saw c ident saw }
    ensures over { (c : Course) (ident href : List ℕ) (saw : Option (List ℕ)) (old : Option Held) → IsCourse c → AreTrueRows c → IsOverTaken c ident href saw old → IsOverSeen c ident href saw old }
{}

/// An own write of a run over an item, whatever it puts in its place, is named: the item is at the version that its row had
/// at entry; or the row has neither side's version, and the conflict rule names what is written.
pub fn overwrites_are_named()
    ensures on_a { (rules : Rules) (a b : Course) (before after : List Row) (href : List ℕ) (held : Held) (new : Option Held) (sent : Option (List ℕ)) (item : ItemValue) →
        IsHonest a → IsHonest b → JobOf rules a b before after →
        OwnEvent a href (Some held) new sent → item_of held.text ≡ Some item → IsNamedWrite rules a b before A item new }
    ensures on_b { (rules : Rules) (a b : Course) (before after : List Row) (href : List ℕ) (held : Held) (new : Option Held) (sent : Option (List ℕ)) (item : ItemValue) →
        IsHonest a → IsHonest b → JobOf rules a b before after →
        OwnEvent b href (Some held) new sent → item_of held.text ≡ Some item → IsNamedWrite rules a b before B item new }
{}

/// The text that an own write of a run sends is, byte for byte, the other side's text of an ident, which the run read there.
pub fn writes_have_sources()
    ensures on_a { (rules : Rules) (a b : Course) (before after : List Row) (href : List ℕ) (old new : Option Held) (text : List ℕ) →
        IsHonest a → JobOf rules a b before after → OwnEvent a href old new (Some text) → (ident : List ℕ) × IsSource b ident (Some text) }
    ensures on_b { (rules : Rules) (a b : Course) (before after : List Row) (href : List ℕ) (old new : Option Held) (text : List ℕ) →
        IsHonest b → JobOf rules a b before after → OwnEvent b href old new (Some text) → (ident : List ℕ) × IsSource a ident (Some text) }
{}

/// Each row at exit is the one at entry, or one of a version that both sides held in this run, or none where each side lacked
/// the ident in this run, or what a held-back ident's row becomes. A side on which no edit from outside touches the ident
/// holds or lacks it so at exit. The hrefs and etags of a row that both sides held are vouched by this run.
pub fn rows_are_by_step()
    ensures { (rules : Rules) (a b : Course) (before after : List Row) (ident : List ℕ) →
        IsHonest a → IsHonest b → JobOf rules a b before after →
        IsByStep rules a b before ident (row_of ident before) (row_of ident after) }
{}
