//! What a run knows of a side by what it has read.

ghost use Rattle.std.specs.Prelude.{◌≡◌, ℕ, Bool, List, Some, option_map, slice_get};
ghost use Rattle.item_text.specs.Items.{ItemValue};
ghost use Rattle.store_model.specs.Sides.{SideState};
ghost use Rattle.sync_plan.specs.declared.seen.Seen.{Seen};
ghost use Rattle.sync_plan.specs.Plans.{seen_of, HasNoTwin};
ghost use Rattle.job_runs.specs.Taken.{Took, FoundAlone};
ghost use Rattle.job_reads.specs.Readings.{Span, IsRead, IsReadText, course_of_a, course_of_b};
ghost use Rattle.job_reads.specs.declared.reading.ReadJob.{ReadJob};

/// What a run takes a side to hold of an ident it took there: by what it fetched, or by a row for an entry that it didn't fetch.
pub fn readings_are_taken()
    ensures on_a { (force : Bool) (x : Span) (r : ReadJob) (exit : SideState) (ident : List ℕ) →
        IsRead force x r → Took (course_of_a x r exit) ident (option_map (λ s. (s.fp).0) (seen_of ident r.a.seen.items)) }
    ensures on_b { (force : Bool) (x : Span) (r : ReadJob) (exit : SideState) (ident : List ℕ) →
        IsRead force x r → Took (course_of_b x r exit) ident (option_map (λ s. (s.fp).0) (seen_of ident r.b.seen.items)) }
{}

/// Where no two items of a listing have one ident, a run found each ident at its item's href alone: each other entry it
/// fetched, and it is of another ident, or a row says that it is of another.
pub fn idents_are_found_alone()
    ensures on_a { (force : Bool) (x : Span) (r : ReadJob) (exit : SideState) (place : ℕ) (seen : Seen) →
        IsRead force x r → HasNoTwin r.a.seen.items → slice_get r.a.seen.items place ≡ Some seen → FoundAlone (course_of_a x r exit) seen.ident seen.href }
    ensures on_b { (force : Bool) (x : Span) (r : ReadJob) (exit : SideState) (place : ℕ) (seen : Seen) →
        IsRead force x r → HasNoTwin r.b.seen.items → slice_get r.b.seen.items place ≡ Some seen → FoundAlone (course_of_b x r exit) seen.ident seen.href }
{}

/// The text that a run has for a place of a listing was read on that side, and stood there.
pub fn texts_were_read()
    ensures on_a { (force : Bool) (x : Span) (r : ReadJob) (exit : SideState) (place : ℕ) (seen : Seen) (item : ItemValue) →
        IsRead force x r → slice_get r.a.seen.items place ≡ Some seen → slice_get r.a.items.items place ≡ Some (Some item) → IsReadText (course_of_a x r exit) seen item }
    ensures on_b { (force : Bool) (x : Span) (r : ReadJob) (exit : SideState) (place : ℕ) (seen : Seen) (item : ItemValue) →
        IsRead force x r → slice_get r.b.seen.items place ≡ Some seen → slice_get r.b.items.items place ≡ Some (Some item) → IsReadText (course_of_b x r exit) seen item }
{}
