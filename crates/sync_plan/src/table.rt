//! The table: what one ident is due, and the step that brings it there.

ghost use Rattle.std.specs.Prelude.{◌≡◌, if◌then◌else◌};
ghost use Rattle.sync_plan.specs.Verdicts as verdicts;

use crate::dues::{Due, Step};
use crate::report::Side;
use crate::rules::{ConflictRule, Rules};
use item_text::Fp;

/// What an ident is due, and the step that brings it there.
#[derive(Clone, Copy, Debug)]
struct Verdict {
    due: Due,
    step: Step,
}

impl Verdict {
    fn of(due: Due, step: Step) -> Verdict
        ensures { result ≡ record { due = due; step = step } }
    {
        Verdict { due, step }
    }

    fn unsettled(step: Step) -> Verdict
        ensures { verdicts.verdict_in result ≡ verdicts.verdict verdicts.Unsettled step }
    {
        Verdict::of(Due::Unsettled, step)
    }
}

/// Both sides changed, to two versions.
fn by_rule(rule: ConflictRule, v: Fp, w: Fp) -> Verdict
    ensures { verdicts.verdict_in result ≡ verdicts.by_rule rule v.0 w.0 }
{
    match rule {
        ConflictRule::AWins => Verdict::of(Due::Version(v), Step::WriteOver(Side::B)),
        ConflictRule::BWins => Verdict::of(Due::Version(w), Step::WriteOver(Side::A)),
        ConflictRule::Command => Verdict::unsettled(Step::HandOver),
        ConflictRule::Null => Verdict::unsettled(Step::Conflict),
    }
}

/// Both sides have the ident, in two versions.
fn differing(rule: ConflictRule, v: Fp, w: Fp, s: Option<Fp>) -> Verdict
    ensures { verdicts.verdict_in result ≡ verdicts.differing rule v.0 w.0 (verdicts.version_in s) }
{
    match s {
        Some(s) if v == s => Verdict::of(Due::Version(w), Step::WriteOver(Side::A)),
        Some(s) if w == s => Verdict::of(Due::Version(v), Step::WriteOver(Side::B)),
        _ => by_rule(rule, v, w),
    }
}

fn other_side(side: Side) -> Side
    ensures { result ≡ verdicts.other_side side }
{
    match side {
        Side::A => Side::B,
        Side::B => Side::A,
    }
}

/// One side alone, `here`, has the ident.
fn lone(here: Side, v: Fp, s: Option<Fp>) -> Verdict
    ensures { verdicts.verdict_in result ≡ verdicts.lone here v.0 (verdicts.version_in s) }
{
    match s {
        Some(s) if v == s => Verdict::of(Due::Gone, Step::RemoveFrom(here)),
        _ => Verdict::of(Due::Version(v), Step::CopyTo(other_side(here))),
    }
}

/// Both sides have the ident.
fn shared(rule: ConflictRule, v: Fp, w: Fp, s: Option<Fp>) -> Verdict
    ensures { verdicts.verdict_in result ≡ verdicts.by_sides rule (verdicts.version_in (Some v)) (verdicts.version_in (Some w)) (verdicts.version_in s) }
{
    if v == w {
        Verdict::of(Due::Version(v), Step::Keep)
    } else {
        differing(rule, v, w, s)
    }
}

/// What the table says where both sides may be written.
fn by_sides(rule: ConflictRule, a: Option<Fp>, b: Option<Fp>, s: Option<Fp>) -> Verdict
    ensures { verdicts.verdict_in result ≡ verdicts.table rule (verdicts.versions_in a b s) }
{
    match (a, b) {
        (None, None) => Verdict::of(Due::Gone, Step::Forget),
        (Some(v), None) => lone(Side::A, v, s),
        (None, Some(w)) => lone(Side::B, w, s),
        (Some(v), Some(w)) => shared(rule, v, w, s),
    }
}

fn is_read_only(rules: &Rules, side: Side) -> bool
    ensures { result ≡ verdicts.is_read_only rules.now side }
{
    match side {
        Side::A => rules.a_read_only,
        Side::B => rules.b_read_only,
    }
}

/// Holds a step that would write to this side where it is read-only.
fn hold_on(rules: &Rules, side: Side, verdict: Verdict) -> Verdict
    ensures { verdicts.verdict_in result ≡ (if verdicts.is_read_only rules.now side then verdicts.verdict verdicts.Unsettled (Step.Held side) else verdicts.verdict_in verdict) }
{
    if is_read_only(rules, side) {
        Verdict::unsettled(Step::Held(side))
    } else {
        verdict
    }
}

/// Holds what a read-only side forbids.
fn hold(rules: &Rules, verdict: Verdict) -> Verdict
    ensures { verdicts.verdict_in result ≡ verdicts.held rules.now (verdicts.verdict_in verdict) }
{
    match verdict.step {
        Step::CopyTo(side) => hold_on(rules, side, verdict),
        Step::WriteOver(side) => hold_on(rules, side, verdict),
        Step::RemoveFrom(side) => hold_on(rules, side, verdict),
        Step::HandOver if rules.a_read_only || rules.b_read_only => {
            Verdict::unsettled(Step::Conflict)
        }
        _ => verdict,
    }
}

fn verdict_of(a: Option<Fp>, b: Option<Fp>, s: Option<Fp>, rules: &Rules) -> Verdict
    ensures { verdicts.verdict_in result ≡ verdicts.verdict_of rules.now (verdicts.versions_in a b s) }
{
    hold(rules, by_sides(rules.conflict, a, b, s))
}

/// The step for an ident with these versions on side a, on side b and in the status. It takes no memory.
pub fn decide(a: Option<Fp>, b: Option<Fp>, s: Option<Fp>, rules: &Rules) -> Step
    requires { verdicts.IsWritable rules.now }
    ensures { result ≡ verdicts.step_of rules.now (verdicts.versions_in a b s) }
{
    verdict_of(a, b, s, rules).step
}

/// What an ident with these versions is due. It takes no memory.
pub fn due(a: Option<Fp>, b: Option<Fp>, s: Option<Fp>, rules: &Rules) -> Due
    requires { verdicts.IsWritable rules.now }
    ensures { verdicts.due_in result ≡ verdicts.due_of rules.now (verdicts.versions_in a b s) }
{
    verdict_of(a, b, s, rules).due
}
