//! The rules of a pair, as a run takes them.

ghost use Rattle.std.specs.Prelude.{◌≡◌};
ghost use Rattle.cli_jobs.specs.Rules as spec;

use config_model::{ConflictRule as WrittenRule, PairConf, Partial as WrittenPartial};
use sync_plan::{ConflictRule, Partial, Rules};

fn conflict_of(rule: WrittenRule) -> ConflictRule
    ensures { result ≡ spec.conflict_of rule }
{
    match rule {
        WrittenRule::Null => ConflictRule::Null,
        WrittenRule::AWins => ConflictRule::AWins,
        WrittenRule::BWins => ConflictRule::BWins,
        WrittenRule::Command => ConflictRule::Command,
    }
}

fn partial_of(partial: WrittenPartial) -> Partial
    ensures { result ≡ spec.partial_of partial }
{
    match partial {
        WrittenPartial::Error => Partial::Error,
        WrittenPartial::Ignore => Partial::Ignore,
        WrittenPartial::Revert => Partial::Revert,
    }
}

/// The rules of a pair. Read-only storages aren't built, so both sides may be written.
pub fn rules_of(pair: &PairConf) -> Rules
    ensures { result ≡ spec.rules_of pair.now }
{
    Rules {
        conflict: conflict_of(pair.conflict),
        partial: partial_of(pair.partial),
        a_read_only: false,
        b_read_only: false,
    }
}
