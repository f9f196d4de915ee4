//! A section of a pair.

ghost use Rattle.std.specs.Prelude.{◌≡◌, IfOk};
ghost use Rattle.config_ini.specs.Answers.{Gives};
ghost use Rattle.config_model.specs.Pairs as spec;

use crate::by_name::Storages;
use crate::config::PairConf;
use crate::fields::Place;
use crate::keys::{
    find_refused, needed_collections, needed_text, optional_metadata, optional_partial,
    optional_rule,
};
use config_digest::digest_of;
use config_ini::{ConfigError, Entry};
use std::alloc::{AllocError, Global};
use values::Text;

fn pair_digest(
    alloc: Global,
    sections: &Storages,
    entries: &[Entry],
    a: &Text,
    b: &Text,
) -> Result<Text, AllocError>
    ensures { IfOk result (λ digest. digest ≡ spec.pair_digest sections.now entries.now a.now b.now) }
{
    digest_of(alloc, entries, sections.entries(a), sections.entries(b))
}

#[tactic(auto, unfolding(crate::specs::Pairs::pair_values))]
fn pair_values(
    alloc: Global,
    sections: &Storages,
    section: &str,
    name: &str,
    entries: &[Entry],
) -> Result<PairConf, ConfigError>
    ensures { Gives (spec.pair_values sections.now section.now name.now entries.now) result }
{
    let a = needed_text(alloc, section, "a", entries)?;
    let b = needed_text(alloc, section, "b", entries)?;
    let collections = needed_collections(alloc, section, "collections", entries)?;
    let conflict = optional_rule(alloc, "conflict_resolution", entries)?;
    let partial = optional_partial("partial_sync", entries)?;
    let metadata = optional_metadata(alloc, "metadata", entries)?;
    let digest = pair_digest(alloc, sections, entries, &a, &b)?;
    Ok(PairConf {
        name: Text::copy_of(alloc, name)?,
        a,
        b,
        collections,
        conflict: conflict.rule,
        command: conflict.command,
        partial,
        metadata,
        digest,
    })
}

/// The pair of a section.
#[tactic(auto, unfolding(crate::specs::Pairs::pair_of))]
pub(crate) fn pair_of(
    alloc: Global,
    sections: &Storages,
    section: &str,
    name: &str,
    entries: &[Entry],
) -> Result<PairConf, ConfigError>
    ensures { Gives (spec.pair_of sections.now section.now name.now entries.now) result }
{
    match find_refused(alloc, section, Place::Pair, entries) {
        Ok(()) => pair_values(alloc, sections, section, name, entries),
        Err(error) => Err(error),
    }
}
