//! Refuses what isn't built yet.

ghost use Rattle.std.specs.Prelude.{◌≡◌, not, IfOk};
ghost use Rattle.std.specs.List.{find};
ghost use Rattle.std.specs.Option.{option_copied};
ghost use Rattle.config_settle.specs.Texts.{is_text, are_texts};
ghost use Rattle.cli_jobs.specs.Answers.{Finds};
ghost use Rattle.cli_jobs.specs.Built as spec;

use crate::refusal::Refusal;
use crate::refused::{fetched_key, not_built, pair_section, storage_section};
use config_model::{ConflictRule, PairConf, Param, ParamValue, StorageConf, StorageKind};
use std::alloc::{AllocError, Global};
use values::Text;

/// Refuses a key where something is so.
fn check_not(alloc: Global, is_so: bool, section: &str, key: &str) -> Result<(), Refusal>
    ensures { Finds (spec.unbuilt_if is_so section.now key.now) result }
{
    if is_so {
        Err(not_built(alloc, section, key)?)
    } else {
        Ok(())
    }
}

fn has_collections(pair: &PairConf) -> bool
    ensures { result ≡ spec.has_collections pair.now.collections }
{
    match &pair.collections {
        None => false,
        Some(_) => true,
    }
}

fn is_command(rule: ConflictRule) -> bool
    ensures { result ≡ spec.is_command rule }
{
    match rule {
        ConflictRule::Null => false,
        ConflictRule::AWins => false,
        ConflictRule::BWins => false,
        ConflictRule::Command => true,
    }
}

/// Refuses kept collections, then a command that decides conflicts.
#[tactic(auto, unfolding(crate::specs::Built::unbuilt_pair))]
pub(crate) fn check_pair(alloc: Global, pair: &PairConf) -> Result<(), Refusal>
    ensures { Finds (spec.unbuilt_pair pair.now) result }
{
    let section = pair_section(alloc, pair.name.as_str())?;
    match check_not(
        alloc,
        has_collections(pair),
        section.as_str(),
        "collections",
    ) {
        Ok(()) => check_not(
            alloc,
            is_command(pair.conflict),
            section.as_str(),
            "conflict_resolution",
        ),
        Err(refusal) => Err(refusal),
    }
}

fn is_other_kind(kind: StorageKind) -> bool
    ensures { result ≡ spec.is_other_kind kind }
{
    match kind {
        StorageKind::Filesystem => false,
        StorageKind::Singlefile => true,
        StorageKind::Caldav => true,
        StorageKind::Carddav => true,
    }
}

fn has_key(key: &str, params: &[Param]) -> bool
    ensures { result ≡ spec.has_key key.now params.now }
{
    params.iter().any(|param| param.key.as_str() == key)
}

fn check_key(alloc: Global, section: &str, key: &str, params: &[Param]) -> Result<(), Refusal>
    ensures { Finds (spec.unbuilt_key section.now key.now params.now) result }
{
    check_not(alloc, has_key(key, params), section, key)
}

fn check_in(
    alloc: Global,
    section: &str,
    kind: StorageKind,
    read_only: bool,
    params: &[Param],
) -> Result<(), Refusal>
    ensures { Finds (spec.unbuilt_in section.now kind read_only params.now) result }
{
    check_not(alloc, is_other_kind(kind), section, "type")?;
    check_not(alloc, read_only, section, "read_only")?;
    check_key(alloc, section, "post_hook", params)?;
    check_key(alloc, section, "pre_deletion_hook", params)
}

/// Refuses another type than a folder, then a storage that is read-only, then hooks.
#[tactic(auto, unfolding(crate::specs::Built::unbuilt_storage))]
pub(crate) fn check_storage(alloc: Global, storage: &StorageConf) -> Result<(), Refusal>
    ensures { Finds (spec.unbuilt_storage storage.now) result }
{
    let section = storage_section(alloc, storage.name.as_str())?;
    check_in(
        alloc,
        section.as_str(),
        storage.kind,
        storage.read_only,
        storage.params.as_slice(),
    )
}

fn is_text(value: &ParamValue) -> bool
    ensures { result ≡ is_text value.now }
{
    match value {
        ParamValue::Text(_) => true,
        ParamValue::Fetch(_) => false,
    }
}

/// Whether nothing is left to fetch.
pub(crate) fn are_texts(params: &[Param]) -> bool
    ensures { result ≡ are_texts params.now }
{
    params.iter().all(|param| is_text(&param.value))
}

fn first_fetched(params: &[Param]) -> Option<&Param>
    ensures { option_copied result ≡ find (λ p. not (is_text p.value)) params.now }
{
    params.iter().find(|param| !is_text(&param.value))
}

fn key_of_fetched(alloc: Global, params: &[Param]) -> Result<Text, AllocError>
    ensures { IfOk result (λ key. key ≡ spec.fetched_key params.now) }
{
    match first_fetched(params) {
        Some(param) => fetched_key(alloc, param.key.as_str()),
        None => Text::copy_of(alloc, ""),
    }
}

/// The refusal of the first key whose text is fetched.
pub(crate) fn fetch_not_built(alloc: Global, storage: &StorageConf) -> Result<Refusal, AllocError>
    ensures { IfOk result (λ r. r ≡ Refusal.NotBuilt (spec.storage_section storage.now.name) (spec.fetched_key storage.now.params)) }
{
    let section = storage_section(alloc, storage.name.as_str())?;
    let key = key_of_fetched(alloc, storage.params.as_slice())?;
    not_built(alloc, section.as_str(), key.as_str())
}
