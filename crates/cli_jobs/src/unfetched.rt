//! Texts that are to be fetched, and what is refused before any is.

ghost use Rattle.std.specs.Prelude.{◌≡◌, ◌&&◌};
ghost use Rattle.std.specs.List.{list_any};
ghost use Rattle.std.specs.Option.{option_copied};
ghost use Rattle.config_settle.specs.Settling as settling;
ghost use Rattle.cli_jobs.specs.Answers.{Finds, lifted};
ghost use Rattle.cli_jobs.specs.Jobs as jobs;
ghost use Rattle.cli_jobs.specs.Names as named;
ghost use Rattle.cli_jobs.specs.Unfetched as spec;

use crate::built::{are_texts, check_pair, check_storage};
use crate::jobs::{settled_texts, status_of, storage_at};
use crate::names::{check_names, is_chosen};
use crate::refusal::Refusal;
use cli_words::Name;
use config_model::{Config, PairConf, StorageConf};
use std::alloc::Global;

fn has_side(storage: &str, pair: &PairConf) -> bool
    ensures { result ≡ spec.has_side storage.now pair.now }
{
    pair.a.as_str() == storage || pair.b.as_str() == storage
}

fn is_used(names: &[Name], pairs: &[PairConf], storage: &str) -> bool
    ensures { result ≡ list_any (λ p. spec.has_side storage.now p && named.is_chosen names.now p) pairs.now }
{
    pairs
        .iter()
        .any(|pair| has_side(storage, pair) && is_chosen(names, pair))
}

/// Whether a chosen pair is of this storage, and it has texts to fetch.
#[tactic(auto, unfolding(crate::specs::Unfetched::is_to_fetch))]
pub fn is_to_fetch(names: &[Name], pairs: &[PairConf], storage: &StorageConf) -> bool
    ensures { result ≡ spec.is_to_fetch names.now pairs.now storage.now }
{
    !are_texts(storage.params.as_slice()) && is_used(names, pairs, storage.name.as_str())
}

/// Whether a storage of a chosen pair has texts to fetch.
#[tactic(auto, unfolding(crate::specs::Unfetched::has_fetches))]
pub fn has_fetches(names: &[Name], config: &Config) -> bool
    ensures { result ≡ spec.has_fetches names.now config.now }
{
    let pairs = config.pairs.as_slice();
    config
        .storages
        .as_slice()
        .iter()
        .any(|storage| is_to_fetch(names, pairs, storage))
}

fn check_texts(alloc: Global, home: Option<&str>, storage: &StorageConf) -> Result<(), Refusal>
    ensures { Finds (spec.refusal_in (jobs.settled_texts (option_copied home.entry) storage.now)) result }
{
    match settled_texts(alloc, home, storage) {
        Ok(_) => Ok(()),
        Err(refusal) => Err(refusal),
    }
}

#[tactic(auto, unfolding(crate::specs::Unfetched::unready_job))]
fn check_job(
    alloc: Global,
    home: Option<&str>,
    pair: &PairConf,
    a: &StorageConf,
    b: &StorageConf,
) -> Result<(), Refusal>
    ensures { Finds (spec.unready_job (option_copied home.entry) pair.now a.now b.now) result }
{
    check_pair(alloc, pair)?;
    check_texts(alloc, home, a)?;
    check_texts(alloc, home, b)?;
    check_storage(alloc, a)?;
    check_storage(alloc, b)
}

fn check_sides(
    alloc: Global,
    home: Option<&str>,
    storages: &[StorageConf],
    pair: &PairConf,
) -> Result<(), Refusal>
    ensures { Finds (spec.unready_by (option_copied home.entry) pair.now (jobs.storage_at storages.now pair.now.name pair.now.a) (jobs.storage_at storages.now pair.now.name pair.now.b)) result }
{
    let a = match storage_at(alloc, storages, &pair.name, &pair.a) {
        Ok(storage) => storage,
        Err(refusal) => return Err(refusal),
    };
    let b = match storage_at(alloc, storages, &pair.name, &pair.b) {
        Ok(storage) => storage,
        Err(refusal) => return Err(refusal),
    };
    check_job(alloc, home, pair, a, b)
}

#[tactic(auto, unfolding(crate::specs::Unfetched::unready_pair))]
fn check_chosen(
    alloc: Global,
    names: &[Name],
    home: Option<&str>,
    storages: &[StorageConf],
    pair: &PairConf,
) -> Result<(), Refusal>
    ensures { Finds (spec.unready_pair names.now (option_copied home.entry) storages.now pair.now) result }
{
    if !is_chosen(names, pair) {
        return Ok(());
    }
    check_sides(alloc, home, storages, pair)
}

#[tactic(auto, unfolding(crate::specs::Unfetched::first_unready))]
fn check_pairs(
    alloc: Global,
    names: &[Name],
    home: Option<&str>,
    storages: &[StorageConf],
    pairs: &[PairConf],
) -> Result<(), Refusal>
    ensures { Finds (spec.first_unready names.now (option_copied home.entry) storages.now pairs.now) result }
{
    let mut left = pairs;
    while let [pair, rest @ ..] = left {
        match check_chosen(alloc, names, home, storages, pair) {
            Ok(()) => left = rest,
            Err(refusal) => return Err(refusal),
        }
    }
    Ok(())
}

fn check_status(alloc: Global, path: &str, home: Option<&str>) -> Result<(), Refusal>
    ensures { Finds (spec.refusal_in (lifted (settling.status_of path.now (option_copied home.entry)))) result }
{
    match status_of(alloc, path, home) {
        Ok(_) => Ok(()),
        Err(refusal) => Err(refusal),
    }
}

/// Refuses what can be refused before a text is fetched: a status path, a name that names nothing, and then pair by
/// pair what isn't built of the pair, what is refused of the texts of its storages that have none to fetch, and what
/// isn't built of these.
#[tactic(auto, unfolding(crate::specs::Unfetched::unready))]
pub fn check_unfetched(
    alloc: Global,
    names: &[Name],
    home: Option<&str>,
    config: &Config,
) -> Result<(), Refusal>
    ensures { Finds (spec.unready names.now (option_copied home.entry) config.now) result }
{
    let pairs = config.pairs.as_slice();
    check_status(alloc, config.status_path.as_str(), home)?;
    check_names(alloc, pairs, names)?;
    check_pairs(alloc, names, home, config.storages.as_slice(), pairs)
}
