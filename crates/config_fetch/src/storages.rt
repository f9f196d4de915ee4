//! Fetches the texts of the storages that are used.

ghost use Rattle.std.specs.Prelude.{◌≡◌, ◌++◌, codes, IfOk};
ghost use Rattle.cli_jobs.specs.Built.{storage_section};
ghost use Rattle.config_fetch.specs.Fetches.{FetchedBy, FetchedConfig, FetchedStorage, FetchesAll, StorageStep, devices};

use crate::copies::copy_storage;
use crate::params::fetch_params;
use children::Spawner;
use cli_jobs::{Refusal, is_to_fetch};
use cli_words::Name;
use config_model::{Config, PairConf, StorageConf};
use outside::{Sink, Source};
use std::alloc::{AllocError, Global};
use values::{Sequence, Text};

fn section_of(alloc: Global, name: &str) -> Result<Text, AllocError>
    ensures { IfOk result (λ section. section ≡ storage_section name.now) }
{
    let mut section = String::from_str(alloc, "storage ")?;
    section.push_str(name)?;
    Ok(Text::of(section))
}

/// A storage with its texts fetched.
fn fetch_storage<C: Spawner, I: Source, E: Sink>(
    alloc: Global,
    storage: &StorageConf,
    child: &mut C,
    input: &mut I,
    err: &mut E,
) -> Result<StorageConf, Refusal>
    ensures { FetchedStorage (FetchedBy C.count C.tells C.state I.count I.tells I.left E.count E.tells E.held) (devices child.old input.old err.old) (devices child.new input.new err.new) storage.now result }
{
    let name = match Text::copy_of(alloc, storage.name.as_str()) {
        Ok(name) => name,
        Err(_) => return Err(Refusal::NoMemory),
    };
    let section = match section_of(alloc, storage.name.as_str()) {
        Ok(section) => section,
        Err(_) => return Err(Refusal::NoMemory),
    };
    match fetch_params(
        alloc,
        section.as_str(),
        storage.params.as_slice(),
        child,
        input,
        err,
    ) {
        Ok(params) => Ok(StorageConf {
            name,
            kind: storage.kind,
            read_only: storage.read_only,
            params,
        }),
        Err(refusal) => Err(refusal),
    }
}

/// A storage with its texts fetched, where a chosen pair is of it.
fn fetch_used<C: Spawner, I: Source, E: Sink>(
    alloc: Global,
    names: &[Name],
    pairs: &[PairConf],
    storage: &StorageConf,
    child: &mut C,
    input: &mut I,
    err: &mut E,
) -> Result<StorageConf, Refusal>
    ensures { StorageStep (FetchedBy C.count C.tells C.state I.count I.tells I.left E.count E.tells E.held) names.now pairs.now (devices child.old input.old err.old) (devices child.new input.new err.new) storage.now result }
{
    if is_to_fetch(names, pairs, storage) {
        return fetch_storage(alloc, storage, child, input, err);
    }
    match copy_storage(alloc, storage) {
        Ok(storage) => Ok(storage),
        Err(_) => Err(Refusal::NoMemory),
    }
}

/// The storages in their order.
fn fetch_all<C: Spawner, I: Source, E: Sink>(
    alloc: Global,
    names: &[Name],
    pairs: &[PairConf],
    storages: &[StorageConf],
    child: &mut C,
    input: &mut I,
    err: &mut E,
) -> Result<Sequence<StorageConf>, Refusal>
    ensures { FetchesAll (FetchedBy C.count C.tells C.state I.count I.tells I.left E.count E.tells E.held) names.now pairs.now (devices child.old input.old err.old) (devices child.new input.new err.new) storages.now result }
{
    let mut filled = match Vec::with_capacity(alloc, storages.len()) {
        Ok(filled) => filled,
        Err(_) => return Err(Refusal::NoMemory),
    };
    for storage in storages {
        match fetch_used(alloc, names, pairs, storage, child, input, err) {
            Ok(storage) => filled.push(storage).unwrap(),
            Err(refusal) => return Err(refusal),
        }
    }
    Ok(Sequence::of(filled))
}

/// Fetches the texts of a configuration: those of the storages that the chosen pairs are of, storage by storage in the
/// order of the configuration and each once, and in a storage in the order of its keys. Each comes to stand in the place
/// of its way. Nothing is fetched behind one that can't be.
///
/// `NotFetched`: the text of this key can't be fetched. `NoMemory`: memory ran out, and what was fetched is lost.
pub fn fetch_texts<C: Spawner, I: Source, E: Sink>(
    alloc: Global,
    names: &[Name],
    config: Config,
    child: &mut C,
    input: &mut I,
    err: &mut E,
) -> Result<Config, Refusal>
    ensures { FetchedConfig (FetchedBy C.count C.tells C.state I.count I.tells I.left E.count E.tells E.held) names.now (devices child.old input.old err.old) (devices child.new input.new err.new) config result }
{
    let Config {
        status_path,
        pairs,
        storages,
    } = config;
    match fetch_all(
        alloc,
        names,
        pairs.as_slice(),
        storages.as_slice(),
        child,
        input,
        err,
    ) {
        Ok(storages) => Ok(Config {
            status_path,
            pairs,
            storages,
        }),
        Err(refusal) => Err(refusal),
    }
}
