//! The jobs that a configuration comes to.

ghost use Rattle.std.specs.Prelude.{◌≡◌, ◌≢◌, ◌++◌, [], true, false, codes, string_bytes, Ok, Err, IfOk, OnOk, MatchResult};
ghost use Rattle.std.specs.Option.{option_copied};
ghost use Rattle.std.specs.List.{find, cons_option};
ghost use Rattle.std.specs.Str.{bytes_eq};
ghost use Rattle.config_ini.specs.declared.error.ConfigError.TheVariants.{NoStorage};
ghost use Rattle.config_model.specs.Reading.{config_of};
ghost use Rattle.config_settle.specs.Settling.{settled_of, status_of};
ghost use Rattle.config_settle.specs.Texts.{are_texts};
ghost use Rattle.cli_jobs.specs.declared.refusal.Refusal.TheVariants.{NoMemory};
ghost use Rattle.cli_jobs.specs.Answers.{Comes, lifted};
ghost use Rattle.cli_jobs.specs.Built.{storage_section};
ghost use Rattle.cli_jobs.specs.Jobs as spec;

use crate::built::{are_texts, check_pair, check_storage, fetch_not_built};
use crate::job::{SyncJob, Vdir};
use crate::names::{check_names, is_chosen};
use crate::refusal::Refusal;
use crate::refused::{not_built, storage_section, unusable};
use crate::rules::rules_of;
use cli_words::Name;
use config_ini::ConfigError;
use config_model::{Config, PairConf, StorageConf, read_config};
use config_settle::{Settled, normalised, settle, settle_status};
use std::alloc::{AllocError, Global};
use values::{Sequence, Text};

/// The configuration that the bytes of its file are.
pub fn config_of(alloc: Global, bytes: &[u8]) -> Result<Config, Refusal>
    ensures { Comes (lifted (config_of bytes.now)) result }
{
    match read_config(alloc, bytes) {
        Ok(config) => Ok(config),
        Err(error) => Err(unusable(error)),
    }
}

pub(crate) fn status_of(alloc: Global, path: &str, home: Option<&str>) -> Result<Text, Refusal>
    ensures { Comes (lifted (status_of path.now (option_copied home.entry))) result }
{
    match settle_status(alloc, path, home) {
        Ok(status) => Ok(status),
        Err(error) => Err(unusable(error)),
    }
}

fn settled(alloc: Global, storage: &StorageConf, home: Option<&str>) -> Result<Settled, Refusal>
    requires { are_texts storage.now.params ≡ true }
    ensures { Comes (lifted (settled_of storage.now (option_copied home.entry) false)) result }
{
    match settle(alloc, storage, home, false) {
        Ok(settled) => Ok(settled),
        Err(error) => Err(unusable(error)),
    }
}

/// What a storage's texts come to, where none of them is left to fetch.
#[tactic(auto, unfolding(crate::specs::Jobs::settled_texts))]
pub(crate) fn settled_texts(
    alloc: Global,
    home: Option<&str>,
    storage: &StorageConf,
) -> Result<Option<Settled>, Refusal>
    ensures { Comes (spec.settled_texts (option_copied home.entry) storage.now) result }
{
    if !are_texts(storage.params.as_slice()) {
        return Ok(None);
    }
    match settled(alloc, storage, home) {
        Ok(settled) => Ok(Some(settled)),
        Err(refusal) => Err(refusal),
    }
}

/// Folders alone are built.
fn folder_by(alloc: Global, name: &str, settled: Settled) -> Result<Vdir, Refusal>
    ensures { Comes (spec.folder_by (storage_section name.now) settled) result }
{
    match settled {
        Settled::Vdir { path, ending, .. } => Ok(Vdir { path, ending }),
        Settled::Single { .. } => Err(other_kind(alloc, name)?),
        Settled::Dav { .. } => Err(other_kind(alloc, name)?),
    }
}

fn other_kind(alloc: Global, name: &str) -> Result<Refusal, AllocError>
    ensures { IfOk result (λ r. r ≡ Refusal.NotBuilt (storage_section name.now) (codes "type")) }
{
    let section = storage_section(alloc, name)?;
    not_built(alloc, section.as_str(), "type")
}

/// The folder of a storage, of whose texts some may be left to fetch.
fn folder_in(
    alloc: Global,
    storage: &StorageConf,
    settled: Option<Settled>,
) -> Result<Vdir, Refusal>
    ensures { Comes (spec.folder_in storage.now settled) result }
{
    match settled {
        Some(settled) => folder_by(alloc, storage.name.as_str(), settled),
        None => Err(fetch_not_built(alloc, storage)?),
    }
}

fn status_path(alloc: Global, status: &str, pair: &str) -> Result<String, AllocError>
    ensures { IfOk result (λ t. string_bytes t ≡ status.now ++ codes "/" ++ pair.now ++ codes "/.null") }
{
    let mut path = String::from_str(alloc, status)?;
    path.push_str("/")?;
    path.push_str(pair)?;
    path.push_str("/.null")?;
    Ok(path)
}

/// Where the status of a pair is kept.
#[tactic(auto, unfolding(crate::specs::Jobs::status_place))]
fn status_place(alloc: Global, status: &str, pair: &str) -> Result<Text, AllocError>
    ensures { IfOk result (λ place. place ≡ spec.status_place status.now pair.now) }
{
    let path = status_path(alloc, status, pair)?;
    normalised(alloc, path.as_str())
}

fn job_over(
    alloc: Global,
    status: &str,
    pair: &PairConf,
    a: Vdir,
    b: Vdir,
) -> Result<SyncJob, AllocError>
    ensures { IfOk result (λ job. job ≡ spec.job_over status.now pair.now a b) }
{
    let name = pair.name.as_str();
    Ok(SyncJob {
        pair: Text::copy_of(alloc, name)?,
        a: a.path,
        b: b.path,
        status: status_place(alloc, status, name)?,
        ending_a: a.ending,
        ending_b: b.ending,
        rules: rules_of(pair),
    })
}

/// The job over two storages: of each its texts come first, and then what isn't built.
#[tactic(auto, unfolding(crate::specs::Jobs::built_job))]
fn built_job(
    alloc: Global,
    home: Option<&str>,
    status: &str,
    pair: &PairConf,
    a: &StorageConf,
    b: &StorageConf,
) -> Result<SyncJob, Refusal>
    ensures { Comes (spec.built_job (option_copied home.entry) status.now pair.now a.now b.now) result }
{
    check_pair(alloc, pair)?;
    let texts_a = settled_texts(alloc, home, a)?;
    let texts_b = settled_texts(alloc, home, b)?;
    check_storage(alloc, a)?;
    check_storage(alloc, b)?;
    let folder_a = folder_in(alloc, a, texts_a)?;
    let folder_b = folder_in(alloc, b, texts_b)?;
    Ok(job_over(alloc, status, pair, folder_a, folder_b)?)
}

fn found_at<'a>(storages: &'a [StorageConf], name: &str) -> Option<&'a StorageConf>
    ensures { option_copied result ≡ find (λ s. bytes_eq s.name name.now) storages.now }
{
    storages
        .iter()
        .find(|storage| storage.name.as_str() == name)
}

fn no_storage(alloc: Global, pair: &Text, name: &Text) -> Result<Refusal, AllocError>
    ensures { IfOk result (λ r. r ≡ Refusal.Unusable (NoStorage pair.now name.now)) }
{
    let pair = Text::copy_of(alloc, pair.as_str())?;
    let name = Text::copy_of(alloc, name.as_str())?;
    Ok(Refusal::Unusable(ConfigError::NoStorage { pair, name }))
}

/// The storage of this name.
#[tactic(auto, unfolding(crate::specs::Jobs::storage_at))]
pub(crate) fn storage_at<'a>(
    alloc: Global,
    storages: &'a [StorageConf],
    pair: &Text,
    name: &Text,
) -> Result<&'a StorageConf, Refusal>
    ensures { MatchResult result (λ s. spec.storage_at storages.now pair.now name.now ≡ Ok s.now) (λ r. r ≢ NoMemory → spec.storage_at storages.now pair.now name.now ≡ Err r) }
{
    match found_at(storages, name.as_str()) {
        Some(storage) => Ok(storage),
        None => Err(no_storage(alloc, pair, name)?),
    }
}

#[tactic(auto, unfolding(crate::specs::Jobs::pair_job))]
fn pair_job(
    alloc: Global,
    home: Option<&str>,
    storages: &[StorageConf],
    status: &str,
    pair: &PairConf,
) -> Result<SyncJob, Refusal>
    ensures { Comes (spec.pair_job (option_copied home.entry) storages.now status.now pair.now) result }
{
    let a = match storage_at(alloc, storages, &pair.name, &pair.a) {
        Ok(storage) => storage,
        Err(refusal) => return Err(refusal),
    };
    let b = match storage_at(alloc, storages, &pair.name, &pair.b) {
        Ok(storage) => storage,
        Err(refusal) => return Err(refusal),
    };
    built_job(alloc, home, status, pair, a, b)
}

/// The job of a pair, where the names choose it.
#[tactic(auto, unfolding(crate::specs::Jobs::job_if))]
fn job_if(
    alloc: Global,
    names: &[Name],
    home: Option<&str>,
    storages: &[StorageConf],
    status: &str,
    pair: &PairConf,
) -> Result<Option<SyncJob>, Refusal>
    ensures { Comes (spec.job_if names.now (option_copied home.entry) storages.now status.now pair.now) result }
{
    if !is_chosen(names, pair) {
        return Ok(None);
    }
    match pair_job(alloc, home, storages, status, pair) {
        Ok(job) => Ok(Some(job)),
        Err(refusal) => Err(refusal),
    }
}

fn add(jobs: &mut Sequence<SyncJob>, job: Option<SyncJob>) -> Result<(), AllocError>
    ensures { OnOk result (jobs.new ≡ jobs.old ++ cons_option job []) }
{
    match job {
        Some(job) => jobs.push(job),
        None => Ok(()),
    }
}

/// The jobs of the pairs that the names choose, in the order of the pairs.
#[tactic(auto, unfolding(crate::specs::Jobs::jobs_over))]
fn jobs_over(
    alloc: Global,
    names: &[Name],
    home: Option<&str>,
    storages: &[StorageConf],
    status: &str,
    pairs: &[PairConf],
) -> Result<Sequence<SyncJob>, Refusal>
    ensures { Comes (spec.jobs_over names.now (option_copied home.entry) storages.now status.now pairs.now) result }
{
    let mut jobs = Sequence::new(alloc);
    for pair in pairs {
        match job_if(alloc, names, home, storages, status, pair) {
            Ok(job) => add(&mut jobs, job)?,
            Err(refusal) => return Err(refusal),
        }
    }
    Ok(jobs)
}

/// The jobs that a configuration comes to, for the pairs that the names choose, in the order of the configuration; none
/// where no pair is chosen. Refused in this order: the status path, a name that names nothing; then pair by pair what
/// isn't built of the pair, what the texts of its storages are refused for, and what isn't built of these.
#[tactic(auto, unfolding(crate::specs::Jobs::chosen_jobs))]
pub fn chosen_jobs(
    alloc: Global,
    names: &[Name],
    home: Option<&str>,
    config: &Config,
) -> Result<Sequence<SyncJob>, Refusal>
    ensures { Comes (spec.chosen_jobs names.now (option_copied home.entry) config.now) result }
{
    let status = status_of(alloc, config.status_path.as_str(), home)?;
    let pairs = config.pairs.as_slice();
    check_names(alloc, pairs, names)?;
    jobs_over(
        alloc,
        names,
        home,
        config.storages.as_slice(),
        status.as_str(),
        pairs,
    )
}
