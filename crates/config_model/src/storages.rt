//! A section of a storage.

ghost use Rattle.std.specs.Prelude.{◌≡◌, ◌++◌, IfOk};
ghost use Rattle.config_ini.specs.Answers.{Gives};
ghost use Rattle.config_model.specs.Storages as spec;

use crate::config::{Param, ParamValue, StorageConf};
use crate::fields::Place;
use crate::keys::{allowed, find_refused, key_at, missing, needed_kind, optional_truth};
use crate::meanings::{fetch_in, text_in};
use crate::storage_kind::StorageKind;
use config_ini::{ConfigError, Entry, Setting};
use std::alloc::{AllocError, Global};
use values::{Sequence, Text};

fn fetched(alloc: Global, value: &Setting) -> Result<Option<ParamValue>, AllocError>
    ensures { IfOk result (λ found. found ≡ spec.fetched value.now) }
{
    match fetch_in(alloc, value)? {
        Some(words) => Ok(Some(ParamValue::Fetch(words))),
        None => Ok(None),
    }
}

fn written(alloc: Global, value: &Setting) -> Result<Option<ParamValue>, AllocError>
    ensures { IfOk result (λ found. found ≡ spec.written value.now) }
{
    match text_in(value) {
        Some(text) => Ok(Some(ParamValue::Text(Text::copy_of(alloc, text)?))),
        None => Ok(None),
    }
}

/// A text, or how it is fetched.
fn value_in(
    alloc: Global,
    is_fetched: bool,
    value: &Setting,
) -> Result<Option<ParamValue>, AllocError>
    ensures { IfOk result (λ found. found ≡ spec.value_in is_fetched value.now) }
{
    if is_fetched {
        fetched(alloc, value)
    } else {
        written(alloc, value)
    }
}

fn param_of(alloc: Global, name: &str, entry: &Entry) -> Result<Sequence<Param>, ConfigError>
    ensures { Gives (spec.param_of name.now entry.now) result }
{
    let found = value_in(alloc, entry.key.is_fetched, &entry.value)?;
    let value = allowed(entry.number, found)?;
    let key = Text::copy_of(alloc, name)?;
    let mut params = Sequence::new(alloc);
    params.push(Param { key, value })?;
    Ok(params)
}

/// The parameter of a key that the storage must have.
#[tactic(auto, unfolding(crate::specs::Storages::needed_param))]
fn needed_param(
    alloc: Global,
    section: &str,
    name: &str,
    entries: &[Entry],
) -> Result<Sequence<Param>, ConfigError>
    ensures { Gives (spec.needed_param section.now name.now entries.now) result }
{
    match key_at(name, entries) {
        Some(entry) => param_of(alloc, name, entry),
        None => Err(missing(alloc, section, name)?),
    }
}

/// The parameter of a key that the storage may have.
#[tactic(auto, unfolding(crate::specs::Storages::optional_param))]
fn optional_param(
    alloc: Global,
    name: &str,
    entries: &[Entry],
) -> Result<Sequence<Param>, ConfigError>
    ensures { Gives (spec.optional_param name.now entries.now) result }
{
    match key_at(name, entries) {
        Some(entry) => param_of(alloc, name, entry),
        None => Ok(Sequence::new(alloc)),
    }
}

#[tactic(auto, unfolding(crate::specs::Storages::vdir_params))]
fn vdir_params(
    alloc: Global,
    section: &str,
    entries: &[Entry],
) -> Result<Sequence<Param>, ConfigError>
    ensures { Gives (spec.vdir_params section.now entries.now) result }
{
    let mut params = needed_param(alloc, section, "path", entries)?;
    params.append(needed_param(alloc, section, "fileext", entries)?)?;
    params.append(optional_param(alloc, "encoding", entries)?)?;
    params.append(optional_param(alloc, "post_hook", entries)?)?;
    params.append(optional_param(alloc, "pre_deletion_hook", entries)?)?;
    Ok(params)
}

#[tactic(auto, unfolding(crate::specs::Storages::single_params))]
fn single_params(
    alloc: Global,
    section: &str,
    entries: &[Entry],
) -> Result<Sequence<Param>, ConfigError>
    ensures { Gives (spec.single_params section.now entries.now) result }
{
    let mut params = needed_param(alloc, section, "path", entries)?;
    params.append(optional_param(alloc, "encoding", entries)?)?;
    Ok(params)
}

#[tactic(auto, unfolding(crate::specs::Storages::dav_params))]
fn dav_params(
    alloc: Global,
    section: &str,
    entries: &[Entry],
) -> Result<Sequence<Param>, ConfigError>
    ensures { Gives (spec.dav_params section.now entries.now) result }
{
    let mut params = needed_param(alloc, section, "url", entries)?;
    params.append(optional_param(alloc, "username", entries)?)?;
    params.append(optional_param(alloc, "password", entries)?)?;
    params.append(optional_param(alloc, "useragent", entries)?)?;
    params.append(optional_param(alloc, "auth", entries)?)?;
    Ok(params)
}

/// The texts of a storage, in the order of the keys of its kind.
fn params_of(
    alloc: Global,
    kind: StorageKind,
    section: &str,
    entries: &[Entry],
) -> Result<Sequence<Param>, ConfigError>
    ensures { Gives (spec.params_of kind section.now entries.now) result }
{
    match kind {
        StorageKind::Filesystem => vdir_params(alloc, section, entries),
        StorageKind::Singlefile => single_params(alloc, section, entries),
        StorageKind::Caldav => dav_params(alloc, section, entries),
        StorageKind::Carddav => dav_params(alloc, section, entries),
    }
}

#[tactic(auto, unfolding(crate::specs::Storages::storage_values))]
fn storage_values(
    alloc: Global,
    kind: StorageKind,
    section: &str,
    name: &str,
    entries: &[Entry],
) -> Result<StorageConf, ConfigError>
    ensures { Gives (spec.storage_values kind section.now name.now entries.now) result }
{
    let read_only = optional_truth("read_only", entries)?;
    let params = params_of(alloc, kind, section, entries)?;
    Ok(StorageConf {
        name: Text::copy_of(alloc, name)?,
        kind,
        read_only,
        params,
    })
}

/// The storage of a section. Its kind tells which keys there are, so it is looked at first.
#[tactic(auto, unfolding(crate::specs::Storages::storage_of))]
pub(crate) fn storage_of(
    alloc: Global,
    section: &str,
    name: &str,
    entries: &[Entry],
) -> Result<StorageConf, ConfigError>
    ensures { Gives (spec.storage_of section.now name.now entries.now) result }
{
    let kind = needed_kind(alloc, section, "type", entries)?;
    match find_refused(alloc, section, Place::Storage(kind), entries) {
        Ok(()) => storage_values(alloc, kind, section, name, entries),
        Err(error) => Err(error),
    }
}
