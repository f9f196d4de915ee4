//! The keys of one section: what is refused of them, and what their values are.

ghost use Rattle.std.specs.Prelude.{◌≡◌, ◌≢◌, false, not, Some, None, IfOk, MatchResult};
ghost use Rattle.std.specs.List.{find};
ghost use Rattle.std.specs.Option.{is_some, option_copied};
ghost use Rattle.std.specs.Str.{bytes_eq};
ghost use Rattle.config_ini.specs.declared.error.ConfigError.TheVariants.{NoMemory};
ghost use Rattle.config_ini.specs.Answers.{Gives};
ghost use Rattle.config_model.specs.declared.rules.Partial.TheVariants.{Revert};
ghost use Rattle.config_model.specs.Meanings as meaning;
ghost use Rattle.config_model.specs.Keys as spec;

use crate::fields::{Field, Place, field_of};
use crate::meanings::{collections_in, fetch_in, kind_in, text_in, truth_in};
use crate::pair_rules::{Conflict, conflict_in, metadata_in, no_rule, partial_in};
use crate::rules::{MetaKey, Partial};
use crate::storage_kind::StorageKind;
use crate::wanted::Wanted;
use config_ini::{ConfigError, Entry, Key, Setting};
use std::alloc::{AllocError, Global};
use values::{Sequence, Text};

/// The ending of a key whose value says how to fetch the text.
const FETCH: &str = ".fetch";

/// A key as it is written, in lower case.
fn written_name(alloc: Global, key: &Key) -> Result<Text, AllocError>
    ensures { IfOk result (λ name. name ≡ spec.written_name key.now) }
{
    if key.is_fetched {
        let mut name = String::from_str(alloc, key.name.as_str())?;
        name.push_str(FETCH)?;
        Ok(Text::of(name))
    } else {
        Text::copy_of(alloc, key.name.as_str())
    }
}

fn is_known(place: Place, entry: &Entry) -> bool
    ensures { result ≡ spec.is_known place entry.now }
{
    field_of(place, &entry.key).is_some()
}

fn first_unknown(place: Place, entries: &[Entry]) -> Option<&Entry>
    ensures { option_copied result ≡ find (λ e. not (spec.is_known place e)) entries.now }
{
    entries.iter().find(|entry| !is_known(place, entry))
}

/// Whether a value that isn't fetched is one that the key may have.
fn may_be(alloc: Global, field: Field, value: &Setting) -> Result<bool, AllocError>
    ensures { IfOk result (λ may. may ≡ spec.may_be field value.now) }
{
    match field {
        Field::Collections => Ok(collections_in(alloc, value)?.is_some()),
        Field::ConflictResolution => Ok(conflict_in(alloc, value)?.is_some()),
        Field::PartialSync => Ok(partial_in(value).is_some()),
        Field::Metadata => Ok(metadata_in(alloc, value)?.is_some()),
        Field::Type => Ok(kind_in(value).is_some()),
        Field::ReadOnly => Ok(truth_in(value).is_some()),
        Field::StatusPath => Ok(text_in(value).is_some()),
        Field::A => Ok(text_in(value).is_some()),
        Field::B => Ok(text_in(value).is_some()),
        Field::Path => Ok(text_in(value).is_some()),
        Field::Fileext => Ok(text_in(value).is_some()),
        Field::Encoding => Ok(text_in(value).is_some()),
        Field::PostHook => Ok(text_in(value).is_some()),
        Field::PreDeletionHook => Ok(text_in(value).is_some()),
        Field::Url => Ok(text_in(value).is_some()),
        Field::Username => Ok(text_in(value).is_some()),
        Field::Password => Ok(text_in(value).is_some()),
        Field::Useragent => Ok(text_in(value).is_some()),
        Field::Auth => Ok(text_in(value).is_some()),
    }
}

/// Whether the value of a key is one that it may have, where the key is known.
fn is_allowed(alloc: Global, place: Place, entry: &Entry) -> Result<bool, AllocError>
    ensures { IfOk result (λ allowed. allowed ≡ spec.is_allowed place entry.now) }
{
    match field_of(place, &entry.key) {
        None => Ok(true),
        Some(field) => {
            if entry.key.is_fetched {
                Ok(fetch_in(alloc, &entry.value)?.is_some())
            } else {
                may_be(alloc, field, &entry.value)
            }
        }
    }
}

/// Finds the first key whose value isn't allowed.
fn find_bad(alloc: Global, place: Place, entries: &[Entry]) -> Result<(), ConfigError>
    ensures { MatchResult result (λ _. spec.bad_in place entries.now ≡ None) (λ e. e ≢ NoMemory → spec.bad_in place entries.now ≡ Some e) }
{
    for entry in entries {
        if !is_allowed(alloc, place, entry)? {
            return Err(ConfigError::BadValue(entry.number));
        }
    }
    Ok(())
}

/// Finds the first key that is unknown, or else the first whose value isn't allowed.
#[tactic(auto, unfolding(crate::specs::Keys::refused_in))]
pub(crate) fn find_refused(
    alloc: Global,
    section: &str,
    place: Place,
    entries: &[Entry],
) -> Result<(), ConfigError>
    ensures { MatchResult result (λ _. spec.refused_in section.now place entries.now ≡ None) (λ e. e ≢ NoMemory → spec.refused_in section.now place entries.now ≡ Some e) }
{
    match first_unknown(place, entries) {
        Some(entry) => {
            let key = written_name(alloc, &entry.key)?;
            let section = Text::copy_of(alloc, section)?;
            Err(ConfigError::Unknown { section, key })
        }
        None => find_bad(alloc, place, entries),
    }
}

/// The key of this name, written without `.fetch`.
fn plain_at<'a>(name: &str, entries: &'a [Entry]) -> Option<&'a Entry>
    ensures { option_copied result ≡ spec.plain_at name.now entries.now }
{
    entries.iter().find(|entry| entry.key.name.as_str() == name && !entry.key.is_fetched)
}

/// The key of this name, however it is written.
pub(crate) fn key_at<'a>(name: &str, entries: &'a [Entry]) -> Option<&'a Entry>
    ensures { option_copied result ≡ spec.key_at name.now entries.now }
{
    entries.iter().find(|entry| entry.key.name.as_str() == name)
}

pub(crate) fn allowed<T: Drop>(number: u32, value: Option<T>) -> Result<T, ConfigError>
    ensures { result ≡ spec.allowed number value }
{
    match value {
        Some(value) => Ok(value),
        None => Err(ConfigError::BadValue(number)),
    }
}

/// The refusal of a section that lacks a key.
pub(crate) fn missing(alloc: Global, section: &str, key: &str) -> Result<ConfigError, AllocError>
    ensures { IfOk result (λ error. error ≡ spec.missing section.now key.now) }
{
    let section = Text::copy_of(alloc, section)?;
    let key = Text::copy_of(alloc, key)?;
    Ok(ConfigError::Missing { section, key })
}

#[tactic(auto, unfolding(crate::specs::Keys::needed))]
pub(crate) fn needed_text(
    alloc: Global,
    section: &str,
    name: &str,
    entries: &[Entry],
) -> Result<Text, ConfigError>
    ensures { Gives (spec.needed meaning.text_in section.now name.now entries.now) result }
{
    let Some(entry) = plain_at(name, entries) else {
        return Err(missing(alloc, section, name)?);
    };
    match text_in(&entry.value) {
        Some(text) => Ok(Text::copy_of(alloc, text)?),
        None => Err(ConfigError::BadValue(entry.number)),
    }
}

#[tactic(auto, unfolding(crate::specs::Keys::needed))]
pub(crate) fn needed_kind(
    alloc: Global,
    section: &str,
    name: &str,
    entries: &[Entry],
) -> Result<StorageKind, ConfigError>
    ensures { Gives (spec.needed meaning.kind_in section.now name.now entries.now) result }
{
    match plain_at(name, entries) {
        Some(entry) => allowed(entry.number, kind_in(&entry.value)),
        None => Err(missing(alloc, section, name)?),
    }
}

#[tactic(auto, unfolding(crate::specs::Keys::needed))]
pub(crate) fn needed_collections(
    alloc: Global,
    section: &str,
    name: &str,
    entries: &[Entry],
) -> Result<Option<Sequence<Wanted>>, ConfigError>
    ensures { Gives (spec.needed meaning.collections_in section.now name.now entries.now) result }
{
    match plain_at(name, entries) {
        Some(entry) => allowed(entry.number, collections_in(alloc, &entry.value)?),
        None => Err(missing(alloc, section, name)?),
    }
}

#[tactic(auto, unfolding(crate::specs::Keys::optional))]
pub(crate) fn optional_truth(name: &str, entries: &[Entry]) -> Result<bool, ConfigError>
    ensures { result ≡ spec.optional meaning.truth_in false name.now entries.now }
{
    match plain_at(name, entries) {
        Some(entry) => allowed(entry.number, truth_in(&entry.value)),
        None => Ok(false),
    }
}

#[tactic(auto, unfolding(crate::specs::Keys::optional))]
pub(crate) fn optional_rule(
    alloc: Global,
    name: &str,
    entries: &[Entry],
) -> Result<Conflict, ConfigError>
    ensures { Gives (spec.optional meaning.conflict_in meaning.no_rule name.now entries.now) result }
{
    match plain_at(name, entries) {
        Some(entry) => allowed(entry.number, conflict_in(alloc, &entry.value)?),
        None => Ok(no_rule(alloc)),
    }
}

#[tactic(auto, unfolding(crate::specs::Keys::optional))]
pub(crate) fn optional_partial(name: &str, entries: &[Entry]) -> Result<Partial, ConfigError>
    ensures { result ≡ spec.optional meaning.partial_in Revert name.now entries.now }
{
    match plain_at(name, entries) {
        Some(entry) => allowed(entry.number, partial_in(&entry.value)),
        None => Ok(Partial::Revert),
    }
}

#[tactic(auto, unfolding(crate::specs::Keys::optional))]
pub(crate) fn optional_metadata(
    alloc: Global,
    name: &str,
    entries: &[Entry],
) -> Result<Sequence<MetaKey>, ConfigError>
    ensures { Gives (spec.optional meaning.metadata_in meaning.no_metadata name.now entries.now) result }
{
    match plain_at(name, entries) {
        Some(entry) => allowed(entry.number, metadata_in(alloc, &entry.value)?),
        None => Ok(Sequence::new(alloc)),
    }
}
