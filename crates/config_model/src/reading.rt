//! A whole configuration.

ghost use Rattle.std.specs.Prelude.{◌≡◌, ◌≢◌, ◌∷◌, ℕ, List, not, Some, None, Ok, IfOk, OnOk, MatchResult, codes};
ghost use Rattle.config_ini.specs.declared.error.ConfigError.TheVariants.{NoMemory};
ghost use Rattle.config_ini.specs.Answers.{Gives};
ghost use Rattle.config_ini.specs.Repeats.{has};
ghost use Rattle.config_model.specs.Reading as spec;

use crate::by_name::Storages;
use crate::config::{Config, PairConf, StorageConf};
use crate::fields::Place;
use crate::keys::{find_refused, missing, needed_text};
use crate::pairs::pair_of;
use crate::storages::storage_of;
use config_ini::{ConfigError, Entry, Section, SectionKind, read_sections, section_name};
use std::alloc::{AllocError, Global};
use std::collections::BTreeSet;
use values::{Sequence, Text};

/// What sections say.
#[derive(Drop)]
pub(crate) struct Parts {
    pub status_path: Option<Text>,
    pub pairs: Sequence<PairConf>,
    pub storages: Sequence<StorageConf>,
}

fn no_parts(alloc: Global) -> Parts
    ensures { result ≡ spec.no_parts }
{
    Parts {
        status_path: None,
        pairs: Sequence::new(alloc),
        storages: Sequence::new(alloc),
    }
}

fn with_path(alloc: Global, path: Text) -> Parts
    ensures { result ≡ spec.with_path path }
{
    Parts {
        status_path: Some(path),
        pairs: Sequence::new(alloc),
        storages: Sequence::new(alloc),
    }
}

fn with_pair(alloc: Global, pair: PairConf) -> Result<Parts, AllocError>
    ensures { IfOk result (λ parts. parts ≡ spec.with_pair pair) }
{
    let mut pairs = Sequence::new(alloc);
    pairs.push(pair)?;
    Ok(Parts {
        status_path: None,
        pairs,
        storages: Sequence::new(alloc),
    })
}

fn with_storage(alloc: Global, storage: StorageConf) -> Result<Parts, AllocError>
    ensures { IfOk result (λ parts. parts ≡ spec.with_storage storage) }
{
    let mut storages = Sequence::new(alloc);
    storages.push(storage)?;
    Ok(Parts {
        status_path: None,
        pairs: Sequence::new(alloc),
        storages,
    })
}

impl Parts {
    /// With what later sections say.
    fn joined(self, later: Parts) -> Result<Parts, AllocError>
        ensures { IfOk result (λ all. all ≡ spec.joined self later) }
    {
        let Parts {
            status_path,
            mut pairs,
            mut storages,
        } = self;
        pairs.append(later.pairs)?;
        storages.append(later.storages)?;
        Ok(Parts {
            status_path: status_path.or(later.status_path),
            pairs,
            storages,
        })
    }
}

#[tactic(auto, unfolding(crate::specs::Reading::general_of))]
fn general_of(alloc: Global, section: &str, entries: &[Entry]) -> Result<Text, ConfigError>
    ensures { Gives (spec.general_of section.now entries.now) result }
{
    match find_refused(alloc, section, Place::General, entries) {
        Ok(()) => needed_text(alloc, section, "status_path", entries),
        Err(error) => Err(error),
    }
}

fn part_by(
    alloc: Global,
    sections: &Storages,
    kind: SectionKind,
    section: &str,
    name: &str,
    entries: &[Entry],
) -> Result<Parts, ConfigError>
    ensures { Gives (spec.part_by sections.now kind section.now name.now entries.now) result }
{
    match kind {
        SectionKind::General => {
            let path = general_of(alloc, section, entries)?;
            Ok(with_path(alloc, path))
        }
        SectionKind::Pair => {
            let pair = pair_of(alloc, sections, section, name, entries)?;
            Ok(with_pair(alloc, pair)?)
        }
        SectionKind::Storage => {
            let storage = storage_of(alloc, section, name, entries)?;
            Ok(with_storage(alloc, storage)?)
        }
    }
}

/// What a section says.
#[tactic(auto, unfolding(crate::specs::Reading::part_of))]
fn part_of(alloc: Global, sections: &Storages, section: &Section) -> Result<Parts, ConfigError>
    ensures { Gives (spec.part_of sections.now section.now) result }
{
    let name = section_name(alloc, &section.title)?;
    part_by(
        alloc,
        sections,
        section.title.kind,
        name.as_str(),
        section.title.name.as_str(),
        section.entries.as_slice(),
    )
}

fn parts_of(alloc: Global, storages: &Storages, sections: &[Section]) -> Result<Parts, ConfigError>
    ensures { Gives (spec.parts_of storages.now sections.now) result }
{
    let mut parts = no_parts(alloc);
    for section in sections {
        let part = match part_of(alloc, storages, section) {
            Ok(part) => part,
            Err(error) => return Err(error),
        };
        parts = parts.joined(part)?;
    }
    Ok(parts)
}

/// The names of storages.
fn names_of(alloc: Global, storages: &[StorageConf]) -> Result<BTreeSet<Text>, AllocError>
    ensures { IfOk result (λ names. has names.keys ≡ spec.is_storage storages.now) }
{
    let mut names = BTreeSet::new(alloc);
    for storage in storages {
        names.insert(Text::copy_of(alloc, storage.name.as_str())?)?;
    }
    Ok(names)
}

fn no_storage(alloc: Global, pair: &PairConf, name: &Text) -> Result<ConfigError, AllocError>
    ensures { IfOk result (λ error. error ≡ spec.no_storage pair.now name.now) }
{
    Ok(ConfigError::NoStorage {
        pair: Text::copy_of(alloc, pair.name.as_str())?,
        name: Text::copy_of(alloc, name.as_str())?,
    })
}

/// Finds a storage that the pair names and that isn't there.
fn find_lacking(alloc: Global, names: &BTreeSet<Text>, pair: &PairConf) -> Result<(), ConfigError>
    ensures { MatchResult result (λ _. spec.lacking (has names.now.keys) pair.now ≡ None) (λ e. e ≢ NoMemory → spec.lacking (has names.now.keys) pair.now ≡ Some e) }
{
    if !names.contains(&pair.a) {
        return Err(no_storage(alloc, pair, &pair.a)?);
    }
    if !names.contains(&pair.b) {
        return Err(no_storage(alloc, pair, &pair.b)?);
    }
    Ok(())
}

fn find_first_lacking(
    alloc: Global,
    names: &BTreeSet<Text>,
    pairs: &[PairConf],
) -> Result<(), ConfigError>
    ensures { MatchResult result (λ _. spec.first_lacking (has names.now.keys) pairs.now ≡ None) (λ e. e ≢ NoMemory → spec.first_lacking (has names.now.keys) pairs.now ≡ Some e) }
{
    for pair in pairs {
        match find_lacking(alloc, names, pair) {
            Ok(()) => {}
            Err(error) => return Err(error),
        }
    }
    Ok(())
}

/// The configuration, where each storage is there that a pair names.
fn whole_with(
    alloc: Global,
    status_path: Text,
    pairs: Sequence<PairConf>,
    storages: Sequence<StorageConf>,
) -> Result<Config, ConfigError>
    ensures { Gives (spec.whole_by (Some status_path) pairs storages) result }
{
    let names = names_of(alloc, storages.as_slice())?;
    match find_first_lacking(alloc, &names, pairs.as_slice()) {
        Ok(()) => Ok(Config {
            status_path,
            pairs,
            storages,
        }),
        Err(error) => Err(error),
    }
}

#[tactic(auto, unfolding(crate::specs::Reading::whole))]
fn whole(alloc: Global, parts: Parts) -> Result<Config, ConfigError>
    ensures { Gives (spec.whole parts) result }
{
    let Parts {
        status_path,
        pairs,
        storages,
    } = parts;
    match status_path {
        Some(path) => whole_with(alloc, path, pairs, storages),
        None => Err(missing(alloc, "general", "status_path")?),
    }
}

/// Reads a configuration.
#[tactic(auto, unfolding(crate::specs::Reading::config_of))]
pub fn read_config(alloc: Global, bytes: &[u8]) -> Result<Config, ConfigError>
    ensures { Gives (spec.config_of bytes.now) result }
{
    let sections = read_sections(alloc, bytes)?;
    let storages = Storages::of(alloc, sections.as_slice())?;
    let parts = parts_of(alloc, &storages, sections.as_slice())?;
    whole(alloc, parts)
}
