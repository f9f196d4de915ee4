//! What a configuration says.

use crate::rules::{ConflictRule, MetaKey, Partial};
use crate::storage_kind::StorageKind;
use crate::wanted::Wanted;
use values::{Sequence, Text};

/// A configuration. Pairs and storages stand as in its text.
#[derive(Debug, Drop)]
pub struct Config {
    /// As it is written.
    pub status_path: Text,
    pub pairs: Sequence<PairConf>,
    pub storages: Sequence<StorageConf>,
}

/// Two storages that are kept equal.
#[derive(Debug, Drop)]
pub struct PairConf {
    pub name: Text,
    /// The names of its storages.
    pub a: Text,
    pub b: Text,
    /// None where the storages are collections themselves.
    pub collections: Option<Sequence<Wanted>>,
    pub conflict: ConflictRule,
    /// The program and its arguments where a command decides conflicts, else nothing.
    pub command: Sequence<Text>,
    pub partial: Partial,
    pub metadata: Sequence<MetaKey>,
    /// The SHA-256 in hex of the pair and its storages, as they are written.
    pub digest: Text,
}

/// A storage.
#[derive(Debug, Drop)]
pub struct StorageConf {
    pub name: Text,
    pub kind: StorageKind,
    pub read_only: bool,
    /// In the order of the keys of its kind.
    pub params: Sequence<Param>,
}

/// A text that a storage is given, by its key without `.fetch`.
#[derive(Debug, Drop)]
pub struct Param {
    pub key: Text,
    pub value: ParamValue,
}

/// A text, or how it is fetched.
#[derive(Debug, Drop)]
pub enum ParamValue {
    Text(Text),
    /// `command` and a program with its arguments, `shell` and a line, or `prompt` and a text.
    Fetch(Sequence<Text>),
}
