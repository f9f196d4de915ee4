//! What the words ask for, and why they ask for nothing.

ghost use Rattle.std.specs.Prelude.{◌≡◌};
ghost use Rattle.cli_words.specs.declared.words.WordsError.TheVariants.{NoMemory};

use std::alloc::{AllocError, AllocFailed};
use thiserror::Error;
use values::Text;

/// What the words ask for.
#[derive(Debug, Drop)]
pub struct Words {
    /// The file of the configuration, where the words name one.
    pub config: Option<Text>,
    pub order: Order,
}

/// A command with what its words say. No names stand for all pairs.
#[derive(Debug, Drop)]
pub enum Order {
    /// The usage text.
    Help,
    /// Bring the two sides of pairs together.
    Sync {
        /// Whether a side that has become empty may empty the other.
        force_delete: bool,
        /// On how many threads jobs run, 1 to 64.
        workers: u32,
        names: Vec<Name>,
    },
    /// Bring the names and colors of collections together.
    Metasync {
        names: Vec<Name>,
    },
    /// Find the collections of pairs.
    Discover {
        /// Whether the collections that are found are printed.
        list: bool,
        pairs: Vec<Text>,
    },
    /// Give the items of one storage UIDs that differ.
    Repair {
        /// Whether a UID that can't be a file's name is replaced too.
        unsafe_too: bool,
        name: Name,
    },
}

/// A pair or a storage, or one collection of it: a word cut at its first `/`.
#[derive(Debug, Drop)]
pub struct Name {
    pub first: Text,
    pub collection: Option<Text>,
}

/// Why the words ask for nothing.
#[derive(Debug, Drop, Error)]
pub enum WordsError {
    /// The words are outside the grammar.
    #[error("wrong words")]
    Wrong,
    #[error("out of memory")]
    NoMemory,
}

impl From<AllocError> for WordsError {
    ghost from_gives = { λ _ e. e ≡ NoMemory };

    fn from(_error: AllocError) -> WordsError {
        WordsError::NoMemory
    }
}

impl<T: Drop> From<AllocFailed<T>> for WordsError {
    ghost from_gives = { λ _ e. e ≡ NoMemory };

    fn from(_error: AllocFailed<T>) -> WordsError {
        WordsError::NoMemory
    }
}
