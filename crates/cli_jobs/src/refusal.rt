//! Why there is no job.

ghost use Rattle.std.specs.Prelude.{◌≡◌};
ghost use Rattle.cli_jobs.specs.declared.refusal.Refusal.TheVariants.{NoMemory};

use child_cmd::FetchError;
use config_ini::ConfigError;
use std::alloc::{AllocError, AllocFailed};
use thiserror::Error;
use values::Text;

/// Why the words and a configuration come to no job. All of them come before a storage is opened.
#[derive(Debug, Drop, Error)]
pub enum Refusal {
    /// The configuration, or a storage that the pair names, can't be used.
    #[error("unusable configuration")]
    Unusable(ConfigError),
    /// No pair has the name.
    #[error("no such pair")]
    NoPair(Text),
    /// The pair has no collections.
    #[error("no such collection")]
    NoCollection {
        name: Text,
        pair: Text,
    },
    /// What the key of the section says isn't built yet.
    #[error("not built")]
    NotBuilt {
        section: Text,
        key: Text,
    },
    /// The text of the key of the section can't be fetched.
    #[error("not fetched")]
    NotFetched {
        section: Text,
        key: Text,
        error: FetchError,
    },
    #[error("out of memory")]
    NoMemory,
}

impl From<AllocError> for Refusal {
    ghost from_gives = { λ _ r. r ≡ NoMemory };

    fn from(_error: AllocError) -> Refusal {
        Refusal::NoMemory
    }
}

impl<T: Drop> From<AllocFailed<T>> for Refusal {
    ghost from_gives = { λ _ r. r ≡ NoMemory };

    fn from(_error: AllocFailed<T>) -> Refusal {
        Refusal::NoMemory
    }
}
