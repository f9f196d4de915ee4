//! Why a configuration can't be used.

ghost use Rattle.std.specs.Prelude.{◌≡◌};
ghost use Rattle.config_ini.specs.declared.error.ConfigError.TheVariants.{NoMemory};

use std::alloc::{AllocError, AllocFailed};
use thiserror::Error;
use values::Text;

/// Why a configuration, or a storage of it, can't be used. A section is named as it stands between its
/// brackets, with one space; a line is counted from 1.
#[derive(Debug, Drop, Error)]
pub enum ConfigError {
    /// More than 1 MiB.
    #[error("too long")]
    TooLong,
    #[error("not UTF-8")]
    NotUtf8,
    /// A line of no kind, a continuation without a key, or a key before the first section.
    #[error("bad line")]
    BadLine(u32),
    /// A section stands twice, then the key is empty; or a key stands twice in a section.
    #[error("stands twice")]
    Twice { section: Text, key: Text },
    /// The value of the key in that line isn't JSON, or isn't one that the key may have.
    #[error("bad value")]
    BadValue(u32),
    /// No such key is known in this section.
    #[error("unknown key")]
    Unknown { section: Text, key: Text },
    /// The section lacks the key.
    #[error("missing key")]
    Missing { section: Text, key: Text },
    /// No storage has the name that the pair gives.
    #[error("no such storage")]
    NoStorage { pair: Text, name: Text },
    /// The text of the key isn't one that the storage may have.
    #[error("bad text")]
    BadText { section: Text, key: Text },
    /// The path begins with `~`, and no home is known.
    #[error("no home")]
    NoHome { section: Text, key: Text },
    /// The URL can't be used.
    #[error("bad URL")]
    BadUrl { section: Text },
    /// The URL's scheme is `https`.
    #[error("needs TLS")]
    NeedsTls { section: Text },
    #[error("out of memory")]
    NoMemory,
}

impl From<AllocError> for ConfigError {
    ghost from_gives = { λ _ e. e ≡ NoMemory };

    fn from(_error: AllocError) -> ConfigError {
        ConfigError::NoMemory
    }
}

impl<T: Drop> From<AllocFailed<T>> for ConfigError {
    ghost from_gives = { λ _ e. e ≡ NoMemory };

    fn from(_error: AllocFailed<T>) -> ConfigError {
        ConfigError::NoMemory
    }
}
