//! Why bytes are no multistatus.

ghost use Rattle.std.specs.Prelude.{◌≡◌};
ghost use Rattle.multistatus.specs.declared.error.MultiError.TheVariants.{NoMemory};

use std::alloc::{AllocError, AllocFailed};
use std::error::Error;
use std::fmt;

/// Why no rows are read. It displays as it is printed of a storage.
#[derive(Debug, Drop)]
pub enum MultiError {
    /// The bytes are no multistatus, or nest more than 32 elements.
    Bad,
    NoMemory,
}

impl fmt::Display for MultiError {
    ghost use Rattle.multistatus.specs.Refusals.{error_text};

    ghost output = { error_text };

    fn fmt<W: fmt::Write>(&self, f: &mut fmt::Formatter<W>) -> fmt::Result {
        match self {
            MultiError::Bad => f.write_str("bad reply"),
            MultiError::NoMemory => f.write_str("out of memory"),
        }
    }
}

impl Error for MultiError {}

impl From<AllocError> for MultiError {
    ghost from_gives = { λ _ e. e ≡ NoMemory };

    fn from(_error: AllocError) -> MultiError {
        MultiError::NoMemory
    }
}

impl<T: Drop> From<AllocFailed<T>> for MultiError {
    ghost from_gives = { λ _ e. e ≡ NoMemory };

    fn from(_error: AllocFailed<T>) -> MultiError {
        MultiError::NoMemory
    }
}
