//! Why rows can't be run.

use outside::NoMemory;
use std::alloc::{AllocError, AllocFailed};
use std::{fmt, io};

/// Why a file of rows, or a row, can't be run.
#[derive(Drop)]
pub enum RowError {
    NotJson(String),
    UnknownKey(String),
    NoKey(&'static str),
    WrongKind { key: String, wanted: &'static str },
    NoText(String),
    TextTwice(String),
    NoLine(String),
    NoPlace(String),
    PlaceTwice(String),
    NoRun,
    ExpectsNothing,
    System(io::Error),
}

impl fmt::Display for RowError {
    fn fmt<W: fmt::Write>(&self, f: &mut fmt::Formatter<W>) -> fmt::Result {
        match self {
            RowError::NotJson(said) => write!(f, "{said}"),
            RowError::UnknownKey(key) => write!(f, "the key {key:?} isn't known"),
            RowError::NoKey(key) => write!(f, "the key {key:?} is left out"),
            RowError::WrongKind { key, wanted } => write!(f, "{key:?} is no {wanted}"),
            RowError::NoText(name) => write!(f, "no text is named {name:?}"),
            RowError::TextTwice(name) => write!(f, "the text {name:?} is given twice"),
            RowError::NoLine(name) => write!(f, "the text {name:?} has no such line"),
            RowError::NoPlace(path) => write!(f, "no place is named {path:?}"),
            RowError::PlaceTwice(path) => write!(f, "the place {path:?} is named twice"),
            RowError::NoRun => f.write_str("it has no run"),
            RowError::ExpectsNothing => f.write_str("a run expects nothing"),
            RowError::System(error) => write!(f, "{error}"),
        }
    }
}

impl From<io::Error> for RowError {
    fn from(error: io::Error) -> RowError {
        RowError::System(error)
    }
}

impl From<AllocError> for RowError {
    fn from(error: AllocError) -> RowError {
        RowError::System(io::Error::from(error))
    }
}

impl<T: Drop> From<AllocFailed<T>> for RowError {
    fn from(_error: AllocFailed<T>) -> RowError {
        RowError::System(io::Error::from(AllocError))
    }
}

impl From<NoMemory> for RowError {
    fn from(_error: NoMemory) -> RowError {
        RowError::System(io::Error::from(AllocError))
    }
}
