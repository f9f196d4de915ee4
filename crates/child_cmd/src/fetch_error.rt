//! Why a text can't be fetched.

use thiserror::Error;

/// Why the text of a key can't be fetched from a command or by a prompt.
#[derive(Debug, Drop, Error)]
pub enum FetchError {
    /// The command couldn't be run.
    #[error("fault")]
    Fault,
    /// The command ended with this status, which isn't 0.
    #[error("status {0}")]
    Status(i32),
    /// More than 1 MiB of output, or a line of more than 4,096 bytes.
    #[error("too long")]
    TooLong,
    /// What was fetched isn't UTF-8.
    #[error("not UTF-8")]
    Text,
    /// A prompt met the end of the input.
    #[error("end of input")]
    Ended,
    /// The input failed.
    #[error("input fault")]
    Input,
    /// The output on which a prompt is written failed.
    #[error("output fault")]
    Output,
    #[error("out of memory")]
    NoMemory,
}
