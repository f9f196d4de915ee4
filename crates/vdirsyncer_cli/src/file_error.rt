//! Why the file of the configuration can't be read, and what is printed of it.

ghost use Rattle.std.specs.Prelude.{◌≡◌, ◌++◌, codes, string_bytes, IfOk};
ghost use Rattle.cli_text.specs.Configs.{config_line};
ghost use Rattle.vdirsyncer_cli.specs.Files.{file_text};

use cli_text::config_line;
use outside::NoMemory;
use std::alloc::{AllocError, Global};
use values::Text;

/// Why the file of the configuration can't be read.
#[derive(Debug, Drop)]
pub enum FileError {
    IsNotThere,
    Fault,
    /// More than 1 MiB.
    TooLong,
    NoMemory,
}

fn not_there(alloc: Global, file: &str) -> Result<String, AllocError>
    ensures { IfOk result (λ t. string_bytes t ≡ config_line (file.now ++ codes " is not there")) }
{
    let mut reason = String::from_str(alloc, file)?;
    reason.push_str(" is not there")?;
    config_line(alloc, reason.as_str())
}

fn line_of(alloc: Global, file: &str, error: &FileError) -> Result<String, AllocError>
    ensures { IfOk result (λ t. string_bytes t ≡ file_text file.now error.now) }
{
    match error {
        FileError::IsNotThere => not_there(alloc, file),
        FileError::Fault => config_line(alloc, "fault"),
        FileError::TooLong => config_line(alloc, "too long"),
        FileError::NoMemory => String::from_str(alloc, "out of memory\n"),
    }
}

/// What is printed of a file that can't be read, by the path that was given.
pub fn file_text(alloc: Global, file: &str, error: &FileError) -> Result<Text, NoMemory>
    ensures { IfOk result (λ t. t ≡ file_text file.now error.now) }
{
    match line_of(alloc, file, error) {
        Ok(text) => Ok(Text::of(text)),
        Err(_) => Err(NoMemory),
    }
}
