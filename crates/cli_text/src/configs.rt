//! The printed text of a configuration that can't be used.

ghost use Rattle.std.specs.Prelude.{◌≡◌, ◌++◌, codes, string_bytes, IfOk};
ghost use Rattle.cli_text.specs.Configs.{config_line, of_key, config_text};
ghost use Rattle.cli_text.specs.Quoting.{in_quotes};

use crate::quoting::in_quotes;
use config_ini::ConfigError;
use outside::NoMemory;
use std::alloc::{AllocError, Global};
use values::Text;

/// A line on the configuration, with its line feed.
#[tactic(auto, unfolding(crate::specs::Configs::config_line))]
pub fn config_line(alloc: Global, reason: &str) -> Result<String, AllocError>
    ensures { IfOk result (λ t. string_bytes t ≡ config_line reason.now) }
{
    format!(in alloc; "config: {reason}\n")
}

/// A section and a key of it, and what is so of the key.
#[tactic(auto, unfolding(crate::specs::Configs::of_key))]
pub fn of_key(alloc: Global, section: &str, key: &str, said: &str) -> Result<String, AllocError>
    ensures { IfOk result (λ t. string_bytes t ≡ of_key section.now key.now said.now) }
{
    let mut text = String::from_str(alloc, "[")?;
    text.push_str(section)?;
    text.push_str("] ")?;
    text.push_str(key)?;
    text.push_str(" ")?;
    text.push_str(said)?;
    Ok(text)
}

fn key_line(alloc: Global, section: &str, key: &str, said: &str) -> Result<String, AllocError>
    ensures { IfOk result (λ t. string_bytes t ≡ config_line (of_key section.now key.now said.now)) }
{
    let reason = of_key(alloc, section, key, said)?;
    config_line(alloc, reason.as_str())
}

fn bad_line(alloc: Global, line: u32) -> Result<String, AllocError>
    ensures { IfOk result (λ t. string_bytes t ≡ config_text (ConfigError.BadLine line)) }
{
    let reason = format!(in alloc; "bad line {line}")?;
    config_line(alloc, reason.as_str())
}

fn bad_value(alloc: Global, line: u32) -> Result<String, AllocError>
    ensures { IfOk result (λ t. string_bytes t ≡ config_text (ConfigError.BadValue line)) }
{
    let reason = format!(in alloc; "bad value at line {line}")?;
    config_line(alloc, reason.as_str())
}

fn no_storage(alloc: Global, pair: &str, name: &str) -> Result<String, AllocError>
    ensures { IfOk result (λ t. string_bytes t ≡ config_line (codes "pair " ++ pair.now ++ codes " names no storage " ++ in_quotes name.now)) }
{
    let name = in_quotes(alloc, name)?;
    let mut reason = String::from_str(alloc, "pair ")?;
    reason.push_str(pair)?;
    reason.push_str(" names no storage ")?;
    reason.push_str(name.as_str())?;
    config_line(alloc, reason.as_str())
}

fn text_of(alloc: Global, error: &ConfigError) -> Result<String, AllocError>
    ensures { IfOk result (λ t. string_bytes t ≡ config_text error.now) }
{
    match error {
        ConfigError::TooLong => config_line(alloc, "too long"),
        ConfigError::NotUtf8 => config_line(alloc, "not UTF-8"),
        ConfigError::BadLine(line) => bad_line(alloc, *line),
        ConfigError::Twice { section, key } => key_line(
            alloc,
            section.as_str(),
            key.as_str(),
            "stands twice",
        ),
        ConfigError::BadValue(line) => bad_value(alloc, *line),
        ConfigError::Unknown { section, key } => key_line(
            alloc,
            section.as_str(),
            key.as_str(),
            "is unknown",
        ),
        ConfigError::Missing { section, key } => key_line(
            alloc,
            section.as_str(),
            key.as_str(),
            "is missing",
        ),
        ConfigError::NoStorage { pair, name } => no_storage(alloc, pair.as_str(), name.as_str()),
        ConfigError::BadText { section, key } => key_line(
            alloc,
            section.as_str(),
            key.as_str(),
            "has a bad value",
        ),
        ConfigError::NoHome { section, key } => key_line(
            alloc,
            section.as_str(),
            key.as_str(),
            "needs a home",
        ),
        ConfigError::BadUrl { section } => key_line(alloc, section.as_str(), "url", "is bad"),
        ConfigError::NeedsTls { section } => key_line(alloc, section.as_str(), "url", "needs TLS"),
        ConfigError::NoMemory => String::from_str(alloc, "out of memory\n"),
    }
}

/// What is printed of a configuration, or a storage of it, that can't be used: one line. A section
/// that stands twice is told with an empty key, so two blanks stand behind it.
pub fn config_text(alloc: Global, error: &ConfigError) -> Result<Text, NoMemory>
    ensures { IfOk result (λ t. t ≡ config_text error.now) }
{
    match text_of(alloc, error) {
        Ok(text) => Ok(Text::of(text)),
        Err(_) => Err(NoMemory),
    }
}
