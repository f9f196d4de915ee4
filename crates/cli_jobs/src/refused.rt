//! Makes refusals.

ghost use Rattle.std.specs.Prelude.{◌≡◌, ◌++◌, IfOk, codes};
ghost use Rattle.cli_jobs.specs.Answers.{IsLifted};
ghost use Rattle.cli_jobs.specs.Built.{storage_section};
ghost use Rattle.cli_jobs.specs.Names.{pair_section};

use crate::refusal::Refusal;
use config_ini::ConfigError;
use std::alloc::{AllocError, Global};
use values::Text;

/// Why the configuration can't be used.
pub(crate) fn unusable(error: ConfigError) -> Refusal
    ensures { IsLifted error result }
{
    match error {
        ConfigError::NoMemory => Refusal::NoMemory,
        error => Refusal::Unusable(error),
    }
}

pub(crate) fn not_built(alloc: Global, section: &str, key: &str) -> Result<Refusal, AllocError>
    ensures { IfOk result (λ r. r ≡ Refusal.NotBuilt section.now key.now) }
{
    let section = Text::copy_of(alloc, section)?;
    let key = Text::copy_of(alloc, key)?;
    Ok(Refusal::NotBuilt { section, key })
}

fn joined(alloc: Global, before: &str, name: &str) -> Result<Text, AllocError>
    ensures { IfOk result (λ text. text ≡ before.now ++ name.now) }
{
    let mut text = String::from_str(alloc, before)?;
    text.push_str(name)?;
    Ok(Text::of(text))
}

/// The section of a pair.
pub(crate) fn pair_section(alloc: Global, name: &str) -> Result<Text, AllocError>
    ensures { IfOk result (λ section. section ≡ pair_section name.now) }
{
    joined(alloc, "pair ", name)
}

/// The section of a storage.
pub(crate) fn storage_section(alloc: Global, name: &str) -> Result<Text, AllocError>
    ensures { IfOk result (λ section. section ≡ storage_section name.now) }
{
    joined(alloc, "storage ", name)
}

/// The key that is written where the text of this one is fetched.
pub(crate) fn fetched_key(alloc: Global, key: &str) -> Result<Text, AllocError>
    ensures { IfOk result (λ written. written ≡ key.now ++ codes ".fetch") }
{
    joined(alloc, key, ".fetch")
}
