//! The printed text of a refusal.

ghost use Rattle.std.specs.Prelude.{◌≡◌, ◌++◌, codes, string_bytes, IfOk};
ghost use Rattle.cli_text.specs.Quoting.{in_quotes};
ghost use Rattle.cli_text.specs.Configs.{config_line, of_key};
ghost use Rattle.cli_jobs.specs.Texts.{refusal_text};

use crate::refusal::Refusal;
use cli_text::{config_line, config_text, fetch_text, in_quotes, of_key};
use outside::NoMemory;
use std::alloc::{AllocError, Global};
use values::Text;

fn no_pair(alloc: Global, name: &str) -> Result<Text, AllocError>
    ensures { IfOk result (λ t. t ≡ codes "no pair " ++ in_quotes name.now ++ codes "\n") }
{
    let quoted = in_quotes(alloc, name)?;
    let mut text = String::from_str(alloc, "no pair ")?;
    text.push_str(quoted.as_str())?;
    text.push_str("\n")?;
    Ok(Text::of(text))
}

fn no_collection(alloc: Global, name: &str, pair: &str) -> Result<Text, AllocError>
    ensures { IfOk result (λ t. t ≡ codes "no collection " ++ in_quotes name.now ++ codes " in " ++ pair.now ++ codes "\n") }
{
    let quoted = in_quotes(alloc, name)?;
    let mut text = String::from_str(alloc, "no collection ")?;
    text.push_str(quoted.as_str())?;
    text.push_str(" in ")?;
    text.push_str(pair)?;
    text.push_str("\n")?;
    Ok(Text::of(text))
}

fn not_built(alloc: Global, section: &str, key: &str) -> Result<Text, AllocError>
    ensures { IfOk result (λ t. t ≡ config_line (of_key section.now key.now (codes "is not built"))) }
{
    let reason = of_key(alloc, section, key, "is not built")?;
    let line = config_line(alloc, reason.as_str())?;
    Ok(Text::of(line))
}

/// What is printed where there is no job: one line.
pub fn refusal_text(alloc: Global, refusal: &Refusal) -> Result<Text, NoMemory>
    ensures { IfOk result (λ t. t ≡ refusal_text refusal.now) }
{
    match refusal {
        Refusal::Unusable(error) => config_text(alloc, error),
        Refusal::NoPair(name) => Ok(no_pair(alloc, name.as_str())?),
        Refusal::NoCollection { name, pair } => {
            Ok(no_collection(alloc, name.as_str(), pair.as_str())?)
        }
        Refusal::NotBuilt { section, key } => {
            Ok(not_built(alloc, section.as_str(), key.as_str())?)
        }
        Refusal::NotFetched {
            section,
            key,
            error,
        } => fetch_text(alloc, key.as_str(), section.as_str(), error),
        Refusal::NoMemory => Ok(Text::copy_of(alloc, "out of memory\n")?),
    }
}
