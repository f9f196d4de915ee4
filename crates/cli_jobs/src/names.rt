//! Which pairs the names of the words choose.

ghost use Rattle.std.specs.Prelude.{◌≡◌, IfOk};
ghost use Rattle.std.specs.List.{find, list_any};
ghost use Rattle.std.specs.Option.{option_copied};
ghost use Rattle.std.specs.Str.{bytes_eq};
ghost use Rattle.cli_jobs.specs.Answers.{Finds};
ghost use Rattle.cli_jobs.specs.Names as spec;

use crate::refusal::Refusal;
use cli_words::Name;
use config_model::PairConf;
use std::alloc::{AllocError, Global};
use values::Text;

fn pair_at<'a>(pairs: &'a [PairConf], name: &str) -> Option<&'a PairConf>
    ensures { option_copied result ≡ find (λ p. bytes_eq p.name name.now) pairs.now }
{
    pairs.iter().find(|pair| pair.name.as_str() == name)
}

fn no_pair(alloc: Global, name: &Name) -> Result<Refusal, AllocError>
    ensures { IfOk result (λ r. r ≡ Refusal.NoPair name.now.first) }
{
    Ok(Refusal::NoPair(Text::copy_of(alloc, name.first.as_str())?))
}

fn no_collection(alloc: Global, pair: &Text, name: &Text) -> Result<Refusal, AllocError>
    ensures { IfOk result (λ r. r ≡ Refusal.NoCollection name.now pair.now) }
{
    let name = Text::copy_of(alloc, name.as_str())?;
    let pair = Text::copy_of(alloc, pair.as_str())?;
    Ok(Refusal::NoCollection { name, pair })
}

/// Refuses a collection of a pair without any.
fn check_collection(alloc: Global, pair: &PairConf, name: &Option<Text>) -> Result<(), Refusal>
    ensures { Finds (spec.unknown_collection pair.now name.now) result }
{
    let Some(name) = name else {
        return Ok(());
    };
    match &pair.collections {
        Some(_) => Ok(()),
        None => Err(no_collection(alloc, &pair.name, name)?),
    }
}

/// Refuses a name that names nothing.
#[tactic(auto, unfolding(crate::specs::Names::unknown))]
fn check_name(alloc: Global, pairs: &[PairConf], name: &Name) -> Result<(), Refusal>
    ensures { Finds (spec.unknown pairs.now name.now) result }
{
    match pair_at(pairs, name.first.as_str()) {
        Some(pair) => check_collection(alloc, pair, &name.collection),
        None => Err(no_pair(alloc, name)?),
    }
}

/// Refuses the first name that names nothing.
#[tactic(auto, unfolding(crate::specs::Names::first_unknown))]
pub(crate) fn check_names(alloc: Global, pairs: &[PairConf], names: &[Name]) -> Result<(), Refusal>
    ensures { Finds (spec.first_unknown pairs.now names.now) result }
{
    let mut left = names;
    while let [name, rest @ ..] = left {
        match check_name(alloc, pairs, name) {
            Ok(()) => left = rest,
            Err(refusal) => return Err(refusal),
        }
    }
    Ok(())
}

fn is_named(names: &[Name], pair: &str) -> bool
    ensures { result ≡ list_any (λ n. bytes_eq n.first pair.now) names.now }
{
    names.iter().any(|name| name.first.as_str() == pair)
}

/// Whether the names choose a pair: no names choose all.
#[tactic(auto, unfolding(crate::specs::Names::is_chosen))]
pub(crate) fn is_chosen(names: &[Name], pair: &PairConf) -> bool
    ensures { result ≡ spec.is_chosen names.now pair.now }
{
    names.is_empty() || is_named(names, pair.name.as_str())
}
