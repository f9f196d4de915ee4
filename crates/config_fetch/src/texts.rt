//! Fetches the text of one key.

ghost use Rattle.std.specs.Prelude.{◌≡◌, ◌++◌, codes, IfOk, IsTrue};
ghost use Rattle.child_cmd.specs.Ways.{is_fetch};
ghost use Rattle.config_fetch.specs.Fetches.{FetchedBy, FetchedIf, TextStep, Told, devices};

use child_cmd::{FetchError, fetch_one, is_fetch};
use children::Spawner;
use cli_jobs::Refusal;
use config_model::{Param, ParamValue};
use outside::{Sink, Source};
use std::alloc::{AllocError, Global};
use values::Text;

fn named(alloc: Global, section: &str, key: &str, error: FetchError) -> Result<Refusal, AllocError>
    ensures { IfOk result (λ r. r ≡ Refusal.NotFetched section.now key.now error) }
{
    Ok(Refusal::NotFetched {
        section: Text::copy_of(alloc, section)?,
        key: Text::copy_of(alloc, key)?,
        error,
    })
}

/// Tells why the text of a key can't be fetched.
fn told(alloc: Global, section: &str, key: &str, error: FetchError) -> Refusal
    ensures { Told section.now key.now error result }
{
    match error {
        FetchError::NoMemory => Refusal::NoMemory,
        error => match named(alloc, section, key, error) {
            Ok(refusal) => refusal,
            Err(_) => Refusal::NoMemory,
        },
    }
}

/// Fetches the text of a key.
fn fetch_text<C: Spawner, I: Source, E: Sink>(
    alloc: Global,
    section: &str,
    key: &str,
    words: &[Text],
    child: &mut C,
    input: &mut I,
    err: &mut E,
) -> Result<Text, Refusal>
    requires { IsTrue (is_fetch words.now) }
    ensures { TextStep (FetchedBy C.count C.tells C.state I.count I.tells I.left E.count E.tells E.held) section.now key.now words.now (devices child.old input.old err.old) (devices child.new input.new err.new) result }
{
    match fetch_one(alloc, words, child, input, err) {
        Ok(text) => Ok(text),
        Err(error) => Err(told(alloc, section, key, error)),
    }
}

fn not_a_fetch(alloc: Global, section: &str, key: &str) -> Result<Refusal, AllocError>
    ensures { IfOk result (λ r. r ≡ Refusal.NotBuilt section.now (key.now ++ codes ".fetch")) }
{
    let mut written = String::from_str(alloc, key)?;
    written.push_str(".fetch")?;
    Ok(Refusal::NotBuilt {
        section: Text::copy_of(alloc, section)?,
        key: Text::of(written),
    })
}

/// Fetches the text of a key, by words that say so.
pub fn fetch_by<C: Spawner, I: Source, E: Sink>(
    alloc: Global,
    section: &str,
    key: &str,
    words: &[Text],
    child: &mut C,
    input: &mut I,
    err: &mut E,
) -> Result<Param, Refusal>
    ensures { FetchedIf (FetchedBy C.count C.tells C.state I.count I.tells I.left E.count E.tells E.held) section.now key.now words.now (is_fetch words.now) (devices child.old input.old err.old) (devices child.new input.new err.new) result }
{
    if !is_fetch(words) {
        return match not_a_fetch(alloc, section, key) {
            Ok(refusal) => Err(refusal),
            Err(_) => Err(Refusal::NoMemory),
        };
    }
    let name = match Text::copy_of(alloc, key) {
        Ok(name) => name,
        Err(_) => return Err(Refusal::NoMemory),
    };
    match fetch_text(alloc, section, key, words, child, input, err) {
        Ok(text) => Ok(Param {
            key: name,
            value: ParamValue::Text(text),
        }),
        Err(refusal) => Err(refusal),
    }
}
