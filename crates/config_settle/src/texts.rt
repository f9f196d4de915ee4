//! The texts of a storage, and which of them are refused.

ghost use Rattle.std.specs.Prelude.{◌≡◌, ◌≢◌, ◌∷◌, [], Some, None, IfOk, MatchResult};
ghost use Rattle.std.specs.List.{list_any};
ghost use Rattle.std.specs.Option.{option_copied};
ghost use Rattle.config_ini.specs.declared.error.ConfigError.TheVariants.{NoMemory};
ghost use Rattle.config_ini.specs.Answers.{Gives};
ghost use Rattle.config_settle.specs.Texts as spec;

use config_ini::ConfigError;
use config_model::{Param, ParamValue, has_control};
use std::alloc::{AllocError, Global};
use values::Text;

fn text_of(value: &ParamValue) -> Option<&str>
    ensures { option_copied result ≡ spec.text_of value.now }
{
    match value {
        ParamValue::Text(text) => Some(text.as_str()),
        ParamValue::Fetch(_) => None,
    }
}

fn param_at<'a>(key: &str, params: &'a [Param]) -> Option<&'a Param>
    ensures { option_copied result ≡ spec.param_at key.now params.now }
{
    params.iter().find(|param| param.key.as_str() == key)
}

/// The text of a key.
#[tactic(auto, unfolding(crate::specs::Texts::text_at))]
pub(crate) fn text_at<'a>(key: &str, params: &'a [Param]) -> Option<&'a str>
    ensures { option_copied result ≡ spec.text_at key.now params.now }
{
    match param_at(key, params) {
        Some(param) => text_of(&param.value),
        None => None,
    }
}

/// A key that isn't there stands for no letters.
pub(crate) fn text_or_none<'a>(key: &str, params: &'a [Param]) -> &'a str
    ensures { result.now ≡ spec.text_or_none key.now params.now }
{
    match text_at(key, params) {
        Some(text) => text,
        None => "",
    }
}

pub(crate) fn bad_text(alloc: Global, section: &str, key: &str) -> Result<ConfigError, AllocError>
    ensures { IfOk result (λ error. error ≡ spec.bad_text section.now key.now) }
{
    let section = Text::copy_of(alloc, section)?;
    let key = Text::copy_of(alloc, key)?;
    Ok(ConfigError::BadText { section, key })
}

/// A text without control characters, where it is there.
pub(crate) fn plain_at(
    alloc: Global,
    section: &str,
    key: &str,
    params: &[Param],
) -> Result<Option<Text>, ConfigError>
    ensures { Gives (spec.plain_by section.now key.now (spec.text_at key.now params.now)) result }
{
    match text_at(key, params) {
        Some(text) => {
            if has_control(text) {
                Err(bad_text(alloc, section, key)?)
            } else {
                Ok(Some(Text::copy_of(alloc, text)?))
            }
        }
        None => Ok(None),
    }
}

fn is_word_or_none(word: &str, key: &str, params: &[Param]) -> bool
    ensures { result ≡ spec.is_word_or_none word.now (spec.text_at key.now params.now) }
{
    match text_at(key, params) {
        Some(text) => text == word,
        None => true,
    }
}

/// Refuses any other text than this one.
pub(crate) fn check_only(
    alloc: Global,
    section: &str,
    key: &str,
    word: &str,
    params: &[Param],
) -> Result<(), ConfigError>
    ensures { MatchResult result
        (λ _. spec.only section.now key.now word.now (spec.text_at key.now params.now) ≡ None)
        (λ e. e ≢ NoMemory → spec.only section.now key.now word.now (spec.text_at key.now params.now) ≡ Some e) }
{
    if is_word_or_none(word, key, params) {
        Ok(())
    } else {
        Err(bad_text(alloc, section, key)?)
    }
}

fn has_slash(text: &str) -> bool
    ensures { result ≡ spec.has_slash text.now }
{
    text.as_bytes().iter().any(|b| *b == b'/')
}

/// How the names of files may end.
fn is_ending(text: &str) -> bool
    ensures { result ≡ spec.is_ending text.now }
{
    text.as_bytes().starts_with(b".".as_slice())
        && (1 < text.len() && (!has_slash(text) && (!has_control(text) && text != ".tmp")))
}

pub(crate) fn ending(
    alloc: Global,
    section: &str,
    key: &str,
    text: &str,
) -> Result<Text, ConfigError>
    ensures { Gives (spec.ending section.now key.now text.now) result }
{
    if is_ending(text) {
        Ok(Text::copy_of(alloc, text)?)
    } else {
        Err(bad_text(alloc, section, key)?)
    }
}
