//! The global options, in front of the command.

ghost use Rattle.std.specs.Prelude.{◌≡◌, option_map};
ghost use Rattle.std.specs.Option.{option_copied};
ghost use Rattle.cli_words.specs.Front.{valued, config_option, level_option, behind_level, front_of};

use crate::options::{is_level, value_of};
use values::Text;

/// The value of an option that the words begin with, in the next word or behind `=`, and the words
/// behind it.
fn valued<'a>(short: &str, long: &str, words: &'a [Text]) -> Option<(&'a str, &'a [Text])>
    ensures { option_map (λ found. (found.0.now, found.1.now)) result ≡ valued short.now long.now words.now }
{
    match words {
        [] => None,
        [option, value, rest @ ..] if option.as_str() == short || option.as_str() == long => Some((
            value.as_str(),
            rest,
        )),
        [word, rest @ ..] => match value_of(long, word.as_str()) {
            Some(value) => Some((value, rest)),
            None => None,
        },
    }
}

fn config_option(words: &[Text]) -> Option<(&str, &[Text])>
    ensures { option_map (λ found. (found.0.now, found.1.now)) result ≡ config_option words.now }
{
    valued("-c", "--config", words)
}

fn level_option(words: &[Text]) -> Option<(&str, &[Text])>
    ensures { option_map (λ found. (found.0.now, found.1.now)) result ≡ level_option words.now }
{
    valued("-v", "--verbosity", words)
}

/// The words behind a level, where they begin with one.
#[tactic(auto, unfolding(crate::specs::Front::behind_level))]
fn behind_level(words: &[Text]) -> &[Text]
    ensures { result.now ≡ behind_level words.now }
{
    match level_option(words) {
        Some((level, rest)) => if is_level(level) { rest } else { words },
        None => words,
    }
}

/// The file of the configuration and the words from the command on.
#[derive(Clone, Copy, Debug)]
pub struct Front<'a> {
    pub config: Option<&'a str>,
    pub words: &'a [Text],
}

/// Reads the global options: each at most once, in any order.
pub fn read_front(words: &[Text]) -> Front<'_>
    ensures config { option_copied result.config ≡ (front_of words.now).config }
    ensures words { result.words.now ≡ (front_of words.now).words }
{
    match config_option(words) {
        Some((file, rest)) => Front {
            config: Some(file),
            words: behind_level(rest),
        },
        None => {
            let behind = behind_level(words);
            match config_option(behind) {
                Some((file, rest)) => Front {
                    config: Some(file),
                    words: rest,
                },
                None => Front {
                    config: None,
                    words: behind,
                },
            }
        }
    }
}
