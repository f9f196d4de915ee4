//! What the words and the environment ask for.

ghost use Rattle.std.specs.Prelude.{◌≡◌, ◌++◌, IfOk, codes};
ghost use Rattle.std.specs.Option.{option_map};
ghost use Rattle.cli_words.specs.Words.{meaning_of, order_value};
ghost use Rattle.vdirsyncer_cli.specs.Asked as spec;

use crate::env::Env;
use cli_words::{Name, Order, Words, WordsError, read_words};
use outside::NoMemory;
use std::alloc::{AllocError, Global};
use values::{Sequence, Text};

/// A run over a configuration.
#[derive(Debug, Drop)]
pub struct Wanted {
    /// The file of the configuration.
    pub file: Text,
    /// The names that choose pairs: none choose all.
    pub names: Sequence<Name>,
    /// The home folder of the user.
    pub home: Option<Text>,
    /// A side that came to be empty is taken as it is.
    pub force_delete: bool,
}

/// What is asked for.
#[derive(Debug, Drop)]
pub enum Asked {
    /// Nothing: the words are outside the grammar.
    Wrong,
    /// The usage text.
    Help,
    /// What can't be done, by the line that says so.
    Refused(Text),
    Run(Wanted),
}

fn joined(alloc: Global, folder: &Text, rest: &str) -> Result<Text, AllocError>
    ensures { IfOk result (λ path. path ≡ folder.now ++ rest.now) }
{
    let mut path = String::from_str(alloc, folder.as_str())?;
    path.push_str(rest)?;
    Ok(Text::of(path))
}

fn below(alloc: Global, folder: &Option<Text>, rest: &str) -> Result<Option<Text>, AllocError>
    ensures { IfOk result (λ path. path ≡ spec.below folder.now rest.now) }
{
    match folder {
        Some(folder) => Ok(Some(joined(alloc, folder, rest)?)),
        None => Ok(None),
    }
}

fn copied(alloc: Global, text: &Option<Text>) -> Result<Option<Text>, AllocError>
    ensures { IfOk result (λ copy. copy ≡ text.now) }
{
    match text {
        Some(text) => Ok(Some(Text::copy_of(alloc, text.as_str())?)),
        None => Ok(None),
    }
}

/// The file of a configuration that no word names.
fn usual_file(alloc: Global, env: &Env) -> Result<Option<Text>, AllocError>
    ensures { IfOk result (λ file. file ≡ spec.usual_file env.now) }
{
    if let Some(file) = copied(alloc, &env.vdirsyncer_config)? {
        return Ok(Some(file));
    }
    if let Some(file) = below(alloc, &env.xdg_config, "/vdirsyncer/config")? {
        return Ok(Some(file));
    }
    below(alloc, &env.home, "/.config/vdirsyncer/config")
}

/// The file of the configuration.
fn config_file(alloc: Global, config: Option<Text>, env: &Env) -> Result<Option<Text>, AllocError>
    ensures { IfOk result (λ file. file ≡ spec.config_file config env.now) }
{
    match config {
        Some(file) => Ok(Some(file)),
        None => usual_file(alloc, env),
    }
}

fn refused(alloc: Global, line: &str) -> Result<Asked, AllocError>
    ensures { IfOk result (λ asked. asked ≡ Asked.Refused line.now) }
{
    Ok(Asked::Refused(Text::copy_of(alloc, line)?))
}

fn run(
    alloc: Global,
    env: &Env,
    config: Option<Text>,
    names: Vec<Name>,
    force_delete: bool,
) -> Result<Asked, AllocError>
    ensures { IfOk result (λ asked. asked ≡ spec.run_by force_delete names.items env.now.home (spec.config_file config env.now)) }
{
    match config_file(alloc, config, env)? {
        None => refused(alloc, "config: no path\n"),
        Some(file) => Ok(Asked::Run(Wanted {
            file,
            names: Sequence::of(names),
            home: copied(alloc, &env.home)?,
            force_delete,
        })),
    }
}

fn ordered(
    alloc: Global,
    env: &Env,
    config: Option<Text>,
    order: Order,
) -> Result<Asked, AllocError>
    ensures { IfOk result (λ asked. asked ≡ spec.ordered env.now config (order_value order)) }
{
    match order {
        Order::Help => Ok(Asked::Help),
        Order::Sync {
            names,
            force_delete,
            ..
        } => run(alloc, env, config, names, force_delete),
        Order::Metasync { .. } => refused(alloc, "metasync is not built\n"),
        Order::Discover { .. } => refused(alloc, "discover is not built\n"),
        Order::Repair { .. } => refused(alloc, "repair is not built\n"),
    }
}

/// What the words and the environment ask for. Of the commands `sync` alone is built.
pub fn asked_of(alloc: Global, words: &[Text], env: &Env) -> Result<Asked, NoMemory>
    ensures { IfOk result (λ asked. asked ≡ spec.asked_of env.now (meaning_of words.now)) }
{
    match read_words(alloc, words) {
        Ok(Words { config, order }) => match ordered(alloc, env, config, order) {
            Ok(asked) => Ok(asked),
            Err(_) => Err(NoMemory),
        },
        Err(WordsError::Wrong) => Ok(Asked::Wrong),
        Err(WordsError::NoMemory) => Err(NoMemory),
    }
}
