//! Sections: a head, and the keys behind it with their values.

ghost use Rattle.std.specs.Prelude.{◌≡◌, ◌≢◌, ◌∷◌, ◌++◌, ◌<◌, ◌-◌, ◌^◌, [], ℕ, List, length, Err, IfOk, MatchResult};
ghost use Rattle.config_ini.specs.declared.error.ConfigError.TheVariants.{NoMemory};
ghost use Rattle.config_ini.specs.declared.kinds.Logical.{Logical};
ghost use Rattle.config_ini.specs.declared.kinds.Logical.TheVariants as logical;
ghost use Rattle.config_ini.specs.Answers.{Gives};
ghost use Rattle.config_ini.specs.Grouping.{left_of};
ghost use Rattle.config_ini.specs.Sections as spec;

use crate::error::ConfigError;
use crate::flaws::find_flaw;
use crate::kinds::{Logical, Title, Written};
use crate::logical::logical_lines;
use crate::setting::{Entry, entry_of};
use std::alloc::{AllocError, Global};
use values::Sequence;

/// The longest configuration, in bytes.
const LIMIT: usize = 1_048_576;

/// A section.
#[derive(Drop)]
pub struct Section {
    pub title: Title,
    pub entries: Sequence<Entry>,
}

/// The sections so far, and the one at hand.
#[derive(Drop)]
pub(crate) struct Grouped {
    pub done: Sequence<Section>,
    pub at: Option<Section>,
}

impl Grouped {
    fn closed(self) -> Result<Sequence<Section>, AllocError>
        ensures { IfOk result (λ all. all ≡ self.done ++ spec.and_then self.at []) }
    {
        let Grouped { mut done, at } = self;
        match at {
            None => Ok(done),
            Some(section) => {
                done.push(section)?;
                Ok(done)
            }
        }
    }

    fn with_section(self, alloc: Global, number: u32, title: Title) -> Result<Grouped, ConfigError>
        ensures { MatchResult result
            (λ next. (rest : List Logical) → left_of next rest ≡ left_of self (logical.Section number title ∷ rest))
            (λ e. e ≢ NoMemory → (rest : List Logical) → left_of self (logical.Section number title ∷ rest) ≡ Err e) }
    {
        let done = self.closed()?;
        let entries = Sequence::new(alloc);
        Ok(Grouped {
            done,
            at: Some(Section { title, entries }),
        })
    }

    fn with_key(self, alloc: Global, written: Written) -> Result<Grouped, ConfigError>
        ensures { MatchResult result
            (λ next. (rest : List Logical) → left_of next rest ≡ left_of self (logical.Key written ∷ rest))
            (λ e. e ≢ NoMemory → (rest : List Logical) → left_of self (logical.Key written ∷ rest) ≡ Err e) }
    {
        let Grouped { done, at } = self;
        match at {
            None => Err(ConfigError::BadLine(written.number)),
            Some(Section { title, mut entries }) => {
                let entry = match entry_of(alloc, written) {
                    Ok(entry) => entry,
                    Err(error) => return Err(error),
                };
                entries.push(entry)?;
                Ok(Grouped {
                    done,
                    at: Some(Section { title, entries }),
                })
            }
        }
    }

    fn with(self, alloc: Global, line: Logical) -> Result<Grouped, ConfigError>
        ensures { MatchResult result
            (λ next. (rest : List Logical) → left_of next rest ≡ left_of self (line ∷ rest))
            (λ e. e ≢ NoMemory → (rest : List Logical) → left_of self (line ∷ rest) ≡ Err e) }
    {
        match line {
            Logical::Section { number, title } => self.with_section(alloc, number, title),
            Logical::Key(written) => self.with_key(alloc, written),
            Logical::Bad { number } => Err(ConfigError::BadLine(number)),
        }
    }
}

/// The sections of these lines, with each value read.
fn sections_of(alloc: Global, lines: Vec<Logical>) -> Result<Sequence<Section>, ConfigError>
    ensures { Gives (spec.sections_of lines.items) result }
{
    let mut rest = lines.into_iter();
    let mut grouped = Grouped {
        done: Sequence::new(alloc),
        at: None,
    };
    'lines: while let Some(line) = rest.next() {
        grouped = match grouped.with(alloc, line) {
            Ok(next) => next,
            Err(error) => return Err(error),
        };
    }
    let sections = grouped.closed()?;
    Ok(sections)
}

/// The sections of a text within the limit.
fn sections_in(alloc: Global, bytes: &[u8]) -> Result<Sequence<Section>, ConfigError>
    requires { length bytes.now < 2 ^ 32 - 1 }
    ensures { Gives (spec.sections_in bytes.now) result }
{
    let lines = logical_lines(alloc, bytes)?;
    match find_flaw(alloc, lines.as_slice()) {
        Ok(()) => sections_of(alloc, lines),
        Err(error) => Err(error),
    }
}

/// The sections of a configuration.
pub fn read_sections(alloc: Global, bytes: &[u8]) -> Result<Sequence<Section>, ConfigError>
    ensures { Gives (spec.sections_read bytes.now) result }
{
    if LIMIT < bytes.len() {
        return Err(ConfigError::TooLong);
    }
    match std::str::from_utf8(bytes) {
        Ok(_) => sections_in(alloc, bytes),
        Err(_) => Err(ConfigError::NotUtf8),
    }
}
