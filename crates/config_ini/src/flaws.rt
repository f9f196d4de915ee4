//! Bad lines, and sections and keys that stand twice.

ghost use Rattle.std.specs.Prelude.{◌≡◌, ◌≢◌, ◌∷◌, ◌++◌, ℕ, List, not, None, Some, IfOk, OnOk, MatchResult, codes};
ghost use Rattle.config_ini.specs.declared.error.ConfigError.TheVariants.{NoMemory, BadLine};
ghost use Rattle.config_ini.specs.declared.kinds.Logical.{Logical};
ghost use Rattle.config_ini.specs.declared.kinds.Logical.TheVariants as logical;
ghost use Rattle.config_ini.specs.Flaws as spec;
ghost use Rattle.config_ini.specs.Repeats.{has, flaw_left};

use crate::error::ConfigError;
use crate::kinds::{Logical, SectionKind, Title, Written};
use std::alloc::{AllocError, Global};
use std::collections::BTreeSet;
use values::Text;

/// The sections so far, and the one at hand with its keys.
#[derive(Drop)]
pub(crate) struct Seen {
    pub sections: BTreeSet<Text>,
    pub at: Option<Text>,
    pub keys: BTreeSet<Text>,
}

fn prefixed(alloc: Global, front: &str, name: &str) -> Result<Text, AllocError>
    ensures { IfOk result (λ text. text ≡ front.now ++ name.now) }
{
    let mut text = String::from_str(alloc, front)?;
    text.push_str(name)?;
    Ok(Text::of(text))
}

/// How a section is named.
pub fn section_name(alloc: Global, title: &Title) -> Result<Text, AllocError>
    ensures { IfOk result (λ name. name ≡ spec.section_name title.now) }
{
    match title.kind {
        SectionKind::General => Text::copy_of(alloc, "general"),
        SectionKind::Pair => prefixed(alloc, "pair ", title.name.as_str()),
        SectionKind::Storage => prefixed(alloc, "storage ", title.name.as_str()),
    }
}

/// Whether a text stands in the set for the first time.
fn is_first(alloc: Global, seen: &mut BTreeSet<Text>, text: &str) -> Result<bool, AllocError>
    ensures first { IfOk result (λ first. first ≡ not (has seen.old.keys text.now)) }
    ensures sees { OnOk result (has seen.new.keys ≡ spec.also text.now (has seen.old.keys)) }
{
    let copy = Text::copy_of(alloc, text)?;
    let first = seen.insert(copy)?;
    Ok(first)
}

impl Seen {
    fn with_section(self, alloc: Global, number: u32, title: &Title) -> Result<Seen, ConfigError>
        ensures { MatchResult result
            (λ next. (rest : List Logical) → flaw_left next rest ≡ flaw_left self (logical.Section number title.now ∷ rest))
            (λ e. e ≢ NoMemory → (rest : List Logical) → flaw_left self (logical.Section number title.now ∷ rest) ≡ Some e) }
    {
        let Seen { mut sections, .. } = self;
        let name = section_name(alloc, title)?;
        if is_first(alloc, &mut sections, name.as_str())? {
            let keys = BTreeSet::new(alloc);
            Ok(Seen {
                sections,
                at: Some(name),
                keys,
            })
        } else {
            let none = String::new(alloc);
            let key = Text::of(none);
            Err(ConfigError::Twice { section: name, key })
        }
    }

    fn with_key(self, alloc: Global, written: &Written) -> Result<Seen, ConfigError>
        ensures { MatchResult result
            (λ next. (rest : List Logical) → flaw_left next rest ≡ flaw_left self (logical.Key written.now ∷ rest))
            (λ e. e ≢ NoMemory → (rest : List Logical) → flaw_left self (logical.Key written.now ∷ rest) ≡ Some e) }
    {
        let Seen {
            sections,
            at,
            mut keys,
        } = self;
        let Some(section) = at else {
            return Err(ConfigError::BadLine(written.number));
        };
        if is_first(alloc, &mut keys, written.key.name.as_str())? {
            Ok(Seen {
                sections,
                at: Some(section),
                keys,
            })
        } else {
            let key = Text::copy_of(alloc, written.key.name.as_str())?;
            Err(ConfigError::Twice { section, key })
        }
    }

    fn with(self, alloc: Global, line: &Logical) -> Result<Seen, ConfigError>
        ensures { MatchResult result
            (λ next. (rest : List Logical) → flaw_left next rest ≡ flaw_left self (line.now ∷ rest))
            (λ e. e ≢ NoMemory → (rest : List Logical) → flaw_left self (line.now ∷ rest) ≡ Some e) }
    {
        match line {
            Logical::Section { number, title } => self.with_section(alloc, *number, title),
            Logical::Key(written) => self.with_key(alloc, written),
            Logical::Bad { number } => Err(ConfigError::BadLine(*number)),
        }
    }
}

/// Finds the first flaw of these lines.
pub(crate) fn find_flaw(alloc: Global, lines: &[Logical]) -> Result<(), ConfigError>
    ensures { MatchResult result (λ _. spec.flaw_of lines.now ≡ None) (λ e. e ≢ NoMemory → spec.flaw_of lines.now ≡ Some e) }
{
    let mut seen = Seen {
        sections: BTreeSet::new(alloc),
        at: None,
        keys: BTreeSet::new(alloc),
    };
    for line in lines {
        seen = match seen.with(alloc, line) {
            Ok(next) => next,
            Err(error) => return Err(error),
        };
    }
    Ok(())
}
