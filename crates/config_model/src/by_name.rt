//! The storages of a configuration by their names.

ghost use Rattle.std.specs.Prelude.{◌≡◌, ◌++◌, ◌∷◌, [], List, IfOk};
ghost use Rattle.config_ini.specs.declared.kinds.SectionKind.TheVariants.{Storage};
ghost use Rattle.config_ini.specs.declared.sections.Section.{Section};
ghost use Rattle.config_model.specs.ByName.{IsByName};
ghost use Rattle.config_model.specs.Pairs as spec;

use config_ini::{Entry, Section, SectionKind};
use std::alloc::{AllocError, Global};
use std::collections::BTreeMap;
use std::marker::Model;
use values::Text;

/// The sections of a configuration, which contracts see as their list. Each storage is found by its name without
/// looking at the others.
#[derive(Drop)]
pub(crate) struct Storages<'a> {
    sections: &'a [Section],
    by_name: BTreeMap<Text, &'a Section>,
}

impl<'a> Model for Storages<'a> {
    ghost use Rattle.std.specs.Prelude.{List};
    ghost use Rattle.config_ini.specs.declared.sections.Section.{Section};
    ghost use Rattle.config_model.specs.ByName.{IsByName};

    ghost Value = { List Section };

    ghost view = { λ s. s.sections.now };

    ghost invariant = { λ s. IsByName s.by_name s.sections.now };
}

/// The map of storages and one more, which the earlier ones come before.
fn with_storage<'a>(
    alloc: Global,
    by_name: BTreeMap<Text, &'a Section>,
    section: &'a Section,
) -> Result<BTreeMap<Text, &'a Section>, AllocError>
    ensures { IfOk result (λ more. section.now.title.kind ≡ Storage → (seen : List Section) → IsByName by_name.entry seen → IsByName more (seen ++ section.now ∷ [])) }
{
    if by_name.contains_key(&section.title.name) {
        return Ok(by_name);
    }
    let name = Text::copy_of(alloc, section.title.name.as_str())?;
    let mut more = by_name;
    more.insert(name, section)?;
    Ok(more)
}

/// The map of sections and one more.
fn with_section<'a>(
    alloc: Global,
    by_name: BTreeMap<Text, &'a Section>,
    section: &'a Section,
) -> Result<BTreeMap<Text, &'a Section>, AllocError>
    ensures { IfOk result (λ more. (seen : List Section) → IsByName by_name.entry seen → IsByName more (seen ++ section.now ∷ [])) }
{
    match section.title.kind {
        SectionKind::General => Ok(by_name),
        SectionKind::Pair => Ok(by_name),
        SectionKind::Storage => match with_storage(alloc, by_name, section) {
            Ok(more) => Ok(more),
            Err(error) => Err(error),
        },
    }
}

fn named<'a>(
    alloc: Global,
    sections: &'a [Section],
) -> Result<BTreeMap<Text, &'a Section>, AllocError>
    ensures { IfOk result (λ by_name. IsByName by_name sections.now) }
{
    let mut by_name = BTreeMap::new(alloc);
    for section in sections {
        by_name = with_section(alloc, by_name, section)?;
    }
    Ok(by_name)
}

impl<'a> Storages<'a> {
    pub(crate) fn of(alloc: Global, sections: &'a [Section]) -> Result<Storages<'a>, AllocError>
        ensures { IfOk result (λ storages. storages ≡ sections.now) }
    {
        let by_name = named(alloc, sections)?;
        Ok(Storages { sections, by_name })
    }

    /// The keys and values of the storage of this name.
    #[tactic(auto, unfolding(crate::specs::Pairs::storage_at))]
    pub(crate) fn entries(&self, name: &Text) -> &'a [Entry]
        ensures { result.now ≡ spec.storage_at self.now name.now }
    {
        match self.by_name.get(name) {
            Some(section) => section.entries.as_slice(),
            None => &[],
        }
    }
}
