//! Names resolved by the declarations in scope (Namespaces in XML 1.0).

ghost use Rattle.multistatus.specs.Maps.{IsMapOf};
ghost use Rattle.multistatus.specs.declared.scopes.Binding.{Binding};
ghost use Rattle.std.specs.Prelude.{List, ◌≡◌, [], ◌∷◌, ◌++◌, reverse, Some, IfOk, OnOk};
ghost use Rattle.std.specs.List.{list_all};
ghost use Rattle.multistatus.specs.Namespaces as spec;
ghost use Rattle.multistatus.specs.Reader.{scope_of, scope_in};
ghost use Rattle.multistatus.specs.Scopes.{differing, opening};
ghost use Rattle.multistatus.specs.Steps.{Gives};

use crate::MultiError;
use crate::namespace::{Namespace, XML_SPACE, XMLNS_SPACE};
use crate::reader::Level;
use crate::tags::{Attribute, Name, Tag};
use bumpalo::Bump;
use std::alloc::{AllocError, Global};
use std::collections::{BTreeMap, BTreeSet};
use std::marker::Model;
use values::{Lent, Sequence};

/// A declaration: a prefix, of no bytes for names without one, and its namespace.
#[derive(Debug, Drop)]
pub(crate) struct Binding<'a> {
    pub prefix: Lent<'a>,
    pub space: Namespace<'a>,
}

/// The declarations of a tag, in order and by prefix.
#[derive(Debug, Drop)]
pub(crate) struct Declarations<'a> {
    listed: Sequence<Binding<'a>>,
    by_prefix: BTreeMap<Lent<'a>, Namespace<'a>>,
}

impl<'a> Model for Declarations<'a> {
    ghost use Rattle.std.specs.Prelude.{List};
    ghost use Rattle.multistatus.specs.Maps.{IsMapOf};
    ghost use Rattle.multistatus.specs.declared.scopes.Binding.{Binding};

    ghost Value = { List Binding };

    ghost view = { λ d. d.listed };

    ghost invariant = { λ d. IsMapOf d.by_prefix d.listed };
}

impl<'a> Declarations<'a> {
    fn new(alloc: Global) -> Declarations<'a>
        ensures { result ≡ [] }
    {
        Declarations {
            listed: Sequence::new(alloc),
            by_prefix: BTreeMap::new(alloc),
        }
    }

    /// The declarations and one more.
    fn with(self, binding: Binding<'a>) -> Result<Declarations<'a>, AllocError>
        ensures { IfOk result (λ more. more ≡ self.entry ++ binding.entry ∷ []) }
    {
        let Declarations {
            mut listed,
            by_prefix,
        } = self;
        let by_prefix = mapped(by_prefix, &binding)?;
        listed.push(binding)?;
        Ok(Declarations { listed, by_prefix })
    }

    fn as_slice(&self) -> &[Binding<'a>]
        ensures { result.now ≡ self.now }
    {
        self.listed.as_slice()
    }

    /// The namespace of a prefix.
    fn space(&self, prefix: &Lent<'a>) -> Option<Namespace<'a>>
        ensures { result ≡ spec.space_of prefix.now self.now }
    {
        match self.by_prefix.get(prefix) {
            Some(space) => Some(space.again()),
            None => None,
        }
    }
}

/// The map of declarations and one more, which the earlier ones come before.
fn mapped<'a>(
    by_prefix: BTreeMap<Lent<'a>, Namespace<'a>>,
    binding: &Binding<'a>,
) -> Result<BTreeMap<Lent<'a>, Namespace<'a>>, AllocError>
    ensures { IfOk result (λ more. (listed : List Binding) → IsMapOf by_prefix.entry listed → IsMapOf more (listed ++ binding.now ∷ [])) }
{
    if by_prefix.contains_key(&binding.prefix) {
        return Ok(by_prefix);
    }
    let prefix = Lent::of(binding.prefix.as_str());
    let space = binding.space.again();
    let mut more = by_prefix;
    more.insert(prefix, space)?;
    Ok(more)
}

/// A name with its namespace, of no bytes where it is in none.
#[derive(Debug, Drop)]
pub(crate) struct Expanded<'a> {
    pub space: Namespace<'a>,
    pub local: Lent<'a>,
}

/// What a tag opens: its declarations, and the name of its element.
#[derive(Debug, Drop)]
pub(crate) struct Opened<'a> {
    pub declared: Declarations<'a>,
    pub name: Expanded<'a>,
}

/// What a tag opens inside these elements.
#[tactic(auto, unfolding(crate::specs::Namespaces::opening_of))]
pub(crate) fn opening_of<'a>(
    alloc: Global,
    arena: &'a Bump,
    levels: &[Level<'a>],
    tag: &Tag<'a>,
) -> Result<Opened<'a>, MultiError>
    ensures { Gives (λ o. opening o) result (spec.opening_of (scope_of (reverse levels.now)) tag.now) }
{
    let declared = declarations_of(alloc, arena, tag.attributes.as_slice())?;
    if !may_all_declare(declared.as_slice()) {
        return Err(MultiError::Bad);
    }
    attributes_differ(alloc, &declared, levels, tag.attributes.as_slice())?;
    let name = element_name(&declared, levels, &tag.name)?;
    Ok(Opened { declared, name })
}

/// The declarations among attributes.
fn declarations_of<'a>(
    alloc: Global,
    arena: &'a Bump,
    attributes: &[Attribute<'a>],
) -> Result<Declarations<'a>, AllocError>
    ensures { IfOk result (λ declared. declared ≡ spec.declarations_of attributes.now) }
{
    let mut declared = Declarations::new(alloc);
    for attribute in attributes {
        declared = with_attribute(arena, declared, attribute)?;
    }
    Ok(declared)
}

/// The declarations and the one that an attribute is, if it is one.
fn with_attribute<'a>(
    arena: &'a Bump,
    declared: Declarations<'a>,
    attribute: &Attribute<'a>,
) -> Result<Declarations<'a>, AllocError>
    ensures { IfOk result (λ more. more ≡ declared.entry ++ spec.declarations_of (attribute.now ∷ [])) }
{
    match declaration_of(arena, attribute)? {
        Some(binding) => declared.with(binding),
        None => Ok(declared),
    }
}

/// The declaration that an attribute is, if it is one.
#[tactic(auto, unfolding(crate::specs::Namespaces::declaration_of))]
fn declaration_of<'a>(
    arena: &'a Bump,
    attribute: &Attribute<'a>,
) -> Result<Option<Binding<'a>>, AllocError>
    ensures { IfOk result (λ found. found ≡ spec.declaration_of attribute.now) }
{
    let name = &attribute.name;
    if name.prefix.as_str() == "xmlns" {
        let prefix = Lent::of(name.local.as_str());
        let space = Namespace::new(arena, attribute.value.as_str())?;
        return Ok(Some(Binding { prefix, space }));
    }
    if name.prefix.as_str().is_empty() && name.local.as_str() == "xmlns" {
        let prefix = Lent::of("");
        let space = Namespace::new(arena, attribute.value.as_str())?;
        return Ok(Some(Binding { prefix, space }));
    }
    Ok(None)
}

fn may_all_declare(declared: &[Binding<'_>]) -> bool
    ensures { result ≡ list_all spec.may_declare declared.now }
{
    declared.iter().all(|binding| may_declare(binding))
}

/// Whether a declaration may stand.
#[tactic(auto, unfolding(crate::specs::Namespaces::may_declare))]
fn may_declare(binding: &Binding<'_>) -> bool
    ensures { result ≡ spec.may_declare binding.now }
{
    let prefix = binding.prefix.as_str();
    let space = binding.space.as_str();
    keeps_xmlns(prefix, space)
        && keeps_xml(prefix, space)
        && (prefix.is_empty() || !space.is_empty())
}

/// Whether a declaration leaves `xmlns` alone.
fn keeps_xmlns(prefix: &str, space: &str) -> bool
    ensures { result ≡ spec.keeps_xmlns prefix.now space.now }
{
    prefix != "xmlns" && space != XMLNS_SPACE
}

/// Whether a declaration leaves `xml` as it is.
fn keeps_xml(prefix: &str, space: &str) -> bool
    ensures { result ≡ spec.keeps_xml prefix.now space.now }
{
    if prefix == "xml" {
        space == XML_SPACE
    } else {
        space != XML_SPACE
    }
}

/// The namespace of a prefix, by the declarations of a tag and of the elements around it.
fn space_of<'a>(
    declared: &Declarations<'a>,
    levels: &[Level<'a>],
    prefix: &Lent<'a>,
) -> Option<Namespace<'a>>
    ensures { result ≡ spec.space_of prefix.now (scope_in declared.now levels.now) }
{
    if let Some(space) = declared.space(prefix) {
        return Some(space);
    }
    space_around(levels, prefix)
}

/// The namespace of a prefix, by the declarations of elements.
fn space_around<'a>(levels: &[Level<'a>], prefix: &Lent<'a>) -> Option<Namespace<'a>>
    ensures { result ≡ spec.space_of prefix.now (scope_of (reverse levels.now)) }
{
    let mut n = levels.len();
    while 0 < n {
        n -= 1;
        if let Some(space) = levels[n].declared.space(prefix) {
            return Some(space);
        }
    }
    if prefix.as_str() == "xml" {
        Some(Namespace::xml())
    } else {
        None
    }
}

/// The name of an element.
#[tactic(auto, unfolding(crate::specs::Namespaces::element_name))]
fn element_name<'a>(
    declared: &Declarations<'a>,
    levels: &[Level<'a>],
    name: &Name<'a>,
) -> Result<Expanded<'a>, MultiError>
    ensures { Gives (λ found. found) result (spec.element_name (scope_in declared.now levels.now) name.now) }
{
    match space_of(declared, levels, &name.prefix) {
        Some(space) => Ok(named(space, name)),
        None => {
            if !name.prefix.as_str().is_empty() {
                return Err(MultiError::Bad);
            }
            Ok(named(Namespace::none(), name))
        }
    }
}

/// The local part of a name in a namespace.
fn named<'a>(space: Namespace<'a>, name: &Name<'a>) -> Expanded<'a>
    ensures { result ≡ record { space = space.entry; local = name.now.local } }
{
    let local = Lent::of(name.local.as_str());
    Expanded { space, local }
}

/// The namespace of the name of an attribute.
#[tactic(auto, unfolding(crate::specs::Namespaces::attribute_space))]
fn attribute_space<'a>(
    declared: &Declarations<'a>,
    levels: &[Level<'a>],
    prefix: &Lent<'a>,
) -> Option<Namespace<'a>>
    ensures { result ≡ spec.attribute_space (scope_in declared.now levels.now) prefix.now }
{
    if prefix.as_str().is_empty() {
        return Some(Namespace::none());
    }
    if prefix.as_str() == "xmlns" {
        return Some(Namespace::xmlns());
    }
    space_of(declared, levels, prefix)
}

/// The name of an attribute.
#[tactic(auto, unfolding(crate::specs::Namespaces::attribute_name))]
fn attribute_name<'a>(
    declared: &Declarations<'a>,
    levels: &[Level<'a>],
    attribute: &Attribute<'a>,
) -> Result<Expanded<'a>, MultiError>
    ensures { Gives (λ found. found) result (spec.attribute_name (scope_in declared.now levels.now) attribute.now) }
{
    match attribute_space(declared, levels, &attribute.name.prefix) {
        Some(space) => Ok(named(space, &attribute.name)),
        None => Err(MultiError::Bad),
    }
}

/// Succeeds where all attributes have names, and no two the same.
fn attributes_differ<'a>(
    alloc: Global,
    declared: &Declarations<'a>,
    levels: &[Level<'a>],
    attributes: &[Attribute<'a>],
) -> Result<(), MultiError>
    ensures { Gives (λ done. done) result (differing (scope_in declared.now levels.now) attributes.now) }
{
    let mut seen = BTreeSet::new(alloc);
    for attribute in attributes {
        let name = attribute_name(declared, levels, attribute)?;
        let is_new = seen.insert((name.local, name.space))?;
        if !is_new {
            return Err(MultiError::Bad);
        }
    }
    Ok(())
}
