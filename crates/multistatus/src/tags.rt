//! Names, attributes and tags (XML 1.0, sections 2.3 and 3.1).

ghost use Rattle.std.specs.Prelude.{◌≡◌, ◌≤◌, ◌<◌, ◌+◌, length, option_map, IfOk, IfSome, ◌==◌};
ghost use Rattle.std.specs.List.{list_any};
ghost use Rattle.multistatus.specs.Tags as spec;
ghost use Rattle.multistatus.specs.Texts.{front, behind};
ghost use Rattle.multistatus.specs.Texts as texts;
ghost use Rattle.multistatus.specs.Steps.{Gives};

use crate::MultiError;
use crate::references::char_data;
use crate::text::{begins_white, cut, is_white, past_white, stripped};
use bumpalo::Bump;
use std::alloc::Global;
use values::{Lent, Sequence};

/// A name as it stands: its prefix, of no bytes where it has none, and what follows.
#[derive(Debug, Drop)]
pub(crate) struct Name<'a> {
    pub prefix: Lent<'a>,
    pub local: Lent<'a>,
}

/// An attribute and its value.
#[derive(Debug, Drop)]
pub(crate) struct Attribute<'a> {
    pub name: Name<'a>,
    pub value: Lent<'a>,
}

/// A start tag or an empty-element tag.
#[derive(Debug, Drop)]
pub(crate) struct Tag<'a> {
    pub name: Name<'a>,
    pub attributes: Sequence<Attribute<'a>>,
}

/// Whether a byte may stand in a part of a name.
fn is_part_byte(byte: u8) -> bool
    ensures { result ≡ spec.is_part_byte byte }
{
    !is_white(byte) && !matches!(byte, b'<' | b'>' | b'&' | b'"' | b'\'' | b'/' | b'=' | b':')
}

/// Whether bytes that may stand in a name are a part of one.
fn is_part(bytes: &[u8]) -> bool
    ensures { result ≡ spec.is_part bytes.now }
{
    match bytes {
        [] => false,
        [first, ..] => !matches!(*first, b'0'..=b'9' | b'-' | b'.'),
    }
}

/// The bytes at the front that may stand in a part of a name, and what follows them.
fn part_bytes(text: &str) -> (&str, &str)
    ensures part { result.0.now ≡ front spec.is_part_byte text.now }
    ensures rest { result.1.now ≡ behind spec.is_part_byte text.now }
    ensures shorter { length result.1.now ≤ length text.now }
{
    let bytes = text.as_bytes();
    let mut n = 0;
    while n < bytes.len() && is_part_byte(bytes[n]) {
        n += 1;
    }
    text.split_at(n)
}

/// A part of a name at the front, and what follows it.
#[tactic(auto, unfolding(crate::specs::Tags::part_at))]
pub(crate) fn part_at(text: &str) -> Result<(&str, &str), MultiError>
    ensures found { Gives (λ found. (found.0.now, found.1.now)) result (spec.part_at text.now) }
    ensures shorter { IfOk result (λ found. length found.1.now ≤ length text.now) }
{
    let (part, rest) = part_bytes(text);
    if !is_part(part.as_bytes()) {
        return Err(MultiError::Bad);
    }
    Ok((part, rest))
}

/// A name at the front, and what follows it.
#[tactic(auto, unfolding(crate::specs::Tags::name_at))]
pub(crate) fn name_at(text: &str) -> Result<(Name<'_>, &str), MultiError>
    ensures found { Gives (λ found. (found.0, found.1.now)) result (spec.name_at text.now) }
    ensures shorter { IfOk result (λ found. length found.1.now ≤ length text.now) }
{
    let (first, rest) = part_at(text)?;
    let Some(more) = stripped(rest, ":") else {
        let prefix = Lent::of("");
        let local = Lent::of(first);
        return Ok((Name { prefix, local }, rest));
    };
    let (second, rest) = part_at(more)?;
    let prefix = Lent::of(first);
    let local = Lent::of(second);
    Ok((Name { prefix, local }, rest))
}

/// What stands in quotes at the front, and what follows.
#[tactic(auto, unfolding(crate::specs::Tags::quoted_at))]
fn quoted_at(text: &str) -> Result<(&str, &str), MultiError>
    ensures found { Gives (λ found. (found.0.now, found.1.now)) result (spec.quoted_at text.now) }
    ensures shorter { IfOk result (λ found. length found.1.now ≤ length text.now) }
{
    if let Some(inside) = stripped(text, "\"") {
        return parts_at(inside, "\"");
    }
    match stripped(text, "'") {
        Some(inside) => parts_at(inside, "'"),
        None => Err(MultiError::Bad),
    }
}

/// What stands before and behind the first place of a mark.
pub(crate) fn parts_at<'t>(text: &'t str, mark: &str) -> Result<(&'t str, &'t str), MultiError>
    ensures found { Gives (λ found. (found.0.now, found.1.now)) result (texts.cut mark.now text.now) }
    ensures shorter { IfOk result (λ found. length found.1.now + length mark.now ≤ length text.now) }
{
    match cut(text, mark) {
        Some(parts) => Ok(parts),
        None => Err(MultiError::Bad),
    }
}

/// What follows a mark at the front.
pub(crate) fn behind_mark<'t>(text: &'t str, mark: &str) -> Result<&'t str, MultiError>
    ensures found { Gives (λ rest. rest.now) result (texts.stripped mark.now text.now) }
    ensures shorter { IfOk result (λ found. length found.now + length mark.now ≤ length text.now) }
{
    match stripped(text, mark) {
        Some(rest) => Ok(rest),
        None => Err(MultiError::Bad),
    }
}

/// Whether a `<` stands in bytes.
fn holds_tag(bytes: &[u8]) -> bool
    ensures { result ≡ list_any (λ b. b == 60) bytes.now }
{
    bytes.iter().any(|byte| *byte == b'<')
}

/// The value of an attribute, by what stands in the quotes.
#[tactic(auto, unfolding(crate::specs::Tags::value_of))]
fn value_of<'a>(arena: &'a Bump, piece: &'a str) -> Result<&'a str, MultiError>
    ensures { Gives (λ value. value.now) result (spec.value_of piece.now) }
{
    if holds_tag(piece.as_bytes()) {
        return Err(MultiError::Bad);
    }
    char_data(arena, piece)
}

/// An attribute at the front, and what follows it.
#[tactic(auto, unfolding(crate::specs::Tags::attribute_at))]
fn attribute_at<'a>(arena: &'a Bump, text: &'a str) -> Result<(Attribute<'a>, &'a str), MultiError>
    ensures found { Gives (λ found. (found.0, found.1.now)) result (spec.attribute_at text.now) }
    ensures shorter { IfOk result (λ found. length found.1.now < length text.now) }
{
    let (name, rest) = name_at(text)?;
    let after = behind_mark(past_white(rest), "=")?;
    let (piece, rest) = quoted_at(past_white(after))?;
    let text = value_of(arena, piece)?;
    let value = Lent::of(text);
    Ok((Attribute { name, value }, rest))
}

/// How a tag goes on.
#[derive(Debug, Drop)]
enum TagStep<'a> {
    /// An attribute, and what follows it.
    Onward(Attribute<'a>, &'a str),
    /// The end: whether the element is empty, and what follows.
    Ended(bool, &'a str),
}

/// The end of a tag at the front: whether the element is empty, and what follows.
#[tactic(auto, unfolding(crate::specs::Tags::tag_end))]
fn tag_end(text: &str) -> Option<(bool, &str)>
    ensures found { option_map (λ found. (found.0, found.1.now)) result ≡ spec.tag_end text.now }
    ensures shorter { IfSome result (λ found. length found.1.now ≤ length text.now) }
{
    if let Some(rest) = stripped(text, ">") {
        return Some((false, rest));
    }
    match stripped(text, "/>") {
        Some(rest) => Some((true, rest)),
        None => None,
    }
}

/// An attribute behind white space, or the end of the tag.
#[tactic(auto, unfolding(crate::specs::Tags::tag_step))]
fn tag_step<'a>(arena: &'a Bump, text: &'a str) -> Result<TagStep<'a>, MultiError>
    ensures step { spec.GivesStep result (spec.tag_step text.now) }
    ensures shorter { spec.LeavesLess (length text.now) result }
{
    let inside = past_white(text);
    if let Some((is_empty, rest)) = tag_end(inside) {
        return Ok(TagStep::Ended(is_empty, rest));
    }
    if !begins_white(text.as_bytes()) {
        return Err(MultiError::Bad);
    }
    let (attribute, rest) = attribute_at(arena, inside)?;
    Ok(TagStep::Onward(attribute, rest))
}

/// What follows the name in a tag.
#[derive(Debug, Drop)]
pub(crate) struct TagRest<'a> {
    pub attributes: Sequence<Attribute<'a>>,
    pub is_empty: bool,
    pub rest: &'a str,
}

/// The attributes of a tag, up to its end.
pub(crate) fn tag_rest<'a>(
    alloc: Global,
    arena: &'a Bump,
    text: &'a str,
) -> Result<TagRest<'a>, MultiError>
    ensures found { Gives (λ found. spec.rest_of found) result (spec.tag_rest (length text.now) text.now) }
    ensures shorter { IfOk result (λ found. length found.rest.now ≤ length text.now) }
{
    let mut attributes = Sequence::new(alloc);
    let mut rest = text;
    'attributes: loop {
        match tag_step(arena, rest) {
            Err(error) => return Err(error),
            Ok(step) => match step {
                TagStep::Ended(is_empty, rest) => {
                    return Ok(TagRest {
                        attributes,
                        is_empty,
                        rest,
                    });
                }
                TagStep::Onward(attribute, behind) => {
                    attributes.push(attribute)?;
                    rest = behind;
                }
            },
        }
    }
}
