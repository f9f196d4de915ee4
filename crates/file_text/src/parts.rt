//! The components of a file, and the parts of a component.

ghost use Rattle.std.specs.Prelude.{◌≡◌, ◌∷◌, ◌++◌, ◌≤◌, [], List, IfOk, OnOk, length, take, drop, if◌then◌else◌};
ghost use Rattle.std.specs.Option.{option_map};
ghost use Rattle.file_text.specs.Parts as spec;
ghost use Rattle.file_text.specs.Spans.{part_at, parts_at};

use crate::marks::{Mark, Role};
use item_text::words::value_of;
use std::alloc::{AllocError, Global};

/// What is cut into parts.
#[derive(Clone, Copy)]
pub(crate) enum Level {
    /// A file, into its components.
    File,
    /// A component, into its properties, its direct components and its ends.
    Component,
}

/// Whether a line begins a part.
#[tactic(auto, unfolding(crate::specs::Parts::begins))]
fn begins(level: Level, role: Role) -> bool
    ensures { result ≡ spec.begins level role }
{
    match level {
        Level::File => match role {
            Role::Calendar => true,
            Role::Other => true,
            _ => false,
        },
        Level::Component => match role {
            Role::Uid => false,
            Role::Deep => false,
            _ => true,
        },
    }
}

/// How many lines stand before the next that begins a part.
fn following(level: Level, lines: &[Mark<'_>]) -> usize
    ensures few { result ≤ length lines.now }
    ensures part { (line : Mark) → spec.cut level (line ∷ lines.now) ≡ (line ∷ take result lines.now) ∷ spec.cut level (drop result lines.now) }
{
    let mut count = 0;
    for line in lines {
        if begins(level, line.role) {
            return count;
        }
        count += 1;
    }
    count
}

/// Where a part stands among lines.
#[derive(Clone, Copy)]
pub(crate) struct Span {
    start: usize,
    count: usize,
}

/// The part of some lines that a span tells.
pub(crate) fn part_at<'s, 'a>(lines: &'s [Mark<'a>], span: Span) -> &'s [Mark<'a>]
    ensures { result.now ≡ part_at lines.now span }
{
    let start = span.start.min(lines.len());
    let behind = &lines[start..];
    let count = span.count.min(behind.len());
    &behind[..count]
}

/// Where the parts of some lines stand: the lines are cut before each that begins a part.
pub(crate) fn cut(alloc: Global, level: Level, lines: &[Mark<'_>]) -> Result<Vec<Span>, AllocError>
    ensures { IfOk result (λ spans. parts_at lines.now spans.items ≡ spec.cut level lines.now) }
{
    let mut spans = Vec::new(alloc);
    let mut start = 0;
    while start < lines.len() {
        let count = 1 + following(level, &lines[start + 1..]);
        spans.push(Span { start, count })?;
        start += count;
    }
    Ok(spans)
}

/// What the first line of a part is.
#[tactic(auto, unfolding(crate::specs::Parts::head_role))]
pub(crate) fn head_role(part: &[Mark<'_>]) -> Role
    ensures { result ≡ spec.head_role part.now }
{
    match part {
        [] => Role::Deep,
        [first, ..] => first.role,
    }
}

/// The parts of a VCALENDAR that its items are made of.
#[derive(Clone, Copy)]
pub(crate) enum PartKind {
    /// A property that stands directly in it.
    Property,
    Zone,
    Child,
}

/// Whether a part whose first line is this is of a kind.
#[tactic(auto, unfolding(crate::specs::Parts::is_of))]
fn is_of(kind: PartKind, role: Role) -> bool
    ensures { result ≡ spec.is_of kind role }
{
    match kind {
        PartKind::Property => match role {
            Role::Property => true,
            _ => false,
        },
        PartKind::Zone => match role {
            Role::Zone => true,
            _ => false,
        },
        PartKind::Child => match role {
            Role::Child => true,
            _ => false,
        },
    }
}

/// The parts of a kind.
pub(crate) fn parts_of(
    alloc: Global,
    kind: PartKind,
    lines: &[Mark<'_>],
    spans: &[Span],
) -> Result<Vec<Span>, AllocError>
    ensures { IfOk result (λ found. parts_at lines.now found.items ≡ spec.parts_of kind (parts_at lines.now spans.now)) }
{
    let mut found = Vec::new(alloc);
    for span in spans {
        put(&mut found, kind, lines, *span)?;
    }
    Ok(found)
}

/// Puts a part behind others, where it is of a kind.
#[tactic(auto, unfolding(crate::specs::Parts::parts_of))]
fn put(
    found: &mut Vec<Span>,
    kind: PartKind,
    lines: &[Mark<'_>],
    span: Span,
) -> Result<(), AllocError>
    ensures { OnOk result (parts_at lines.now found.new.items ≡ parts_at lines.now found.old.items ++ spec.parts_of kind (part_at lines.now span ∷ [])) }
{
    if !is_of(kind, head_role(part_at(lines, span))) {
        return Ok(());
    }
    found.push(span)?;
    Ok(())
}

/// The UID that a line gives to its child.
#[tactic(auto, unfolding(crate::specs::Parts::uid_in))]
fn uid_in<'a>(line: &Mark<'a>) -> Option<&'a str>
    ensures { option_map (λ x. x.now) result ≡ spec.uid_in line.now.role line.now.text }
{
    match line.role {
        Role::Uid => Some(value_of(line.text.as_str())),
        _ => None,
    }
}

/// The UID of a child, if it has one.
pub(crate) fn uid_of<'a>(child: &[Mark<'a>]) -> Option<&'a str>
    ensures { option_map (λ x. x.now) result ≡ spec.uid_of child.now }
{
    for line in child {
        if let Some(uid) = uid_in(line) {
            return Some(uid);
        }
    }
    None
}
