//! The items of a file.

ghost use Rattle.std.specs.Prelude.{◌≡◌, ◌⊎◌, ◌≤◌, ◌∷◌, ◌++◌, [], ℕ, List, Ok, Err, IfOk, IfErr, OnOk, map, length, string_bytes};
ghost use Rattle.std.specs.List.{flat_map};
ghost use Rattle.file_text.specs.Groups.{some_group};
ghost use Rattle.file_text.specs.Parts.{groups};
ghost use Rattle.file_text.specs.Parts as parts;
ghost use Rattle.file_text.specs.Spans.{parts_at};
ghost use Rattle.file_text.specs.Splits as spec;
ghost use Rattle.file_text.specs.Written.{written};

use crate::children::{by_uid, next_group};
use crate::marks::{Mark, Role, marks_of};
use crate::parts::{Level, PartKind, Span, cut, head_role, part_at, parts_of};
use crate::written::{put_line, put_part, put_parts};
use bumpalo::Bump;
use item_text::lines::{Lines, without_mark};
use item_text::{Item, ItemError};
use std::alloc::{AllocError, Global};

/// The most bytes of a file.
pub const MAX_FILE: u64 = 268_435_456;

/// What stands before the children in each item of a VCALENDAR of these parts.
#[tactic(auto, unfolding(crate::specs::Splits::calendar_head))]
fn calendar_head(alloc: Global, lines: &[Mark<'_>], parts: &[Span]) -> Result<String, AllocError>
    ensures { IfOk result (λ head. string_bytes head ≡ spec.calendar_head (parts_at lines.now parts.now)) }
{
    let mut head = String::new(alloc);
    put_line(&mut head, "BEGIN:VCALENDAR")?;
    let properties = parts_of(alloc, PartKind::Property, lines, parts)?;
    put_parts(&mut head, lines, &properties)?;
    let zones = parts_of(alloc, PartKind::Zone, lines, parts)?;
    put_parts(&mut head, lines, &zones)?;
    Ok(head)
}

/// The text of an item with these children.
#[tactic(auto, unfolding(crate::specs::Splits::calendar_text))]
fn calendar_text(
    alloc: Global,
    head: &str,
    lines: &[Mark<'_>],
    group: &[Span],
) -> Result<String, AllocError>
    ensures { IfOk result (λ text. string_bytes text ≡ spec.calendar_text head.now (parts_at lines.now group.now)) }
{
    let mut text = String::from_str(alloc, head)?;
    put_parts(&mut text, lines, group)?;
    put_line(&mut text, "END:VCALENDAR")?;
    Ok(text)
}

/// Puts the item of a text behind others.
fn read_text(alloc: Global, items: &mut Vec<Item>, text: &str) -> Result<(), ItemError>
    ensures ok { OnOk result ((rest : List (List ℕ)) → spec.read_behind items.old.items (text.now ∷ rest) ≡ spec.read_behind items.new.items rest) }
    ensures err { IfErr result (λ e. (e ≡ ItemError.NoMemory) ⊎ ((rest : List (List ℕ)) → spec.read_behind items.old.items (text.now ∷ rest) ≡ Err e)) }
{
    let item = match Item::read(alloc, text.as_bytes()) {
        Ok(item) => item,
        Err(error) => return Err(error),
    };
    let Ok(()) = items.push(item) else {
        return Err(ItemError::NoMemory);
    };
    Ok(())
}

/// Puts the item of some children behind others, where there is one.
fn read_group(
    alloc: Global,
    items: &mut Vec<Item>,
    head: &str,
    lines: &[Mark<'_>],
    group: &[Span],
) -> Result<(), ItemError>
    ensures ok { OnOk result ((rest : List (List ℕ)) → spec.read_behind items.old.items (map (spec.calendar_text head.now) (some_group (parts_at lines.now group.now)) ++ rest) ≡ spec.read_behind items.new.items rest) }
    ensures err { IfErr result (λ e. (e ≡ ItemError.NoMemory) ⊎ ((rest : List (List ℕ)) → spec.read_behind items.old.items (map (spec.calendar_text head.now) (some_group (parts_at lines.now group.now)) ++ rest) ≡ Err e)) }
{
    if group.is_empty() {
        return Ok(());
    }
    let Ok(text) = calendar_text(alloc, head, lines, group) else {
        return Err(ItemError::NoMemory);
    };
    read_text(alloc, items, text.as_str())
}

/// Puts the items of the children of a VCALENDAR behind others.
fn read_children(
    alloc: Global,
    items: &mut Vec<Item>,
    head: &str,
    lines: &[Mark<'_>],
    children: &[Span],
) -> Result<(), ItemError>
    ensures ok { OnOk result ((rest : List (List ℕ)) → spec.read_behind items.old.items (map (spec.calendar_text head.now) (groups (parts_at lines.now children.now)) ++ rest) ≡ spec.read_behind items.new.items rest) }
    ensures err { IfErr result (λ e. (e ≡ ItemError.NoMemory) ⊎ ((rest : List (List ℕ)) → spec.read_behind items.old.items (map (spec.calendar_text head.now) (groups (parts_at lines.now children.now)) ++ rest) ≡ Err e)) }
{
    let Ok(mut left) = by_uid(alloc, lines, children) else {
        return Err(ItemError::NoMemory);
    };
    for child in children {
        let Ok(group) = next_group(alloc, lines, &mut left, *child) else {
            return Err(ItemError::NoMemory);
        };
        if let Err(error) = read_group(alloc, items, head, lines, &group) {
            return Err(error);
        }
    }
    Ok(())
}

/// Puts the items of a VCALENDAR behind others.
#[tactic(auto, unfolding(crate::specs::Splits::calendar_texts))]
fn read_calendar(
    alloc: Global,
    items: &mut Vec<Item>,
    component: &[Mark<'_>],
) -> Result<(), ItemError>
    ensures ok { OnOk result ((rest : List (List ℕ)) → spec.read_behind items.old.items (spec.calendar_texts (parts.cut Level.Component component.now) ++ rest) ≡ spec.read_behind items.new.items rest) }
    ensures err { IfErr result (λ e. (e ≡ ItemError.NoMemory) ⊎ ((rest : List (List ℕ)) → spec.read_behind items.old.items (spec.calendar_texts (parts.cut Level.Component component.now) ++ rest) ≡ Err e)) }
{
    let Ok(parts) = cut(alloc, Level::Component, component) else {
        return Err(ItemError::NoMemory);
    };
    let Ok(head) = calendar_head(alloc, component, &parts) else {
        return Err(ItemError::NoMemory);
    };
    let Ok(children) = parts_of(alloc, PartKind::Child, component, &parts) else {
        return Err(ItemError::NoMemory);
    };
    read_children(alloc, items, head.as_str(), component, &children)
}

/// Puts the item of a component that is no VCALENDAR behind others.
fn read_other(alloc: Global, items: &mut Vec<Item>, component: &[Mark<'_>]) -> Result<(), ItemError>
    ensures ok { OnOk result ((rest : List (List ℕ)) → spec.read_behind items.old.items (written component.now ∷ rest) ≡ spec.read_behind items.new.items rest) }
    ensures err { IfErr result (λ e. (e ≡ ItemError.NoMemory) ⊎ ((rest : List (List ℕ)) → spec.read_behind items.old.items (written component.now ∷ rest) ≡ Err e)) }
{
    let mut text = String::new(alloc);
    let Ok(()) = put_part(&mut text, component) else {
        return Err(ItemError::NoMemory);
    };
    read_text(alloc, items, text.as_str())
}

/// Puts the items of a component behind others.
#[tactic(auto, unfolding(crate::specs::Splits::texts_of, crate::specs::Splits::texts_by))]
fn read_component(
    alloc: Global,
    items: &mut Vec<Item>,
    component: &[Mark<'_>],
) -> Result<(), ItemError>
    ensures ok { OnOk result ((rest : List (List ℕ)) → spec.read_behind items.old.items (spec.texts_of component.now ++ rest) ≡ spec.read_behind items.new.items rest) }
    ensures err { IfErr result (λ e. (e ≡ ItemError.NoMemory) ⊎ ((rest : List (List ℕ)) → spec.read_behind items.old.items (spec.texts_of component.now ++ rest) ≡ Err e)) }
{
    match head_role(component) {
        Role::Calendar => read_calendar(alloc, items, component),
        _ => read_other(alloc, items, component),
    }
}

/// The items of components of a file.
fn read_components(
    alloc: Global,
    lines: &[Mark<'_>],
    components: &[Span],
) -> Result<Vec<Item>, ItemError>
    ensures ok { IfOk result (λ items. spec.read_behind [] (flat_map spec.texts_of (parts_at lines.now components.now)) ≡ Ok items.items) }
    ensures err { IfErr result (λ e. (e ≡ ItemError.NoMemory) ⊎ (spec.read_behind [] (flat_map spec.texts_of (parts_at lines.now components.now)) ≡ Err e)) }
{
    let mut items = Vec::new(alloc);
    for component in components {
        if let Err(error) = read_component(alloc, &mut items, part_at(lines, *component)) {
            return Err(error);
        }
    }
    Ok(items)
}

/// The items of a file that is UTF-8.
fn split_text(alloc: Global, text: &str) -> Result<Vec<Item>, ItemError>
    requires { length text.now ≤ 268_435_456 }
    ensures ok { IfOk result (λ items. spec.split_text text.now ≡ Ok items.items) }
    ensures err { IfErr result (λ e. (e ≡ ItemError.NoMemory) ⊎ (spec.split_text text.now ≡ Err e)) }
{
    let bump = Bump::new(alloc);
    let lines = match marks_of(alloc, &bump, Lines::of(without_mark(text))) {
        Ok(lines) => lines,
        Err(error) => return Err(error),
    };
    let Ok(components) = cut(alloc, Level::File, &lines) else {
        return Err(ItemError::NoMemory);
    };
    read_components(alloc, &lines, &components)
}

/// The items of a file of components, in order (this project's own; iCalendar is RFC 5545, section 3.4, vCard RFC 6350, section 3.3).
///
/// A VCALENDAR gives one item for each UID of its children, where the first child of it stands, and one for each child without UID. It
/// has the properties and all time zones of the VCALENDAR and, of the children, those of its UID. Any other component is one item. Each
/// logical line is written trimmed and folded; blank lines aren't written.
///
/// `TooLong` where the file has more than 256 MiB, else `NotUtf8`. Then the lowest line that shows a fault is told, with its number in the
/// file: `Extra` where it stands outside a component, isn't blank and opens none; `Unbalanced` where it closes a component that isn't the
/// innermost one open, or the file ends within one; `LongUid` for a UID of more than 500 bytes. Then `TooLong` where an item has more
/// than 8 MiB.
pub fn split_file(alloc: Global, text: &[u8]) -> Result<Vec<Item>, ItemError>
    ensures ok { IfOk result (λ items. spec.split text.now ≡ Ok items.items) }
    ensures err { IfErr result (λ e. (e ≡ ItemError.NoMemory) ⊎ (spec.split text.now ≡ Err e)) }
{
    if text.len() as u64 > MAX_FILE {
        return Err(ItemError::TooLong);
    }
    let utf8 = match std::str::from_utf8(text) {
        Ok(utf8) => utf8,
        Err(error) => {
            return Err(ItemError::NotUtf8 {
                place: error.valid_up_to() as u64,
            });
        }
    };
    split_text(alloc, utf8)
}
