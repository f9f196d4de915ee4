//! The text of an item with another UID.

ghost use Rattle.std.specs.Prelude.{◌≡◌, ◌<◌, ◌≤◌, ◌^◌, ◌==◌, ◌++◌, ℕ, false, List, [], ◌∷◌, None, IfOk, OnOk, map, take, drop, length, string_bytes};
ghost use Rattle.std.specs.List.{filter_map, slice_split, join_with_byte};
ghost use Rattle.item_text.specs.Components.{placed};
ghost use Rattle.item_text.specs.Edits as spec;
ghost use Rattle.item_text.specs.Kinds.{kind_seen};
ghost use Rattle.item_text.specs.Lines.{logical_lines};
ghost use Rattle.item_text.specs.Places.{place_seen};
ghost use Rattle.item_text.specs.Refusals.{fault_of};
ghost use Rattle.item_text.specs.Seen.{left_behind, size_of};

use crate::lines::{Lines, begins_blank, without_mark};
use crate::stack::Stack;
use crate::words::{LineKind, kind_of, trimmed};
use bumpalo::Bump;
use std::alloc::{AllocError, Global};

/// What a line is to the components that hold a UID.
#[derive(Clone, Copy)]
pub(crate) enum Role {
    /// It opens one.
    Opener,
    /// It gives a UID.
    Giver,
    Other,
}

/// What becomes of a line.
#[derive(Clone, Copy)]
pub(crate) enum Change {
    Stays,
    /// The line of the new UID takes its place.
    Replaced,
    /// The line of the new UID comes directly behind it.
    Followed,
}

#[tactic(auto, unfolding(crate::specs::Edits::role_at))]
fn role_of<'a>(stack: &Stack<'a>, kind: LineKind<'a>) -> Role
    ensures { result ≡ spec.role_at (place_seen stack.now) (kind_seen kind.entry) }
{
    if stack.opens_holder(kind) {
        Role::Opener
    } else if stack.uid(kind).is_some() {
        Role::Giver
    } else {
        Role::Other
    }
}

/// The role of each line that is left of an item.
fn roles<'a>(alloc: Global, bump: &'a Bump, lines: &mut Lines<'a>) -> Result<Vec<Role>, AllocError>
    requires size { size_of lines.old < 2 ^ 32 }
    requires fine { filter_map fault_of (placed (left_behind None lines.old)) ≡ [] }
    ensures { IfOk result (λ v. v.items ≡ map spec.role_of (placed (left_behind None lines.old))) }
{
    let mut stack = Stack::new(alloc);
    let mut all = Vec::new(alloc);
    while let Some(line) = lines.next(alloc, bump)? {
        let kind = kind_of(trimmed(line.text));
        all.push(role_of(&stack, kind))?;
        stack.go(kind)?;
    }
    Ok(all)
}

/// Whether a UID comes before the next component that holds one.
#[tactic(auto, unfolding(crate::specs::Edits::gives_uid))]
fn gives_uid(roles: &[Role]) -> bool
    ensures { result ≡ spec.gives_uid roles.now }
{
    for role in roles {
        match role {
            Role::Opener => return false,
            Role::Giver => return true,
            Role::Other => {}
        }
    }
    false
}

/// What becomes of a line of this role, and whether the first UID of the component that opened last is still to come behind it.
#[tactic(auto, unfolding(crate::specs::Edits::changes))]
fn change_of(role: Role, seeking: bool, more: &[Role]) -> (Change, bool)
    ensures { result.0 ∷ spec.changes result.1 more.now ≡ spec.changes seeking (role ∷ more.now) }
{
    match role {
        Role::Opener => {
            if gives_uid(more) {
                (Change::Stays, true)
            } else {
                (Change::Followed, false)
            }
        }
        Role::Giver => {
            if seeking {
                (Change::Replaced, false)
            } else {
                (Change::Stays, false)
            }
        }
        Role::Other => (Change::Stays, seeking),
    }
}

fn changes(alloc: Global, roles: &[Role]) -> Result<Vec<Change>, AllocError>
    ensures { IfOk result (λ v. v.items ≡ spec.changes false roles.now) }
{
    let mut all = Vec::new(alloc);
    let mut rest = roles;
    let mut seeking = false;
    while let Some((role, more)) = rest.split_first() {
        let (change, still) = change_of(*role, seeking, more);
        all.push(change)?;
        seeking = still;
        rest = more;
    }
    Ok(all)
}

/// What stands between the line feeds of a text.
fn split_feeds(alloc: Global, text: &str) -> Result<Vec<&str>, AllocError>
    ensures { IfOk result (λ v. map (λ x. x.now) v.items ≡ slice_split (λ b. b == 10) text.now) }
{
    text.split('\n').collect(alloc)
}

/// How many of these parts continue the line of a part before them.
fn continuing(parts: &[&str]) -> usize
    ensures few { result ≤ length parts.now }
    ensures line { (part : List ℕ) → spec.by_line (part ∷ map (λ x. x.now) parts.now) ≡ (part ∷ take result (map (λ x. x.now) parts.now)) ∷ spec.by_line (drop result (map (λ x. x.now) parts.now)) }
{
    let mut count = 0;
    for part in parts {
        if !begins_blank(part.as_bytes()) {
            return count;
        }
        count += 1;
    }
    count
}

/// The change of the next line, and those behind it; behind all changes the lines stay.
fn next_change(changes: &[Change]) -> (Change, &[Change])
    ensures { (new : List ℕ) (parts : List (List ℕ)) (rest : List (List (List ℕ))) → spec.all_changed new changes.now (parts ∷ rest) ≡ spec.changed new result.0 parts ++ spec.all_changed new result.1.now rest }
{
    match changes.split_first() {
        Some((change, more)) => (*change, more),
        None => (Change::Stays, changes),
    }
}

/// Puts a line of this change behind others.
#[tactic(auto, unfolding(crate::specs::Edits::changed))]
fn put_line<'a>(
    all: &mut Vec<&'a str>,
    new: &'a str,
    change: Change,
    parts: &[&'a str],
) -> Result<(), AllocError>
    ensures { OnOk result (map (λ x. x.now) all.new.items ≡ map (λ x. x.now) all.old.items ++ spec.changed new.now change (map (λ x. x.now) parts.now)) }
{
    match change {
        Change::Stays => {
            all.extend_from_slice(parts)?;
            Ok(())
        }
        Change::Replaced => {
            all.push(new)?;
            Ok(())
        }
        Change::Followed => {
            all.extend_from_slice(parts)?;
            all.push(new)?;
            Ok(())
        }
    }
}

/// The parts of a text whose lines have these changes.
fn changed_parts<'a>(
    alloc: Global,
    new: &'a str,
    changes: &[Change],
    parts: &[&'a str],
) -> Result<Vec<&'a str>, AllocError>
    ensures { IfOk result (λ v. map (λ x. x.now) v.items ≡ spec.all_changed new.now changes.now (spec.by_line (map (λ x. x.now) parts.now))) }
{
    let mut all = Vec::new(alloc);
    let mut left = changes;
    let mut start = 0;
    while start < parts.len() {
        let end = start + 1 + continuing(&parts[start + 1..]);
        let (change, behind) = next_change(left);
        put_line(&mut all, new, change, &parts[start..end])?;
        left = behind;
        start = end;
    }
    Ok(all)
}

/// The byte order mark at the front of a text, where it has one.
#[tactic(auto, unfolding(crate::specs::Edits::mark_of_text))]
fn front_mark(text: &str) -> &str
    ensures { result.now ≡ spec.mark_of_text text.now }
{
    if text.starts_with("\u{feff}") {
        "\u{feff}"
    } else {
        ""
    }
}

/// The line of a UID, with the carriage return at its end.
fn uid_line(alloc: Global, uid: &str) -> Result<String, AllocError>
    ensures { IfOk result (λ line. string_bytes line ≡ spec.uid_line uid.now ++ (13 ∷ [])) }
{
    let mut line = String::from_str(alloc, "UID:")?;
    line.push_str(uid)?;
    line.push_str("\r")?;
    Ok(line)
}

/// Texts joined by line feeds, behind a mark.
fn joined(alloc: Global, mark: &str, parts: &[&str]) -> Result<String, AllocError>
    ensures { IfOk result (λ text. string_bytes text ≡ mark.now ++ join_with_byte 10 (map (λ x. x.now) parts.now)) }
{
    let body = parts.join(alloc, "\n")?;
    if mark.is_empty() {
        return Ok(body);
    }
    let mut text = String::from_str(alloc, mark)?;
    text.push_str(body.as_str())?;
    Ok(text)
}

/// What becomes of the lines of an item's text.
#[tactic(auto, unfolding(crate::specs::Edits::changes_of))]
fn changes_of(alloc: Global, text: &str) -> Result<Vec<Change>, AllocError>
    requires short { length text.now ≤ 8_388_608 }
    requires fine { filter_map fault_of (placed (logical_lines text.now)) ≡ [] }
    ensures { IfOk result (λ v. v.items ≡ spec.changes_of (placed (logical_lines text.now))) }
{
    let bump = Bump::new(alloc);
    let mut lines = Lines::of(without_mark(text));
    let roles = roles(alloc, &bump, &mut lines)?;
    changes(alloc, &roles)
}

/// The text of an item with another UID.
#[tactic(auto, unfolding(crate::specs::Edits::with_uid, crate::specs::Edits::parts_of))]
pub(crate) fn with_uid(alloc: Global, text: &str, uid: &str) -> Result<String, AllocError>
    requires short { length text.now ≤ 8_388_608 }
    requires fine { filter_map fault_of (placed (logical_lines text.now)) ≡ [] }
    ensures { IfOk result (λ edited. string_bytes edited ≡ spec.with_uid text.now uid.now) }
{
    let changes = changes_of(alloc, text)?;
    let parts = split_feeds(alloc, without_mark(text))?;
    let line = uid_line(alloc, uid)?;
    let edited = changed_parts(alloc, line.as_str(), &changes, &parts)?;
    joined(alloc, front_mark(text), &edited)
}
