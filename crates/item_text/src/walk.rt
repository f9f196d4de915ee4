//! The walk over the lines of a text: the first refusal, the first UID and what the normal form keeps.

ghost use Rattle.std.specs.Prelude.{◌≡◌, not, ◌<◌, ◌^◌, ◌++◌, ◌⊎◌, List, [], ◌∷◌, None, Some, Err, true, OnOk, IfOk, IfErr, map, if◌then◌else◌};
ghost use Rattle.std.specs.List.{list_all};
ghost use Rattle.std.specs.Option.{option_map};
ghost use Rattle.item_text.specs.Lines as spec;
ghost use Rattle.item_text.specs.Components.{upper, is_lower, kind_of};
ghost use Rattle.item_text.specs.NormalForm as form;
ghost use Rattle.item_text.specs.Refusals as refused;
ghost use Rattle.item_text.specs.Kinds.{kind_seen};
ghost use Rattle.item_text.specs.Seen.{line_seen, left_behind, count_of, size_of};
ghost use Rattle.item_text.specs.Places.{place_seen, names_of, IsCounted};
ghost use Rattle.item_text.specs.Walks.{found_from, found_in};

use crate::children::{Children, first};
use crate::item::ItemError;
use crate::lines::{Line, Lines};
use crate::stack::Stack;
use crate::words::{LineKind, kind_of, trimmed};
use bumpalo::Bump;
use std::alloc::{AllocError, Global};

/// What the lines so far gave.
#[derive(Drop)]
pub(crate) struct Walk<'a> {
    pub(crate) stack: Stack<'a>,
    /// The first UID.
    pub(crate) uid: Option<&'a str>,
    /// The number of the opening line, where the component of the text is a VCALENDAR.
    pub(crate) calendar: Option<u32>,
    pub(crate) children: Children<'a>,
    /// The lines that the normal form keeps.
    pub(crate) kept: Vec<&'a str>,
}

fn is_lower(b: u8) -> bool
    ensures { result ≡ is_lower b }
{
    b'a' <= b && b <= b'z'
}

fn has_no_lower(bytes: &[u8]) -> bool
    ensures { result ≡ list_all (λ b. not (is_lower b)) bytes.now }
{
    bytes.iter().all(|b| !is_lower(*b))
}

/// Whether a text is a head and a name, without a lower-case letter.
fn is_headed(text: &str, head: &str, name: &str) -> bool
    ensures { result ≡ true → text.now ≡ upper (head.now ++ name.now) }
{
    let Some(rest) = text.strip_prefix(head) else {
        return false;
    };
    if rest == name {
        has_no_lower(text.as_bytes())
    } else {
        false
    }
}

/// A head and a name in upper case. The text is lent where it is that.
fn headed<'a>(
    alloc: Global,
    bump: &'a Bump,
    text: &'a str,
    head: &str,
    name: &str,
) -> Result<&'a str, AllocError>
    ensures { IfOk result (λ t. t.now ≡ upper (head.now ++ name.now)) }
{
    if is_headed(text, head, name) {
        return Ok(text);
    }
    let mut text = String::from_str(alloc, head)?;
    text.push_str(name)?;
    text.make_ascii_uppercase();
    bump.try_alloc_str(text.as_str())
}

/// A trimmed line of this kind as the normal form has it.
#[tactic(auto, unfolding(crate::specs::NormalForm::written_as))]
fn written<'a>(
    alloc: Global,
    bump: &'a Bump,
    text: &'a str,
    kind: LineKind<'a>,
) -> Result<&'a str, AllocError>
    ensures { IfOk result (λ t. t.now ≡ form.written_as text.now (kind_seen kind.entry)) }
{
    match kind {
        LineKind::Opens(name) => headed(alloc, bump, text, "BEGIN:", name),
        LineKind::Closes(name) => headed(alloc, bump, text, "END:", name),
        LineKind::Property(_, _) => Ok(text),
        LineKind::Blank => Ok(text),
    }
}

/// Keeps a line, where it stays in the normal form.
fn keep<'a>(
    alloc: Global,
    bump: &'a Bump,
    kept: &mut Vec<&'a str>,
    stays: bool,
    text: &'a str,
    kind: LineKind<'a>,
) -> Result<(), AllocError>
    ensures { OnOk result (map (λ x. x.now) kept.new.items ≡ map (λ x. x.now) kept.old.items ++ (if stays then form.written_as text.now (kind_seen kind.entry) ∷ [] else [])) }
{
    if !stays {
        return Ok(());
    }
    let line = written(alloc, bump, text, kind)?;
    kept.push(line)?;
    Ok(())
}

#[tactic(auto, unfolding(crate::specs::Refusals::else_of))]
fn first_number(calendar: Option<u32>, opens: bool, number: u32) -> Option<u32>
    ensures { result ≡ refused.else_of calendar (if opens then Some number else None) }
{
    match calendar {
        Some(calendar) => Some(calendar),
        None => { if opens { Some(number) } else { None } }
    }
}

impl<'a> Walk<'a> {
    fn new(alloc: Global) -> Walk<'a>
        ensures counted { IsCounted result.stack }
        ensures starts { (all : List spec.Line) → found_from result all ≡ found_in all }
    {
        Walk {
            stack: Stack::new(alloc),
            uid: None,
            calendar: None,
            children: Children::new(alloc),
            kept: Vec::new(alloc),
        }
    }

    /// Goes over a line.
    fn go(&mut self, alloc: Global, bump: &'a Bump, line: Line<'a>) -> Result<(), ItemError>
        requires { IsCounted self.old.stack }
        ensures counted { OnOk result (IsCounted self.new.stack) }
        ensures goes { OnOk result ((rest : List spec.Line) → found_from self.new rest ≡ found_from self.old (line_seen line.entry ∷ rest)) }
        ensures err { IfErr result (λ e. (e ≡ ItemError.NoMemory) ⊎ (refused.fault_at line.entry.number (place_seen self.old.stack) (kind_of (spec.trimmed line.entry.text.now)) ≡ Some e)) }
    {
        let Line { number, text } = line;
        let text = trimmed(text);
        let kind = kind_of(text);
        let uid = self.stack.uid(kind);
        if let Some(error) = self.stack.fault(number, kind, uid) {
            return Err(error);
        }
        let stays = self.stack.keeps(kind);
        let Ok(()) = keep(alloc, bump, &mut self.kept, stays, text, kind) else {
            return Err(ItemError::NoMemory);
        };
        let begins = self.stack.begins_child(kind);
        let Ok(()) = self.children.note(number, begins, uid) else {
            return Err(ItemError::NoMemory);
        };
        self.uid = first(self.uid, uid);
        self.calendar = first_number(self.calendar, self.stack.opens_calendar(kind), number);
        let Ok(()) = self.stack.go(kind) else {
            return Err(ItemError::NoMemory);
        };
        Ok(())
    }
}

/// Goes over all lines that are left.
pub(crate) fn go_over<'a>(
    alloc: Global,
    bump: &'a Bump,
    lines: &mut Lines<'a>,
) -> Result<Walk<'a>, ItemError>
    requires { size_of lines.old < 2 ^ 32 }
    ensures ok { IfOk result (λ w. found_from w [] ≡ found_in (left_behind None lines.old)) }
    ensures err { IfErr result (λ e. (e ≡ ItemError.NoMemory) ⊎ (refused.first_of (found_in (left_behind None lines.old)).faults ≡ Some e)) }
    ensures all { IfOk result (λ w. left_behind None lines.new ≡ []) }
    ensures count { count_of lines.new ≡ count_of lines.old }
{
    let mut walk = Walk::new(alloc);
    loop {
        let Ok(next) = lines.next(alloc, bump) else {
            return Err(ItemError::NoMemory);
        };
        let Some(line) = next else {
            return Ok(walk);
        };
        if let Err(error) = walk.go(alloc, bump, line) {
            return Err(error);
        }
    }
}
