//! The lines of a file of components, each with what it is there.

ghost use Rattle.std.specs.Prelude.{◌≡◌, ◌<◌, ◌^◌, ◌∷◌, ◌++◌, ◌⊎◌, ℕ, List, None, Some, OnOk, IfOk, IfErr};
ghost use Rattle.item_text.specs.Lines as spec;
ghost use Rattle.item_text.specs.Places.{IsCounted};
ghost use Rattle.item_text.specs.Components.{Place, Before};
ghost use Rattle.item_text.specs.Kinds.{kind_seen};
ghost use Rattle.file_text.specs.Marks as file;
ghost use Rattle.file_text.specs.Opened.{place_seen, found_from};
ghost use Rattle.item_text.specs.Seen.{line_seen, left_behind, count_of, size_of};

use crate::opened::Opened;
use bumpalo::Bump;
use item_text::ItemError;
use item_text::lines::{Line, Lines};
use item_text::words::{LineKind, kind_of, trimmed};
use std::alloc::{AllocError, Global};
use values::Lent;

/// What a line is in a file.
#[derive(Clone, Copy)]
pub(crate) enum Role {
    /// It opens a VCALENDAR.
    Calendar,
    /// It opens another component of the file.
    Other,
    /// It is a property that stands directly in a component of the file.
    Property,
    /// It opens a VTIMEZONE that stands directly in one.
    Zone,
    /// It opens another component that stands directly in one.
    Child,
    /// It closes a component of the file.
    End,
    /// It gives the UID of a child of a VCALENDAR.
    Uid,
    /// Any other that stands deeper.
    Deep,
}

/// A line of a file, trimmed, with what it is there.
#[derive(Drop)]
pub(crate) struct Mark<'a> {
    pub(crate) text: Lent<'a>,
    pub(crate) role: Role,
}

/// What the lines so far gave.
#[derive(Drop)]
struct Marking<'a> {
    opened: Opened<'a>,
    marks: Vec<Mark<'a>>,
}

/// Puts a trimmed line of this kind behind others, unless it is blank.
#[tactic(auto, unfolding(crate::specs::Marks::marked))]
fn put<'a>(
    marks: &mut Vec<Mark<'a>>,
    text: &'a str,
    kind: LineKind<'a>,
    role: Role,
) -> Result<(), AllocError>
    ensures { (place : Place) → role ≡ file.role_at place (kind_seen kind.entry) → OnOk result (marks.new.items ≡ marks.old.items ++ file.marked place text.now (kind_seen kind.entry)) }
{
    let text = Lent::of(text);
    match kind {
        LineKind::Blank => Ok(()),
        LineKind::Opens(_) => {
            marks.push(Mark { text, role })?;
            Ok(())
        }
        LineKind::Closes(_) => {
            marks.push(Mark { text, role })?;
            Ok(())
        }
        LineKind::Property(_, _) => {
            marks.push(Mark { text, role })?;
            Ok(())
        }
    }
}

impl<'a> Marking<'a> {
    /// Goes over a line.
    fn go(&mut self, alloc: Global, line: Line<'a>) -> Result<(), ItemError>
        requires { IsCounted self.old.opened.stack }
        ensures counted { OnOk result (IsCounted self.new.opened.stack) }
        ensures goes { OnOk result ((count : ℕ) (rest : List spec.Line) → found_from self.new count rest ≡ found_from self.old count (line_seen line.entry ∷ rest)) }
        ensures err { IfErr result (λ e. (e ≡ ItemError.NoMemory) ⊎ ((count : ℕ) (rest : List spec.Line) → (found_from self.old count (line_seen line.entry ∷ rest)).refusal ≡ Some e)) }
    {
        let Line { number, text } = line;
        let text = trimmed(text);
        let kind = kind_of(text);
        let uid = self.opened.uid(kind);
        if let Some(error) = self.opened.fault(number, kind, uid) {
            return Err(error);
        }
        let role = self.opened.role(kind, uid.is_some());
        let Ok(()) = put(&mut self.marks, text, kind, role) else {
            return Err(ItemError::NoMemory);
        };
        let Ok(()) = self.opened.go(alloc, kind) else {
            return Err(ItemError::NoMemory);
        };
        Ok(())
    }
}

/// The lines that are left of a file, trimmed, with what they are, or why it is none.
pub(crate) fn marks_of<'a>(
    alloc: Global,
    bump: &'a Bump,
    mut lines: Lines<'a>,
) -> Result<Vec<Mark<'a>>, ItemError>
    requires { size_of lines < 2 ^ 32 }
    ensures ok { IfOk result (λ marks. (file.refusal_from (count_of lines.entry) Before (left_behind None lines.entry) ≡ None) × (marks.items ≡ file.marks_from Before (left_behind None lines.entry))) }
    ensures err { IfErr result (λ e. (e ≡ ItemError.NoMemory) ⊎ (file.refusal_from (count_of lines.entry) Before (left_behind None lines.entry) ≡ Some e)) }
{
    let mut marking = Marking {
        opened: Opened::new(alloc),
        marks: Vec::new(alloc),
    };
    loop {
        let Ok(next) = lines.next(alloc, bump) else {
            return Err(ItemError::NoMemory);
        };
        let Some(line) = next else {
            break;
        };
        if let Err(error) = marking.go(alloc, line) {
            return Err(error);
        }
    }
    let Marking { opened, marks } = marking;
    match opened.end_fault(lines.count()) {
        Some(error) => Err(error),
        None => Ok(marks),
    }
}
