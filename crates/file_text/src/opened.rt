//! The components that are open at a line of a file, and what the line is there.

ghost use Rattle.std.specs.Prelude.{◌≡◌, ◌==◌, ℕ, List, [], ◌∷◌, None, OnOk, is_some, length};
ghost use Rattle.std.specs.Option.{option_map};
ghost use Rattle.item_text.specs.Components as spec;
ghost use Rattle.item_text.specs.Kinds.{kind_seen};
ghost use Rattle.item_text.specs.Places as places;
ghost use Rattle.item_text.specs.Places.{IsCounted};
ghost use Rattle.file_text.specs.Marks as file;
ghost use Rattle.file_text.specs.Opened.{place_seen};

use crate::marks::Role;
use item_text::ItemError;
use item_text::stack::{Depth, Stack, is_calendar, is_timezone};
use item_text::words::LineKind;
use std::alloc::{AllocError, Global};

/// The open components of a file, in which another may begin behind each.
#[derive(Drop)]
pub(crate) struct Opened<'a> {
    stack: Stack<'a>,
}

/// The fault of a line outside a component, if it has one.
#[tactic(auto, unfolding(item_text::specs::Refusals::fault_at, crate::specs::Marks::fault_in_file))]
fn fault_outside(number: u32, kind: LineKind<'_>) -> Option<ItemError>
    ensures { result ≡ file.fault_in_file number spec.Before (kind_seen kind.entry) }
{
    match kind {
        LineKind::Blank => None,
        LineKind::Opens(_) => None,
        LineKind::Closes(_) => Some(ItemError::Extra { line: number }),
        LineKind::Property(_, _) => Some(ItemError::Extra { line: number }),
    }
}

impl<'a> Opened<'a> {
    pub(crate) fn new(alloc: Global) -> Opened<'a>
        ensures place { place_seen result ≡ spec.Before }
        ensures counted { IsCounted result.stack }
    {
        Opened {
            stack: Stack::new(alloc),
        }
    }

    /// Whether no component is open.
    fn is_outside(&self) -> bool
        ensures { result ≡ (length (places.names_of self.now.stack) == 0) }
    {
        match self.stack.depth() {
            Depth::Empty => true,
            Depth::One(_) => false,
            Depth::Two(_, _) => false,
            Depth::Deep(_) => false,
        }
    }

    /// The fault of a line of this kind here, if it has one, by the UID that the line gives.
    pub(crate) fn fault(
        &self,
        number: u32,
        kind: LineKind<'_>,
        uid: Option<&str>,
    ) -> Option<ItemError>
        requires { option_map (λ x. x.now) uid ≡ spec.uid_at (place_seen self.now) (kind_seen kind) }
        ensures { result ≡ file.fault_in_file number (place_seen self.now) (kind_seen kind.entry) }
    {
        if self.is_outside() {
            fault_outside(number, kind)
        } else {
            self.stack.fault(number, kind, uid)
        }
    }

    /// The refusal where the file, of this many physical lines, ends here.
    pub(crate) fn end_fault(&self, count: u32) -> Option<ItemError>
        ensures { result ≡ file.fault_of_end count (place_seen self.now) }
    {
        if self.is_outside() {
            None
        } else {
            self.stack.end_fault(count)
        }
    }

    /// The UID that a line of this kind gives here, if it gives one.
    pub(crate) fn uid(&self, kind: LineKind<'a>) -> Option<&'a str>
        ensures { option_map (λ x. x.now) result ≡ spec.uid_at (place_seen self.now) (kind_seen kind.entry) }
    {
        self.stack.uid(kind)
    }

    /// What a line of this kind is here.
    pub(crate) fn role(&self, kind: LineKind<'_>, gives_uid: bool) -> Role
        requires { gives_uid ≡ is_some (spec.uid_at (place_seen self.now) (kind_seen kind)) }
        ensures { result ≡ file.role_at (place_seen self.now) (kind_seen kind.entry) }
    {
        match self.stack.depth() {
            Depth::Empty => role_outside(kind),
            Depth::One(_) => direct_role(kind),
            Depth::Two(_, _) => deep_role(gives_uid),
            Depth::Deep(_) => deep_role(gives_uid),
        }
    }

    /// Makes room for another component behind the last.
    fn reopen(&mut self, alloc: Global)
        requires { IsCounted self.old.stack }
        ensures place { places.place_seen self.new.stack ≡ place_seen self.old }
        ensures counted { IsCounted self.new.stack }
    {
        if self.is_outside() {
            self.stack = Stack::new(alloc);
        }
    }

    /// Goes over a line of this kind, which has no fault here.
    pub(crate) fn go(&mut self, alloc: Global, kind: LineKind<'a>) -> Result<(), AllocError>
        requires counted { IsCounted self.old.stack }
        requires fits { (number : ℕ) × (file.fault_in_file number (place_seen self.old) (kind_seen kind) ≡ None) }
        ensures counted { OnOk result (IsCounted self.new.stack) }
        ensures place { OnOk result (place_seen self.new ≡ file.next_in_file (place_seen self.old) (kind_seen kind.entry)) }
    {
        self.reopen(alloc);
        self.stack.go(kind)
    }
}

/// What a line is outside a component.
#[tactic(auto, unfolding(crate::specs::Marks::role_at))]
fn role_outside(kind: LineKind<'_>) -> Role
    ensures { result ≡ file.role_at spec.Before (kind_seen kind.entry) }
{
    match kind {
        LineKind::Opens(name) => {
            if is_calendar(name) {
                Role::Calendar
            } else {
                Role::Other
            }
        }
        LineKind::Closes(_) => Role::Deep,
        LineKind::Property(_, _) => Role::Deep,
        LineKind::Blank => Role::Deep,
    }
}

/// What a line is directly in a component of the file.
#[tactic(auto, unfolding(crate::specs::Marks::role_at))]
fn direct_role(kind: LineKind<'_>) -> Role
    ensures { (top : List ℕ) → result ≡ file.role_at (spec.Within (top ∷ [])) (kind_seen kind.entry) }
{
    match kind {
        LineKind::Opens(name) => {
            if is_timezone(name) {
                Role::Zone
            } else {
                Role::Child
            }
        }
        LineKind::Closes(_) => Role::End,
        LineKind::Property(_, _) => Role::Property,
        LineKind::Blank => Role::Property,
    }
}

/// What a line is deeper.
#[tactic(auto, unfolding(crate::specs::Marks::role_at))]
fn deep_role(gives_uid: bool) -> Role
    ensures { (kind : spec.Kind) (name next : List ℕ) (outer : List (List ℕ)) → gives_uid ≡ is_some (spec.uid_at (spec.Within (name ∷ next ∷ outer)) kind) → result ≡ file.role_at (spec.Within (name ∷ next ∷ outer)) kind }
{
    if gives_uid { Role::Uid } else { Role::Deep }
}
