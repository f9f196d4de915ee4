//! The components that are open at a line, and what may stand there.

ghost use Rattle.std.specs.Prelude.{◌≡◌, ℕ, true, false, List, [], ◌∷◌, None, Some, OnOk, not, ◌&&◌, if◌then◌else◌};
ghost use Rattle.std.specs.List.{list_any};
ghost use Rattle.std.specs.Option.{option_map};
ghost use Rattle.item_text.specs.Components as spec;
ghost use Rattle.item_text.specs.Components.{upper, is_timezone};
ghost use Rattle.item_text.specs.Edits as edits;
ghost use Rattle.item_text.specs.NormalForm as form;
ghost use Rattle.item_text.specs.Refusals as refused;
ghost use Rattle.item_text.specs.Kinds.{kind_seen};
ghost use Rattle.item_text.specs.Places.{place_at, place_seen, names_of, IsCounted, IsDepth};

use crate::item::ItemError;
use crate::normal::is_dropped;
use crate::words::{LineKind, is_word, value_of};
use std::alloc::{AllocError, Global};

/// The longest UID, in bytes.
const MAX_UID: usize = 500;

/// The open components: their names, the innermost last, and how many of them are VTIMEZONE.
#[derive(Drop)]
pub struct Stack<'a> {
    /// Whether the component of the text has begun.
    begun: bool,
    names: Vec<&'a str>,
    zones: usize,
}

/// How deep a line stands, with the names that tell what may stand there.
#[derive(Clone, Copy)]
pub enum Depth<'a> {
    /// In no component.
    Empty,
    /// In a top component alone.
    One(&'a str),
    /// In a child, the second, of a top component, the first.
    Two(&'a str, &'a str),
    /// Deeper: the innermost component.
    Deep(&'a str),
}

/// Whether this is the name of a VCALENDAR, in any case of letters.
pub fn is_calendar(name: &str) -> bool
    ensures { result ≡ spec.is_calendar (upper name.now) }
{
    is_word(name, "VCALENDAR")
}

/// Whether this is the name of a VTIMEZONE, in any case of letters.
pub fn is_timezone(name: &str) -> bool
    ensures { result ≡ is_timezone (upper name.now) }
{
    is_word(name, "VTIMEZONE")
}

/// Whether a component of this name within a top component is a child of a VCALENDAR, and no VTIMEZONE.
fn is_child(top: &str, name: &str) -> bool
    ensures { result ≡ (spec.is_calendar (upper top.now) && not (is_timezone (upper name.now))) }
{
    is_calendar(top) && !is_timezone(name)
}

/// The fault of a line that isn't blank outside the component of the text.
#[tactic(auto, unfolding(crate::specs::Refusals::fault_at, crate::specs::Places::place_at))]
fn outside_fault(begun: bool, number: u32) -> ItemError
    ensures { Some result ≡ refused.fault_at number (place_at [] begun) (spec.Closes []) }
{
    if begun {
        ItemError::Extra { line: number }
    } else {
        ItemError::NoComponent { line: number }
    }
}

/// The fault of a line outside the component of the text, if it has one.
#[tactic(auto, unfolding(crate::specs::Refusals::fault_at, crate::specs::Places::place_at))]
fn fault_outside(begun: bool, number: u32, kind: LineKind<'_>) -> Option<ItemError>
    ensures { result ≡ refused.fault_at number (place_at [] begun) (kind_seen kind.entry) }
{
    match kind {
        LineKind::Blank => None,
        LineKind::Opens(_) => {
            if begun {
                Some(ItemError::Extra { line: number })
            } else {
                None
            }
        }
        LineKind::Closes(_) => Some(outside_fault(begun, number)),
        LineKind::Property(_, _) => Some(outside_fault(begun, number)),
    }
}

#[tactic(auto, unfolding(crate::specs::Refusals::long_uid))]
fn long_uid(number: u32, uid: Option<&str>) -> Option<ItemError>
    ensures { result ≡ refused.long_uid number (option_map (λ x. x.now) uid.entry) }
{
    match uid {
        Some(uid) => {
            if uid.len() > MAX_UID {
                Some(ItemError::LongUid { line: number })
            } else {
                None
            }
        }
        None => None,
    }
}

/// The fault of a line within a component, if it has one, by the UID that the line gives.
#[tactic(auto, unfolding(crate::specs::Refusals::fault_at, crate::specs::Refusals::closes, crate::specs::Refusals::long_uid, crate::specs::Components::uid_at))]
fn fault_within(
    innermost: &str,
    number: u32,
    kind: LineKind<'_>,
    uid: Option<&str>,
) -> Option<ItemError>
    ensures { (outer : List (List ℕ)) → option_map (λ x. x.now) uid.entry ≡ spec.uid_at (spec.Within (upper innermost.now ∷ outer)) (kind_seen kind.entry) → result ≡ refused.fault_at number (spec.Within (upper innermost.now ∷ outer)) (kind_seen kind.entry) }
{
    match kind {
        LineKind::Blank => None,
        LineKind::Opens(_) => None,
        LineKind::Closes(name) => {
            if is_word(innermost, name) {
                None
            } else {
                Some(ItemError::Unbalanced { line: number })
            }
        }
        LineKind::Property(_, _) => long_uid(number, uid),
    }
}

impl<'a> Stack<'a> {
    /// None is open yet.
    #[tactic(auto, unfolding(crate::specs::Places::place_at))]
    pub fn new(alloc: Global) -> Stack<'a>
        ensures place { place_seen result ≡ spec.Before }
        ensures counted { IsCounted result }
    {
        Stack {
            begun: false,
            names: Vec::new(alloc),
            zones: 0,
        }
    }

    /// How deep the next line stands.
    pub fn depth(&self) -> Depth<'a>
        ensures { IsDepth result (names_of self.now) }
    {
        match self.names.as_slice() {
            [] => Depth::Empty,
            [top] => Depth::One(top),
            [top, child] => Depth::Two(top, child),
            [.., innermost] => Depth::Deep(innermost),
        }
    }

    /// The fault of a line of this kind here, if it has one, by the UID that the line gives.
    pub fn fault(&self, number: u32, kind: LineKind<'_>, uid: Option<&str>) -> Option<ItemError>
        requires { option_map (λ x. x.now) uid ≡ spec.uid_at (place_seen self.now) (kind_seen kind) }
        ensures { result ≡ refused.fault_at number (place_seen self.now) (kind_seen kind.entry) }
    {
        match self.depth() {
            Depth::Empty => fault_outside(self.begun, number, kind),
            Depth::One(top) => fault_within(top, number, kind, uid),
            Depth::Two(_, child) => fault_within(child, number, kind, uid),
            Depth::Deep(innermost) => fault_within(innermost, number, kind, uid),
        }
    }

    /// The refusal where the text, of this many physical lines, ends here.
    #[tactic(auto, unfolding(crate::specs::Refusals::fault_of_end, crate::specs::Refusals::first_of, crate::specs::Places::place_at))]
    pub fn end_fault(&self, count: u32) -> Option<ItemError>
        ensures { result ≡ refused.first_of (refused.fault_of_end count (place_seen self.now)) }
    {
        match self.depth() {
            Depth::Empty => {
                if self.begun {
                    None
                } else {
                    Some(ItemError::NoComponent { line: 1 })
                }
            }
            Depth::One(_) => Some(ItemError::Unbalanced { line: count }),
            Depth::Two(_, _) => Some(ItemError::Unbalanced { line: count }),
            Depth::Deep(_) => Some(ItemError::Unbalanced { line: count }),
        }
    }

    /// Whether a property here may be a UID.
    #[tactic(auto, unfolding(crate::specs::Components::holds_uid, crate::specs::Places::place_at))]
    fn holds_uid(&self) -> bool
        ensures { result ≡ spec.holds_uid (place_seen self.now) }
    {
        match self.depth() {
            Depth::Empty => false,
            Depth::One(top) => !is_calendar(top),
            Depth::Two(top, child) => is_child(top, child),
            Depth::Deep(_) => false,
        }
    }

    /// Whether a component of this name that opens here holds a UID.
    #[tactic(auto, unfolding(crate::specs::Edits::opens_holder, crate::specs::Components::next_place, crate::specs::Components::holds_uid, crate::specs::Places::place_at))]
    fn takes_holder(&self, name: &str) -> bool
        ensures { result ≡ edits.opens_holder (place_seen self.now) (spec.Opens (upper name.now)) }
    {
        match self.depth() {
            Depth::Empty => !(self.begun || is_calendar(name)),
            Depth::One(top) => is_child(top, name),
            Depth::Two(_, _) => false,
            Depth::Deep(_) => false,
        }
    }

    /// Whether a line of this kind opens a component here that holds a UID.
    #[tactic(auto, unfolding(crate::specs::Edits::opens_holder))]
    pub(crate) fn opens_holder(&self, kind: LineKind<'_>) -> bool
        ensures { result ≡ edits.opens_holder (place_seen self.now) (kind_seen kind.entry) }
    {
        match kind {
            LineKind::Opens(name) => self.takes_holder(name),
            LineKind::Closes(_) => false,
            LineKind::Property(_, _) => false,
            LineKind::Blank => false,
        }
    }

    /// The UID that a line of this kind gives here, if it gives one.
    #[tactic(auto, unfolding(crate::specs::Components::uid_at))]
    pub fn uid(&self, kind: LineKind<'a>) -> Option<&'a str>
        ensures { option_map (λ x. x.now) result ≡ spec.uid_at (place_seen self.now) (kind_seen kind.entry) }
    {
        match kind {
            LineKind::Property(name, line) => {
                if !self.holds_uid() || !is_word(name, "UID") {
                    return None;
                }
                let value = value_of(line);
                if value.is_empty() { None } else { Some(value) }
            }
            _ => None,
        }
    }

    /// Whether a component of this name that opens here is a child of a VCALENDAR, and no VTIMEZONE.
    #[tactic(auto, unfolding(crate::specs::Refusals::begins_child, crate::specs::Places::place_at))]
    fn takes_child(&self, name: &str) -> bool
        ensures { (number : ℕ) → refused.begins_child number (place_seen self.now) (spec.Opens (upper name.now)) ≡ (if result then Some (refused.Begins number) else None) }
    {
        match self.depth() {
            Depth::Empty => false,
            Depth::One(top) => is_child(top, name),
            Depth::Two(_, _) => false,
            Depth::Deep(_) => false,
        }
    }

    /// Whether a line of this kind begins a child of a VCALENDAR here.
    pub(crate) fn begins_child(&self, kind: LineKind<'_>) -> bool
        ensures { (number : ℕ) → refused.begins_child number (place_seen self.now) (kind_seen kind.entry) ≡ (if result then Some (refused.Begins number) else None) }
    {
        match kind {
            LineKind::Opens(name) => self.takes_child(name),
            LineKind::Closes(_) => false,
            LineKind::Property(_, _) => false,
            LineKind::Blank => false,
        }
    }

    /// Whether a line of this kind opens a VCALENDAR as the component of the text.
    #[tactic(auto, unfolding(crate::specs::Refusals::opens_calendar_at, crate::specs::Places::place_at))]
    pub(crate) fn opens_calendar(&self, kind: LineKind<'_>) -> bool
        ensures { result ≡ refused.opens_calendar_at (place_seen self.now) (kind_seen kind.entry) }
    {
        match kind {
            LineKind::Opens(name) => self.is_before() && is_calendar(name),
            LineKind::Closes(_) => false,
            LineKind::Property(_, _) => false,
            LineKind::Blank => false,
        }
    }

    /// Whether the component of the text is still to come.
    #[tactic(auto, unfolding(crate::specs::Refusals::opens_calendar_at, crate::specs::Places::place_at))]
    fn is_before(&self) -> bool
        ensures { (name : List ℕ) → refused.opens_calendar_at (place_seen self.now) (spec.Opens name) ≡ (result && spec.is_calendar name) }
    {
        match self.depth() {
            Depth::Empty => !self.begun,
            Depth::One(_) => false,
            Depth::Two(_, _) => false,
            Depth::Deep(_) => false,
        }
    }

    fn in_zone(&self) -> bool
        requires { IsCounted self.now }
        ensures { result ≡ list_any is_timezone (names_of self.now) }
    {
        self.zones > 0
    }

    #[tactic(auto, unfolding(crate::specs::NormalForm::is_in_calendar))]
    fn in_calendar(&self) -> bool
        ensures { result ≡ form.is_in_calendar (names_of self.now) }
    {
        match self.depth() {
            Depth::Empty => false,
            Depth::One(top) => is_calendar(top),
            Depth::Two(_, child) => is_calendar(child),
            Depth::Deep(innermost) => is_calendar(innermost),
        }
    }

    /// Whether the normal form keeps a property of this name here.
    fn keeps_property(&self, name: &str) -> bool
        requires { IsCounted self.now }
        ensures { result ≡ (not (list_any is_timezone (names_of self.now)) && not (form.is_in_calendar (names_of self.now)) && not (form.is_dropped (upper name.now))) }
    {
        !self.in_zone() && !self.in_calendar() && !is_dropped(name)
    }

    /// Whether the normal form keeps a line of this kind here.
    #[tactic(auto, unfolding(crate::specs::NormalForm::keeps))]
    pub(crate) fn keeps(&self, kind: LineKind<'_>) -> bool
        requires { IsCounted self.now }
        ensures { result ≡ form.keeps (names_of self.now) (kind_seen kind.entry) }
    {
        match kind {
            LineKind::Opens(name) => !(is_timezone(name) || self.in_zone()),
            LineKind::Closes(_) => !self.in_zone(),
            LineKind::Property(name, _) => self.keeps_property(name),
            LineKind::Blank => false,
        }
    }

    fn enter(&mut self, name: &'a str) -> Result<(), AllocError>
        requires { IsCounted self.old }
        ensures counted { OnOk result (IsCounted self.new) }
        ensures place { OnOk result (place_seen self.new ≡ spec.Within (upper name.now ∷ names_of self.old)) }
    {
        self.names.push(name)?;
        self.begun = true;
        if is_timezone(name) {
            self.zones += 1;
        }
        Ok(())
    }

    fn leave(&mut self)
        requires { IsCounted self.old }
        ensures counted { IsCounted self.new }
        ensures place { place_seen self.new ≡ spec.outside_of (names_of self.old) }
    {
        self.begun = true;
        if let Some(name) = self.names.pop() {
            if is_timezone(name) {
                self.zones -= 1;
            }
        }
    }

    /// Goes over a line of this kind, which has no fault here. An error where memory runs out.
    pub fn go(&mut self, kind: LineKind<'a>) -> Result<(), AllocError>
        requires counted { IsCounted self.old }
        requires fits { (number : ℕ) × (refused.fault_at number (place_seen self.old) (kind_seen kind) ≡ None) }
        ensures counted { OnOk result (IsCounted self.new) }
        ensures place { OnOk result (place_seen self.new ≡ spec.next_place (place_seen self.old) (kind_seen kind.entry)) }
    {
        match kind {
            LineKind::Opens(name) => {
                self.enter(name)?;
                Ok(())
            }
            LineKind::Closes(_) => {
                self.leave();
                Ok(())
            }
            LineKind::Property(_, _) => Ok(()),
            LineKind::Blank => Ok(()),
        }
    }
}
