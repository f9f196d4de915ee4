//! The children of a VCALENDAR, and the refusals that they give.

ghost use Rattle.std.specs.Prelude.{◌≡◌, ◌++◌, List, [], ◌∷◌, None, Some, OnOk, IfOk, map, not, if◌then◌else◌};
ghost use Rattle.std.specs.List.{find};
ghost use Rattle.std.specs.Option.{option_map, option_to_list};
ghost use Rattle.item_text.specs.Refusals as refused;
ghost use Rattle.item_text.specs.Walks.{child_seen, children_seen};

use crate::item::ItemError;
use std::alloc::{AllocError, Global};

/// A child of a VCALENDAR: the number of its opening line, and its first UID.
#[derive(Clone, Copy)]
pub(crate) struct Child<'a> {
    number: u32,
    uid: Option<&'a str>,
}

/// The children so far: the last, which a UID may still come to, and those before it.
#[derive(Drop)]
pub(crate) struct Children<'a> {
    done: Vec<Child<'a>>,
    last: Option<Child<'a>>,
}

/// The first of two UIDs that is there.
#[tactic(auto, unfolding(crate::specs::Refusals::else_of))]
pub(crate) fn first<'a>(uid: Option<&'a str>, other: Option<&'a str>) -> Option<&'a str>
    ensures { option_map (λ x. x.now) result ≡ refused.else_of (option_map (λ x. x.now) uid.entry) (option_map (λ x. x.now) other.entry) }
{
    if uid.is_none() { other } else { uid }
}

/// A child to which a UID comes.
fn given<'a>(child: Child<'a>, uid: &'a str) -> Child<'a>
    ensures { child_seen result ≡ record { number = child.entry.number; uid = refused.else_of (option_map (λ x. x.now) child.entry.uid) (Some uid.now) } }
{
    Child {
        number: child.number,
        uid: first(child.uid, Some(uid)),
    }
}

/// Whether both have a UID, and the same.
#[tactic(auto, unfolding(crate::specs::Refusals::same_uid))]
fn same_uid(uid: Option<&str>, other: Option<&str>) -> bool
    ensures { result ≡ refused.same_uid (option_map (λ x. x.now) uid.entry) (option_map (λ x. x.now) other.entry) }
{
    match (uid, other) {
        (Some(uid), Some(other)) => uid == other,
        (Some(_), None) => false,
        (None, _) => false,
    }
}

/// The first of the children that has no UID, or not the one given.
fn first_other<'a>(children: &[Child<'a>], uid: Option<&'a str>) -> Option<Child<'a>>
    ensures { option_map child_seen result ≡ find (λ (other : refused.Child). not (refused.same_uid (option_map (λ x. x.now) uid.entry) other.uid)) (map child_seen children.now) }
{
    for child in children {
        if !same_uid(uid, child.uid) {
            return Some(*child);
        }
    }
    None
}

/// The refusal of a VCALENDAR with these children, whose opening line has this number, if it has one.
#[tactic(auto, unfolding(crate::specs::Refusals::calendar_fault))]
pub(crate) fn calendar_fault(number: u32, children: &[Child<'_>]) -> Option<ItemError>
    ensures { result ≡ refused.calendar_fault number (map child_seen children.now) }
{
    match children {
        [] => Some(ItemError::NoComponent { line: number }),
        [_] => None,
        [first, ..] => match first_other(children, first.uid) {
            Some(other) => Some(ItemError::TwoUids { line: other.number }),
            None => None,
        },
    }
}

impl<'a> Children<'a> {
    pub(crate) fn new(alloc: Global) -> Children<'a>
        ensures { (rest : List refused.Mark) → children_seen result rest ≡ refused.children_of rest }
    {
        Children {
            done: Vec::new(alloc),
            last: None,
        }
    }

    fn begin(&mut self, number: u32) -> Result<(), AllocError>
        ensures { OnOk result ((rest : List refused.Mark) → children_seen self.new rest ≡ children_seen self.old (refused.Begins number ∷ rest)) }
    {
        match self.last {
            Some(child) => {
                self.done.push(child)?;
                self.last = Some(Child { number, uid: None });
                Ok(())
            }
            None => {
                self.last = Some(Child { number, uid: None });
                Ok(())
            }
        }
    }

    fn found(&mut self, uid: &'a str)
        ensures { (rest : List refused.Mark) → children_seen self.new rest ≡ children_seen self.old (refused.Uid uid.now ∷ rest) }
    {
        if let Some(child) = self.last {
            self.last = Some(given(child, uid));
        }
    }

    /// Notes that a line begins a child, or that it gives a UID.
    #[tactic(auto, unfolding(crate::specs::Refusals::mark_or))]
    pub(crate) fn note(
        &mut self,
        number: u32,
        begins: bool,
        uid: Option<&'a str>,
    ) -> Result<(), AllocError>
        ensures { OnOk result ((rest : List refused.Mark) → children_seen self.new rest ≡ children_seen self.old (option_to_list (refused.mark_or (if begins then Some (refused.Begins number) else None) (option_map (λ x. x.now) uid.entry)) ++ rest)) }
    {
        if begins {
            return self.begin(number);
        }
        match uid {
            Some(uid) => {
                self.found(uid);
                Ok(())
            }
            None => Ok(()),
        }
    }

    /// All children, where no line is left.
    pub(crate) fn all(self) -> Result<Vec<Child<'a>>, AllocError>
        ensures { IfOk result (λ v. map child_seen v.items ≡ children_seen self.entry []) }
    {
        let Children { mut done, last } = self;
        match last {
            Some(child) => {
                done.push(child)?;
                Ok(done)
            }
            None => Ok(done),
        }
    }
}
