//! What a store in memory holds, the changes that wait in it, and its plan.

ghost use Rattle.std.specs.Prelude.{◌≡◌, true, false, List, [], ◌∷◌, ◌++◌, OnOk, OnErr, IfOk, IfErr, option_copied};
ghost use Rattle.std.specs.Option.{option_map};
ghost use Rattle.outside.specs.Causes.{Rose};
ghost use Rattle.store_model.specs.Sides.{Content, Evolves, IsOutside, KeepsItem};
ghost use Rattle.store_model.specs.Waits.{Change as Waits, ActsOrWaits};
ghost use Rattle.store_model.specs.StoreCalls.{Changes, StoreCause, PutOverAnswer, FlushAnswer};
ghost use Rattle.vdir_store.specs.Vdir.{held_of};
ghost use Rattle.vdir_store.specs.VdirCalls.{expected_by, change_of};
ghost use Rattle.mem_store.specs.Memory.{side_of};
ghost use Rattle.mem_store.specs.Desks.{IsDraft};
ghost use Rattle.mem_store.specs.MemCalls.{ReadAnswer, ActAnswer, WaitAnswer, AllAnswer, IsStop};

use crate::shelf::Shelf;
use outside::{Change, Expect, Fate, FaultPlan, NoMemory, OutsideEdit, Planned, etag_of};
use std::alloc::Global;
use store_model::StoreError;
use values::{Bytes, Text};

/// A change that waits: what is expected to stand at the href (nothing, or a text of this etag),
/// and the text that was sent (none: a removal).
#[derive(Debug, Drop)]
pub struct Pending {
    pub href: Text,
    pub expected: Option<Text>,
    pub sent: Option<Bytes>,
}

/// What a store in memory holds, what waits in it, and its plan.
#[derive(Drop)]
pub struct Desk {
    alloc: Global,
    shelf: Shelf,
    waiting: Vec<Pending>,
    // The texts as they will be once all that waits has acted. There is none where nothing waits,
    // and none where an edit from outside came since, or a change doesn't fit any more.
    draft: Option<Shelf>,
    planned: Planned,
}

fn pending_of(
    alloc: Global,
    href: &str,
    expect: Expect,
    new: Option<&[u8]>,
) -> Result<Pending, NoMemory>
    ensures href { IfOk result (λ p. p.href ≡ href.now) }
    ensures expected { IfOk result (λ p. p.expected ≡ expected_by expect.entry) }
    ensures sent { IfOk result (λ p. p.sent ≡ option_copied new.entry) }
{
    let expected = match expect {
        Expect::Absent => None,
        Expect::Etag(tag) => Some(Text::copy_of(alloc, tag)?),
    };
    let sent = match new {
        None => None,
        Some(bytes) => Some(Bytes::of(Vec::from_slice(alloc, bytes)?)),
    };
    Ok(Pending {
        href: Text::copy_of(alloc, href)?,
        expected,
        sent,
    })
}

/// The etag of a text that is sent; a removal has none.
fn etag_sent(alloc: Global, new: Option<&[u8]>) -> Result<Option<Text>, NoMemory>
    ensures { IfOk result (λ etag. etag ≡ option_map (λ h. h.etag) (option_map held_of (option_copied new.entry))) }
{
    match new {
        None => Ok(None),
        Some(bytes) => Ok(Some(etag_of(alloc, bytes)?)),
    }
}

/// Makes an edit that comes before a call. It ends a draft.
fn edit_due(
    shelf: &mut Shelf,
    draft: &mut Option<Shelf>,
    edit: &OutsideEdit,
    call: u64,
) -> Result<(), NoMemory>
    ensures edits { Evolves IsOutside (side_of shelf.old) (side_of shelf.new) }
    ensures draft { (w : List Waits) → IsDraft w (side_of shelf.old).content draft.old → IsDraft w (side_of shelf.new).content draft.new }
{
    if edit.before_call != call {
        return Ok(());
    }
    *draft = None;
    match &edit.new {
        None => shelf.edit(edit.name.as_str(), None),
        Some(bytes) => shelf.edit(edit.name.as_str(), Some(bytes.as_slice())),
    }
}

/// Makes the edits that come before a call.
fn edit_before(
    shelf: &mut Shelf,
    draft: &mut Option<Shelf>,
    edits: &[OutsideEdit],
    call: u64,
) -> Result<(), NoMemory>
    ensures edits { Evolves IsOutside (side_of shelf.old) (side_of shelf.new) }
    ensures draft { (w : List Waits) → IsDraft w (side_of shelf.old).content draft.old → IsDraft w (side_of shelf.new).content draft.new }
{
    for edit in edits {
        edit_due(shelf, draft, edit, call)?;
    }
    Ok(())
}

/// Lets one more change act in a draft. There is none any more where it doesn't fit.
fn extend(
    draft: &mut Option<Shelf>,
    href: &str,
    expect: Expect,
    new: Option<&[u8]>,
) -> Result<(), NoMemory>
    requires { KeepsItem (option_map held_of (option_copied new)) (option_copied new) }
    ensures ok { OnOk result ((w : List Waits) (c : Content) → IsDraft w c draft.old → IsDraft (w ++ change_of href.now expect.entry (option_copied new.entry) ∷ []) c draft.new) }
    ensures err { OnErr result ((w : List Waits) (c : Content) → IsDraft w c draft.old → IsDraft w c draft.new) }
{
    let Some(mut held) = draft.take() else {
        return Ok(());
    };
    match held.change(href, expect, new) {
        Err(NoMemory) => {
            *draft = Some(held);
            Err(NoMemory)
        }
        Ok(change) => match change {
            Change::Done => {
                *draft = Some(held);
                Ok(())
            }
            Change::Moved => Ok(()),
        },
    }
}

impl Desk {
    ghost use Rattle.mem_store.specs.Desks.{desk_side, waiting_of, count_of, IsSound};

    pub fn new(alloc: Global, shelf: Shelf, plan: FaultPlan) -> Desk
        ensures side { desk_side result ≡ side_of shelf }
        ensures waiting { waiting_of result ≡ [] }
        ensures count { count_of result ≡ 0 }
        ensures sound { IsSound result }
    {
        Desk {
            alloc,
            shelf,
            waiting: Vec::new(alloc),
            draft: None,
            planned: Planned::new(plan),
        }
    }

    pub fn shelf(&self) -> &Shelf
        ensures { side_of result.now ≡ desk_side self.now }
    {
        &self.shelf
    }

    pub fn waiting(&self) -> &[Pending]
        ensures { result.now ≡ self.now.waiting.items }
    {
        self.waiting.as_slice()
    }

    pub fn faults(&self) -> u64
        ensures { result ≡ count_of self.now }
    {
        self.planned.faults.count
    }

    /// Begins a call: makes the edits from outside that come before it, and finds what becomes of
    /// it. Ok tells whether it is to fail although it acts.
    pub fn begin(&mut self) -> Result<bool, StoreError>
        ensures changes { Changes count_of IsSound desk_side IsOutside self.old self.new }
        ensures waiting { waiting_of self.new ≡ waiting_of self.old }
        ensures cause { IfErr result (StoreCause (Rose (count_of self.old) (count_of self.new))) }
        ensures stops { IfErr result IsStop }
        ensures failing { IfOk result (λ fails. fails ≡ true → Rose (count_of self.old) (count_of self.new)) }
    {
        let fate = self.planned.begin();
        let edits = self.planned.plan.edits.as_slice();
        match edit_before(&mut self.shelf, &mut self.draft, edits, self.planned.calls) {
            Err(NoMemory) => Err(StoreError::NoMemory),
            Ok(()) => match fate {
                Fate::Acts => Ok(false),
                Fate::Fails => Err(StoreError::Fault),
                Fate::ActsAndFails => Ok(true),
            },
        }
    }

    /// The text at an href. `None` where nothing stands there.
    pub fn read(&mut self, href: &str) -> Result<Option<Vec<u8>>, NoMemory>
        ensures answer { ReadAnswer (desk_side self.old) (desk_side self.new) href.now result }
        ensures waiting { waiting_of self.new ≡ waiting_of self.old }
        ensures sound { IsSound self.old → IsSound self.new }
        ensures count { count_of self.new ≡ count_of self.old }
    {
        self.shelf.read(href)
    }

    fn send_now(
        &mut self,
        fails: bool,
        href: &str,
        expect: Expect,
        new: Option<&[u8]>,
    ) -> Result<Option<Text>, StoreError>
        requires { KeepsItem (option_map held_of (option_copied new)) (option_copied new) }
        ensures answer { PutOverAnswer false (change_of href.now expect.entry (option_copied new.entry)) (desk_side self.old) (waiting_of self.old) (desk_side self.new) (waiting_of self.new) result }
        ensures cause { IfErr result (StoreCause (fails ≡ true)) }
        ensures sound { IsSound self.old → IsSound self.new }
        ensures count { count_of self.new ≡ count_of self.old }
    {
        let etag = etag_sent(self.alloc, new)?;
        self.draft = None;
        match self.shelf.change(href, expect, new)? {
            Change::Done => {
                if fails {
                    return Err(StoreError::Fault);
                }
                Ok(etag)
            }
            Change::Moved => {
                if fails {
                    return Err(StoreError::Fault);
                }
                Err(StoreError::Moved)
            }
        }
    }

    /// Begins a draft where nothing waits yet.
    fn start_draft(&mut self) -> Result<(), NoMemory>
        ensures side { desk_side self.new ≡ desk_side self.old }
        ensures waiting { self.new.waiting ≡ self.old.waiting }
        ensures sound { IsSound self.old → IsSound self.new }
        ensures count { count_of self.new ≡ count_of self.old }
    {
        if self.waiting.is_empty() {
            self.draft = Some(self.shelf.draft()?);
        }
        Ok(())
    }

    /// Makes the room that a flush will need.
    fn make_room(&mut self) -> Result<(), NoMemory>
        ensures side { desk_side self.new ≡ desk_side self.old }
        ensures waiting { self.new.waiting ≡ self.old.waiting }
        ensures draft { self.new.draft ≡ self.old.draft }
        ensures count { count_of self.new ≡ count_of self.old }
    {
        let Some(draft) = &self.draft else {
            return Ok(());
        };
        self.shelf.make_room(draft)
    }

    fn wait(&mut self, href: &str, expect: Expect, new: Option<&[u8]>) -> Result<Change, NoMemory>
        requires { KeepsItem (option_map held_of (option_copied new)) (option_copied new) }
        ensures answer { WaitAnswer (change_of href.now expect.entry (option_copied new.entry)) (desk_side self.old) (desk_side self.new) (waiting_of self.old) (waiting_of self.new) result }
        ensures sound { IsSound self.old → IsSound self.new }
        ensures count { count_of self.new ≡ count_of self.old }
    {
        if !self.shelf.fits(href, expect)? {
            return Ok(Change::Moved);
        }
        let pending = pending_of(self.alloc, href, expect, new)?;
        self.start_draft()?;
        self.make_room()?;
        self.waiting.reserve(1)?;
        extend(&mut self.draft, href, expect, new)?;
        self.waiting.push(pending).unwrap();
        Ok(Change::Done)
    }

    fn send_later(
        &mut self,
        fails: bool,
        href: &str,
        expect: Expect,
        new: Option<&[u8]>,
    ) -> Result<Option<Text>, StoreError>
        requires { KeepsItem (option_map held_of (option_copied new)) (option_copied new) }
        ensures answer { PutOverAnswer true (change_of href.now expect.entry (option_copied new.entry)) (desk_side self.old) (waiting_of self.old) (desk_side self.new) (waiting_of self.new) result }
        ensures acts { ActsOrWaits true (desk_side self.old) (desk_side self.new) }
        ensures cause { IfErr result (StoreCause (fails ≡ true)) }
        ensures sound { IsSound self.old → IsSound self.new }
        ensures count { count_of self.new ≡ count_of self.old }
    {
        if fails {
            return Err(StoreError::Fault);
        }
        match self.wait(href, expect, new)? {
            Change::Done => Ok(None),
            Change::Moved => Err(StoreError::Moved),
        }
    }

    /// Lets a change act, or wait, where it fits. A change that is to fail acts, where it doesn't
    /// wait, and fails.
    pub fn send(
        &mut self,
        waits: bool,
        fails: bool,
        href: &str,
        expect: Expect,
        new: Option<&[u8]>,
    ) -> Result<Option<Text>, StoreError>
        requires { KeepsItem (option_map held_of (option_copied new)) (option_copied new) }
        ensures answer { PutOverAnswer waits (change_of href.now expect.entry (option_copied new.entry)) (desk_side self.old) (waiting_of self.old) (desk_side self.new) (waiting_of self.new) result }
        ensures acts { ActsOrWaits waits (desk_side self.old) (desk_side self.new) }
        ensures cause { IfErr result (StoreCause (fails ≡ true)) }
        ensures sound { IsSound self.old → IsSound self.new }
        ensures count { count_of self.new ≡ count_of self.old }
    {
        if waits {
            self.send_later(fails, href, expect, new)
        } else {
            self.send_now(fails, href, expect, new)
        }
    }

    fn let_act(&mut self) -> Result<Change, NoMemory>
        ensures answer { IsSound self.old → AllAnswer (desk_side self.old) (desk_side self.new) (waiting_of self.old) (waiting_of self.new) result }
        ensures sound { IsSound self.old → IsSound self.new }
        ensures count { count_of self.new ≡ count_of self.old }
    {
        if self.waiting.is_empty() {
            return Ok(Change::Done);
        }
        let Some(draft) = self.draft.take() else {
            return Ok(Change::Moved);
        };
        self.shelf.take_over(draft)?;
        self.waiting.clear();
        Ok(Change::Done)
    }

    /// Lets all that waits act, or nothing of it. Where it is to fail it acts and fails.
    pub fn flush(&mut self, fails: bool) -> Result<(), StoreError>
        ensures answer { IsSound self.old → FlushAnswer (desk_side self.old) (waiting_of self.old) (desk_side self.new) (waiting_of self.new) result }
        ensures cause { IfErr result (StoreCause (fails ≡ true)) }
        ensures sound { IsSound self.old → IsSound self.new }
        ensures count { count_of self.new ≡ count_of self.old }
    {
        match self.let_act()? {
            Change::Done => {
                if fails {
                    return Err(StoreError::Fault);
                }
                Ok(())
            }
            Change::Moved => {
                if fails {
                    return Err(StoreError::Fault);
                }
                Err(StoreError::Moved)
            }
        }
    }
}
