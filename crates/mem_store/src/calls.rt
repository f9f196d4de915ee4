//! What the store's calls do with what it holds.

ghost use Rattle.std.specs.Prelude.{◌≡◌, ◌≤◌, ℕ, List, [], ◌∷◌, length, map, true, false, IfOk, IfErr, OnOk, option_copied};
ghost use Rattle.std.specs.Option.{option_map};
ghost use Rattle.std.specs.BTreeSet.{contains_text};
ghost use Rattle.outside.specs.Causes.{Rose};
ghost use Rattle.store_model.specs.Names.{file_stem, IsFreeName};
ghost use Rattle.store_model.specs.Sides.{IsOutside, Sometime, KeepsItem};
ghost use Rattle.store_model.specs.Waits.{ActsOrWaits, IsWriteOfThese, over_at, gone_at};
ghost use Rattle.store_model.specs.StoreCalls.{Changes, StoreCause, IsListing, TakenByList, TakenByPut, IsGetOf, GetAnswer, IsPutOf, PutNewAnswer, PutOverAnswer, DropAnswer, FlushAnswer};
ghost use Rattle.vdir_store.specs.Vdir.{held_of};
ghost use Rattle.vdir_store.specs.VdirCalls.{FetchAnswer, change_of};
ghost use Rattle.mem_store.specs.Memory.{side_of, vcf_ending};
ghost use Rattle.mem_store.specs.MemCalls.{IsStop, FlushStop};
ghost use Rattle.mem_store.specs.Desks.{desk_side, waiting_of, count_of, IsSound};

use crate::desk::Desk;
use crate::shelf::Shelf;
use item_text::Item;
use outside::{Expect, NoMemory, etag_of};
use std::alloc::Global;
use std::collections::BTreeSet;
use store_model::{Entry, Fetched, MAX_ITEMS, Put, StoreError, file_stem, free_name};
use values::Text;
use vdir_store::{are_short, bad_item, names_of, vanished};

/// The ending of the names of new items.
pub const ENDING: &str = ".vcf";

/// The entries of what stands.
fn listing(shelf: &Shelf) -> Result<Vec<Entry>, StoreError>
    ensures answer { IsListing result (side_of shelf.now) }
    ensures few { IfOk result (λ entries. length entries.items ≤ MAX_ITEMS) }
    ensures cause { IfErr result (StoreCause ⊥) }
{
    let entries = shelf.listing()?;
    if entries.len() > MAX_ITEMS {
        return Err(StoreError::TooMany);
    }
    if !are_short(entries.as_slice()) {
        return Err(StoreError::TooLong);
    }
    Ok(entries)
}

/// The entries of what stands, and their hrefs as the names in use.
fn refresh(
    shelf: &Shelf,
    names: &mut BTreeSet<String>,
    alloc: Global,
) -> Result<Vec<Entry>, StoreError>
    ensures answer { IsListing result (side_of shelf.now) }
    ensures few { IfOk result (λ entries. length entries.items ≤ MAX_ITEMS) }
    ensures cause { IfErr result (StoreCause ⊥) }
    ensures names { TakenByList (contains_text names.old) (contains_text names.new) result }
{
    let entries = match listing(shelf) {
        Ok(entries) => entries,
        Err(error) => return Err(error),
    };
    *names = names_of(alloc, entries.as_slice())?;
    Ok(entries)
}

pub fn list(
    desk: &mut Desk,
    names: &mut BTreeSet<String>,
    alloc: Global,
) -> Result<Vec<Entry>, StoreError>
    ensures changes { Changes count_of IsSound desk_side IsOutside desk.old desk.new }
    ensures cause { IfErr result (StoreCause (Rose (count_of desk.old) (count_of desk.new))) }
    ensures answer { IsSound desk.old → Sometime (IsListing result) (desk_side desk.old) (desk_side desk.new) }
    ensures few { IfOk result (λ entries. length entries.items ≤ MAX_ITEMS) }
    ensures waiting { waiting_of desk.new ≡ waiting_of desk.old }
    ensures names { TakenByList (contains_text names.old) (contains_text names.new) result }
{
    match desk.begin() {
        Err(error) => Err(error),
        Ok(fails) => {
            if fails {
                return Err(StoreError::Fault);
            }
            refresh(desk.shelf(), names, alloc)
        }
    }
}

/// One item of a get.
fn fetch(desk: &mut Desk, alloc: Global, name: &str) -> Result<Fetched, StoreError>
    ensures changes { Changes count_of IsSound desk_side (IsGetOf (name.now ∷ [])) desk.old desk.new }
    ensures cause { IfErr result (StoreCause (Rose (count_of desk.old) (count_of desk.new))) }
    ensures answer { IsSound desk.old → FetchAnswer (desk_side desk.old) (desk_side desk.new) name.now result }
    ensures asked { IfOk result (λ f. f.href ≡ name.now) }
    ensures waiting { waiting_of desk.new ≡ waiting_of desk.old }
{
    let bytes = match desk.read(name) {
        Ok(Some(bytes)) => bytes,
        Ok(None) => return Err(vanished(alloc, name)),
        Err(NoMemory) => return Err(StoreError::NoMemory),
    };
    let item = match Item::read(alloc, bytes.as_slice()) {
        Ok(item) => item,
        Err(error) => return Err(bad_item(alloc, name, error)),
    };
    let etag = etag_of(alloc, bytes.as_slice())?;
    let href = Text::copy_of(alloc, name)?;
    Ok(Fetched { href, etag, item })
}

/// The items at some hrefs, one after another.
fn fetch_all(desk: &mut Desk, alloc: Global, hrefs: &[Text]) -> Result<Vec<Fetched>, StoreError>
    ensures changes { Changes count_of IsSound desk_side (IsGetOf hrefs.now) desk.old desk.new }
    ensures cause { IfErr result (StoreCause (Rose (count_of desk.old) (count_of desk.new))) }
    ensures answer { IsSound desk.old → GetAnswer (λ c. ⊥) (desk_side desk.old) (desk_side desk.new) hrefs.now result }
    ensures asked { IfOk result (λ fetched. map (λ f. f.href) fetched.items ≡ hrefs.now) }
    ensures waiting { waiting_of desk.new ≡ waiting_of desk.old }
{
    let mut fetched = Vec::new(alloc);
    for href in hrefs {
        match fetch(desk, alloc, href.as_str()) {
            Ok(one) => {
                let Ok(()) = fetched.push(one) else {
                    return Err(StoreError::NoMemory);
                };
            }
            Err(error) => return Err(error),
        }
    }
    Ok(fetched)
}

/// A get of no hrefs is no call of the plan, since it can't fail.
pub fn get(desk: &mut Desk, alloc: Global, hrefs: &[Text]) -> Result<Vec<Fetched>, StoreError>
    ensures changes { Changes count_of IsSound desk_side (IsGetOf hrefs.now) desk.old desk.new }
    ensures cause { IfErr result (StoreCause (Rose (count_of desk.old) (count_of desk.new))) }
    ensures answer { IsSound desk.old → GetAnswer (λ c. ⊥) (desk_side desk.old) (desk_side desk.new) hrefs.now result }
    ensures asked { IfOk result (λ fetched. map (λ f. f.href) fetched.items ≡ hrefs.now) }
    ensures waiting { waiting_of desk.new ≡ waiting_of desk.old }
{
    if hrefs.is_empty() {
        return fetch_all(desk, alloc, hrefs);
    }
    match desk.begin() {
        Err(error) => Err(error),
        Ok(fails) => {
            if fails {
                return Err(StoreError::Fault);
            }
            fetch_all(desk, alloc, hrefs)
        }
    }
}

/// A change, as a call of its own.
fn send(
    desk: &mut Desk,
    waits: bool,
    href: &str,
    expect: Expect,
    new: Option<&[u8]>,
) -> Result<Option<Text>, StoreError>
    requires { KeepsItem (option_map held_of (option_copied new)) (option_copied new) }
    ensures changes { Changes count_of IsSound desk_side (IsWriteOfThese (change_of href.now expect.entry (option_copied new.entry) ∷ [])) desk.old desk.new }
    ensures cause { IfErr result (StoreCause (Rose (count_of desk.old) (count_of desk.new))) }
    ensures answer { IsSound desk.old → PutOverAnswer waits (change_of href.now expect.entry (option_copied new.entry)) (desk_side desk.old) (waiting_of desk.old) (desk_side desk.new) (waiting_of desk.new) result }
    ensures acts { IsSound desk.old → ActsOrWaits waits (desk_side desk.old) (desk_side desk.new) }
{
    match desk.begin() {
        Err(error) => Err(error),
        Ok(fails) => desk.send(waits, fails, href, expect, new),
    }
}

pub fn put_over(
    desk: &mut Desk,
    waits: bool,
    href: &str,
    tag: &str,
    item: &Item,
) -> Result<Option<Text>, StoreError>
    ensures changes { Changes count_of IsSound desk_side (IsWriteOfThese (over_at href.now tag.now item.now.text ∷ [])) desk.old desk.new }
    ensures cause { IfErr result (StoreCause (Rose (count_of desk.old) (count_of desk.new))) }
    ensures answer { IsSound desk.old → PutOverAnswer waits (over_at href.now tag.now item.now.text) (desk_side desk.old) (waiting_of desk.old) (desk_side desk.new) (waiting_of desk.new) result }
    ensures acts { IsSound desk.old → ActsOrWaits waits (desk_side desk.old) (desk_side desk.new) }
{
    let bytes = item.text().as_bytes();
    send(desk, waits, href, Expect::Etag(tag), Some(bytes))
}

pub fn take_away(desk: &mut Desk, waits: bool, href: &str, tag: &str) -> Result<(), StoreError>
    ensures changes { Changes count_of IsSound desk_side (IsWriteOfThese (gone_at href.now tag.now ∷ [])) desk.old desk.new }
    ensures cause { IfErr result (StoreCause (Rose (count_of desk.old) (count_of desk.new))) }
    ensures answer { IsSound desk.old → DropAnswer waits (gone_at href.now tag.now) (desk_side desk.old) (waiting_of desk.old) (desk_side desk.new) (waiting_of desk.new) result }
    ensures acts { IsSound desk.old → ActsOrWaits waits (desk_side desk.old) (desk_side desk.new) }
{
    match send(desk, waits, href, Expect::Etag(tag), None) {
        Ok(_) => Ok(()),
        Err(error) => Err(error),
    }
}

/// A new item, under the first free name.
fn put_item(
    desk: &mut Desk,
    names: &mut BTreeSet<String>,
    alloc: Global,
    waits: bool,
    fails: bool,
    item: &Item,
) -> Result<Put, StoreError>
    ensures answer { PutNewAnswer waits (IsFreeName (contains_text names.old) (file_stem item.now.ident) vcf_ending) item.now (desk_side desk.old) (waiting_of desk.old) (desk_side desk.new) (waiting_of desk.new) result }
    ensures acts { ActsOrWaits waits (desk_side desk.old) (desk_side desk.new) }
    ensures cause { IfErr result (StoreCause (fails ≡ true)) }
    ensures sound { IsSound desk.old → IsSound desk.new }
    ensures count { count_of desk.new ≡ count_of desk.old }
    ensures names { TakenByPut (contains_text names.old) (contains_text names.new) result }
{
    let stem = file_stem(alloc, item.ident())?;
    let name = free_name(alloc, stem.as_str(), ENDING, names)?;
    let kept = String::from_str(alloc, name.as_str())?;
    let _ = names.insert(kept)?;
    let bytes = item.text().as_bytes();
    match desk.send(waits, fails, name.as_str(), Expect::Absent, Some(bytes)) {
        Ok(etag) => Ok(Put {
            href: Text::of(name),
            etag,
        }),
        Err(error) => {
            let _ = names.remove(name.as_str());
            Err(error)
        }
    }
}

pub fn put_new(
    desk: &mut Desk,
    names: &mut BTreeSet<String>,
    alloc: Global,
    waits: bool,
    item: &Item,
) -> Result<Put, StoreError>
    ensures changes { Changes count_of IsSound desk_side (IsPutOf item.now) desk.old desk.new }
    ensures cause { IfErr result (StoreCause (Rose (count_of desk.old) (count_of desk.new))) }
    ensures answer { IsSound desk.old → PutNewAnswer waits (IsFreeName (contains_text names.old) (file_stem item.now.ident) vcf_ending) item.now (desk_side desk.old) (waiting_of desk.old) (desk_side desk.new) (waiting_of desk.new) result }
    ensures acts { IsSound desk.old → ActsOrWaits waits (desk_side desk.old) (desk_side desk.new) }
    ensures names { TakenByPut (contains_text names.old) (contains_text names.new) result }
{
    match desk.begin() {
        Err(error) => Err(error),
        Ok(fails) => put_item(desk, names, alloc, waits, fails, item),
    }
}

/// What a flush answers that stops before it acts: Ok where nothing waits, unless by a fault.
fn stopped(idle: bool, error: StoreError) -> Result<(), StoreError>
    requires { IsStop error }
    ensures { FlushStop idle error result }
{
    match error {
        StoreError::NoMemory => {
            if idle {
                return Ok(());
            }
            Err(StoreError::NoMemory)
        }
        error => Err(error),
    }
}

pub fn flush(desk: &mut Desk) -> Result<(), StoreError>
    ensures changes { Changes count_of IsSound desk_side (IsWriteOfThese (waiting_of desk.old)) desk.old desk.new }
    ensures cause { IfErr result (StoreCause (Rose (count_of desk.old) (count_of desk.new))) }
    ensures answer { IsSound desk.old → FlushAnswer (desk_side desk.old) (waiting_of desk.old) (desk_side desk.new) (waiting_of desk.new) result }
{
    let idle = desk.waiting().is_empty();
    match desk.begin() {
        Err(error) => stopped(idle, error),
        Ok(fails) => desk.flush(fails),
    }
}
