//! What the store's calls do with its folder.

ghost use Rattle.std.specs.Prelude.{[], ◌∷◌, ◌≡◌, ◌≤◌, ◌⊎◌, ℕ, List, true, false, Some, filter, map, length, IfOk, IfErr, string_bytes, IsTrue};
ghost use Rattle.std.specs.List.{list_all};
ghost use Rattle.std.specs.BTreeSet.{contains_text};
ghost use Rattle.outside.specs.Causes.{Rose};
ghost use Rattle.store_model.specs.Sides.{IsOutside, Sometime};
ghost use Rattle.store_model.specs.Waits.{over_at, gone_at};
ghost use Rattle.store_model.specs.Names.{file_stem, IsFreeName};
ghost use Rattle.store_model.specs.StoreCalls.{StoreCause, Changes, is_short, IsListing, TakenByList, TakenByPut, IsGetOf, GetAnswer, PutNewAnswer, PutOverAnswer, DropAnswer};
ghost use Rattle.vdir_store.specs.Names.{is_item, is_ending, SpeaksOf};
ghost use Rattle.vdir_store.specs.Vdir.{side_of};
ghost use Rattle.vdir_store.specs.VdirCalls.{listed_entry, IsBadItem, FetchAnswer, change_of};

use crate::names::{is_item, names_of};
use item_text::{Item, ItemError, MAX_ITEM};
use outside::{Change, Expect, FileEntry, Folder, FolderError, NoMemory, etag_of};
use std::alloc::Global;
use std::collections::BTreeSet;
use store_model::{
    Entry, Fetched, MAX_ETAG, MAX_HREF, MAX_ITEMS, Put, StoreError, file_stem, free_name,
};
use values::Text;

/// The entries of the files that are items.
pub fn item_entries(
    alloc: Global,
    ending: &str,
    files: Vec<FileEntry>,
) -> Result<Vec<Entry>, NoMemory>
    ensures { IfOk result (λ entries. entries.items ≡ map listed_entry (filter (λ e. is_item ending.now e.name) files.items)) }
{
    let mut entries = Vec::new(alloc);
    for file in files {
        if is_item(ending, file.name.as_str()) {
            let FileEntry { name, etag } = file;
            let Ok(()) = entries.push(Entry { href: name, etag }) else {
                return Err(NoMemory);
            };
        }
    }
    Ok(entries)
}

fn is_short(entry: &Entry) -> bool
    ensures { result ≡ is_short entry.now }
{
    entry.href.as_str().len() <= MAX_HREF && entry.etag.as_str().len() <= MAX_ETAG
}

/// Whether all entries are within the limits of a listing.
pub fn are_short(entries: &[Entry]) -> bool
    ensures { result ≡ list_all is_short entries.now }
{
    entries.iter().all(|entry| is_short(entry))
}

/// The items' entries, from one listing of the folder.
pub fn listing<F: Folder>(
    folder: &mut F,
    alloc: Global,
    ending: &str,
) -> Result<Vec<Entry>, StoreError>
    ensures changes { Changes F.count F.tells (λ f. side_of ending.now (F.state f)) IsOutside folder.old folder.new }
    ensures cause { IfErr result (StoreCause (Rose (F.count folder.old) (F.count folder.new))) }
    ensures answer { F.tells folder.old → Sometime (IsListing result) (side_of ending.now (F.state folder.old)) (side_of ending.now (F.state folder.new)) }
    ensures few { IfOk result (λ entries. length entries.items ≤ MAX_ITEMS) }
{
    let Some(files) = folder.names(ending)? else {
        return Err(StoreError::NotThere);
    };
    let entries = item_entries(alloc, ending, files)?;
    if entries.len() > MAX_ITEMS {
        return Err(StoreError::TooMany);
    }
    if !are_short(entries.as_slice()) {
        return Err(StoreError::TooLong);
    }
    Ok(entries)
}

/// The items' entries, and their names as the names in use.
pub fn refresh<F: Folder>(
    folder: &mut F,
    names: &mut BTreeSet<String>,
    alloc: Global,
    ending: &str,
) -> Result<Vec<Entry>, StoreError>
    ensures changes { Changes F.count F.tells (λ f. side_of ending.now (F.state f)) IsOutside folder.old folder.new }
    ensures cause { IfErr result (StoreCause (Rose (F.count folder.old) (F.count folder.new))) }
    ensures answer { F.tells folder.old → Sometime (IsListing result) (side_of ending.now (F.state folder.old)) (side_of ending.now (F.state folder.new)) }
    ensures few { IfOk result (λ entries. length entries.items ≤ MAX_ITEMS) }
    ensures names { TakenByList (contains_text names.old) (contains_text names.new) result }
{
    let entries = listing(folder, alloc, ending)?;
    *names = names_of(alloc, entries.as_slice())?;
    Ok(entries)
}

/// The error of an href at which nothing stands, or want of memory.
pub fn vanished(alloc: Global, name: &str) -> StoreError
    ensures { (result ≡ StoreError.NoMemory) ⊎ (result ≡ StoreError.Vanished name.now) }
{
    match Text::copy_of(alloc, name) {
        Ok(href) => StoreError::Vanished { href },
        Err(_) => StoreError::NoMemory,
    }
}

/// The error of a text that isn't an item's. Want of memory is never wrapped.
pub fn bad_item(alloc: Global, name: &str, error: ItemError) -> StoreError
    ensures { IsBadItem name.now error result }
{
    match error {
        ItemError::NoMemory => StoreError::NoMemory,
        error => match Text::copy_of(alloc, name) {
            Ok(href) => StoreError::BadItem { href, error },
            Err(_) => StoreError::NoMemory,
        },
    }
}

/// One item of a get, from one reading of its file.
pub fn fetch<F: Folder>(
    folder: &mut F,
    alloc: Global,
    ending: &str,
    name: &str,
) -> Result<Fetched, StoreError>
    ensures changes { Changes F.count F.tells (λ f. side_of ending.now (F.state f)) (IsGetOf (name.now ∷ [])) folder.old folder.new }
    ensures cause { IfErr result (StoreCause (Rose (F.count folder.old) (F.count folder.new))) }
    ensures answer { F.tells folder.old → FetchAnswer (side_of ending.now (F.state folder.old)) (side_of ending.now (F.state folder.new)) name.now result }
    ensures asked { IfOk result (λ f. f.href ≡ name.now) }
{
    if !is_item(ending, name) {
        return Err(vanished(alloc, name));
    }
    let bytes = match folder.read(name, MAX_ITEM) {
        Ok(Some(bytes)) => bytes,
        Ok(None) => return Err(vanished(alloc, name)),
        Err(FolderError::Fault) => return Err(StoreError::Fault),
        Err(FolderError::TooLong) => return Err(bad_item(alloc, name, ItemError::TooLong)),
        Err(FolderError::NoMemory) => return Err(StoreError::NoMemory),
    };
    let item = match Item::read(alloc, bytes.as_slice()) {
        Ok(item) => item,
        Err(error) => return Err(bad_item(alloc, name, error)),
    };
    let etag = etag_of(alloc, bytes.as_slice())?;
    let href = Text::copy_of(alloc, name)?;
    Ok(Fetched { href, etag, item })
}

/// The items at some hrefs, one file after another.
pub fn fetch_all<F: Folder>(
    folder: &mut F,
    alloc: Global,
    ending: &str,
    hrefs: &[Text],
) -> Result<Vec<Fetched>, StoreError>
    ensures changes { Changes F.count F.tells (λ f. side_of ending.now (F.state f)) (IsGetOf hrefs.now) folder.old folder.new }
    ensures cause { IfErr result (StoreCause (Rose (F.count folder.old) (F.count folder.new))) }
    ensures answer { F.tells folder.old → GetAnswer (λ c. ⊥) (side_of ending.now (F.state folder.old)) (side_of ending.now (F.state folder.new)) hrefs.now result }
    ensures asked { IfOk result (λ fetched. map (λ f. f.href) fetched.items ≡ hrefs.now) }
{
    let mut fetched = Vec::new(alloc);
    for href in hrefs {
        match fetch(folder, alloc, ending, href.as_str()) {
            Ok(one) => {
                let Ok(()) = fetched.push(one) else {
                    return Err(StoreError::NoMemory);
                };
            }
            Err(error) => return Err(error),
        }
    }
    Ok(fetched)
}

/// Writes an item's file where the folder is as expected, and answers its etag.
pub fn write<F: Folder>(
    folder: &mut F,
    alloc: Global,
    ending: &str,
    name: &str,
    expect: Expect,
    item: &Item,
) -> Result<Option<Text>, StoreError>
    ensures later { F.count folder.old ≤ F.count folder.new }
    ensures told { F.tells folder.old → F.tells folder.new }
    ensures cause { IfErr result (StoreCause (Rose (F.count folder.old) (F.count folder.new))) }
    ensures answer { is_item ending.now name.now ≡ true → F.tells folder.old → PutOverAnswer false (change_of name.now expect.entry (Some item.now.text)) (side_of ending.now (F.state folder.old)) [] (side_of ending.now (F.state folder.new)) [] result }
{
    let bytes = item.text().as_bytes();
    let etag = etag_of(alloc, bytes)?;
    match folder.replace(name, expect, bytes)? {
        Change::Done => Ok(Some(etag)),
        Change::Moved => Err(StoreError::Moved),
    }
}

/// Writes a new item's file under the first free name.
pub fn put_item<F: Folder>(
    folder: &mut F,
    names: &mut BTreeSet<String>,
    alloc: Global,
    ending: &str,
    item: &Item,
) -> Result<Put, StoreError>
    requires { IsTrue (is_ending ending.now) }
    ensures later { F.count folder.old ≤ F.count folder.new }
    ensures told { F.tells folder.old → F.tells folder.new }
    ensures cause { IfErr result (StoreCause (Rose (F.count folder.old) (F.count folder.new))) }
    ensures answer { SpeaksOf ending.now → F.tells folder.old → PutNewAnswer false (IsFreeName (contains_text names.old) (file_stem item.now.ident) ending.now) item.now (side_of ending.now (F.state folder.old)) [] (side_of ending.now (F.state folder.new)) [] result }
    ensures names { TakenByPut (contains_text names.old) (contains_text names.new) result }
{
    let stem = file_stem(alloc, item.ident())?;
    let name = free_name(alloc, stem.as_str(), ending, names)?;
    let kept = String::from_str(alloc, name.as_str())?;
    let _ = names.insert(kept)?;
    match write(folder, alloc, ending, name.as_str(), Expect::Absent, item) {
        Ok(etag) => Ok(Put {
            href: Text::of(name),
            etag,
        }),
        Err(error) => {
            let _ = names.remove(name.as_str());
            Err(error)
        }
    }
}

/// Writes an item's file over the one that has the etag.
pub fn write_over<F: Folder>(
    folder: &mut F,
    alloc: Global,
    ending: &str,
    name: &str,
    tag: &str,
    item: &Item,
) -> Result<Option<Text>, StoreError>
    ensures later { F.count folder.old ≤ F.count folder.new }
    ensures told { F.tells folder.old → F.tells folder.new }
    ensures cause { IfErr result (StoreCause (Rose (F.count folder.old) (F.count folder.new))) }
    ensures answer { F.tells folder.old → PutOverAnswer false (over_at name.now tag.now item.now.text) (side_of ending.now (F.state folder.old)) [] (side_of ending.now (F.state folder.new)) [] result }
{
    if !is_item(ending, name) {
        return Err(StoreError::Moved);
    }
    write(folder, alloc, ending, name, Expect::Etag(tag), item)
}

/// Takes the item's file away that has the etag.
pub fn take_away<F: Folder>(
    folder: &mut F,
    ending: &str,
    name: &str,
    tag: &str,
) -> Result<(), StoreError>
    ensures later { F.count folder.old ≤ F.count folder.new }
    ensures told { F.tells folder.old → F.tells folder.new }
    ensures cause { IfErr result (StoreCause (Rose (F.count folder.old) (F.count folder.new))) }
    ensures answer { F.tells folder.old → DropAnswer false (gone_at name.now tag.now) (side_of ending.now (F.state folder.old)) [] (side_of ending.now (F.state folder.new)) [] result }
{
    if !is_item(ending, name) {
        return Err(StoreError::Moved);
    }
    match folder.remove(name, tag)? {
        Change::Done => Ok(()),
        Change::Moved => Err(StoreError::Moved),
    }
}
