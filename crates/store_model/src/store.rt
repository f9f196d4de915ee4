//! What a store is: the calls of every kind of storage, and what each may do.

ghost use Rattle.std.specs.Prelude.{◌≡◌, ◌≤◌, ℕ, Bool, true, false, List, [], ◌∷◌, length, map, IfOk, IfErr};
ghost use Rattle.outside.specs.Causes.{Rose};
ghost use Rattle.store_model.specs.declared.store.StoreError.TheVariants.{NoMemory as out_of_memory};

use item_text::{Item, ItemError};
use outside::{FolderError, NoMemory};
use std::alloc::{AllocError, AllocFailed};
use thiserror::Error;
use values::Text;

/// The most items of a store that `list` gives (this project's own limit).
pub const MAX_ITEMS: usize = 100_000;

/// The longest href that `list` gives, in bytes (this project's own limit).
pub const MAX_HREF: usize = 1_000;

/// The longest etag that `list` gives, in bytes (this project's own limit).
pub const MAX_ETAG: usize = 300;

/// One item of a listing. In a folder the href is the file's name.
#[derive(Debug, Drop)]
pub struct Entry {
    pub href: Text,
    pub etag: Text,
}

/// An item that was read, with its href and the etag of its text.
#[derive(Debug, Drop)]
pub struct Fetched {
    pub href: Text,
    pub etag: Text,
    pub item: Item,
}

/// Where a new item was stored. There is no etag where the store can't know it yet.
#[derive(Debug, Drop)]
pub struct Put {
    pub href: Text,
    pub etag: Option<Text>,
}

/// A property of a collection: its name as it is shown, or its color.
#[derive(Clone, Copy, Debug, PartialEq, Eq)]
pub enum MetaKey {
    Displayname,
    Color,
}

/// A hook run that failed: the href that it was run for, and the status with which it ended, or
/// none where it couldn't be run.
#[derive(Debug, Drop)]
pub struct HookNote {
    pub href: Text,
    pub status: Option<i32>,
}

/// Why a store's call failed.
#[derive(Debug, Drop, Error)]
pub enum StoreError {
    /// The device failed; its count of faults has risen in this call. A write has acted whole or
    /// not at all.
    #[error("fault")]
    Fault,
    /// The item isn't there under that etag, the new name is taken, or the collection is gone.
    /// Nothing was written.
    #[error("moved")]
    Moved,
    /// An href or an etag of the listing passes its limit.
    #[error("too long")]
    TooLong,
    /// The store has more items than its limit.
    #[error("too many items")]
    TooMany,
    /// The collection isn't there.
    #[error("not there")]
    NotThere,
    /// The first of the asked hrefs that has a fault is gone.
    #[error("an item has vanished")]
    Vanished { href: Text },
    /// The text at the first of the asked hrefs that has a fault isn't an item's.
    #[error("a bad item")]
    BadItem { href: Text, error: ItemError },
    /// Memory ran out. It is never wrapped in another error.
    #[error("out of memory")]
    NoMemory,
}

impl From<NoMemory> for StoreError {
    ghost from_gives = { λ _ e. e ≡ out_of_memory };

    fn from(_error: NoMemory) -> StoreError {
        StoreError::NoMemory
    }
}

impl From<AllocError> for StoreError {
    ghost from_gives = { λ _ e. e ≡ out_of_memory };

    fn from(_error: AllocError) -> StoreError {
        StoreError::NoMemory
    }
}

impl<T: Drop> From<AllocFailed<T>> for StoreError {
    ghost from_gives = { λ _ e. e ≡ out_of_memory };

    fn from(_error: AllocFailed<T>) -> StoreError {
        StoreError::NoMemory
    }
}

impl From<FolderError> for StoreError {
    ghost use Rattle.store_model.specs.StoreCalls.{error_of_folder};

    ghost from_gives = { λ error e. e ≡ error_of_folder error };

    fn from(error: FolderError) -> StoreError {
        match error {
            FolderError::Fault => StoreError::Fault,
            FolderError::TooLong => StoreError::TooLong,
            FolderError::NoMemory => StoreError::NoMemory,
        }
    }
}

/// A collection of items, each under an href with an etag, as every kind of storage offers it.
///
/// What contracts say of its content they say of its `side`, where it `tells` it; edits from
/// outside may come before each call's own work and after it.
pub trait Store {
    ghost use Rattle.item_text.specs.Items.{ItemValue};
    ghost use Rattle.store_model.specs.Sides.{Content, SideState, IsOutside, Sometime};
    ghost use Rattle.store_model.specs.Waits.{Change, ActsOrWaits, over_at, gone_at, IsWriteOfThese};
    ghost use Rattle.store_model.specs.declared.store.HookNote.{HookNote};
    ghost use Rattle.store_model.specs.StoreCalls.{StoreCause, Changes, Stays, RunsNoHook, Keeps, KeepsByList, KeepsByFlush, IsListed, TakenByList, TakenByPut, IsGetOf, GetAnswer, IsPutOf, PutNewAnswer, PutOverAnswer, DropAnswer, FlushAnswer};

    /// The count of faults.
    ghost count: { Self → ℕ };

    /// Whether contracts can see the store's side.
    ghost tells: { Self → Type 0 };

    /// The side, where the store tells it.
    ghost side: { Self → SideState };

    /// What the store was set up with and never changes, by which its device is seen as its side:
    /// of a folder the ending of its items' files.
    ghost setting: { Self → List ℕ };

    /// Writes wait for `flush`.
    ghost waits: { Self → Bool };

    /// `flush` can't fail.
    ghost is_sure: { Self → Bool };

    /// The changes that wait, the first of them first.
    ghost waiting: { Self → List Change };

    /// `list` has answered Ok, and no flush since has ended that.
    ghost is_listed: { Self → Bool };

    /// What `list` found, where `get` answers from it.
    ghost recalls: { Self → Content → Type 0 };

    /// Whether an href is in use, as the store knows it: `list` gave it, or an item was stored
    /// under it since.
    ghost taken: { Self → List ℕ → Bool };

    /// The hrefs that a new item may get.
    ghost may_name: { Self → ItemValue → List ℕ → Type 0 };

    /// The hook runs that failed, the first of them first.
    ghost notes: { Self → List HookNote };

    /// The argument lists of the hook runs, the first run first.
    ghost hook_calls: { Self → List (List (List ℕ)) };

    /// How often the store's device has failed; a `Fault` comes only where this rose. Takes no
    /// memory.
    fn faults(&self) -> u64
        ensures { result ≡ count self.now };

    /// The href and etag of every item, in byte order of hrefs. No item is read. `NotThere`,
    /// `TooMany` and `TooLong` come exactly as `StoreError` says, in this order.
    fn list(&mut self) -> Result<Vec<Entry>, StoreError>
        ensures changes { Changes count tells side IsOutside self.old self.new }
        ensures cause { IfErr result (StoreCause (Rose (count self.old) (count self.new))) }
        ensures answer { tells self.old → Sometime (IsListed (recalls self.new) result) (side self.old) (side self.new) }
        ensures kind { Stays waits is_sure self.old self.new }
        ensures kept { KeepsByList is_listed recalls self.old self.new result }
        ensures hrefs { TakenByList (taken self.old) (taken self.new) result }
        ensures few { IfOk result (λ entries. length entries.items ≤ MAX_ITEMS) }
        ensures waiting { waiting self.new ≡ waiting self.old }
        ensures same { setting self.new ≡ setting self.old }
        ensures hooks { RunsNoHook notes hook_calls self.old self.new };

    /// The items at these hrefs, in their order. The first href that is gone, or whose text isn't
    /// an item's, decides the error: `Vanished` or `BadItem`. No item is read but at these hrefs.
    fn get(&mut self, hrefs: &[Text]) -> Result<Vec<Fetched>, StoreError>
        requires { is_listed self.old ≡ true }
        ensures changes { Changes count tells side (IsGetOf hrefs.now) self.old self.new }
        ensures cause { IfErr result (StoreCause (Rose (count self.old) (count self.new))) }
        ensures answer { tells self.old → GetAnswer (recalls self.old) (side self.old) (side self.new) hrefs.now result }
        ensures kind { Stays waits is_sure self.old self.new }
        ensures kept { Keeps is_listed recalls self.old self.new }
        ensures hrefs { (q : List ℕ) → taken self.new q ≡ taken self.old q }
        ensures asked { IfOk result (λ fetched. map (λ f. f.href) fetched.items ≡ hrefs.now) }
        ensures waiting { waiting self.new ≡ waiting self.old }
        ensures same { setting self.new ≡ setting self.old }
        ensures hooks { RunsNoHook notes hook_calls self.old self.new };

    /// Stores an item under a new href. `Moved` comes exactly where the chosen name is taken or
    /// the collection is gone.
    fn put_new(&mut self, item: &Item) -> Result<Put, StoreError>
        requires { is_listed self.old ≡ true }
        ensures changes { Changes count tells side (IsPutOf item.now) self.old self.new }
        ensures cause { IfErr result (StoreCause (Rose (count self.old) (count self.new))) }
        ensures answer { tells self.old → PutNewAnswer (waits self.old) (may_name self.old item.now) item.now (side self.old) (waiting self.old) (side self.new) (waiting self.new) result }
        ensures acts { tells self.old → ActsOrWaits (waits self.old) (side self.old) (side self.new) }
        ensures kind { Stays waits is_sure self.old self.new }
        ensures kept { Keeps is_listed recalls self.old self.new }
        ensures hrefs { TakenByPut (taken self.old) (taken self.new) result }
        ensures same { setting self.new ≡ setting self.old }
        ensures hooks { RunsNoHook notes hook_calls self.old self.new };

    /// Replaces the item that stands at the href under the etag, and gives the etag of what the
    /// store then holds, where it knows it. `Moved` comes exactly where none stands there so.
    fn put_over(&mut self, href: &str, etag: &str, item: &Item) -> Result<Option<Text>, StoreError>
        requires { is_listed self.old ≡ true }
        ensures changes { Changes count tells side (IsWriteOfThese (over_at href.now etag.now item.now.text ∷ [])) self.old self.new }
        ensures cause { IfErr result (StoreCause (Rose (count self.old) (count self.new))) }
        ensures answer { tells self.old → PutOverAnswer (waits self.old) (over_at href.now etag.now item.now.text) (side self.old) (waiting self.old) (side self.new) (waiting self.new) result }
        ensures acts { tells self.old → ActsOrWaits (waits self.old) (side self.old) (side self.new) }
        ensures kind { Stays waits is_sure self.old self.new }
        ensures kept { Keeps is_listed recalls self.old self.new }
        ensures hrefs { (q : List ℕ) → taken self.new q ≡ taken self.old q }
        ensures same { setting self.new ≡ setting self.old }
        ensures hooks { RunsNoHook notes hook_calls self.old self.new };

    /// Removes the item that stands at the href under the etag. `Moved` comes exactly where none
    /// stands there so.
    fn drop_item(&mut self, href: &str, etag: &str) -> Result<(), StoreError>
        requires { is_listed self.old ≡ true }
        ensures changes { Changes count tells side (IsWriteOfThese (gone_at href.now etag.now ∷ [])) self.old self.new }
        ensures cause { IfErr result (StoreCause (Rose (count self.old) (count self.new))) }
        ensures answer { tells self.old → DropAnswer (waits self.old) (gone_at href.now etag.now) (side self.old) (waiting self.old) (side self.new) (waiting self.new) result }
        ensures acts { tells self.old → ActsOrWaits (waits self.old) (side self.old) (side self.new) }
        ensures kind { Stays waits is_sure self.old self.new }
        ensures kept { Keeps is_listed recalls self.old self.new }
        ensures hrefs { (q : List ℕ) → taken self.new q ≡ taken self.old q }
        ensures same { setting self.new ≡ setting self.old }
        ensures hooks { RunsNoHook notes hook_calls self.old self.new };

    /// Lets the waiting changes act, all of them or none. Without any it writes nothing. A store
    /// whose flush is sure answers Ok.
    fn flush(&mut self) -> Result<(), StoreError>
        ensures changes { Changes count tells side (IsWriteOfThese (waiting self.old)) self.old self.new }
        ensures cause { IfErr result (StoreCause (Rose (count self.old) (count self.new))) }
        ensures answer { tells self.old → FlushAnswer (side self.old) (waiting self.old) (side self.new) (waiting self.new) result }
        ensures sure { IfErr result (λ e. is_sure self.old ≡ false) }
        ensures kind { Stays waits is_sure self.old self.new }
        ensures kept { KeepsByFlush is_listed recalls self.old self.new }
        ensures hrefs { (q : List ℕ) → taken self.new q ≡ taken self.old q }
        ensures same { setting self.new ≡ setting self.old }
        ensures hooks { RunsNoHook notes hook_calls self.old self.new };

    /// The hook runs that failed, the first of them first. Takes no memory.
    fn notes(&self) -> &[HookNote]
        ensures { result.now ≡ notes self.now };

    /// An href that a new item may get isn't in use, as the store knows it.
    ghost new_is_free: { (s : Self) (item : ItemValue) (href : List ℕ) → may_name s item href → taken s href ≡ false };
}
