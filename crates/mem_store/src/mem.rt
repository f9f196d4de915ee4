//! The store in memory.

ghost use Rattle.std.specs.Prelude.{◌≡◌, IfOk, map};
ghost use Rattle.outside.specs.FileMap.{files_of};
ghost use Rattle.mem_store.specs.Memory.{event_of, read_of};

use crate::calls::{flush, get, list, put_new, put_over, take_away};
use crate::desk::{Desk, Pending};
use crate::shelf::{MemEvent, MemRead, Shelf};
use item_text::Item;
use outside::file_map::{FileMap, collect};
use outside::{FaultPlan, NoMemory};
use std::alloc::Global;
use std::collections::BTreeSet;
use store_model::{Entry, Fetched, HookNote, Put, Store, StoreError};
use values::{Bytes, Text};

/// A collection in memory, which always counts as there.
///
/// The etag of a text is the lower-case hex SHA-256 of its bytes. A new item is named as a folder
/// store with the ending `.vcf` names it. Where its writes wait, each decides whether it fits by
/// what stands now, and `flush` lets all of them act or none: it answers `Moved` where an edit
/// from outside came since the first of them, or where one of them doesn't fit behind the others.
/// A flush writes nothing but what was prepared as the changes were sent.
///
/// Each call but a `get` of no hrefs is a call of the plan. A reading call that is to fail reads
/// nothing; a writing call that is to fail and acts does so where it doesn't wait.
#[derive(Drop)]
pub struct MemStore {
    alloc: Global,
    desk: Desk,
    // The hrefs that the last listing gave, and those written or sent since.
    names: BTreeSet<String>,
    listed: bool,
    waits: bool,
}

impl MemStore {
    ghost use Rattle.std.specs.Prelude.{[], false};
    ghost use Rattle.mem_store.specs.Memory.{is_new, content_of};
    ghost use Rattle.mem_store.specs.Desks.{pending_change};

    /// A store with these texts. Of several under one href the first counts. `plan` says which calls fail, and what is edited from outside.
    pub fn new(
        alloc: Global,
        items: Vec<(Text, Bytes)>,
        waiting: bool,
        plan: FaultPlan,
    ) -> Result<MemStore, NoMemory>
        ensures count { IfOk result (λ m. ⟦<MemStore as Store>⟧.count m ≡ 0) }
        ensures tells { IfOk result (λ m. ⟦<MemStore as Store>⟧.tells m) }
        ensures side { IfOk result (λ m. ⟦<MemStore as Store>⟧.side m ≡ is_new items.items) }
        ensures waits { IfOk result (λ m. ⟦<MemStore as Store>⟧.waits m ≡ waiting) }
        ensures sure { IfOk result (λ m. ⟦<MemStore as Store>⟧.is_sure m ≡ false) }
        ensures waiting { IfOk result (λ m. ⟦<MemStore as Store>⟧.waiting m ≡ []) }
        ensures listed { IfOk result (λ m. ⟦<MemStore as Store>⟧.is_listed m ≡ false) }
    {
        let files = collect(alloc, items)?;
        Ok(MemStore {
            alloc,
            desk: Desk::new(alloc, Shelf::new(alloc, files), plan),
            names: BTreeSet::new(alloc),
            listed: false,
            waits: waiting,
        })
    }

    /// The texts that stand, by their hrefs.
    pub fn texts(&self) -> &FileMap
        ensures { content_of (files_of result.now) ≡ (⟦<MemStore as Store>⟧.side self.now).content }
    {
        self.desk.shelf().files()
    }

    /// All that has changed the texts, the first of it first.
    pub fn trail(&self) -> &[MemEvent]
        ensures { map event_of result.now ≡ (⟦<MemStore as Store>⟧.side self.now).trail }
    {
        self.desk.shelf().trail()
    }

    /// All that `get` has read, the first of it first.
    pub fn reads(&self) -> &[MemRead]
        ensures { map read_of result.now ≡ (⟦<MemStore as Store>⟧.side self.now).reads }
    {
        self.desk.shelf().reads()
    }

    /// The changes that wait, the first of them first.
    pub fn waiting(&self) -> &[Pending]
        ensures { map pending_change result.now ≡ ⟦<MemStore as Store>⟧.waiting self.now }
    {
        self.desk.waiting()
    }
}

impl Store for MemStore {
    ghost use Rattle.std.specs.Prelude.{[], false};
    ghost use Rattle.std.specs.BTreeSet.{contains_text};
    ghost use Rattle.store_model.specs.Names.{file_stem, IsFreeName};
    ghost use Rattle.mem_store.specs.Memory.{vcf_ending};
    ghost use Rattle.mem_store.specs.Desks.{desk_side, waiting_of, count_of, IsSound};

    ghost count = { λ m. count_of m.desk };

    ghost tells = { λ m. IsSound m.desk };

    ghost side = { λ m. desk_side m.desk };

    ghost setting = { λ m. [] };

    ghost waits = { λ m. m.waits };

    ghost is_sure = { λ m. false };

    ghost waiting = { λ m. waiting_of m.desk };

    ghost is_listed = { λ m. m.listed };

    ghost recalls = { λ m c. ⊥ };

    ghost taken = { λ m. contains_text m.names };

    ghost may_name = { λ m item href. IsFreeName (contains_text m.names) (file_stem item.ident) vcf_ending href };

    ghost notes = { λ m. [] };

    ghost hook_calls = { λ m. [] };

    fn faults(&self) -> u64 {
        self.desk.faults()
    }

    fn list(&mut self) -> Result<Vec<Entry>, StoreError> {
        match list(&mut self.desk, &mut self.names, self.alloc) {
            Ok(entries) => {
                self.listed = true;
                Ok(entries)
            }
            Err(error) => Err(error),
        }
    }

    fn get(&mut self, hrefs: &[Text]) -> Result<Vec<Fetched>, StoreError> {
        get(&mut self.desk, self.alloc, hrefs)
    }

    fn put_new(&mut self, item: &Item) -> Result<Put, StoreError> {
        put_new(
            &mut self.desk,
            &mut self.names,
            self.alloc,
            self.waits,
            item,
        )
    }

    fn put_over(
        &mut self,
        href: &str,
        etag: &str,
        item: &Item,
    ) -> Result<Option<Text>, StoreError> {
        put_over(&mut self.desk, self.waits, href, etag, item)
    }

    fn drop_item(&mut self, href: &str, etag: &str) -> Result<(), StoreError> {
        take_away(&mut self.desk, self.waits, href, etag)
    }

    fn flush(&mut self) -> Result<(), StoreError> {
        flush(&mut self.desk)
    }

    fn notes(&self) -> &[HookNote] {
        &[]
    }

    ghost new_is_free = { λ m item href may. may.free };
}
