//! The store over a folder, which keeps one file per item.

ghost use Rattle.std.specs.Prelude.{◌≡◌, ℕ, List, [], true, false, IsTrue};
ghost use Rattle.std.specs.BTreeSet.{contains_text};
ghost use Rattle.vdir_store.specs.Names.{is_ending};

use crate::parts::{fetch_all, put_item, refresh, take_away, write_over};
use item_text::Item;
use outside::Folder;
use std::alloc::Global;
use std::collections::BTreeSet;
use store_model::{Entry, Fetched, HookNote, Put, Store, StoreError};
use values::Text;

/// A store of one file per item (the vdir specification's collection, without its metadata).
///
/// An item is a file whose name ends with the store's ending, is longer than it and doesn't end
/// with `.tmp`; its href is the file's name, and its etag the lower-case hex SHA-256 of the
/// file's bytes. A changed item keeps its name. Writes act at once. No file but an item is ever
/// written or taken away, and no folder made.
#[derive(Drop)]
pub struct VdirStore<F> {
    alloc: Global,
    folder: F,
    ending: Text,
    // The names that the last listing gave, and those written since.
    names: BTreeSet<String>,
    listed: bool,
    ghost ending_ok: { IsTrue (is_ending ending) },
}

impl<F: Folder> VdirStore<F> {
    ghost use Rattle.vdir_store.specs.Names.{SpeaksOf};
    ghost use Rattle.vdir_store.specs.Vdir.{side_of};

    /// A store over a folder, of the files with this ending. What contracts say of its content
    /// they don't say of an ending that ends with `.tmp`. Takes no memory.
    pub fn new(alloc: Global, folder: F, ending: Text) -> VdirStore<F>
        requires { IsTrue (is_ending ending) }
        ensures count { ⟦<VdirStore<F> as Store>⟧.count result ≡ F.count folder }
        ensures tells { SpeaksOf ending → F.tells folder → ⟦<VdirStore<F> as Store>⟧.tells result }
        ensures side { ⟦<VdirStore<F> as Store>⟧.side result ≡ side_of ending (F.state folder) }
        ensures setting { ⟦<VdirStore<F> as Store>⟧.setting result ≡ ending }
        ensures waits { ⟦<VdirStore<F> as Store>⟧.waits result ≡ false }
        ensures sure { ⟦<VdirStore<F> as Store>⟧.is_sure result ≡ true }
        ensures waiting { ⟦<VdirStore<F> as Store>⟧.waiting result ≡ [] }
        ensures listed { ⟦<VdirStore<F> as Store>⟧.is_listed result ≡ false }
    {
        VdirStore {
            alloc,
            folder,
            ending,
            names: BTreeSet::new(alloc),
            listed: false,
        }
    }

    /// Gives the folder back. Takes no memory.
    pub fn into_parts(self) -> F
        ensures count { F.count result ≡ ⟦<VdirStore<F> as Store>⟧.count self }
        ensures tells { ⟦<VdirStore<F> as Store>⟧.tells self → F.tells result }
        ensures side { side_of (⟦<VdirStore<F> as Store>⟧.setting self) (F.state result) ≡ ⟦<VdirStore<F> as Store>⟧.side self }
    {
        let VdirStore {
            alloc: _,
            folder,
            ending: _,
            names: _,
            listed: _,
        } = self;
        folder
    }
}

impl<F: Folder> Store for VdirStore<F> {
    ghost use Rattle.store_model.specs.Names.{file_stem, IsFreeName};
    ghost use Rattle.vdir_store.specs.Names.{SpeaksOf};
    ghost use Rattle.vdir_store.specs.Vdir.{side_of};

    ghost count = { λ v. F.count v.folder };

    ghost tells = { λ v. SpeaksOf v.ending × F.tells v.folder };

    ghost side = { λ v. side_of v.ending (F.state v.folder) };

    ghost setting = { λ v. v.ending };

    ghost waits = { λ v. false };

    ghost is_sure = { λ v. true };

    ghost waiting = { λ v. [] };

    ghost is_listed = { λ v. v.listed };

    ghost recalls = { λ v c. ⊥ };

    ghost taken = { λ v. contains_text v.names };

    ghost may_name = { λ v item href. IsFreeName (contains_text v.names) (file_stem item.ident) v.ending href };

    ghost notes = { λ v. [] };

    ghost hook_calls = { λ v. [] };

    fn faults(&self) -> u64 {
        self.folder.faults()
    }

    fn list(&mut self) -> Result<Vec<Entry>, StoreError> {
        match refresh(
            &mut self.folder,
            &mut self.names,
            self.alloc,
            self.ending.as_str(),
        ) {
            Ok(entries) => {
                self.listed = true;
                Ok(entries)
            }
            Err(error) => Err(error),
        }
    }

    fn get(&mut self, hrefs: &[Text]) -> Result<Vec<Fetched>, StoreError> {
        fetch_all(&mut self.folder, self.alloc, self.ending.as_str(), hrefs)
    }

    fn put_new(&mut self, item: &Item) -> Result<Put, StoreError> {
        put_item(
            &mut self.folder,
            &mut self.names,
            self.alloc,
            self.ending.as_str(),
            item,
        )
    }

    fn put_over(
        &mut self,
        href: &str,
        etag: &str,
        item: &Item,
    ) -> Result<Option<Text>, StoreError> {
        write_over(
            &mut self.folder,
            self.alloc,
            self.ending.as_str(),
            href,
            etag,
            item,
        )
    }

    fn drop_item(&mut self, href: &str, etag: &str) -> Result<(), StoreError> {
        take_away(&mut self.folder, self.ending.as_str(), href, etag)
    }

    fn flush(&mut self) -> Result<(), StoreError> {
        Ok(())
    }

    fn notes(&self) -> &[HookNote] {
        &[]
    }

    ghost new_is_free = { λ v item href may. may.free };
}
