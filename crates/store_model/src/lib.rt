//! What a store is: the contract that every kind of storage meets, and the names of new items.
#![tactic(auto)]

mod event;
mod names;
mod store;

pub use event::{Held, StoreEvent};
pub use names::{file_stem, free_name};
pub use store::{
    Entry, Fetched, HookNote, MAX_ETAG, MAX_HREF, MAX_ITEMS, MetaKey, Put, Store, StoreError,
};
