//! One of two kinds of store, as a store: a job's side may be of either.

use item_text::Item;
use store_model::{Entry, Fetched, HookNote, Put, Store, StoreError};
use values::Text;

/// A store of one kind or of another. Every call is the held store's own.
#[derive(Drop)]
pub enum Either<X, Y> {
    Left(X),
    Right(Y),
}

impl<X: Store, Y: Store> Store for Either<X, Y> {
    ghost use Rattle.vdirsyncer_cli.specs.Eithers.{on_either, free_by_either};
    ghost use Rattle.store_model.specs.Sides.{SideState};

    ghost count = { on_either X.count Y.count };

    ghost tells = { on_either X.tells Y.tells };

    ghost side = { on_either X.side Y.side };

    ghost setting = { on_either X.setting Y.setting };

    ghost waits = { on_either X.waits Y.waits };

    ghost is_sure = { on_either X.is_sure Y.is_sure };

    ghost waiting = { on_either X.waiting Y.waiting };

    ghost is_listed = { on_either X.is_listed Y.is_listed };

    ghost recalls = { on_either X.recalls Y.recalls };

    ghost taken = { on_either X.taken Y.taken };

    ghost may_name = { on_either X.may_name Y.may_name };

    ghost notes = { on_either X.notes Y.notes };

    ghost hook_calls = { on_either X.hook_calls Y.hook_calls };

    fn faults(&self) -> u64 {
        match self {
            Either::Left(x) => x.faults(),
            Either::Right(y) => y.faults(),
        }
    }

    fn list(&mut self) -> Result<Vec<Entry>, StoreError> {
        match self {
            Either::Left(x) => x.list(),
            Either::Right(y) => y.list(),
        }
    }

    fn get(&mut self, hrefs: &[Text]) -> Result<Vec<Fetched>, StoreError> {
        match self {
            Either::Left(x) => x.get(hrefs),
            Either::Right(y) => y.get(hrefs),
        }
    }

    fn put_new(&mut self, item: &Item) -> Result<Put, StoreError> {
        match self {
            Either::Left(x) => x.put_new(item),
            Either::Right(y) => y.put_new(item),
        }
    }

    fn put_over(
        &mut self,
        href: &str,
        etag: &str,
        item: &Item,
    ) -> Result<Option<Text>, StoreError> {
        match self {
            Either::Left(x) => x.put_over(href, etag, item),
            Either::Right(y) => y.put_over(href, etag, item),
        }
    }

    fn drop_item(&mut self, href: &str, etag: &str) -> Result<(), StoreError> {
        match self {
            Either::Left(x) => x.drop_item(href, etag),
            Either::Right(y) => y.drop_item(href, etag),
        }
    }

    fn flush(&mut self) -> Result<(), StoreError> {
        match self {
            Either::Left(x) => x.flush(),
            Either::Right(y) => y.flush(),
        }
    }

    fn notes(&self) -> &[HookNote] {
        match self {
            Either::Left(x) => x.notes(),
            Either::Right(y) => y.notes(),
        }
    }

    ghost new_is_free = { free_by_either X.may_name Y.may_name X.taken Y.taken X.new_is_free Y.new_is_free };
}
