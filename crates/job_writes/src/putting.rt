//! The calls of single steps.

ghost use Rattle.std.specs.Prelude.{◌≡◌, ℕ, List, true, IfOk, OnOk};
ghost use Rattle.outside.specs.Causes.{Rose};
ghost use Rattle.store_model.specs.Sides.{IsAnyEvent, WasEdited};
ghost use Rattle.store_model.specs.Waits.{ActsOrWaits};
ghost use Rattle.store_model.specs.StoreCalls.{Changes, Stays, Keeps, IsKnown};
ghost use Rattle.store_model.specs.declared.store.StoreError.TheVariants as error_of;
ghost use Rattle.job_writes.specs.Knowns.{KnownAfter, IsMovedOut};
ghost use Rattle.job_writes.specs.Writings.{row_beside, now_of, CopyAnswer, OverAnswer, RemovalAnswer, IsPut, IsRowOf, IsRemoval, IsCausedOn};

use crate::outcome::Outcome;
use crate::sources::Source;
use side_reads::Boxed;
use status_keeper::Row;
use std::alloc::{AllocError, Global};
use store_model::{Store, StoreError};
use sync_plan::{Seen, Side};
use values::Text;

/// The row of an item that was written to the side at this href.
fn row_beside(
    alloc: Global,
    side: Side,
    from: &Seen,
    href: Text,
    etag: Option<Text>,
) -> Result<Boxed<Row>, AllocError>
    ensures { IfOk result (λ row. row ≡ row_beside side from.now href etag) }
{
    let ident = Text::copy_of(alloc, from.ident.as_str())?;
    let from_href = Some(Text::copy_of(alloc, from.href.as_str())?);
    let from_etag = Some(Text::copy_of(alloc, from.etag.as_str())?);
    let fp = from.fp;
    let href = Some(href);
    let row = match side {
        Side::A => Row {
            ident,
            fp,
            href_a: href,
            etag_a: etag,
            href_b: from_href,
            etag_b: from_etag,
        },
        Side::B => Row {
            ident,
            fp,
            href_a: from_href,
            etag_a: from_etag,
            href_b: href,
            etag_b: etag,
        },
    };
    Boxed::of(alloc, row)
}

/// What a write leaves that answered the error; want of memory ends the run.
fn not_written(side: Side, error: StoreError) -> Result<Outcome, AllocError>
    ensures told { IfOk result (λ o. o ≡ Outcome.NotWritten side error) }
    ensures memory { OnOk result (error ≡ error_of.NoMemory → ⊥) }
{
    match error {
        StoreError::NoMemory => Err(AllocError),
        error => Ok(Outcome::NotWritten { side, error }),
    }
}

/// Copies an item to the side.
pub fn copy_to<S: Store>(
    alloc: Global,
    store: &mut S,
    side: Side,
    from: Source,
) -> Result<Outcome, AllocError>
    requires { S.is_listed store.old ≡ true }
    ensures changes { Changes S.count S.tells S.side IsAnyEvent store.old store.new }
    ensures answer { S.tells store.old → CopyAnswer (S.waits store.old) side from.entry.seen.now from.entry.item.now (now_of (S.side store.old) (S.waiting store.old)) (now_of (S.side store.new) (S.waiting store.new)) result }
    ensures acts { S.tells store.old → ActsOrWaits (S.waits store.old) (S.side store.old) (S.side store.new) }
    ensures fits { IfOk result (IsPut side) }
    ensures named { IfOk result (IsRowOf from.entry.seen.now.ident) }
    ensures cause { IfOk result (IsCausedOn side (Rose (S.count store.old) (S.count store.new))) }
    ensures known { S.tells store.old → IsKnown (S.taken store.old) (S.side store.old) → IfOk result (KnownAfter (S.side store.old) (S.taken store.new) (S.side store.new)) }
    ensures moved { S.tells store.old → IsKnown (S.taken store.old) (S.side store.old) → IfOk result (λ o. IsMovedOut o → WasEdited (S.side store.old) (S.side store.new)) }
    ensures kind { Stays S.waits S.is_sure store.old store.new }
    ensures kept { Keeps S.is_listed S.recalls store.old store.new }
    ensures same { S.setting store.new ≡ S.setting store.old }
{
    match store.put_new(from.item) {
        Ok(put) => match row_beside(alloc, side, from.seen, put.href, put.etag) {
            Ok(row) => Ok(Outcome::Written(row)),
            Err(error) => Err(error),
        },
        Err(error) => not_written(side, error),
    }
}

/// Writes an item over another on the side.
pub fn write_over<S: Store>(
    alloc: Global,
    store: &mut S,
    side: Side,
    over: &Seen,
    from: Source,
) -> Result<Outcome, AllocError>
    requires { S.is_listed store.old ≡ true }
    ensures changes { Changes S.count S.tells S.side IsAnyEvent store.old store.new }
    ensures answer { S.tells store.old → OverAnswer (S.waits store.old) side over.now from.entry.seen.now from.entry.item.now (now_of (S.side store.old) (S.waiting store.old)) (now_of (S.side store.new) (S.waiting store.new)) result }
    ensures acts { S.tells store.old → ActsOrWaits (S.waits store.old) (S.side store.old) (S.side store.new) }
    ensures fits { IfOk result (IsPut side) }
    ensures named { IfOk result (IsRowOf from.entry.seen.now.ident) }
    ensures cause { IfOk result (IsCausedOn side (Rose (S.count store.old) (S.count store.new))) }
    ensures known { S.tells store.old → IsKnown (S.taken store.old) (S.side store.old) → IfOk result (KnownAfter (S.side store.old) (S.taken store.new) (S.side store.new)) }
    ensures kind { Stays S.waits S.is_sure store.old store.new }
    ensures kept { Keeps S.is_listed S.recalls store.old store.new }
    ensures taken { (q : List ℕ) → S.taken store.new q ≡ S.taken store.old q }
    ensures same { S.setting store.new ≡ S.setting store.old }
{
    match store.put_over(over.href.as_str(), over.etag.as_str(), from.item) {
        Ok(etag) => {
            let Ok(href) = Text::copy_of(alloc, over.href.as_str()) else {
                return Err(AllocError);
            };
            match row_beside(alloc, side, from.seen, href, etag) {
                Ok(row) => Ok(Outcome::Written(row)),
                Err(error) => Err(error),
            }
        }
        Err(error) => not_written(side, error),
    }
}

/// What a removal leaves that answered the error; want of memory ends the run.
fn not_removed(side: Side, error: StoreError) -> Result<Outcome, AllocError>
    ensures told { IfOk result (λ o. o ≡ Outcome.NotRemoved side error) }
    ensures memory { OnOk result (error ≡ error_of.NoMemory → ⊥) }
{
    match error {
        StoreError::NoMemory => Err(AllocError),
        error => Ok(Outcome::NotRemoved { side, error }),
    }
}

/// Removes an item from the side.
pub fn remove_from<S: Store>(store: &mut S, side: Side, over: &Seen) -> Result<Outcome, AllocError>
    requires { S.is_listed store.old ≡ true }
    ensures changes { Changes S.count S.tells S.side IsAnyEvent store.old store.new }
    ensures answer { S.tells store.old → RemovalAnswer (S.waits store.old) side over.now (now_of (S.side store.old) (S.waiting store.old)) (now_of (S.side store.new) (S.waiting store.new)) result }
    ensures acts { S.tells store.old → ActsOrWaits (S.waits store.old) (S.side store.old) (S.side store.new) }
    ensures fits { IfOk result (IsRemoval side) }
    ensures cause { IfOk result (IsCausedOn side (Rose (S.count store.old) (S.count store.new))) }
    ensures kind { Stays S.waits S.is_sure store.old store.new }
    ensures kept { Keeps S.is_listed S.recalls store.old store.new }
    ensures taken { (q : List ℕ) → S.taken store.new q ≡ S.taken store.old q }
    ensures same { S.setting store.new ≡ S.setting store.old }
{
    match store.drop_item(over.href.as_str(), over.etag.as_str()) {
        Ok(()) => Ok(Outcome::Gone),
        Err(error) => not_removed(side, error),
    }
}
