//! What a side is taken to hold.

ghost use Rattle.std.specs.Prelude.{◌≡◌, ℕ, List, Option, Some, None, map, IfOk};
ghost use Rattle.side_reads.specs.Places.{row_at};
ghost use Rattle.side_reads.specs.Holdings.{asked, IsOfRow, IsOfText, IsLastTaken, AreTaken};

use crate::boxed::Boxed;
use crate::places::Places;
use crate::room::room_for;
use item_text::Item;
use status_keeper::Row;
use std::alloc::{AllocError, Global};
use store_model::{Entry, Fetched};
use sync_plan::Seen;
use values::Text;

/// What a side is taken to hold, in the order of its listing: for each entry its item, and its text where it was fetched.
#[derive(Drop)]
pub struct Holding {
    pub seen: Vec<Seen>,
    pub items: Vec<Option<Boxed<Item>>>,
}

/// What is taken for one entry.
#[derive(Drop)]
struct Taken {
    seen: Seen,
    item: Option<Boxed<Item>>,
}

/// The hrefs of the entries that are to be fetched: those whose place no row has.
pub fn asked(alloc: Global, entries: &[Entry], places: &Places) -> Result<Vec<Text>, AllocError>
    ensures { IfOk result (λ hrefs. hrefs.items ≡ asked places.now.side places.now.rows entries.now) }
{
    let mut hrefs = Vec::new(alloc);
    for entry in entries {
        if places
            .row_at(entry.href.as_str(), entry.etag.as_str())
            .is_none()
        {
            hrefs.push(Text::copy_of(alloc, entry.href.as_str())?)?;
        }
    }
    Ok(hrefs)
}

fn of_row(alloc: Global, entry: Entry, row: &Row) -> Result<Taken, AllocError>
    ensures seen { IfOk result (λ t. IsOfRow entry row.now t.seen) }
    ensures text { IfOk result (λ t. t.item ≡ None) }
{
    let ident = Text::copy_of(alloc, row.ident.as_str())?;
    let Entry { href, etag } = entry;
    Ok(Taken {
        seen: Seen {
            ident,
            fp: row.fp,
            href,
            etag,
        },
        item: None,
    })
}

fn of_text(alloc: Global, fetched: Fetched) -> Result<Taken, AllocError>
    ensures seen { IfOk result (λ t. IsOfText fetched t.seen) }
    ensures text { IfOk result (λ t. t.item ≡ Some fetched.item) }
{
    let Fetched { href, etag, item } = fetched;
    let ident = Text::copy_of(alloc, item.ident())?;
    let fp = item.fp();
    Ok(Taken {
        seen: Seen {
            ident,
            fp,
            href,
            etag,
        },
        item: Some(Boxed::of(alloc, item)?),
    })
}

/// What is taken for the last entry of a listing; `fetched` ends with its item where no row has its place.
fn take_last(
    alloc: Global,
    entry: Entry,
    places: &Places,
    fetched: &mut Vec<Fetched>,
) -> Result<Taken, AllocError>
    ensures { IfOk result (λ t. IsLastTaken (row_at places.now.side entry.href entry.etag places.now.rows) entry fetched.old.items fetched.new.items t.seen t.item) }
{
    match places.row_at(entry.href.as_str(), entry.etag.as_str()) {
        Some(row) => of_row(alloc, entry, row),
        None => match fetched.pop() {
            Some(found) => of_text(alloc, found),
            None => Err(AllocError),
        },
    }
}

impl Holding {
    /// What the entries of a listing are taken to be, where `fetched` are the items that were asked for.
    pub fn of(
        alloc: Global,
        entries: Vec<Entry>,
        places: &Places,
        fetched: Vec<Fetched>,
    ) -> Result<Holding, AllocError>
        requires { map (λ f. f.href) fetched.items ≡ asked places.now.side places.now.rows entries.items }
        ensures { IfOk result (λ h. AreTaken places.now.side places.now.rows fetched.items entries.items h.seen.items h.items.items) }
    {
        let mut entries = entries;
        let mut fetched = fetched;
        let mut seen = room_for(alloc, entries.len());
        let mut items = room_for(alloc, entries.len());
        while let Some(entry) = entries.pop() {
            let taken = take_last(alloc, entry, places, &mut fetched)?;
            seen.push(taken.seen)?;
            items.push(taken.item)?;
        }
        seen.reverse();
        items.reverse();
        Ok(Holding { seen, items })
    }
}
