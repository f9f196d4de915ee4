//! The items that a step speaks of.

ghost use Rattle.std.specs.Prelude.{◌≡◌, Some, IfSome};
ghost use Rattle.job_writes.specs.Writings.{seen_at, text_at, lent_seen};

use item_text::Item;
use side_reads::Holding;
use sync_plan::Seen;

/// An item that a step writes to the other side.
#[derive(Clone, Copy)]
pub struct Source<'h> {
    pub seen: &'h Seen,
    pub item: &'h Item,
}

/// What a side is taken to hold at a place of its listing.
pub fn seen_at<'h>(held: &'h Holding, place: Option<u32>) -> Option<&'h Seen>
    ensures { lent_seen result ≡ seen_at held.now place }
{
    match place {
        Some(place) => held.seen.get(place as usize),
        None => None,
    }
}

/// The text that was fetched for a place of the listing.
fn text_at<'h>(held: &'h Holding, place: Option<u32>) -> Option<&'h Item>
    ensures { IfSome result (λ item. text_at held.now place ≡ Some item.now) }
{
    let Some(place) = place else {
        return None;
    };
    match held.items.get(place as usize) {
        Some(Some(item)) => Some(item.get()),
        _ => None,
    }
}

/// The item at a place, where its text was fetched.
pub fn source_at<'h>(held: &'h Holding, place: Option<u32>) -> Option<Source<'h>>
    ensures seen { IfSome result (λ s. seen_at held.now place ≡ Some s.seen.now) }
    ensures text { IfSome result (λ s. text_at held.now place ≡ Some s.item.now) }
{
    match (seen_at(held, place), text_at(held, place)) {
        (Some(seen), Some(item)) => Some(Source { seen, item }),
        _ => None,
    }
}
