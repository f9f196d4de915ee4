//! What a plan is made of, and why there is none.

use crate::dues::Step;
use crate::report::Side;
use item_text::Fp;
use thiserror::Error;
use values::Text;

/// An item of a listing: its ident and version, its href and its etag.
#[derive(Debug, Drop)]
pub struct Seen {
    pub ident: Text,
    pub fp: Fp,
    pub href: Text,
    pub etag: Text,
}

/// The step for an ident, and the places of its items in the two listings.
#[derive(Clone, Copy, Debug)]
pub struct Planned<'p> {
    pub ident: &'p str,
    pub step: Step,
    pub a: Option<u32>,
    pub b: Option<u32>,
}

/// Why there is no plan.
#[derive(Debug, Drop, Error)]
pub enum PlanError {
    /// Two items of that side have the ident. Side a is looked at first, then the least ident; the hrefs are its first
    /// two in the order of the listing.
    #[error("an ident stands twice")]
    SameIdent {
        side: Side,
        ident: Text,
        first: Text,
        second: Text,
    },
    #[error("out of memory")]
    NoMemory,
}
