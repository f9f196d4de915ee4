//! What happens to a store.

use values::Text;

/// What stands at an href: an item's text, and the etag that the store tells of it.
#[derive(Debug, Drop)]
pub struct Held {
    pub etag: Text,
    pub text: Text,
}

/// Something that happened to a store.
#[derive(Debug, Drop)]
pub enum StoreEvent {
    /// An edit from outside: what stood at the href, and what stands there now.
    Edited {
        href: Text,
        old: Option<Held>,
        new: Option<Held>,
    },
    /// The collection came or went by an edit from outside.
    Toggled,
    /// An own write: what stood at the href, what stands there now, and the text that was sent
    /// (none: a removal).
    Wrote {
        href: Text,
        old: Option<Held>,
        new: Option<Held>,
        sent: Option<Text>,
    },
    /// `get` read this text.
    Read {
        href: Text,
        text: Text,
    },
}
