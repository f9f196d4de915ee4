//! The collections that a pair wants.

use values::Text;

/// A collection that a pair wants, or all that a storage has.
#[derive(Debug, Drop)]
pub enum Wanted {
    /// Each that storage a has.
    FromA,
    /// Each that storage b has.
    FromB,
    /// One with its own name, and its name in each storage.
    Named { name: Text, a: Text, b: Text },
}
