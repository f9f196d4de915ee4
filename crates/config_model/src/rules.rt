//! The rules of a pair: who wins a conflict, what is done where a side is read-only, and which metadata are kept equal.

/// Which version wins where both sides changed.
#[derive(Clone, Copy, Debug, PartialEq, Eq)]
pub enum ConflictRule {
    /// Neither: the conflict is told.
    Null,
    AWins,
    BWins,
    /// What a command makes of both.
    Command,
}

/// What becomes of a change that would be written to a read-only side.
#[derive(Clone, Copy, Debug, PartialEq, Eq)]
pub enum Partial {
    /// It is told as an error, and stays.
    Error,
    /// It stays.
    Ignore,
    /// The next run takes it back.
    Revert,
}

/// A value that a collection has beside its items.
#[derive(Clone, Copy, Debug, PartialEq, Eq)]
pub enum MetaKey {
    Displayname,
    Color,
}
