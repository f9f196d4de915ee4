//! The rules of a pair: who wins a conflict, and what may be written.

/// Which version wins where both sides changed.
#[derive(Clone, Copy, Debug, PartialEq, Eq)]
pub enum ConflictRule {
    /// Neither: the conflict is told.
    Null,
    AWins,
    BWins,
    /// What a command makes of both.
    Command,
}

/// What becomes of a change that would be written to a read-only side.
#[derive(Clone, Copy, Debug, PartialEq, Eq)]
pub enum Partial {
    /// It is told as an error, and stays.
    Error,
    /// It stays.
    Ignore,
    /// The next run takes it back.
    Revert,
}

/// The rules of a pair.
#[derive(Clone, Copy, Debug, PartialEq, Eq)]
pub struct Rules {
    pub conflict: ConflictRule,
    pub partial: Partial,
    pub a_read_only: bool,
    pub b_read_only: bool,
}
