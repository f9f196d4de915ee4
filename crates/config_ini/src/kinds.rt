//! What one line of a configuration may be.

use values::{Bytes, Text};

/// The kinds of sections.
#[derive(Clone, Copy)]
pub enum SectionKind {
    General,
    Pair,
    Storage,
}

/// The head of a section. `[general]` has an empty name.
#[derive(Drop)]
pub struct Title {
    pub kind: SectionKind,
    pub name: Text,
}

/// A key in lower case, and whether it was written with `.fetch`, which is no part of the name.
#[derive(Drop)]
pub struct Key {
    pub name: Text,
    pub is_fetched: bool,
}

/// What one physical line is.
#[derive(Drop)]
pub(crate) enum LineKind {
    /// Blank or a comment.
    Passed,
    /// It goes on with the value above.
    Continued,
    Section(Title),
    Key { key: Key, value: Bytes },
    Bad,
}

/// A key with its value, which may take several lines, and the number of its first line.
#[derive(Drop)]
pub(crate) struct Written {
    pub number: u32,
    pub key: Key,
    pub value: Bytes,
}

/// A line with all that continues it.
#[derive(Drop)]
pub(crate) enum Logical {
    Section { number: u32, title: Title },
    Key(Written),
    /// A line of no kind, or a continuation without a key.
    Bad { number: u32 },
}
