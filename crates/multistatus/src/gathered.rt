//! A text put together from pieces.

ghost use Rattle.std.specs.Prelude.{◌≡◌, ◌++◌, [], IfOk};

use bumpalo::Bump;
use bumpalo::collections::into_bump_str;
use std::alloc::{AllocError, Global};
use std::marker::Model;
use values::Lent;

/// A text so far, which contracts see as its bytes. One piece stays lent, and more are copied.
#[derive(Debug, Drop)]
pub(crate) struct Gathered<'a> {
    first: &'a str,
    more: String,
}

impl<'a> Model for Gathered<'a> {
    ghost use Rattle.std.specs.Prelude.{ℕ, List, string_bytes, ◌++◌};

    ghost Value = { List ℕ };

    ghost view = { λ g. g.first.now ++ string_bytes g.more };
}

impl<'a> Gathered<'a> {
    pub(crate) fn new(alloc: Global) -> Gathered<'a>
        ensures { result ≡ [] }
    {
        Gathered {
            first: "",
            more: String::new(alloc),
        }
    }

    /// The text and one more piece.
    pub(crate) fn with(self, piece: Lent<'a>) -> Result<Gathered<'a>, AllocError>
        ensures { IfOk result (λ longer. longer ≡ self.entry ++ piece.entry) }
    {
        let Gathered { first, mut more } = self;
        if first.is_empty() && more.is_empty() {
            return Ok(Gathered {
                first: piece.as_str(),
                more,
            });
        }
        more.push_str(piece.as_str())?;
        Ok(Gathered { first, more })
    }

    /// The whole text, which stands in the arena where it has several pieces.
    pub(crate) fn text(&self, arena: &'a Bump) -> Result<&'a str, AllocError>
        ensures { IfOk result (λ text. text.now ≡ self.now) }
    {
        if self.more.is_empty() {
            return Ok(self.first);
        }
        let len = self.first.len().saturating_add(self.more.len());
        let mut whole = String::with_capacity(arena, len)?;
        whole.push_str(self.first)?;
        whole.push_str(self.more.as_str())?;
        Ok(into_bump_str(whole))
    }
}
