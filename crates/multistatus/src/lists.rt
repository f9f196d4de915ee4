//! Lists that stand in the arena.

ghost use Rattle.std.specs.Prelude.{◌≡◌, ◌↔◌, ◌++◌, ◌∷◌, [], IsTrue, IfOk, OnOk};

use bumpalo::Bump;
use bumpalo::collections::into_bump_slice;
use std::alloc::{AllocError, Global};
use std::marker::Model;

/// Values that stand elsewhere, which contracts see as their list.
#[derive(Debug, Drop)]
pub struct LentList<'a, T> {
    inner: &'a [T],
}

impl<'a, T> Model for LentList<'a, T> {
    ghost use Rattle.std.specs.Prelude.{List};

    ghost Value = { List T };

    ghost view = { λ l. l.inner.now };
}

impl<'a, T> LentList<'a, T> {
    pub(crate) fn of(inner: &'a [T]) -> LentList<'a, T>
        ensures { result ≡ inner.now }
    {
        LentList { inner }
    }

    pub fn as_slice(&self) -> &'a [T]
        ensures { result.now ≡ self.now }
    {
        self.inner
    }
}

/// A list that grows, until it is moved to the arena.
#[derive(Debug, Drop)]
pub(crate) struct Growing<T> {
    inner: Vec<T>,
}

impl<T> Model for Growing<T> {
    ghost use Rattle.std.specs.Prelude.{List};

    ghost Value = { List T };

    ghost view = { λ g. g.inner.items };
}

impl<T: Drop> Growing<T> {
    pub(crate) fn new(alloc: Global) -> Growing<T>
        ensures { result ≡ [] }
    {
        Growing {
            inner: Vec::new(alloc),
        }
    }

    pub(crate) fn is_empty(&self) -> bool
        ensures { IsTrue result ↔ (self.now ≡ []) }
    {
        self.inner.is_empty()
    }

    /// Puts a value at the end.
    pub(crate) fn push(&mut self, value: T) -> Result<(), AllocError>
        ensures { OnOk result (self.new ≡ self.old ++ value ∷ []) }
    {
        self.inner.push(value)?;
        Ok(())
    }

    /// The values, moved to the arena.
    pub(crate) fn moved<'a>(self, arena: &'a Bump) -> Result<&'a [T], AllocError>
        ensures { IfOk result (λ listed. listed.now ≡ self) }
    {
        moved(arena, self.inner)
    }
}

/// Moves values to the arena from the last to the first, and gives their memory back each time that half of it is free, so
/// that a long list never stands twice.
fn moved<'a, T: Drop>(arena: &'a Bump, values: Vec<T>) -> Result<&'a [T], AllocError>
    ensures { IfOk result (λ listed. listed.now ≡ values.items) }
{
    let mut left = values;
    let mut places = Vec::with_capacity(arena, left.len())?;
    while let Some(value) = left.pop() {
        places.push(value)?;
        if left.len().is_power_of_two() {
            left.shrink_to_fit();
        }
    }
    places.reverse();
    Ok(into_bump_slice(places))
}
