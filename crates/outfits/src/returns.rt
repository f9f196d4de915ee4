//! The children that are out, and those that came back.

ghost use Rattle.std.specs.Prelude.{◌≡◌, ◌<◌, ◌≤◌, ◌+◌, ◌++◌, ◌∷◌, [], OnOk, OnErr, vec_len, vec_capacity};

use outside::NoMemory;
use std::alloc::Global;

/// Children that came back, in this order, with room for those that are out.
#[derive(Drop)]
pub struct Returns<C> {
    pub back: Vec<C>,
    pub out: usize,
    ghost room: { vec_len back + out ≤ vec_capacity back },
}

impl<C> Returns<C> {
    /// None is out, and none came back.
    pub fn new(alloc: Global) -> Returns<C>
        ensures back { result.back.items ≡ [] }
        ensures out { result.out ≡ 0 }
    {
        Returns {
            back: Vec::new(alloc),
            out: 0,
        }
    }

    /// Makes room for the return of one more.
    pub fn open(&mut self) -> Result<(), NoMemory>
        ensures back { self.new.back.items ≡ self.old.back.items }
        ensures out { OnOk result (self.new.out ≡ self.old.out + 1) }
        ensures same { OnErr result (self.new.out ≡ self.old.out) }
    {
        let out = match self.out.checked_add(1) {
            Some(out) => out,
            None => return Err(NoMemory),
        };
        match self.back.reserve(out) {
            Ok(()) => {
                self.out = out;
                Ok(())
            }
            Err(_) => Err(NoMemory),
        }
    }

    /// Takes a child back. Takes no memory.
    pub fn give(&mut self, child: C)
        requires { 0 < self.old.out }
        ensures back { self.new.back.items ≡ self.old.back.items ++ child ∷ [] }
        ensures out { self.old.out ≡ self.new.out + 1 }
    {
        self.out -= 1;
        self.back.push(child).unwrap();
    }
}
