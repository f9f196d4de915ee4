//! The count of faults of a device.

ghost use Rattle.std.specs.Prelude.{◌≡◌, ◌≤◌};
ghost use Rattle.outside.specs.Causes.{risen};
ghost use Rattle.outside.specs.Plans.{CountsFate};

use crate::plan::Fate;

/// How often a device failed. The count stays at the last value of a `u64`.
#[derive(Debug, Drop)]
pub struct Faults {
    pub count: u64,
}

impl Faults {
    pub fn new() -> Faults
        ensures { result.count ≡ 0 }
    {
        Faults { count: 0 }
    }

    /// Counts one failure.
    pub fn raise(&mut self)
        ensures later { self.old.count ≤ self.new.count }
        ensures rose { self.new.count ≡ risen self.old.count }
    {
        self.count = self.count.saturating_add(1);
    }

    /// Counts a call that is to fail.
    pub fn follow(&mut self, fate: Fate)
        ensures later { self.old.count ≤ self.new.count }
        ensures counted { CountsFate fate self.old.count self.new.count }
    {
        match fate {
            Fate::Acts => {}
            Fate::Fails => self.raise(),
            Fate::ActsAndFails => self.raise(),
        }
    }
}
