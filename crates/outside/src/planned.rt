//! The calls of a device in memory, numbered, with what its plan says of each.

ghost use Rattle.std.specs.Prelude.{◌≡◌, ◌≤◌};
ghost use Rattle.outside.specs.Plans.{begun, next, next_fate, CountsFate};

use crate::faults::Faults;
use crate::plan::{Fate, FaultPlan};

/// A plan, and how far the calls have come. Their number stays at the last value of a `u64`.
#[derive(Debug, Drop)]
pub struct Planned {
    pub plan: FaultPlan,
    pub calls: u64,
    pub faults: Faults,
}

impl Planned {
    ghost use Rattle.outside.specs.Planned.{course_of};

    pub fn new(plan: FaultPlan) -> Planned
        ensures course { course_of result ≡ begun plan }
        ensures count { result.faults.count ≡ 0 }
    {
        Planned {
            plan,
            calls: 0,
            faults: Faults::new(),
        }
    }

    /// Begins a call, and finds what becomes of it. A call that is to fail counts as a fault.
    pub fn begin(&mut self) -> Fate
        ensures course { course_of self.new ≡ next (course_of self.old) }
        ensures fate { result ≡ next_fate (course_of self.old) }
        ensures later { self.old.faults.count ≤ self.new.faults.count }
        ensures counted { CountsFate result self.old.faults.count self.new.faults.count }
    {
        self.calls = self.calls.saturating_add(1);
        let fate = self.plan.fate(self.calls);
        self.faults.follow(fate);
        fate
    }
}
