//! Plans of faults and of edits from outside, for the devices in memory.

ghost use Rattle.std.specs.Prelude.{◌≡◌};
ghost use Rattle.outside.specs.Plans.{fate_of};

use values::{Bytes, Text};

/// A call that fails, after it has acted or without.
#[derive(Debug, Drop)]
pub struct FaultPlace {
    pub call: u64,
    pub acted: bool,
}

/// What a file becomes before a call; nothing takes it away.
#[derive(Debug, Drop)]
pub struct OutsideEdit {
    pub before_call: u64,
    pub name: Text,
    pub new: Option<Bytes>,
}

/// The calls of one device are numbered from 1. From `stop_at` on each fails without acting.
#[derive(Debug, Drop)]
pub struct FaultPlan {
    pub places: Vec<FaultPlace>,
    pub stop_at: Option<u64>,
    pub edits: Vec<OutsideEdit>,
}

/// What becomes of a call.
#[derive(Clone, Copy, Debug, PartialEq, Eq)]
pub enum Fate {
    Acts,
    Fails,
    ActsAndFails,
}

impl FaultPlan {
    /// What the plan says of a call.
    pub fn fate(&self, call: u64) -> Fate
        ensures { result ≡ fate_of self.now call }
    {
        if let Some(stop) = self.stop_at {
            if call >= stop {
                return Fate::Fails;
            }
        }
        for place in &self.places {
            if place.call == call {
                return if place.acted {
                    Fate::ActsAndFails
                } else {
                    Fate::Fails
                };
            }
        }
        Fate::Acts
    }
}
