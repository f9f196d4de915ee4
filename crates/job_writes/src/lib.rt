//! What one run of one job writes for the steps of its plan: all steps but removals in byte order of idents, then the
//! removals.
#![tactic(auto)]

mod outcome;
mod phases;
mod putting;
mod sources;
mod steps;

pub use outcome::Outcome;
pub use phases::{Outcomes, write_all};
pub use sources::seen_at;
