//! From the calls of one run to what it did for each ident on each side.
#![tactic(auto)]

mod laws;

pub use laws::{moved_is_by_edit, runs_are_jobs};
