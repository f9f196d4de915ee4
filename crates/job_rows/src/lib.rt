//! The rows that a run comes to, by its plan and what became of each step.
#![tactic(auto)]

mod building;
mod finding;
mod laws;

pub use building::{RowsAfter, rows_after};
pub use finding::row_of;
pub use laws::rows_are_of_the_plan;
