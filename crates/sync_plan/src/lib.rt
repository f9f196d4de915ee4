//! What is planned for each ident, and what a job reports.
#![tactic(auto)]

mod dues;
mod laws;
mod placing;
mod planning;
mod report;
mod rules;
mod seen;
mod table;

pub use dues::{Due, Step};
pub use laws::{
    clean_is_a_run, due_is_kept, no_removal_after_a_lost_copy, not_emptied, overwrite_is_named,
    read_only_is_not_written, removal_is_of_the_row, rerun, unsettled_is_open,
};
pub use planning::plan;
pub use report::{JobEnd, Line, Refusal, Report, Side, What};
pub use rules::{ConflictRule, Partial, Rules};
pub use seen::{PlanError, Planned, Seen};
pub use table::{decide, due};
