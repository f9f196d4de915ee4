//! What one run of one job may do, whatever faults and edits from outside it meets, and what follows from it for each
//! ident. Each run is proved to be such a one above (`job_traces`).
#![tactic(auto)]

mod laws;

pub use laws::{
    overwrites_are_named, rows_are_by_step, rows_may_be_trusted, run_is_a_job_step,
    writes_have_sources,
};
