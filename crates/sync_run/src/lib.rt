//! One run of one job from its first call to its last, and how it ends.
#![tactic(auto)]

mod ending;
mod job;
mod laws;
mod lines;

pub use job::{SyncOrder, sync_collection};
pub use laws::{
    ends_are_runs, promises_are_kept, quiet_runs_end_well, quiet_runs_tell_conflicts,
    reads_are_asked, ready_runs_end_clean, refusals_change_nothing, synced_or_told, too_long_is_so,
    untold_is_at_its_due,
};
