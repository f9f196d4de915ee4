//! What the words and a configuration come to: jobs, or why there are none.
#![tactic(auto)]

mod built;
mod job;
mod jobs;
mod names;
mod refusal;
mod refused;
mod rules;
mod texts;
mod unfetched;

pub use job::SyncJob;
pub use jobs::{chosen_jobs, config_of};
pub use refusal::Refusal;
pub use texts::refusal_text;
pub use unfetched::{check_unfetched, has_fetches, is_to_fetch};
