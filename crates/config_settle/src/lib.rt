//! What a storage's parameters and the status path come to, where the home is known.
#![tactic(auto)]

mod links;
mod paths;
mod settled;
mod settling;
mod texts;

pub use paths::normalised;
pub use settled::Settled;
pub use settling::{settle, settle_status};
