//! The digest of a pair and its storages, as they are written.
#![tactic(auto)]

mod digest;
mod laws;
mod order;
mod writing;

pub use digest::digest_of;
pub use laws::digest_tells;
