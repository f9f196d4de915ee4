//! Paths of URLs, escaped in one way.
#![tactic(auto)]

mod escaped;

pub use escaped::{folder_path, rooted};
