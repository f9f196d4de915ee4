//! The texts of a configuration that are fetched, put in the places of their ways.
#![tactic(auto)]

mod copies;
mod filling;
mod params;
mod storages;
mod texts;

pub use filling::fill_texts;
pub use storages::fetch_texts;
