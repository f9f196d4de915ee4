//! A folder of one file per item, as a store (after the vdir specification).
#![tactic(auto)]

mod names;
mod parts;
mod vdir;

pub use names::{is_ending, names_of};
pub use parts::{are_short, bad_item, vanished};
pub use vdir::VdirStore;
