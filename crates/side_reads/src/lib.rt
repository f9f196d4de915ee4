//! What a run takes a side to hold: what rows of the status say of the entries of its listing, and what was fetched of the
//! others.
#![tactic(auto)]

mod boxed;
mod holding;
mod places;
mod room;

pub use boxed::Boxed;
pub use holding::{Holding, asked};
pub use places::Places;
pub use room::room_for;
