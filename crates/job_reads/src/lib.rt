//! What one run of one job reads before it writes: the status, both listings, and of each side the items whose place no row
//! has, in this order.
#![tactic(auto)]

mod laws;
mod reading;
mod stop;

pub use laws::{idents_are_found_alone, readings_are_taken, texts_were_read};
pub use reading::{ReadJob, read_job};
pub use stop::Stop;
