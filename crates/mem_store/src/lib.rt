//! A store in memory, with faults and edits from outside by a plan, whose writes wait for `flush` where it is told so.
#![tactic(auto)]

mod calls;
mod desk;
mod mem;
mod shelf;

pub use desk::Pending;
pub use mem::MemStore;
pub use shelf::{MemEvent, MemRead};
