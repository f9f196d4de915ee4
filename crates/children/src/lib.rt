//! Other programs as a trait with a written meaning, a double in memory and the real one.
#![tactic(auto)]

mod copies;
mod limits;
mod mem_child;
mod play;
mod proc_child;
mod programs;
mod spawner;
#[cfg(test)]
mod tests;

pub use mem_child::MemChild;
pub use proc_child::ProcChild;
pub use spawner::{ChildEvent, Edited, Ended, SpawnError, Spawner};
