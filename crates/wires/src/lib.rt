//! A wire to servers as a trait with a written meaning, a double in memory and the real one.
#![tactic(auto)]

mod connection;
mod mem_wire;
mod play;
mod tcp_wire;
#[cfg(test)]
mod tests;
mod wire;

pub use mem_wire::MemWire;
pub use tcp_wire::{PATIENCE, TcpWire};
pub use wire::{Exchange, Wire, WireError};
