//! What a program opens of the world, by its place: folders, and other programs.
#![tactic(auto)]

mod mem_outfit;
mod outfit;
mod real_outfit;
mod returns;
mod slots;

pub use mem_outfit::MemOutfit;
pub use outfit::Outfit;
pub use real_outfit::RealOutfit;
