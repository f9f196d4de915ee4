//! Items: their text, ident and version.
#![tactic(auto)]

mod children;
mod edit;
mod fp;
mod item;
pub mod lines;
mod normal;
mod plain;
pub mod stack;
mod walk;
pub mod words;

pub use fp::{Fp, fp_hex, fp_of_hex};
pub use item::{Item, ItemError, MAX_ITEM};
pub use plain::is_plain;
