//! Small types that contracts see as lists.
#![tactic(auto)]

mod lent;
mod sequence;
mod text;

pub use lent::Lent;
pub use sequence::Sequence;
pub use text::{Bytes, Text};
