//! The words of the command line: text in, an order out.
#![tactic(auto)]

mod arguments;
mod front;
mod help;
mod options;
mod orders;
mod read;
mod words;

pub use help::usage;
pub use read::read_words;
pub use words::{Name, Order, Words, WordsError};
