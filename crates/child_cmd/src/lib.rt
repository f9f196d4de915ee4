//! Commands and questions that a configuration names: texts that are fetched by them.
#![tactic(auto)]

mod asking;
mod fetch_error;
mod fetching;
mod input_line;
mod running;
#[cfg(test)]
mod tests;
mod utf8;
mod value_text;

pub use fetch_error::FetchError;
pub use fetching::{fetch_one, is_fetch};
pub use input_line::{LineError, MAX_LINE, read_line};
pub use running::MAX_OUTPUT;
