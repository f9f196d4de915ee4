//! Multistatus replies: the body of a reply of code 207, read into its rows.
#![tactic(auto)]

mod endings;
mod error;
mod frames;
mod gathered;
mod laws;
mod lists;
mod multistatus;
mod namespace;
mod props;
mod reader;
mod references;
mod rows;
mod scopes;
mod status;
mod tags;
mod text;
mod tokens;

pub use error::MultiError;
pub use laws::{rows_are_unique, tokens_are_the_grammar, tokens_are_unique, trees_are_unique};
pub use lists::LentList;
pub use multistatus::read_multistatus;
pub use namespace::Namespace;
pub use props::{Props, PropsLeft};
pub use rows::{Prop, Response};
