//! The text of a configuration, read into sections with their keys and values.
#![tactic(auto)]

mod error;
mod flaws;
mod key_lines;
mod kinds;
mod lines;
mod logical;
mod sections;
mod setting;
mod titles;

pub use error::ConfigError;
pub use flaws::section_name;
pub use kinds::{Key, SectionKind, Title};
pub use sections::{Section, read_sections};
pub use setting::{Entry, Part, Setting};
