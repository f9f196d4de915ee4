//! What is printed of a job, of a configuration and of a text that can't be fetched, and the exit status of a command:
//! texts alone, no I/O.
#![tactic(auto)]

mod configs;
mod exit;
mod fetches;
mod quoting;
mod texts;

pub use configs::{config_line, config_text, of_key};
pub use exit::exit_status;
pub use fetches::fetch_text;
pub use quoting::in_quotes;
pub use texts::report_text;
