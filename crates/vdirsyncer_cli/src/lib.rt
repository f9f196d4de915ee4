//! The top call: the words, the configuration, the jobs, and what is printed.
#![tactic(auto)]

mod asked;
mod config_read;
mod either;
mod env;
mod file_error;
mod files;
mod job;
mod jobs;
mod naming;
mod one_job;
mod opened;
mod printing;
mod top_call;

pub use either::Either;
pub use env::Env;
pub use top_call::run_words;
