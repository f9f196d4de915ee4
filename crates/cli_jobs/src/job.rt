//! A job, as a configuration names it.

use sync_plan::Rules;
use values::Text;

/// The run of one pair: its name, its three folders, how the names of its items' files end, and its rules.
#[derive(Debug, Drop)]
pub struct SyncJob {
    pub pair: Text,
    /// The folder of side a, normalised.
    pub a: Text,
    /// The folder of side b, normalised.
    pub b: Text,
    /// The folder of the status, normalised.
    pub status: Text,
    pub ending_a: Text,
    pub ending_b: Text,
    pub rules: Rules,
}

/// A storage that is a folder.
#[derive(Debug, Drop)]
pub struct Vdir {
    pub path: Text,
    pub ending: Text,
}
