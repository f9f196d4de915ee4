//! A job, as it is run.

use sync_run::SyncOrder;
use values::Text;

/// A job: its three places, the endings of its items' files, and how it is to be run.
#[derive(Debug, Drop)]
pub struct Job {
    /// The folder of side a, normalised.
    pub a: Text,
    /// The folder of side b, normalised.
    pub b: Text,
    /// The status folder, normalised.
    pub status: Text,
    pub ending_a: Text,
    pub ending_b: Text,
    /// How it is to be run.
    pub order: SyncOrder,
}
