//! Why a run ends before it writes.

use status_keeper::KeeperError;
use store_model::StoreError;
use sync_plan::Side;

/// Why a run ends while it reads.
#[derive(Debug, Drop)]
pub enum Stop {
    /// The status answered the error to its load.
    Unloaded(KeeperError),
    /// That side answered the error to its listing.
    Unlisted { side: Side, error: StoreError },
    /// That side came to be empty: it has no item, the other side has one and the status a row.
    Emptied(Side),
    /// That side answered the error when its items were fetched.
    Unfetched { side: Side, error: StoreError },
    /// Memory ran out between the calls.
    NoMemory,
}
