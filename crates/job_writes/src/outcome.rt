//! What becomes of a step.

use side_reads::Boxed;
use status_keeper::Row;
use store_model::StoreError;
use sync_plan::Side;

/// What becomes of a step of a plan.
#[derive(Debug, Drop)]
pub enum Outcome {
    /// Both sides have the item in one version.
    Kept,
    /// Neither side has it any more.
    Gone,
    /// It was written, and this is its row.
    Written(Boxed<Row>),
    /// Nothing is done for it, and its row stays.
    Left,
    /// Both sides changed, and its row stays.
    Conflict,
    /// The write to that side answered the error, and its row stays.
    NotWritten { side: Side, error: StoreError },
    /// The removal from that side answered the error, and its row stays.
    NotRemoved { side: Side, error: StoreError },
    /// It wasn't removed, since an earlier write failed; its row stays.
    Skipped,
}
