//! What a job reports.

use status_keeper::KeeperError;
use store_model::StoreError;
use values::Text;

/// One of the two sides of a job.
#[derive(Clone, Copy, Debug, PartialEq, Eq)]
pub enum Side {
    A,
    B,
}

/// What was not done for an ident.
#[derive(Debug, Drop)]
pub enum What {
    /// Both sides changed, and no rule says who wins.
    Conflict,
    /// The write to that side answered the error.
    NotWritten { side: Side, error: StoreError },
    /// The removal from that side answered the error.
    NotRemoved { side: Side, error: StoreError },
    /// It was not removed, since an earlier write of the run failed.
    Skipped,
}

/// A line of a report: an ident, and what was not done for it.
#[derive(Debug, Drop)]
pub struct Line {
    pub ident: Text,
    pub what: What,
}

/// Why a job was refused before any write.
#[derive(Debug, Drop)]
pub enum Refusal {
    /// Two of its three places are the same.
    SameLocation,
    /// The status answered the error to its load.
    Status(KeeperError),
    /// That side answered the error to a reading call.
    Storage {
        side: Side,
        error: StoreError,
    },
    /// That side has no item, where the other has one and the status a row.
    StorageEmpty(Side),
    /// Two items of that side have the ident: its first two hrefs in the order of the listing.
    SameIdent {
        side: Side,
        ident: Text,
        first: Text,
        second: Text,
    },
}

/// How a job ended.
#[derive(Debug, Drop)]
pub enum JobEnd {
    /// The sides and the status were brought together, but for what the lines say.
    Synced,
    Refused(Refusal),
    /// The flush of that side answered the error; the status was not written.
    NotFlushed { side: Side, error: StoreError },
    /// All was written but the status.
    NotCommitted(KeeperError),
    /// Memory ran out. There are no lines.
    NoMemory,
}

/// How a job ended, and a line for each ident that was not done, in byte order of idents.
#[derive(Debug, Drop)]
pub struct Report {
    pub end: JobEnd,
    pub lines: Vec<Line>,
}
