//! The status: what both sides of a job last held under each ident.
#![tactic(auto)]

mod calls;
mod file_keeper;
mod keeper;
mod laws;
mod mem_keeper;
mod name;
mod reading;
mod row;
mod writing;

pub use file_keeper::FileKeeper;
pub use keeper::{Keeper, KeeperError};
pub use laws::own_writes_are_seen;
pub use mem_keeper::MemKeeper;
pub use name::status_name;
pub use row::Row;
