//! The outside world as traits with a written meaning, and doubles in memory.
#![tactic(auto)]

mod dir_folder;
mod disk;
mod etag;
mod faults;
pub mod file_map;
mod folder;
mod mem_folder;
mod mem_streams;
mod plan;
mod planned;
mod shelf;
mod std_streams;
mod streams;
mod subfolders;

pub use dir_folder::DirFolder;
pub use etag::etag_of;
pub use folder::{Change, Expect, FileEntry, Folder, FolderError, FolderEvent, NoMemory};
pub use mem_folder::MemFolder;
pub use mem_streams::{MemSink, MemSource};
pub use plan::{Fate, FaultPlace, FaultPlan, OutsideEdit};
pub use planned::Planned;
pub use std_streams::{StdSink, StdSource};
pub use streams::{Sink, SinkFault, Source, SourceFault, write_all};
