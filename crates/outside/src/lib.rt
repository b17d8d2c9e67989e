//! What a program reads and writes: files and a sink as traits with a count of faults, versions in memory, and
//! adapters over the system's files and any writer.
//!
//! The contracts say which bytes a file has and which bytes a sink has taken, where an object tells them, and that a
//! call answers `Failed` only where its object's count of faults rose in that call. The versions in memory tell
//! their contents, and fail at just the calls that a list names. The adapters tell nothing: that the system does as
//! they are told is not proved.
#![tactic(auto)]

mod calls;
mod files;
mod mem_files;
mod mem_sink;
mod sink;
mod system;
mod writing;

pub use files::{FileRead, Files};
pub use mem_files::MemFiles;
pub use mem_sink::MemSink;
pub use sink::{Sink, Wrote};
pub use system::{Output, SystemFiles};
pub use writing::{Written, write_all};
