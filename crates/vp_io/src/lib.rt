//! What lies outside the compiler: sources, sinks and files, which may fail at each call.
//!
//! Each object keeps a count of its faults, and answers `Failed` only where that count rose, so a
//! fault that the compiler reports has its cause outside. Where an object tells its bytes, a read,
//! a write and a fetch give exactly them; `write_whole` and `fetch_whole` do so for whole texts.
//! The objects in memory tell theirs and fail when they are told to, for tests.
#![tactic(auto)]

pub mod answers;
mod failing;
pub mod fetching;
mod find;
pub mod memory_files;
pub mod memory_sink;
pub mod memory_source;
mod piece;
pub mod reading;
pub mod writing;

pub use answers::{Failed, Outcome, Reason, Which};
pub use fetching::{FetchFault, Files, fetch_whole};
pub use memory_files::{MemFile, MemFiles, SafeFiles};
pub use memory_sink::{MemSink, SafeSink};
pub use memory_source::{MemSource, SafeSource};
pub use reading::Source;
pub use writing::{Sink, write_whole};
