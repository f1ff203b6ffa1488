//! Where bytes come from and where they go: named files to read, an output to write, and both in memory.
#![tactic(auto)]

mod adapters;
mod entries;
mod errors;
mod library;
mod memory;
mod reading;
mod sink;

pub use adapters::{FileLibrary, StdSink};
pub use library::{Failed, Library, PrintError, ReadError, Sink};
pub use memory::MemLibrary;
pub use reading::read_all;
pub use sink::MemSink;
