// The outside as traits: where bytes come from, where they go, and files by name. Each trait counts
// its faults, and tells its bytes where it can.
#![tactic(auto)]

mod calls;
mod dir_files;
mod file_map;
mod files;
mod mem_files;
mod mem_sink;
mod mem_source;
mod std_sink;
mod std_source;
mod streams;

pub use dir_files::DirFiles;
pub use files::{FileFault, Files};
pub use mem_files::MemFiles;
pub use mem_sink::MemSink;
pub use mem_source::MemSource;
pub use std_sink::StdSink;
pub use std_source::StdSource;
pub use streams::{Failed, Sink, Source, write_whole};
