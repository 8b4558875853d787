//! What stands between the analyser and the outside: files that are read, sinks that are written
//! to, and the owners of memory that contracts see as plain lists and values.
#![tactic(auto)]

mod boxed;
mod bytes;
mod disk_files;
mod files;
mod list;
mod numbers;
mod reading;
mod shelf;
mod sink;
mod std_sink;
mod tape;
#[cfg(test)]
mod tests;
mod writing;

pub use boxed::Boxed;
pub use bytes::Bytes;
pub use disk_files::DiskFiles;
pub use files::{Failed, Files};
pub use list::List;
pub use reading::{ReadStop, read_all};
pub use shelf::Shelf;
pub use sink::Sink;
pub use std_sink::StdSink;
pub use tape::Tape;
pub use writing::write_all;
