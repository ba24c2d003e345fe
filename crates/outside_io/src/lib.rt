//! Files and sinks of the outside world.
//!
//! A program reaches the outside only by the traits `Files` and `Sink`. Each may tell what it
//! holds, and counts its faults: an answer of a fault is given only where the count rose. So a
//! caller's contract says what it does where the outside works, and that it says so where not.
#![tactic(auto)]

mod files_memory;
mod files_os;
mod reading;
mod sink_memory;
mod sink_os;
mod writing;

pub use files_memory::MemFiles;
pub use files_os::OsFiles;
pub use reading::{Files, ReadAtErr, ReadErr, read_all};
pub use sink_memory::MemSink;
pub use sink_os::OsSink;
pub use writing::{Failed, Sink, WriteErr, put_all};
