//! A file as a disk, a reader as a source and a writer as a sink. None of them tells its contents.
#![tactic(auto)]

mod disk;
mod faults;
mod opening;
mod streams;

pub use disk::FileDisk;
pub use streams::{ReadSource, WriteSink};
