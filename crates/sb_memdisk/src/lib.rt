//! A disk, a source and a sink in memory, which tell their contents and can be made to fail.
#![tactic(auto)]

mod disk;
mod pace;
mod past;
mod streams;

pub use disk::MemDisk;
pub use streams::{MemSink, MemSource};
