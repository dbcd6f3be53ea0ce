//! The outside of the kernel: the disk that it stands on, and what it reads from and writes to.
#![tactic(auto)]

mod disk;
mod laws;
mod streams;

pub use disk::Disk;
pub use laws::{no_bytes_leave_none_pending, settled_leaves_contents};
pub use streams::{Failed, Sink, Source};
