//! Descriptors of relations: what they hold, how they are spelled in bytes, and a cache of those that were read.
#![tactic(auto)]

mod cache;
mod descriptor;
pub mod laws;
mod lengths;
mod reading;
mod writing;

pub use cache::Cache;
pub use descriptor::{Attached, AttachedList, Descriptor};
pub use lengths::descriptor_len;
pub use reading::read_descriptor;
pub use writing::write_descriptor;
