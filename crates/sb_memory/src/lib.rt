//! Pages of several instances in memory: a space of pages in which instances come and go, and the drivers over it.
#![tactic(auto)]

mod asks;
mod faults;
mod in_memory;
mod laws;
mod memory;
mod owners;
mod slots;
mod stores;

pub use asks::answer;
pub use faults::DriveFault;
pub use in_memory::{drive_attachment, drive_method};
pub use laws::going_back_gives_what_was;
pub use memory::{Memory, MemoryMark, catalogue};
pub use slots::{Slot, Write};
pub use stores::store;
