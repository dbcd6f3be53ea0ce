//! The pages of a store in memory.
#![tactic(auto)]

mod fault;
mod flushing;
mod frame;
mod pool;

pub use fault::PoolFault;
pub use pool::Pool;
