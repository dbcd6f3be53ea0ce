//! All states of the kernel's plays are lawful, and so is each database that a crash leaves of them. Laws, without code.
#![tactic(auto)]

pub mod laws;

pub use sb_kernel::{Session, Starts, create, open, serve, write_all};
