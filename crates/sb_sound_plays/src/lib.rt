//! All states of the kernel's plays are sound, and so is each database that a crash leaves of them. Laws, without code.
#![tactic(auto)]

pub mod laws;

pub use sb_lawful_plays::{Session, Starts, create, open, serve, write_all};
