//! Laws of commands on rows: what they change, what follows from it, what waits and what is committed are lawful databases. A crate without code.
#![tactic(auto)]

pub mod laws;
