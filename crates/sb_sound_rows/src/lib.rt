//! Laws of commands on rows: what follows from a change, by references that cascade and triggers that fire, leaves each rule to hold that held before.
//! A crate without code.
#![tactic(auto)]

pub mod laws;
