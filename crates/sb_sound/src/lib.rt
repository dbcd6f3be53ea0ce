//! After each step every rule holds that isn't deferred, and each commit is over a database in which all do: whatever the language says, through
//! references that cascade and triggers that fire. Laws, without code.
#![tactic(auto)]

pub mod laws;
