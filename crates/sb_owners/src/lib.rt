//! Spaces of pages in which instances come and go.
#![tactic(auto)]

mod owners;

pub use owners::Owners;
