//! What commands answer that only read, over a store's relations as any space has their pages.
#![tactic(auto)]

mod entries;
mod indexes;
mod lines;
mod names;
mod reading;
mod rows;

pub use reading::{read_catalogue, read_relation, relation_read};
