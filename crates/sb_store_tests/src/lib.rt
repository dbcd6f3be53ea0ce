//! Tests of transactions over a store, over their libraries.
#![tactic(auto)]

#[cfg(test)]
mod store;
