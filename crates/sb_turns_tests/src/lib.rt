//! Tests of boxes that take turns on the pages of a store, and on those of both halves, over their libraries.
#![tactic(auto)]

#[cfg(test)]
mod turns;
