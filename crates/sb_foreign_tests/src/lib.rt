//! Tests of the boxes of another author, over their library.
#![tactic(auto)]

#[cfg(test)]
mod foreign;
