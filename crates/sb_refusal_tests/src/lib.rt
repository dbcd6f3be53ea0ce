//! Tests of refusals over their library.
#![tactic(auto)]

#[cfg(test)]
mod refusing;
