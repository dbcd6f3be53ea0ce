//! Tests of runs over a disk, a source and a sink in memory.
#![tactic(auto)]

#[cfg(test)]
mod running;
