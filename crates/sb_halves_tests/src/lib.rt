//! Tests of pages in memory, and of both halves, over their libraries.
#![tactic(auto)]

#[cfg(test)]
mod halves;
#[cfg(test)]
mod memory;
