//! Tests of the journal, of restart and of the pages in memory over their libraries.
#![tactic(auto)]

#[cfg(test)]
mod journal;
#[cfg(test)]
mod pool;
#[cfg(test)]
mod recover;
