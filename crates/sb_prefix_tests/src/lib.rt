//! Tests of the command language over its libraries: lines that are cut off before each of their tokens, and lines that pass a limit by one.
#![tactic(auto)]

#[cfg(test)]
mod cuts;
#[cfg(test)]
mod limits;
#[cfg(test)]
mod lines;
#[cfg(test)]
mod long;
