//! Tests of boxes over their libraries.
#![tactic(auto)]

#[cfg(test)]
mod btree;
#[cfg(test)]
mod heap;
#[cfg(test)]
mod rules;
#[cfg(test)]
mod text;
