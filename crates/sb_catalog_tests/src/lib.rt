//! Tests over their libraries: descriptors in bytes, relations that are opened by a catalogue, what follows from a change, and the tree method.
#![tactic(auto)]

#[cfg(test)]
mod cascade;
#[cfg(test)]
mod catalog;
#[cfg(test)]
mod opened;
#[cfg(test)]
mod stores;
#[cfg(test)]
mod trees;
