//! Tests of what a boxed call sees, of its driver and of the registry, over their libraries.
#![tactic(auto)]

#[cfg(test)]
mod ctx;
#[cfg(test)]
mod drive;
#[cfg(test)]
mod registry;
