//! Tests of the language over its libraries: lines that are read, and commands and replies that are printed.
#![tactic(auto)]

#[cfg(test)]
mod printing;
#[cfg(test)]
mod reading;
#[cfg(test)]
mod rule;
#[cfg(test)]
mod tokens;
