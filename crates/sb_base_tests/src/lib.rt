//! Tests of the lowest crates, over their libraries: bytes and pages, values and their codes, records of the log, rules, and what waits.
#![tactic(auto)]

#[cfg(test)]
mod bytes;
#[cfg(test)]
mod codes;
#[cfg(test)]
mod images;
#[cfg(test)]
mod kinds;
#[cfg(test)]
mod nodes;
#[cfg(test)]
mod predicates;
#[cfg(test)]
mod records;
#[cfg(test)]
mod relations;
#[cfg(test)]
mod values;
#[cfg(test)]
mod waiting;
#[cfg(test)]
mod words;
