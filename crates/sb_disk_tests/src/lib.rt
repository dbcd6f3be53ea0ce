//! Tests of disks over their libraries: files, and a disk in memory.
#![tactic(auto)]

#[cfg(test)]
mod files;
#[cfg(test)]
mod memdisk;
#[cfg(test)]
mod streams;
