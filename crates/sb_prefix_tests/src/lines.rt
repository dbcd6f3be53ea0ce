//! What lines say.

use sb_reader::{LineFault, parse_line};
use std::alloc::Global;

/// The column at which a line is bad, and 0 for a command.
pub fn column_of(alloc: Global, line: &[u8]) -> Option<usize> {
    match parse_line(alloc, line) {
        Ok(command) => {
            drop(command);
            Some(0)
        }
        Err(LineFault::Syntax { column }) => Some(column as usize),
        Err(LineFault::NoMemory) => None,
    }
}

/// The same of a line in two parts.
pub fn column_with(alloc: Global, front: &[u8], back: &[u8]) -> Option<usize> {
    let mut line = Vec::from_slice(alloc, front).ok()?;
    line.extend_from_slice(back).ok()?;
    column_of(alloc, &line)
}
