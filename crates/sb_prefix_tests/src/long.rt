//! Predicates that take a whole line.

use crate::lines::column_of;
use sb_plain::Command;
use sb_printer::print_command;
use sb_reader::parse_line;
use sb_value::Bytes;
use std::alloc::{AllocError, Global};

/// A front, and so many times what stands behind it.
fn line_of(alloc: Global, front: &[u8], more: &[u8], times: usize) -> Result<Vec<u8>, AllocError> {
    let mut line = Vec::from_slice(alloc, front)?;
    for _ in 0..times {
        line.extend_from_slice(more)?;
    }
    Ok(line)
}

/// A check with so many times `and`. It takes 26 bytes and 11 for each `and`.
fn check_line(alloc: Global, ands: usize) -> Result<Vec<u8>, AllocError> {
    line_of(alloc, b"attach check c on r always", b" and always", ands)
}

/// A check with so many times `or`, and no blank that may be left out. It takes 23 bytes and 6 for each `or`, and no predicate of a line is nested deeper than 678 of them, but for what `not` and parentheses add.
fn deep_check_line(alloc: Global, ors: usize) -> Result<Vec<u8>, AllocError> {
    line_of(alloc, b"attach check c on r 1=1", b"or 1=1", ors)
}

/// Whether the line spells a command with this text.
fn is_printed(alloc: Global, line: &[u8], text: &[u8]) -> bool {
    match parse_line(alloc, line) {
        Ok(command) => {
            let has_text = has_text(alloc, &command, text);
            drop(command);
            has_text
        }
        Err(_) => false,
    }
}

/// Whether the command has this text.
fn has_text(alloc: Global, command: &Command, text: &[u8]) -> bool {
    let mut out = Bytes::new(alloc);
    let is_written = print_command(command, &mut out).is_ok();
    let is_text = out.as_slice() == text;
    drop(out);
    is_written && is_text
}

#[test]
fn predicate_of_a_whole_line(rt: HostRuntime) {
    let line = check_line(rt.alloc(), 370).expect(&rt, "memory");
    assert_eq!(rt; line.len(), 4096);
    assert!(rt; is_printed(rt.alloc(), &line, &line));
    let longer = check_line(rt.alloc(), 371).expect(&rt, "memory");
    assert_eq!(rt; column_of(rt.alloc(), &longer), Some(4097));
}

#[test]
fn predicate_as_deep_as_a_line(rt: HostRuntime) {
    let line = deep_check_line(rt.alloc(), 678).expect(&rt, "memory");
    assert_eq!(rt; line.len(), 4091);
    let text = line_of(rt.alloc(), b"attach check c on r 1 = 1", b" or 1 = 1", 678);
    let text = text.expect(&rt, "memory");
    assert!(rt; is_printed(rt.alloc(), &line, &text));
}
