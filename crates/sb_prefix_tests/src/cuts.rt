//! Lines that are cut off before each of their tokens.
//!
//! The tokens in front of the cut go on in a command. So where they are none by themselves, the line lacks a token, and is bad one behind its end, with the blanks there. A place behind them where no token can be read is bad, and so is a keyword behind them that no command has.

use crate::lines::{column_of, column_with};
use sb_tokens::{Row, scan};
use std::alloc::Global;

/// Lines as they are printed, each with the number of its cuts that leave a command.
const LINES: [(&[u8], usize); 52] = [
    (b"create r using heap (a int)", 0),
    (b"create r using tree (a int, b text) key (a, b)", 1),
    (b"create r using temp (a text(7), b text)", 0),
    (b"create r using method 1000 (a text(254)) key (a)", 1),
    (b"drop r", 0),
    (b"attach treeindex i on r (a, b) unique", 1),
    (b"attach hashindex i on r (a)", 0),
    (b"attach joinindex j on r (a, b) with s (c, d)", 0),
    (b"attach stats t on r (a) low -5 width 10", 0),
    (b"attach check c on r always deferred", 1),
    (b"attach check c on r a = 1 and b <> 'x' or not c < 2", 2),
    (b"attach check c on r a = 1 or b > 2 and c >= 3 deferred", 3),
    (b"attach check c on r (a = 1 or b = 2) and 'x' <= c", 1),
    (b"attach check c on r not (a = 1 and b = 2)", 0),
    (b"attach check c on r not not always", 0),
    (
        b"attach check c on r (always or a = 1) and (b = 2 or always)",
        1,
    ),
    (
        b"attach refers f on r (a, b) to s (c, d) cascade deferred",
        1,
    ),
    (b"attach refers f on r (a) to s (b) restrict", 0),
    (b"attach code 1000 x on r desc @abcd", 0),
    (
        b"attach trigger t on r after insert when always do delete s",
        0,
    ),
    (
        b"attach trigger t on r after delete when old.a = 1 do insert s values (old.a, 'x', -2) deferred",
        1,
    ),
    (
        b"attach trigger t on r after update when new.a <> old.a do delete s where b = new.a and c = 3 deferred",
        3,
    ),
    (
        b"attach trigger t on r after insert when new.a = 1 do set s b = new.a where c = old.d and e = 'y' deferred",
        3,
    ),
    (
        b"attach trigger t on r after insert when always do add s b by new.a where c = 1 deferred",
        2,
    ),
    (
        b"attach trigger t on r after insert when not (new.a > 1 or new.b = 'x') do add s b by 5",
        0,
    ),
    (b"detach i on r", 0),
    (b"register method 1", 0),
    (b"register attachment 7", 0),
    (b"retire method 65535", 0),
    (b"retire attachment 8", 0),
    (b"begin", 0),
    (b"commit", 0),
    (b"abort", 0),
    (b"checkpoint", 0),
    (b"tables", 0),
    (b"savepoint p", 0),
    (b"rollback p", 0),
    (b"insert r values (1, -2, 'it''s')", 0),
    (b"update r @0a values (1, 'x')", 0),
    (b"delete r @ff00", 1),
    (b"delete r where a = 1 and b = 'x'", 2),
    (b"set r a = 'x'", 0),
    (b"set r a = -1 where b = 2 and c = 3 and d = 4 and e = 5", 4),
    (b"add r a by 5 where b = 'x'", 1),
    (b"get r @abcdef", 0),
    (b"scan r after @00 limit 0", 2),
    (b"scan r after @", 1),
    (b"scan r limit 1000000", 1),
    (b"lookup i on r (1, 'x')", 0),
    (b"range i on r from (1) to (2, 3)", 0),
    (b"entries i on r", 0),
    (b"show _R9", 0),
];

/// The row of a line that may be one of commands.
fn row_of(alloc: Global, line: &[u8]) -> Option<Row> {
    if line.len() > 4096 {
        return None;
    }
    scan(alloc, line).ok()
}

/// Whether what stands in front of a cut is a command. None where it is bad elsewhere than at its end, or where one of the two goes on behind it.
fn is_command(alloc: Global, front: &[u8]) -> Option<bool> {
    let behind = front.len() + 1;
    let stuck = column_with(alloc, front, b" ?")?;
    let word = column_with(alloc, front, b" upgrade")?;
    if stuck != behind + 1 || word != behind + 1 {
        return None;
    }
    let column = column_of(alloc, front)?;
    if column != 0 && column != behind {
        return None;
    }
    Some(column == 0)
}

/// How many cuts of the line leave a command. None where one of them is bad at another column than it should be.
fn commands_in_front(alloc: Global, line: &[u8]) -> Option<usize> {
    let row = row_of(alloc, line)?;
    let [_, later @ ..] = row.tokens.as_slice() else {
        return None;
    };
    let mut count: usize = 0;
    for placed in later {
        let len = (placed.column as usize).checked_sub(1)?;
        if is_command(alloc, line.get(..len)?)? {
            count = count.checked_add(1)?;
        }
    }
    Some(count)
}

/// The first line of which another number of cuts leaves a command, or which is none itself.
fn wrong_line<'a>(alloc: Global, lines: &'a [(&'a [u8], usize)]) -> Option<&'a [u8]> {
    for (line, commands) in lines {
        if commands_in_front(alloc, line) != Some(*commands)
            || is_command(alloc, line) != Some(true)
        {
            return Some(*line);
        }
    }
    None
}

fn wrong_of_all(alloc: Global) -> Option<&'static [u8]> {
    wrong_line(alloc, &LINES)
}

#[test]
fn lines_cut_before_each_token(rt: HostRuntime) {
    assert_eq!(rt; wrong_of_all(rt.alloc()), None);
}
