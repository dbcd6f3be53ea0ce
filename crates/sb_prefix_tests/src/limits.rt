//! Limits that are reached, and passed by one.

use crate::lines::column_with;
use std::alloc::Global;

/// The front of a line, what makes a command of it at a limit, and what passes the limit: its first token fits nowhere.
const LIMITS: [(&[u8], &[u8], &[u8]); 44] = [
    // 16 items
    (
        b"create r using heap (a int, b int, c int, d int, e int, f int, g int, h int, i int, j int, k int, l int, m int, n int, o int, p int",
        b")",
        b", q int)",
    ),
    (
        b"create r using tree (a int) key (a, b, c, d, e, f, g, h, i, j, k, l, m, n, o, p",
        b")",
        b", q)",
    ),
    (
        b"attach treeindex i on r (a, b, c, d, e, f, g, h, i, j, k, l, m, n, o, p",
        b") unique",
        b", q) unique",
    ),
    (
        b"attach hashindex i on r (a, b, c, d, e, f, g, h, i, j, k, l, m, n, o, p",
        b")",
        b", q)",
    ),
    (
        b"attach joinindex i on r (a, b, c, d, e, f, g, h, i, j, k, l, m, n, o, p",
        b") with s (a)",
        b", q) with s (a)",
    ),
    (
        b"attach joinindex i on r (a) with s (a, b, c, d, e, f, g, h, i, j, k, l, m, n, o, p",
        b")",
        b", q)",
    ),
    (
        b"attach refers i on r (a, b, c, d, e, f, g, h, i, j, k, l, m, n, o, p",
        b") to s (a) cascade",
        b", q) to s (a) cascade",
    ),
    (
        b"attach refers i on r (a) to s (a, b, c, d, e, f, g, h, i, j, k, l, m, n, o, p",
        b") restrict",
        b", q) restrict",
    ),
    (
        b"attach trigger t on r after insert when always do insert s values (1, 2, 3, 4, 5, 6, 7, 8, 9, 10, 11, 12, 13, 14, 15, new.a",
        b")",
        b", old.b)",
    ),
    (
        b"insert r values (1, 2, 3, 4, 5, 6, 7, 8, 9, 10, 11, 12, 13, 14, 15, 16",
        b")",
        b", 17)",
    ),
    (
        b"update r @00 values (1, 2, 3, 4, 5, 6, 7, 8, 9, 10, 11, 12, 13, 14, 15, 16",
        b")",
        b", 17)",
    ),
    (
        b"lookup i on r (1, 2, 3, 4, 5, 6, 7, 8, 9, 10, 11, 12, 13, 14, 15, 16",
        b")",
        b", 17)",
    ),
    (
        b"range i on r from (1, 2, 3, 4, 5, 6, 7, 8, 9, 10, 11, 12, 13, 14, 15, 16",
        b") to (1)",
        b", 17) to (1)",
    ),
    (
        b"range i on r from (1) to (1, 2, 3, 4, 5, 6, 7, 8, 9, 10, 11, 12, 13, 14, 15, 16",
        b")",
        b", 17)",
    ),
    // 4 pairs
    (
        b"delete r where a = 1 and b = 2 and c = 3 and d = 4 ",
        b"",
        b"and e = 5",
    ),
    (
        b"set r a = 1 where a = 1 and b = 2 and c = 3 and d = 4 ",
        b"",
        b"and e = 5",
    ),
    (
        b"add r a by 1 where a = 1 and b = 2 and c = 3 and d = 4 ",
        b"",
        b"and e = 5",
    ),
    (
        b"attach trigger t on r after insert when always do delete s where a = 1 and b = 2 and c = 3 and d = new.a ",
        b"deferred",
        b"and e = 5 deferred",
    ),
    (
        b"attach trigger t on r after insert when always do set s a = 1 where a = 1 and b = 2 and c = 3 and d = new.a ",
        b"",
        b"and e = 5",
    ),
    (
        b"attach trigger t on r after insert when always do add s a by 1 where a = 1 and b = 2 and c = 3 and d = new.a ",
        b"",
        b"and e = 5",
    ),
    // 16 of `not` and `(` that are open at once
    (
        b"attach check c on r not (not (not (not (not (not (not (not (",
        b"a = 1))))))))",
        b"not a = 1))))))))",
    ),
    (
        b"attach check c on r not (not (not (not (not (not (not (not (",
        b"a = 1) or a = 2)))))))",
        b"(a = 1)))))))))",
    ),
    (
        b"attach check c on r ((((((((((((((((a = 1) and not ",
        b"b = 2)))))))))))))))",
        b"not b = 2)))))))))))))))",
    ),
    (
        b"attach trigger t on r after insert when (not (not (not (not (not (not (not (not ",
        b"new.a = 1)))))))) do delete s",
        b"not new.a = 1)))))))) do delete s",
    ),
    // texts of columns
    (b"create r using heap (a text(", b"1))", b"0))"),
    (b"create r using heap (a text(", b"255))", b"256))"),
    // codes
    (b"register method ", b"1", b"0"),
    (b"register method ", b"65535", b"65536"),
    (b"register attachment ", b"1", b"0"),
    (b"register attachment ", b"65535", b"65536"),
    (b"retire method ", b"1", b"0"),
    (b"retire method ", b"65535", b"65536"),
    (b"retire attachment ", b"1", b"0"),
    (b"retire attachment ", b"65535", b"65536"),
    (b"create r using method ", b"1000 (a int)", b"999 (a int)"),
    (
        b"create r using method ",
        b"65535 (a int)",
        b"65536 (a int)",
    ),
    (b"attach code ", b"1000 x on r desc @", b"999 x on r desc @"),
    (
        b"attach code ",
        b"65535 x on r desc @",
        b"65536 x on r desc @",
    ),
    // other numbers
    (b"attach stats t on r (a) low 0 width ", b"1", b"0"),
    (b"scan r limit ", b"0", b"-1"),
    (b"scan r after @ limit ", b"1000000", b"1000001"),
    (
        b"insert r values (",
        b"9223372036854775807)",
        b"9223372036854775808)",
    ),
    (
        b"insert r values (",
        b"-9223372036854775808)",
        b"-9223372036854775809)",
    ),
    // names
    (
        b"drop ",
        b"abcdefghijklmnopqrstuvwxyz_01234",
        b"abcdefghijklmnopqrstuvwxyz_012345",
    ),
];

/// Whether the front is a command with the one end, and with the other is bad right behind the front.
fn is_limit(alloc: Global, front: &[u8], within: &[u8], beyond: &[u8]) -> bool {
    column_with(alloc, front, within) == Some(0)
        && column_with(alloc, front, beyond) == Some(front.len() + 1)
}

/// The first front that isn't at a limit.
fn wrong_front<'a>(alloc: Global, rows: &'a [(&'a [u8], &'a [u8], &'a [u8])]) -> Option<&'a [u8]> {
    for (front, within, beyond) in rows {
        if !is_limit(alloc, front, within, beyond) {
            return Some(*front);
        }
    }
    None
}

fn wrong_limit(alloc: Global) -> Option<&'static [u8]> {
    wrong_front(alloc, &LIMITS)
}

#[test]
fn limits_passed_by_one(rt: HostRuntime) {
    assert_eq!(rt; wrong_limit(rt.alloc()), None);
}
