use sb_plain::Command;
use sb_pred::nodes;
use sb_reader::{Fault, LineFault, one_command, one_item, parse_line, read_command};
use sb_rule::{Action, Rule};
use sb_tokens::{Row, scan};
use sb_value::{Tuple, Value};
use std::alloc::Global;
use std::process::Abort;

/// Whether rows are deleted where two columns have values.
fn is_by_two_pairs(action: &Action) -> bool {
    match action {
        Action::Delete { pairs, .. } => pairs.len() == 2,
        _ => false,
    }
}

/// Whether a deferred check has a predicate of six nodes.
fn is_check_of_six(rule: &Rule) -> bool {
    match rule {
        Rule::Check {
            pred,
            deferred: true,
        } => nodes(pred) == 6,
        _ => false,
    }
}

fn is_text(values: &Tuple, text: &str) -> bool {
    matches!(values.as_slice(), [Value::Text(found)] if found.as_str() == text)
}

/// What the tests call this command.
fn command_name(command: &Command) -> &'static str {
    match command {
        Command::Scan { limit, .. } => {
            if *limit == Some(1_000_000) {
                "scan of a million"
            } else {
                "other"
            }
        }
        Command::Act { action } => {
            if is_by_two_pairs(action) {
                "delete by two pairs"
            } else {
                "other"
            }
        }
        Command::Attach { rule, .. } => {
            if is_check_of_six(rule) {
                "check of six nodes"
            } else {
                "other"
            }
        }
        Command::Insert { values, .. } => {
            if is_text(values, "it's") {
                "insert of it's"
            } else {
                "other"
            }
        }
        Command::Get { relation, at } => {
            let is_got = relation.as_str() == "r" && at.as_slice() == [0, 255].as_slice();
            if is_got { "get at 00ff" } else { "other" }
        }
        _ => "other",
    }
}

/// Whether the line spells the command of this name.
fn is_named(alloc: Global, line: &[u8], name: &str) -> bool {
    match parse_line(alloc, line) {
        Ok(command) => {
            let is_named = command_name(&command) == name;
            drop(command);
            is_named
        }
        Err(_) => false,
    }
}

/// Lines with the names of their commands.
const COMMANDS: [(&[u8], &str); 5] = [
    (b"scan r limit 1000000", "scan of a million"),
    (b"delete r where a = 1 and b = 2", "delete by two pairs"),
    (
        b"attach check c on r (a < 9 or not a = 3) and b = 1 deferred",
        "check of six nodes",
    ),
    (b"insert r values ('it''s')", "insert of it's"),
    (b"get r @00Ff", "get at 00ff"),
];

#[test]
fn commands_read(rt: HostRuntime) {
    for (number, (line, name)) in COMMANDS.iter().enumerate() {
        assert!(rt; is_named(rt.alloc(), line, name), "line {number}");
    }
    one_command();
    one_item();
}

fn leaves_tokens(alloc: Global, row: &Row, count: usize) -> bool {
    match read_command(alloc, &row.tokens) {
        Ok(command) => {
            drop(command);
            false
        }
        Err(Fault::Misfit(rest)) => rest.len() == count,
        Err(Fault::NoMemory) => false,
    }
}

/// Whether the fault of a short line leaves so many tokens.
fn leaves(alloc: Global, line: &[u8], count: usize) -> bool {
    if line.len() > 100 {
        return false;
    }
    match scan(alloc, line) {
        Ok(row) => {
            let leaves = leaves_tokens(alloc, &row, count);
            drop(row);
            leaves
        }
        Err(_) => false,
    }
}

/// Lines with the tokens that their faults leave.
const MISFITS: [(&[u8], usize); 4] = [
    (b"scan", 0),
    (b"begin begin", 1),
    (b"delete r where a = 1, b = 2", 4),
    (b"create r using heap (a text(255), b int(1))", 4),
];

#[test]
fn misfits_found(rt: HostRuntime) {
    for (line, count) in MISFITS.iter() {
        assert!(rt; leaves(rt.alloc(), line, *count), "{count}");
    }
}

/// Whether the line is bad at this column; at 0: it is a command.
fn is_bad_at(alloc: Global, line: &[u8], wanted: u32) -> bool {
    match parse_line(alloc, line) {
        Ok(command) => {
            drop(command);
            wanted == 0
        }
        Err(LineFault::Syntax { column }) => wanted == column,
        Err(LineFault::NoMemory) => false,
    }
}

/// The same of a word with blanks, of so many bytes in all.
fn is_padded_bad_at(rt: &impl Abort, alloc: Global, word: &[u8], len: usize, wanted: u32) -> bool {
    let mut line = Vec::from_slice(alloc, word).expect(rt, "memory");
    line.resize(len, b' ').expect(rt, "memory");
    is_bad_at(alloc, &line, wanted)
}

/// Words, the bytes of their lines with blanks, and where these are bad.
const LONG: [(&[u8], usize, u32); 6] = [
    (b"begin", 4096, 0),
    (b"begin", 4097, 4097),
    (b"scan", 4096, 4097),
    (b"x", 4096, 1),
    (b"x", 4097, 4097),
    (b"x", 5000, 4097),
];

#[test]
fn faults_of_long_lines(rt: HostRuntime) {
    for (word, len, column) in LONG.iter() {
        assert!(rt;
            is_padded_bad_at(&rt, rt.alloc(), word, *len, *column),
            "{len}"
        );
    }
}

/// Lines, with the columns at which they are bad; 0 for a command.
const LINES: [(&[u8], u32); 152] = [
    // Lines of transactions and of registrations.
    (b"", 1),
    (b"  ", 3),
    (b"begin", 0),
    (b"begin x", 7),
    (b"begi", 1),
    (b"BEGIN", 1),
    (b"  begin  ", 0),
    (b"\tbegin \tx", 9),
    (b"begin\r", 6),
    (b"begin ?", 7),
    (b"#", 1),
    (b"r", 1),
    (b"commit", 0),
    (b"abort now", 7),
    (b"tables", 0),
    (b"checkpoint ;", 12),
    (b"savepoint s", 0),
    (b"savepoint begin", 11),
    (b"savepoint", 10),
    (b"rollback 5", 10),
    (b"rollback s", 0),
    (b"detach c on r", 0),
    (b"detach c", 9),
    (b"detach c in r", 10),
    (b"register method 1", 0),
    (b"register method 0", 17),
    (b"register heap 1", 10),
    (b"register attachment 65535", 0),
    (b"retire attachment 65536", 19),
    (b"retire", 7),
    (b"show r", 0),
    (b"show 'r'", 6),
    (b"entries i on r", 0),
    (b"entries", 8),
    (b"begin x #", 7),
    (b"scan ?", 6),
    // Lines that make and drop relations.
    (b"create", 7),
    (b"create tree using heap (k int)", 8),
    (b"create r heap", 10),
    (b"create r using", 15),
    (b"create r using stats", 16),
    (b"create r using tree", 20),
    (b"create r using heap ()", 22),
    (b"create r using heap (key int)", 22),
    (b"create r using heap (k int(4))", 27),
    (b"create r using heap (k float)", 24),
    (b"create r using heap (k text(255))", 0),
    (b"create r using heap (k text(256))", 29),
    (b"create t using heap (a text(0))", 29),
    (b"create r using method 1000 (k int)", 0),
    (b"create t using method 999 (k int)", 23),
    (b"create r using method 65536 (k int)", 23),
    (b"create r using temp (k int, t text(20)) key (k, t)", 0),
    (b"create r using heap (k int) key", 32),
    (b"create r using heap (k int) key (k) key", 37),
    (
        b"create r using heap (a int,b int,c int,d int,e int,f int,g int,h int,i int,j int,k int,l int,m int,n int,o int,p int,q int)",
        117,
    ),
    (b"drop r", 0),
    (b"drop", 5),
    (b"drop Tree", 0),
    (b"drop tree", 6),
    (b"drop r s #", 8),
    (b"drop aaaaaaaaaabbbbbbbbbbcccccccccc12", 0),
    (b"drop aaaaaaaaaabbbbbbbbbbcccccccccc123", 6),
    // Lines that attach.
    (b"attach", 7),
    (b"attach index i on r (a)", 8),
    (b"attach check check on r always", 14),
    (b"attach treeindex i on r (a, b) unique", 0),
    (b"attach treeindex i on r (a,)", 28),
    (b"attach treeindex i of r (a)", 20),
    (b"attach hashindex i on r (a) unique", 29),
    (b"attach joinindex j on r (a) with s (b)", 0),
    (b"attach joinindex j on r (a)", 28),
    (b"attach stats s on r (a) low -5 width 10", 0),
    (b"attach stats s on r (a) low 0 width 0", 37),
    (b"attach stats s on r (a, b) low 0 width 1", 23),
    (
        b"attach check c on r a < 1 or not (b = 'x' and a <> b) deferred",
        0,
    ),
    (b"attach check c on r always and", 31),
    (b"attach check c on r new.a < 1", 21),
    (b"attach check c on r a and b = 1", 23),
    (b"attach check c on r a < b < c", 27),
    (b"attach check c on r (a < 1", 27),
    (
        b"attach check c on r ((((((((((((((((a < 1))))))))))))))))",
        0,
    ),
    (
        b"attach check c on r (((((((((((((((((a < 1)))))))))))))))))",
        37,
    ),
    (
        b"attach check c on r not not not not not not not not not not not not not not not not always",
        0,
    ),
    (
        b"attach check c on r not not not not not not not not not not not not not not not not not always",
        85,
    ),
    (b"attach refers f on r (a) to s (b) cascade deferred", 0),
    (b"attach refers f on r (a) to s (b)", 34),
    (b"attach refers f on r (a) to s (b) deferred", 35),
    (
        b"attach trigger t on r after insert when new.a > 5 do insert s values (new.a, old.b, 3) deferred",
        0,
    ),
    (
        b"attach trigger t on r after scan when always do delete s",
        29,
    ),
    (
        b"attach trigger t on r after update when new = 1 do delete s",
        45,
    ),
    (
        b"attach trigger t on r after delete when a = 1 do delete s",
        41,
    ),
    (
        b"attach trigger t on r after delete when always do get s",
        51,
    ),
    (
        b"attach trigger t on r after delete when always do delete s where a = old.a , b = 1",
        76,
    ),
    (b"attach code 1000 x on r desc @00ff", 0),
    (b"attach code 999 x on r desc @", 13),
    (b"attach code 65536 x on r desc @", 13),
    (b"attach code 65535 x on r desc", 30),
    // Lines that change rows.
    (b"insert", 7),
    (b"insert r (1)", 10),
    (b"insert r values (1, 'x', -2)", 0),
    (b"insert r values (1 2)", 20),
    (b"insert r values (1,)", 20),
    (b"insert r values (5a)", 19),
    (b"insert r values (a)", 18),
    (b"insert r values ('a''b)", 21),
    (b"insert r values ('a)", 18),
    (b"insert r values ('\xff')", 18),
    (b"insert r values (- 5)", 18),
    (
        b"insert r values (9223372036854775807, -9223372036854775808)",
        0,
    ),
    (b"insert r values (9223372036854775808)", 18),
    (b"insert r values (-9223372036854775809)", 18),
    (
        b"insert r values (1,2,3,4,5,6,7,8,9,10,11,12,13,14,15,16)",
        0,
    ),
    (
        b"insert r values (1,2,3,4,5,6,7,8,9,10,11,12,13,14,15,16,17)",
        56,
    ),
    (b"delete r", 0),
    (b"delete r @00", 0),
    (b"delete where", 8),
    (b"delete r 5", 10),
    (b"delete r @00 where a = 1", 14),
    (b"delete r where a = 1 and a = 1 and a = 1 and a = 1", 0),
    (
        b"delete r where a = 1 and a = 1 and a = 1 and a = 1 and a = 1",
        52,
    ),
    (b"update r @00 values (1)", 0),
    (b"update r values (1)", 10),
    (b"update r @00", 13),
    (b"set r a = 5 where b = 'x'", 0),
    (b"set r a = b", 11),
    (b"set r a by 5", 9),
    (b"add r a by 5", 0),
    (b"add r a = 5", 9),
    (b"add r a by 5 where b < 1", 22),
    // Lines that read.
    (b"get r @", 0),
    (b"get r", 6),
    (b"get t @abc", 10),
    (b"scan", 5),
    (b"scan ", 6),
    (b"scan limit", 6),
    (b"scan r", 0),
    (b"scan r after @00 limit 5", 0),
    (b"scan r after limit 5", 14),
    (b"scan r limit 0 after @00", 16),
    (b"scan r limit 1000000", 0),
    (b"scan r limit 1000001", 14),
    (b"scan r limit -1", 14),
    (b"scan r limit 99999999999999999999", 14),
    (b"scan r limit 5 6", 16),
    (b"scan r #", 8),
    (b"lookup i on r (1, 'x')", 0),
    (b"lookup i on r", 14),
    (b"lookup i on r (a)", 16),
    (b"range i on r from (1) to (9)", 0),
    (b"range i on r from (1)", 22),
    (b"range i on r from (1) from (9)", 23),
];

#[test]
fn faults_of_lines(rt: HostRuntime) {
    for (number, (line, column)) in LINES.iter().enumerate() {
        assert!(rt; is_bad_at(rt.alloc(), line, *column), "line {number}");
    }
}
