use sb_plain::{Entries, Image, Picks, Refusal, Reply, Room, Rows, Sums};
use sb_printer::{print_command, print_reply, text_is_a_line};
use sb_reader::parse_line;
use sb_value::{Bytes, Names, RecKey, Str, Tuple, Value};
use std::alloc::Global;
use std::process::Abort;

/// Lines, each with the text of the command that it spells.
const COMMANDS: [(&str, &str); 74] = [
    ("create r using heap (a int)", "create r using heap (a int)"),
    (
        " create\tr using tree(a int,b text)key(a)",
        "create r using tree (a int, b text) key (a)",
    ),
    (
        "create r using temp (a text ( 7 ) , b text(255))",
        "create r using temp (a text(7), b text)",
    ),
    (
        "create r using method 01000 ( a text(254) ) key (a , b)",
        "create r using method 1000 (a text(254)) key (a, b)",
    ),
    ("drop  r", "drop r"),
    (
        "attach treeindex i on r(a,b)unique",
        "attach treeindex i on r (a, b) unique",
    ),
    (
        "attach treeindex i on r ( a )",
        "attach treeindex i on r (a)",
    ),
    ("attach hashindex i on r(a)", "attach hashindex i on r (a)"),
    (
        "attach joinindex j on r(a)with s(b)",
        "attach joinindex j on r (a) with s (b)",
    ),
    (
        "attach stats t on r(a)low -05 width 010",
        "attach stats t on r (a) low -5 width 10",
    ),
    (
        "attach refers f on r(a)to s(b)restrict",
        "attach refers f on r (a) to s (b) restrict",
    ),
    (
        "attach refers f on r(a,b)to s(c,d)cascade deferred",
        "attach refers f on r (a, b) to s (c, d) cascade deferred",
    ),
    (
        "attach code 65535 x on r desc @",
        "attach code 65535 x on r desc @",
    ),
    (
        "attach code 1000 x on r desc @AbCd",
        "attach code 1000 x on r desc @abcd",
    ),
    ("attach check c on r (always)", "attach check c on r always"),
    (
        "attach check c on r always deferred",
        "attach check c on r always deferred",
    ),
    ("attach check c on r a=1", "attach check c on r a = 1"),
    ("attach check c on r a<>'x'", "attach check c on r a <> 'x'"),
    ("attach check c on r a<b", "attach check c on r a < b"),
    ("attach check c on r 1<=a", "attach check c on r 1 <= a"),
    ("attach check c on r a>-1", "attach check c on r a > -1"),
    ("attach check c on r 'x'>=a", "attach check c on r 'x' >= a"),
    ("attach check c on r ((a = 1))", "attach check c on r a = 1"),
    (
        "attach check c on r not a = 1",
        "attach check c on r not a = 1",
    ),
    (
        "attach check c on r not(a = 1)",
        "attach check c on r not a = 1",
    ),
    (
        "attach check c on r not not (not always)",
        "attach check c on r not not not always",
    ),
    (
        "attach check c on r not (a = 1 and b = 2)",
        "attach check c on r not (a = 1 and b = 2)",
    ),
    (
        "attach check c on r not ( a = 1 or b = 2 )",
        "attach check c on r not (a = 1 or b = 2)",
    ),
    (
        "attach check c on r (not a = 1) and b = 2",
        "attach check c on r not a = 1 and b = 2",
    ),
    (
        "attach check c on r a = 1 or b = 2 or c = 3",
        "attach check c on r a = 1 or b = 2 or c = 3",
    ),
    (
        "attach check c on r (a = 1 or b = 2) or c = 3",
        "attach check c on r a = 1 or b = 2 or c = 3",
    ),
    (
        "attach check c on r a = 1 or (b = 2 or c = 3)",
        "attach check c on r a = 1 or (b = 2 or c = 3)",
    ),
    (
        "attach check c on r (a = 1 and b = 2) and c = 3",
        "attach check c on r a = 1 and b = 2 and c = 3",
    ),
    (
        "attach check c on r a = 1 and (b = 2 and c = 3)",
        "attach check c on r a = 1 and (b = 2 and c = 3)",
    ),
    (
        "attach check c on r (a = 1 and b = 2) or (c = 3 and d = 4)",
        "attach check c on r a = 1 and b = 2 or c = 3 and d = 4",
    ),
    (
        "attach check c on r (a = 1 or b = 2) and (c = 3 or d = 4)",
        "attach check c on r (a = 1 or b = 2) and (c = 3 or d = 4)",
    ),
    (
        "attach trigger t on r after insert when always do delete s",
        "attach trigger t on r after insert when always do delete s",
    ),
    (
        "attach trigger t on r after delete when old . a=1 do insert s values(old.a,'x',-2)deferred",
        "attach trigger t on r after delete when old.a = 1 do insert s values (old.a, 'x', -2) deferred",
    ),
    (
        "attach trigger t on r after update when new.a <> old .a do delete s where b=new. a and c=3",
        "attach trigger t on r after update when new.a <> old.a do delete s where b = new.a and c = 3",
    ),
    (
        "attach trigger t on r after insert when always do set s b=new.a where c=old.d deferred",
        "attach trigger t on r after insert when always do set s b = new.a where c = old.d deferred",
    ),
    (
        "attach trigger t on r after insert when always do add s b by new.a",
        "attach trigger t on r after insert when always do add s b by new.a",
    ),
    ("detach\ti  on r", "detach i on r"),
    ("register method 1", "register method 1"),
    ("register attachment 0007", "register attachment 7"),
    ("retire method 65535", "retire method 65535"),
    ("retire attachment 8", "retire attachment 8"),
    ("begin ", "begin"),
    (" commit", "commit"),
    ("\tabort", "abort"),
    ("checkpoint", "checkpoint"),
    ("tables", "tables"),
    ("savepoint  p", "savepoint p"),
    ("rollback  p", "rollback p"),
    ("insert r values(1,-2,'x')", "insert r values (1, -2, 'x')"),
    ("insert r values ( -0 )", "insert r values (0)"),
    (
        "insert r values ( '', 'it''s', '''' )",
        "insert r values ('', 'it''s', '''')",
    ),
    (
        "insert r values ('a  b', 'é,)')",
        "insert r values ('a  b', 'é,)')",
    ),
    (
        "insert r values (-9223372036854775808,009223372036854775807)",
        "insert r values (-9223372036854775808, 9223372036854775807)",
    ),
    ("update r @0A values(1)", "update r @0a values (1)"),
    ("delete r @", "delete r @"),
    ("delete r @FF00", "delete r @ff00"),
    ("delete r", "delete r"),
    (
        "delete r where a=1 and b='x'",
        "delete r where a = 1 and b = 'x'",
    ),
    ("set r a='x'", "set r a = 'x'"),
    (
        "set r a=-1 where b=2 and c=3 and d=4 and e=5",
        "set r a = -1 where b = 2 and c = 3 and d = 4 and e = 5",
    ),
    ("add r a by 5", "add r a by 5"),
    ("add r a by 5 where b='x'", "add r a by 5 where b = 'x'"),
    ("get r @ABCDEF", "get r @abcdef"),
    ("scan r", "scan r"),
    ("scan r after @00 limit 000", "scan r after @00 limit 0"),
    ("lookup i on r(1,'x')", "lookup i on r (1, 'x')"),
    (
        "range i on r from(1)to(2,3)",
        "range i on r from (1) to (2, 3)",
    ),
    ("entries i on r", "entries i on r"),
    ("show _R9", "show _R9"),
];

/// Whether the line spells a command with this text.
fn is_printed(alloc: Global, line: &str, text: &str) -> bool {
    let Ok(command) = parse_line(alloc, line.as_bytes()) else {
        return false;
    };
    let mut out = Bytes::new(alloc);
    let is_done = print_command(&command, &mut out).is_ok();
    drop(command);
    is_done && out.as_slice() == text.as_bytes()
}

#[test]
fn commands_printed(rt: HostRuntime) {
    for (number, (line, text)) in COMMANDS.iter().enumerate() {
        assert!(rt; is_printed(rt.alloc(), line, text), "line {number}");
        assert!(rt; is_printed(rt.alloc(), text, text), "text {number}");
    }
    text_is_a_line();
}

/// Whether the text of the reply is this, behind what stood there.
fn is_answered(alloc: Global, reply: &Reply, text: &str) -> bool {
    let mut out = Bytes::new(alloc);
    if out.push(b'>').is_err() || print_reply(reply, &mut out).is_err() {
        return false;
    }
    matches!(out.as_slice(), [b'>', printed @ ..] if printed == text.as_bytes())
}

// An owned value that goes by a call of `drop` is far cheaper to prove than one that goes at its scope's end.

fn is_replied(alloc: Global, reply: Reply, text: &str) -> bool {
    let is_answered = is_answered(alloc, &reply, text);
    drop(reply);
    is_answered
}

fn is_refused(alloc: Global, refusal: Refusal, text: &str) -> bool {
    is_replied(alloc, Reply::Refused(refusal), text)
}

#[test]
fn plain_refusals_answered(rt: HostRuntime) {
    let alloc = rt.alloc();
    let syntax = Refusal::Syntax { column: 4097 };
    assert!(rt; is_refused(alloc, syntax, "! syntax 4097\n"));
    assert!(rt; is_refused(alloc, Refusal::Down, "! down\n"));
    assert!(rt; is_refused(alloc, Refusal::State, "! state\n"));
    let no_extension = Refusal::NoExtension { code: 65535 };
    assert!(rt; is_refused(alloc, no_extension, "! noextension 65535\n"));
    assert!(rt; is_refused(alloc, Refusal::Mistyped, "! type\n"));
    assert!(rt; is_refused(alloc, Refusal::Mixed, "! mixed\n"));
    assert!(rt; is_refused(alloc, Refusal::Limit, "! limit\n"));
    assert!(rt; is_refused(alloc, Refusal::Depth, "! depth\n"));
    assert!(rt; is_refused(alloc, Refusal::DeferLimit, "! deferlimit\n"));
    assert!(rt; is_refused(alloc, Refusal::Damaged { page: 0 }, "! damaged 0\n"));
    assert!(rt; is_refused(alloc, Refusal::Fault, "! fault\n"));
    assert!(rt; is_refused(alloc, Refusal::NoMemory, "! nomemory\n"));
}

fn name_of(rt: &impl Abort, alloc: Global, text: &str) -> Str {
    Str::from_string(String::from_str(alloc, text).expect(rt, "memory"))
}

#[test]
fn named_refusals_answered(rt: HostRuntime) {
    let alloc = rt.alloc();
    let name = name_of(&rt, alloc, "q");
    assert!(rt; is_refused(alloc, Refusal::NoRelation { name }, "! norelation q\n"));
    let name = name_of(&rt, alloc, "pos");
    assert!(rt; is_refused(alloc, Refusal::Exists { name }, "! exists pos\n"));
    let name = name_of(&rt, alloc, "j");
    assert!(rt; is_refused(alloc, Refusal::NoName { name }, "! noname j\n"));
}

#[test]
fn refusals_by_relations_answered(rt: HostRuntime) {
    let alloc = rt.alloc();
    let relation = name_of(&rt, alloc, "r");
    assert!(rt; is_refused(alloc, Refusal::TooLong { relation }, "! toolong r\n"));
    let relation = name_of(&rt, alloc, "r");
    assert!(rt; is_refused(alloc, Refusal::NoRecord { relation }, "! norecord r\n"));
    let relation = name_of(&rt, alloc, "r");
    assert!(rt; is_refused(alloc, Refusal::Duplicate { relation }, "! duplicate r\n"));
    let relation = name_of(&rt, alloc, "r");
    assert!(rt; is_refused(alloc, Refusal::Range { relation }, "! range r\n"));
}

#[test]
fn refusals_by_users_answered(rt: HostRuntime) {
    let alloc = rt.alloc();
    let relation = name_of(&rt, alloc, "r");
    let name = name_of(&rt, alloc, "-");
    assert!(rt; is_refused(alloc, Refusal::InUse { relation, name }, "! inuse r -\n"));
    let relation = name_of(&rt, alloc, "r");
    let name = name_of(&rt, alloc, "pos");
    assert!(rt; is_refused(alloc, Refusal::Veto { relation, name }, "! veto r pos\n"));
}

fn is_without_room(alloc: Global, room: Room, text: &str) -> bool {
    is_refused(alloc, Refusal::Room(room), text)
}

#[test]
fn rooms_answered(rt: HostRuntime) {
    let alloc = rt.alloc();
    let data = Room::Data { used: 1, total: 2 };
    assert!(rt; is_without_room(alloc, data, "! room data 1 2\n"));
    let temp = Room::Temp {
        used: 16384,
        total: 16384,
    };
    assert!(rt; is_without_room(alloc, temp, "! room temp 16384 16384\n"));
    let log = Room::Log {
        used: 3,
        need: 4,
        total: 5,
    };
    assert!(rt; is_without_room(alloc, log, "! room log 3 4 5\n"));
    let gates = Room::Gates {
        used: 65535,
        total: 65536,
    };
    assert!(rt; is_without_room(alloc, gates, "! room gates 65535 65536\n"));
}

fn key_of(rt: &impl Abort, alloc: Global, byte: u8) -> RecKey {
    RecKey::from_vec(vec![in alloc; byte].expect(rt, "memory"))
}

/// A reply with a key, and the keys that were picked.
fn done(rt: &impl Abort, alloc: Global) -> Reply {
    let picks = vec![in alloc; key_of(rt, alloc, 0xff), key_of(rt, alloc, 0)].expect(rt, "memory");
    Reply::Done {
        key: Some(key_of(rt, alloc, 0x0a)),
        picks: Picks::from_vec(picks),
    }
}

fn nothing_done(alloc: Global) -> Reply {
    Reply::Done {
        key: None,
        picks: Picks::new(alloc),
    }
}

fn counted(rt: &impl Abort, alloc: Global) -> Reply {
    let picks = vec![in alloc; key_of(rt, alloc, 0xab)].expect(rt, "memory");
    Reply::Count {
        count: 12,
        picks: Picks::from_vec(picks),
    }
}

#[test]
fn doings_answered(rt: HostRuntime) {
    let alloc = rt.alloc();
    assert!(rt; is_replied(alloc, done(&rt, alloc), "ok @0a +@ff +@00\n"));
    assert!(rt; is_replied(alloc, nothing_done(alloc), "ok\n"));
    assert!(rt; is_replied(alloc, counted(&rt, alloc), "ok 12 +@ab\n"));
}

/// One row of a number and a text.
fn one_row(rt: &impl Abort, alloc: Global) -> Reply {
    let quoted = Value::Text(name_of(rt, alloc, "it's"));
    let values = vec![in alloc; Value::Int(-5), quoted].expect(rt, "memory");
    let row = (key_of(rt, alloc, 1), Tuple::from_vec(values));
    Reply::Rows {
        rows: Rows::from_vec(vec![in alloc; row].expect(rt, "memory")),
    }
}

fn entries_of(entries: Vec<(RecKey, RecKey)>, sums: Vec<i128>) -> Reply {
    Reply::Entries {
        image: Image {
            entries: Entries::from_vec(entries),
            sums: Sums::from_vec(sums),
        },
    }
}

fn one_entry(rt: &impl Abort, alloc: Global) -> Reply {
    let pair = (key_of(rt, alloc, 1), key_of(rt, alloc, 2));
    entries_of(vec![in alloc; pair].expect(rt, "memory"), Vec::new(alloc))
}

fn three_sums(rt: &impl Abort, alloc: Global) -> Reply {
    let sums = vec![in alloc; 3, -4, 0].expect(rt, "memory");
    entries_of(Vec::new(alloc), sums)
}

fn two_lines(rt: &impl Abort, alloc: Global) -> Reply {
    let first = name_of(rt, alloc, "dept");
    let lines = vec![in alloc; first, name_of(rt, alloc, "emp")].expect(rt, "memory");
    Reply::Lines {
        lines: Names::from_vec(lines),
    }
}

#[test]
fn lists_answered(rt: HostRuntime) {
    let alloc = rt.alloc();
    assert!(rt; is_replied(alloc, one_row(&rt, alloc), "@01 (-5, 'it''s')\nok 1\n"));
    assert!(rt; is_replied(alloc, one_entry(&rt, alloc), "@01 @02\nok 1\n"));
    assert!(rt; is_replied(alloc, three_sums(&rt, alloc), "sum 3 -4 0\nok 0\n"));
    assert!(rt; is_replied(alloc, two_lines(&rt, alloc), "dept\nemp\nok 2\n"));
}
