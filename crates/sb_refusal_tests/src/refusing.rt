//! Refusals over a catalogue of five relations. What is expected follows from the definitions by hand.

ghost use Rattle.std.specs.Prelude.{[], refl};
ghost use Rattle.sb_plain.specs.State.{State};

use sb_catalog::{Descriptor, read_descriptor};
use sb_fold::Refusal;
use sb_plain::Command;
use sb_reader::parse_line;
use sb_refusals::{Catalogue, refuse};
use sb_value::{Bytes, Names, Schema, Str};
use std::alloc::{AllocError, Global};
use std::test::*;

/// `h`, a heap of `(c int)` whose attachment `f` refers to `r`.
const HEAP: &[u8] = b"\x00\x01\x00\x03\x00\x00\x00\x02\x01\x01c\x01\x00\x00\
    \x01\x00\x06\x00\x00\x00\x00\x00\x00\x01f\x00\x0b\x00\x00\x00\x01\x01c\x01r\x01\x01a";

/// `r`, a tree of `(a int, b text(10)) key (a)` with the tree index `i` on `a`, the hash index `j` on `b`, and the mirror of the reference.
const KEYED: &[u8] = b"\x00\x02\x00\x03\x00\x00\x00\x02\x02\x01a\x01\x00\x01b\x02\x0a\x01\x01a\
    \x03\x00\x01\x00\x00\x00\x00\x00\x00\x01i\x00\x04\x00\x01\x01a\
    \x00\x02\x00\x00\x00\x00\x00\x00\x01j\x00\x03\x01\x01b\
    \x00\x06\x00\x00\x00\x00\x00\x00\x03h.f\x00\x0b\x01\x00\x00\x01\x01a\x01h\x01\x01c";

/// `t`, a relation of `(c int)` that ends with the run.
const TEMPORARY: &[u8] = b"\x00\x03\x00\x03\x00\x00\x00\x02\x01\x01c\x01\x00\x00\x00";

/// A heap of `(c int)`, up to the number of its attachments.
const INDEXED: &[u8] = b"\x00\x01\x00\x03\x00\x00\x00\x02\x01\x01c\x01\x00\x00";

/// A tree index on `c`: 15 bytes beside its name of one byte, and beside one of 250.
const SHORT: &[u8] = b"\x00\x01\x00\x00\x00\x00\x00\x00\x01k\x00\x04\x00\x01\x01c";

const LONG: &[u8] = b"\x00\x01\x00\x00\x00\x00\x00\x00\xfa\
    kkkkkkkkkkkkkkkkkkkkkkkkkkkkkkkkkkkkkkkkkkkkkkkkkkkkkkkkkkkkkkkkkkkkkkkkkkkkkkkkkkkkkkkkkkkkkkkkkkkk\
    kkkkkkkkkkkkkkkkkkkkkkkkkkkkkkkkkkkkkkkkkkkkkkkkkkkkkkkkkkkkkkkkkkkkkkkkkkkkkkkkkkkkkkkkkkkkkkkkkkkk\
    kkkkkkkkkkkkkkkkkkkkkkkkkkkkkkkkkkkkkkkkkkkkkkkkkk\
    \x00\x04\x00\x01\x01c";

/// A heap with so many indexes of these bytes.
fn indexed(alloc: Global, count: u8, index: &[u8]) -> Result<Option<Descriptor>, AllocError> {
    let mut bytes = Vec::new(alloc);
    bytes.extend_from_slice(INDEXED)?;
    bytes.push(count)?;
    for _ in 0..count {
        bytes.extend_from_slice(index)?;
    }
    read_descriptor(alloc, &bytes)
}

/// The relations: `w` has 1,870 bytes, and `x` 16 attachments.
fn described(alloc: Global, text: &str) -> Result<Option<Descriptor>, AllocError> {
    match text {
        "h" => read_descriptor(alloc, HEAP),
        "r" => read_descriptor(alloc, KEYED),
        "t" => read_descriptor(alloc, TEMPORARY),
        "w" => indexed(alloc, 7, LONG),
        "x" => indexed(alloc, 16, SHORT),
        _ => Ok(None),
    }
}

/// The first name behind this one.
fn next_name(after: &str) -> &'static str {
    match after {
        "" => "h",
        "h" => "r",
        "r" => "t",
        "t" => "w",
        "w" => "x",
        _ => "",
    }
}

fn next_of(alloc: Global, after: &str) -> Result<Option<(Str, Descriptor)>, AllocError> {
    let name = next_name(after);
    match described(alloc, name)? {
        Some(descriptor) => Ok(Some((text(alloc, name)?, descriptor))),
        None => Ok(None),
    }
}

fn text(alloc: Global, text: &str) -> Result<Str, AllocError> {
    Ok(Str::from_string(String::from_str(alloc, text)?))
}

/// The five relations, in the order of their names, and how the run stands. There is a savepoint `p`. All of our own methods and attachments are live
/// but stats, which is spare.
#[derive(Clone, Copy)]
enum Five {
    /// Outside a transaction.
    Idle,
    /// Behind a fault.
    Down,
    /// Inside a transaction with so many savepoints.
    Open(usize),
    /// Inside a transaction with actions that wait.
    Waiting,
}

impl Catalogue for Five {
    ghost use Rattle.sb_fold.specs.Extensions.{Extensions};

    ghost is_ready = { λ c. Unit {0} };

    ghost extensions = { λ c. record { boxes = record { methods = []; attachments = [] }; methods = []; attachments = [] } };

    ghost sees = { λ s c. ⊥ };

    ghost leads = { λ a b. Unit {0} };

    ghost fails = { λ r a b. Unit {0} };

    fn descriptor(&mut self, alloc: Global, name: &Str) -> Result<Option<Descriptor>, Refusal> {
        match described(alloc, name.as_str()) {
            Ok(found) => Ok(found),
            Err(_) => Err(Refusal::NoMemory),
        }
    }

    fn next(
        &mut self,
        alloc: Global,
        after: Option<&Str>,
    ) -> Result<Option<(Str, Descriptor)>, Refusal> {
        let after = match after {
            Some(name) => name.as_str(),
            None => "",
        };
        match next_of(alloc, after) {
            Ok(found) => Ok(found),
            Err(_) => Err(Refusal::NoMemory),
        }
    }

    fn is_down(&self) -> bool {
        matches!(self, Five::Down)
    }

    fn is_inside(&self) -> bool {
        matches!(self, Five::Open(_) | Five::Waiting)
    }

    fn has_waiting(&self) -> bool {
        matches!(self, Five::Waiting)
    }

    fn points(&self) -> usize {
        match self {
            Five::Open(points) => *points,
            _ => 0,
        }
    }

    fn has_point(&self, name: &Str) -> bool {
        name.as_str() == "p"
    }

    fn has_code(&self, live: bool, method: bool, code: u16) -> bool {
        match (live, method) {
            (true, true) => code < 4,
            (true, false) => code < 8 && code != 4,
            (false, _) => code == 4,
        }
    }

    fn method_fits(&self, _code: u16, _schema: &Schema, _key: &Names) -> bool {
        true
    }

    fn rule_fits(&self, _code: u16, _schema: &Schema, _desc: &Bytes) -> bool {
        true
    }

    fn is_durable(&self, method: u16) -> bool {
        method != 3
    }

    ghost stays = { λ a. tt };

    ghost goes_on = { λ a b c h k. tt };

    ghost fails_on = { λ r a b c h k. tt };

    ghost wants = { λ a b h. tt };

    ghost same = { λ a b h. refl };

    ghost rising = { λ s a h. absurd h };

    ghost few = { λ s a h. absurd h };
}

fn is_said(text: &str, word: &str, name: &Str) -> bool {
    match text.strip_prefix(word) {
        Some(rest) => rest == name.as_str(),
        None => false,
    }
}

fn is_coded(text: &str, code: u16) -> bool {
    match text.strip_prefix("noextension ") {
        Some(rest) => matches!(rest.parse::<u16>(), Ok(number) if number == code),
        None => false,
    }
}

fn is_used(text: &str, relation: &Str, name: &Str) -> bool {
    match text.split_once(' ') {
        Some((word, rest)) => word == "inuse" && is_by(rest, relation, name),
        None => false,
    }
}

fn is_by(text: &str, relation: &Str, name: &Str) -> bool {
    match text.split_once(' ') {
        Some((user, by)) => user == relation.as_str() && by == name.as_str(),
        None => false,
    }
}

/// Whether this is the refusal as it is printed, without its mark.
fn is_so(refusal: &Refusal, text: &str) -> bool {
    match refusal {
        Refusal::Down => text == "down",
        Refusal::State => text == "state",
        Refusal::NoRelation { name } => is_said(text, "norelation ", name),
        Refusal::Exists { name } => is_said(text, "exists ", name),
        Refusal::NoName { name } => is_said(text, "noname ", name),
        Refusal::NoExtension { code } => is_coded(text, *code),
        Refusal::InUse { relation, name } => is_used(text, relation, name),
        Refusal::Mistyped => text == "mistyped",
        Refusal::Mixed => text == "mixed",
        Refusal::Limit => text == "limit",
        _ => false,
    }
}

/// Whether this comes of the command: a refusal, or `ok`.
fn comes(five: Five, alloc: Global, command: &Command, answer: &str) -> bool {
    let mut five = five;
    match refuse(&mut five, alloc, command) {
        Ok(Some(refusal)) => {
            let is_so = is_so(&refusal, answer);
            drop(refusal);
            is_so
        }
        Ok(None) => answer == "ok",
        Err(refusal) => {
            drop(refusal);
            false
        }
    }
}

/// Whether this comes of the command that the line spells.
fn is_answered(alloc: Global, five: Five, line: &str, answer: &str) -> bool {
    match parse_line(alloc, line.as_bytes()) {
        Ok(command) => {
            let comes = comes(five, alloc, &command, answer);
            drop(command);
            comes
        }
        Err(_) => false,
    }
}

/// Commands, and what comes of them. The check has 33 nodes. The mirror of a reference takes 24 bytes beside the attachment's name, so there is room for 6
/// in `w`.
const ROWS: [(Five, &str, &str); 41] = [
    (Five::Down, "commit", "down"),
    (Five::Down, "scan q", "down"),
    (Five::Waiting, "drop q", "state"),
    (Five::Open(0), "begin", "state"),
    (Five::Idle, "commit", "state"),
    (Five::Idle, "tables", "ok"),
    (Five::Idle, "scan q", "norelation q"),
    (Five::Idle, "scan r", "ok"),
    (
        Five::Idle,
        "attach refers i on r (a) to z (a) restrict",
        "norelation z",
    ),
    (
        Five::Idle,
        "create r using tree (z int, z int) key (z)",
        "exists r",
    ),
    (
        Five::Idle,
        "create q using tree (x int, y int, y int, x int) key (z)",
        "exists y",
    ),
    (Five::Idle, "attach treeindex i on r (z)", "exists i"),
    (Five::Open(1), "savepoint p", "exists p"),
    (
        Five::Idle,
        "create q using method 1009 (x int) key (z)",
        "noname z",
    ),
    (Five::Idle, "delete r where z = 1", "noname z"),
    (Five::Idle, "delete r where a = 1", "ok"),
    (Five::Idle, "lookup k on r (1)", "noname k"),
    (
        Five::Idle,
        "create q using method 1009 (x int) key (x)",
        "noextension 1009",
    ),
    (
        Five::Idle,
        "attach stats s on r (a) low 0 width 1",
        "noextension 4",
    ),
    (Five::Idle, "register method 2", "noextension 2"),
    (Five::Idle, "drop r", "inuse h f"),
    (Five::Idle, "drop h", "ok"),
    (Five::Idle, "retire method 2", "inuse r -"),
    (Five::Idle, "retire attachment 2", "inuse r j"),
    (Five::Idle, "retire attachment 7", "ok"),
    (Five::Idle, "create q using tree (x int)", "mistyped"),
    (Five::Idle, "insert r values (1)", "mistyped"),
    (Five::Idle, "lookup i on r (1)", "ok"),
    (Five::Idle, "lookup j on r (1)", "mistyped"),
    (
        Five::Idle,
        "attach trigger g on h after delete when always do insert h values (new.c)",
        "mistyped",
    ),
    (
        Five::Idle,
        "attach trigger g on h after insert when always do insert h values (new.c)",
        "ok",
    ),
    (
        Five::Idle,
        "attach refers g on t (c) to r (a) restrict",
        "mixed",
    ),
    (
        Five::Idle,
        "attach joinindex g on r (a) with r (a)",
        "mixed",
    ),
    (Five::Idle, "attach joinindex g on r (a) with h (c)", "ok"),
    (Five::Open(64), "savepoint s", "limit"),
    (Five::Open(63), "savepoint s", "ok"),
    (
        Five::Idle,
        "attach check g on r always and always and always and always and always and always and always and always and always and \
        always and always and always and always and always and always and always and always",
        "limit",
    ),
    (Five::Idle, "attach treeindex g on x (c)", "limit"),
    (
        Five::Idle,
        "attach refers kkkkkk on r (a) to w (c) restrict",
        "ok",
    ),
    (
        Five::Idle,
        "attach refers kkkkkkk on r (a) to w (c) restrict",
        "limit",
    ),
    (
        Five::Idle,
        "attach refers g on r (a) to x (c) restrict",
        "limit",
    ),
];

#[test]
fn the_first_refusal_is_told(rt: HostRuntime) {
    for (number, (five, line, answer)) in ROWS.iter().enumerate() {
        assert!(rt;
            is_answered(rt.alloc(), *five, line, answer),
            "row {number}"
        );
    }
}
