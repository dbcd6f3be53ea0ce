//! What no clause says of heaps: which keys rows get, and that calls succeed while memory lasts.

ghost use Rattle.sb_ctx.specs.Method.{IsInstance};
ghost use Rattle.sb_heap.specs.Heap.{heap_method};

use crate::rows::{
    Change, Content, End, Texts, changed, insert_pair, letters, next, pairs, prepared,
};
use sb_ctx::Instance;
use sb_memory::Memory;
use std::alloc::Global;
use std::process::Abort;
use std::test::*;

/// Whether the row behind a key, or the first one, has this key, number and first text.
fn is_next(
    rt: &impl Abort,
    alloc: Global,
    memory: &mut Memory,
    inst: &Instance,
    low: Option<u64>,
    wanted: (u64, i64, &str),
) -> bool
    requires { IsInstance heap_method inst.now }
{
    let content = Content::new(wanted.1, wanted.2);
    next(rt, alloc, memory, inst, low) == End::Row(wanted.0, content)
}

/// Pairs in the order in which they are put in, with the keys that they get.
static PAIRS: [(u64, i64, &'static str); 3] = [
    (0x0000_0002_0000, 3, "c"),
    (0x0000_0002_0001, 1, "it's"),
    (0x0000_0002_0002, 2, ""),
];

#[test]
fn rows_stand_in_the_order_in_which_they_came(rt: HostRuntime) {
    let alloc = rt.alloc();
    let inst = pairs(&rt, alloc);
    let mut memory = prepared(&rt, alloc, &inst);
    for (key, number, word) in PAIRS.iter() {
        assert!(rt; word.len() <= 255);
        let end = insert_pair(&rt, alloc, &mut memory, &inst, *number, word);
        assert!(rt; end == End::Key(*key), "{number}");
    }
    let mut low = None;
    for wanted in PAIRS.iter() {
        assert!(rt; is_next(&rt, alloc, &mut memory, &inst, low, *wanted));
        low = Some(wanted.0);
    }
    assert!(rt; next(&rt, alloc, &mut memory, &inst, low) == End::Behind);
    drop(memory);
    drop(inst);
}

/// Changes, and how each ends. Four rows of 1,000 bytes and a short one take 4,048 of the 4,072 bytes of page 2. The short row
/// grows within what is left, and then to 1,000 bytes, for which page 2 has no room: it goes to a fresh page, the least that is
/// nobody's. Page 2 has room for any row again once one of 1,000 bytes is taken out; a row that is put in goes to the least slot
/// that is free there.
static CHANGES: [(Change, End); 10] = [
    (Change::Insert(1, Texts::Long), End::Key(0x0000_0002_0000)),
    (Change::Insert(2, Texts::Long), End::Key(0x0000_0002_0001)),
    (Change::Insert(3, Texts::Long), End::Key(0x0000_0002_0002)),
    (Change::Insert(4, Texts::None), End::Key(0x0000_0002_0003)),
    (Change::Insert(5, Texts::Long), End::Key(0x0000_0002_0004)),
    (
        Change::Update(0x0000_0002_0003, 4, Texts::Short),
        End::Key(0x0000_0002_0003),
    ),
    (
        Change::Update(0x0000_0002_0003, 4, Texts::Long),
        End::Key(0x0000_0004_0000),
    ),
    (Change::Insert(6, Texts::None), End::Key(0x0000_0004_0001)),
    (Change::Delete(0x0000_0002_0004), End::Done),
    (Change::Insert(7, Texts::Long), End::Key(0x0000_0002_0003)),
];

/// The rows that stand then.
static ROWS: [(u64, i64, Texts); 6] = [
    (0x0000_0002_0000, 1, Texts::Long),
    (0x0000_0002_0001, 2, Texts::Long),
    (0x0000_0002_0002, 3, Texts::Long),
    (0x0000_0002_0003, 7, Texts::Long),
    (0x0000_0004_0000, 4, Texts::Long),
    (0x0000_0004_0001, 6, Texts::None),
];

#[test]
fn rows_keep_their_keys_where_they_fit(rt: HostRuntime) {
    let alloc = rt.alloc();
    let inst = letters(&rt, alloc);
    let mut memory = prepared(&rt, alloc, &inst);
    for (change, wanted) in CHANGES.iter() {
        assert!(rt; changed(&rt, alloc, &mut memory, &inst, *change) == *wanted);
    }
    let mut low = None;
    for (key, number, texts) in ROWS.iter() {
        let wanted = (*key, *number, texts.first());
        assert!(rt;
            is_next(&rt, alloc, &mut memory, &inst, low, wanted),
            "{number}"
        );
        low = Some(*key);
    }
    assert!(rt; next(&rt, alloc, &mut memory, &inst, low) == End::Behind);
    drop(memory);
    drop(inst);
}
