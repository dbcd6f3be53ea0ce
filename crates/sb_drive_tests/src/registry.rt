//! What no clause says: that calls succeed while memory lasts. And which boxes are refused, with codes from outside.

ghost use Rattle.std.specs.Prelude.{◌≡◌, ◌+◌, true, Some, None};
ghost use Rattle.sb_relation.specs.Foreign.{plain_rules};
ghost use Rattle.sb_ctx.specs.Attachment.{plain_attachment};
ghost use Rattle.sb_ctx.specs.Method.{plain_method};

use sb_ctx::{Attachment, Ctx, Instance, MethodCall, Move, StorageMethod};
use sb_drive::SpaceFault;
use sb_memory::Memory;
use sb_registry::{Boxes, Extensions, Registry};
use sb_relation::Change;
use sb_value::{Bytes, Names, RecKey, Schema, Str, Tuple};
use std::alloc::Global;
use std::process::Abort;
use std::test::*;

/// A storage method of code 1000 and this number more, whose calls all want memory.
#[derive(Drop)]
struct Numbered {
    number: u8,
}

impl StorageMethod for Numbered {
    ghost method = { λ m. plain_method (record { code = 1000 + m.number; durable = true; fits = λ schema key. true }) (λ inst P. None) };

    fn code(&self) -> u16 {
        1000 + u16::from(self.number)
    }

    fn durable(&self) -> bool {
        true
    }

    fn fits(&self, _schema: &Schema, _key: &Names) -> bool {
        true
    }

    fn prepare(&self, _alloc: Global, _ctx: &mut Ctx, _inst: &Instance) -> Move {
        Move::NoMemory
    }

    fn insert(&self, _alloc: Global, _ctx: &mut Ctx, _inst: &Instance, _tuple: &Tuple) -> Move {
        Move::NoMemory
    }

    fn delete(&self, _alloc: Global, _ctx: &mut Ctx, _inst: &Instance, _key: &RecKey) -> Move {
        Move::NoMemory
    }

    fn update(
        &self,
        _alloc: Global,
        _ctx: &mut Ctx,
        _inst: &Instance,
        _key: &RecKey,
        _tuple: &Tuple,
    ) -> Move {
        Move::NoMemory
    }

    fn get(&self, _alloc: Global, _ctx: &mut Ctx, _inst: &Instance, _key: &RecKey) -> Move {
        Move::NoMemory
    }

    fn next(
        &self,
        _alloc: Global,
        _ctx: &mut Ctx,
        _inst: &Instance,
        _after: Option<&RecKey>,
    ) -> Move {
        Move::NoMemory
    }
}

/// An attachment of code 1000 and this number more, whose calls all want memory.
#[derive(Drop)]
struct Plain {
    number: u8,
}

impl Attachment for Plain {
    ghost attachment = { λ a. plain_attachment (plain_rules (1000 + a.number)) (λ inst P. None) };

    fn code(&self) -> u16 {
        1000 + u16::from(self.number)
    }

    fn fits(&self, _schema: &Schema, _desc: &Bytes) -> bool {
        true
    }

    fn prepare(&self, _alloc: Global, _ctx: &mut Ctx, _inst: &Instance) -> Move {
        Move::NoMemory
    }

    fn on_build(
        &self,
        _alloc: Global,
        _ctx: &mut Ctx,
        _inst: &Instance,
        _key: &RecKey,
        _tuple: &Tuple,
    ) -> Move {
        Move::NoMemory
    }

    fn on_change(
        &self,
        _alloc: Global,
        _ctx: &mut Ctx,
        _inst: &Instance,
        _change: &Change,
    ) -> Move {
        Move::NoMemory
    }

    fn late_check(&self, _alloc: Global, _ctx: &mut Ctx, _inst: &Instance, _entry: &Bytes) -> Move {
        Move::NoMemory
    }

    fn next_entry(
        &self,
        _alloc: Global,
        _ctx: &mut Ctx,
        _inst: &Instance,
        _low: &RecKey,
        _after: Option<&(RecKey, RecKey)>,
    ) -> Move {
        Move::NoMemory
    }

    fn sums(&self, _alloc: Global, _ctx: &mut Ctx, _inst: &Instance) -> Move {
        Move::NoMemory
    }

    fn seek(&self, _alloc: Global, _ctx: &mut Ctx, _inst: &Instance, _query: &Tuple) -> Move {
        Move::NoMemory
    }
}

/// Boxes to be taken, by their numbers, and the code that is refused.
struct Row {
    methods: &'static [u8],
    spare_methods: &'static [u8],
    attachments: &'static [u8],
    spare_attachments: &'static [u8],
    refused: Option<u16>,
}

const NONE: Row = Row {
    methods: &[],
    spare_methods: &[],
    attachments: &[],
    spare_attachments: &[],
    refused: None,
};

static ROWS: [Row; 7] = [
    NONE,
    Row {
        attachments: &[5, 5],
        refused: Some(1005),
        ..NONE
    },
    Row {
        attachments: &[5, 7],
        spare_attachments: &[6, 7, 5],
        refused: Some(1007),
        ..NONE
    },
    Row {
        methods: &[1, 2],
        spare_methods: &[3, 2, 1],
        refused: Some(1002),
        ..NONE
    },
    Row {
        spare_methods: &[4, 4],
        attachments: &[5, 5],
        refused: Some(1004),
        ..NONE
    },
    Row {
        methods: &[1],
        spare_methods: &[2],
        attachments: &[1],
        spare_attachments: &[2],
        ..NONE
    },
    Row {
        methods: &[1, 2, 3],
        attachments: &[5],
        spare_attachments: &[0],
        ..NONE
    },
];

// Want of memory ends a test at once: where a test went on to an `Err`, each value that it has would be dropped on the way,
// which is dear to prove. A value that goes by a call of `drop` is far cheaper than one that goes at its scope's end.

fn methods(rt: &impl Abort, alloc: Global, numbers: &[u8]) -> Vec<Box<dyn StorageMethod>> {
    let mut methods: Vec<Box<dyn StorageMethod>> = Vec::new(alloc);
    for number in numbers {
        let method = Box::new(alloc, Numbered { number: *number }).expect(rt, "memory");
        methods.push(method).expect(rt, "memory");
    }
    methods
}

fn attachments(rt: &impl Abort, alloc: Global, numbers: &[u8]) -> Vec<Box<dyn Attachment>> {
    let mut attachments: Vec<Box<dyn Attachment>> = Vec::new(alloc);
    for number in numbers {
        let attachment = Box::new(alloc, Plain { number: *number }).expect(rt, "memory");
        attachments.push(attachment).expect(rt, "memory");
    }
    attachments
}

/// What is answered to the boxes of a row.
fn taken(rt: &impl Abort, alloc: Global, row: &Row) -> Result<Registry, (u16, Extensions)> {
    Registry::take(Extensions {
        methods: methods(rt, alloc, row.methods),
        attachments: attachments(rt, alloc, row.attachments),
        spare_methods: methods(rt, alloc, row.spare_methods),
        spare_attachments: attachments(rt, alloc, row.spare_attachments),
    })
}

/// The code with which they are refused, where all boxes come back.
fn refusal(taken: Result<Registry, (u16, Extensions)>, row: &Row) -> Option<u16> {
    match taken {
        Ok(registry) => {
            drop(registry);
            None
        }
        Err((code, back)) => {
            let are_back = has_as_many(&back, row);
            drop(back);
            Some(if are_back { code } else { 0 })
        }
    }
}

fn has_as_many(exts: &Extensions, row: &Row) -> bool {
    exts.methods.len() == row.methods.len()
        && exts.spare_methods.len() == row.spare_methods.len()
        && exts.attachments.len() == row.attachments.len()
        && exts.spare_attachments.len() == row.spare_attachments.len()
}

#[test]
fn one_code_twice_is_refused(rt: HostRuntime) {
    for row in &ROWS {
        let refused = refusal(taken(&rt, rt.alloc(), row), row);
        assert!(rt; refused == row.refused);
    }
}

/// The registry of the boxes of a row.
fn registry(rt: &impl Abort, alloc: Global, row: &Row) -> Registry {
    let Ok(registry) = taken(rt, alloc, row) else {
        panic!(rt; "not taken");
    };
    registry
}

static ONE_ATTACHMENT: Row = Row {
    attachments: &[5],
    ..NONE
};

/// An attachment goes and comes back.
#[test]
fn attachment_moved(rt: HostRuntime) {
    let mut registry = registry(&rt, rt.alloc(), &ONE_ATTACHMENT);
    let before = registry.register(false, 1005).expect(&rt, "memory");
    let gone = registry.retire(false, 1005).expect(&rt, "memory");
    let none = registry.attachment(1005).is_none();
    let back = registry.register(false, 1005).expect(&rt, "memory");
    let there = registry.attachment(1005).is_some();
    drop(registry);
    assert!(rt; !before && gone && none && back && there);
}

/// A storage method, and a spare one.
static TWO_METHODS: Row = Row {
    methods: &[1],
    spare_methods: &[2],
    ..NONE
};

/// Whether the live box of this code says that it has it.
fn has_method(registry: &Registry, code: u16) -> bool {
    match registry.method(code) {
        Some(method) => method.code() == code,
        None => false,
    }
}

/// A spare storage method takes the place of the live one.
#[test]
fn method_moved(rt: HostRuntime) {
    let mut registry = registry(&rt, rt.alloc(), &TWO_METHODS);
    let first = has_method(&registry, 1001);
    let gone = registry.retire(true, 1001).expect(&rt, "memory");
    let come = registry.register(true, 1002).expect(&rt, "memory");
    let second = has_method(&registry, 1002);
    let exts = registry.give_back();
    let one_each = exts.methods.len() == 1 && exts.spare_methods.len() == 1;
    drop(exts);
    assert!(rt; first && gone && come && second && one_each);
}

/// An instance of a storage method's code, with no columns.
fn instance(alloc: Global, code: u16, durable: bool) -> Instance {
    Instance {
        relation: Str::from_string(String::new(alloc)),
        owner: 1,
        root: 0,
        durable,
        code,
        desc: Bytes::new(alloc),
        schema: Schema::from_vec(Vec::new(alloc)),
        key: Names::from_vec(Vec::new(alloc)),
    }
}

/// Whether it is kept by a live box, which is called then and wants memory.
fn is_called<B: Boxes>(boxes: &B, alloc: Global, inst: &Instance) -> bool {
    if !boxes.keeps(inst) {
        return false;
    }
    let mut memory = Memory::new(alloc);
    let made = boxes.run_method(&mut memory, alloc, inst, &MethodCall::Prepare);
    drop(memory);
    let wants_memory = matches!(&made, Err(SpaceFault::NoMemory));
    drop(made);
    wants_memory
}

/// A code, whether the instance is durable, and whether it is called.
static CALLED: [(u16, bool, bool); 3] = [
    (1001, true, true),
    (1001, false, false),
    (1002, true, false),
];

/// A live box keeps the instances of its code that are as durable as it is.
#[test]
fn live_method_called(rt: HostRuntime) {
    let registry = registry(&rt, rt.alloc(), &TWO_METHODS);
    for (code, durable, called) in CALLED.iter() {
        let inst = instance(rt.alloc(), *code, *durable);
        let is_called = is_called(&registry, rt.alloc(), &inst);
        drop(inst);
        assert!(rt; is_called == *called, "{code} {durable}");
    }
    assert!(rt; registry.is_durable(1001) == Some(true) && registry.is_durable(1002).is_none());
    assert!(rt; !registry.has_rule(1001));
    drop(registry);
}
