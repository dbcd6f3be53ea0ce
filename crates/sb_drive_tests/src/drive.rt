//! What no clause says: that calls succeed while memory lasts, and pages of which the boxes here say nothing.

ghost use Rattle.std.specs.Prelude.{◌≡◌, ◌≢◌, true, is_some, None, IfSome};
ghost use Rattle.sb_ctx.specs.AttachAnswers.{AsksFor as AsksForAttached};
ghost use Rattle.sb_ctx.specs.Attachment.{plain_attachment};
ghost use Rattle.sb_ctx.specs.Method.{plain_method};
ghost use Rattle.sb_ctx.specs.MethodAnswers.{AsksFor};
ghost use Rattle.sb_ctx.specs.View.{IsClean, dropped, found_of};
ghost use Rattle.sb_memory.specs.Examples.{IsPlain, IsMade, IsFindOrNoMemory};
ghost use Rattle.sb_memory.specs.Contents.{slots};
ghost use Rattle.sb_drive.specs.Spaces.{HoldsOf};
ghost use Rattle.sb_relation.specs.Foreign.{plain_rules};

use sb_ctx::{AttachCall, Attachment, Ctx, Instance, Keys, MethodCall, Move, StorageMethod};
use sb_memory::{DriveFault, Memory, drive_attachment, drive_method};
use sb_relation::Change;
use sb_value::{Bytes, Names, RecKey, Schema, Str, Tuple, Value};
use std::alloc::{AllocError, Global};
use std::process::Abort;
use std::test::*;

/// A storage method of code 1000 whose pages are never formed: a delete does with them what its key says.
#[derive(Drop)]
struct Scribe {}

impl StorageMethod for Scribe {
    ghost method = { λ _. record (plain_method (record { code = 1000; durable = true; fits = λ schema key. true }) (λ inst P. None)) {
      may_break = λ inst held n. is_some (held n);
    } };

    fn code(&self) -> u16 {
        1000
    }

    fn durable(&self) -> bool {
        true
    }

    fn fits(&self, _schema: &Schema, _key: &Names) -> bool {
        true
    }

    fn prepare(&self, _alloc: Global, _ctx: &mut Ctx, _inst: &Instance) -> Move {
        Move::NoMemory
    }

    fn insert(&self, _alloc: Global, _ctx: &mut Ctx, _inst: &Instance, _tuple: &Tuple) -> Move {
        Move::NoMemory
    }

    fn delete(&self, _alloc: Global, ctx: &mut Ctx, inst: &Instance, key: &RecKey) -> Move {
        match key.as_slice() {
            b"take" => take(ctx),
            b"free" => free(ctx, inst.root),
            b"behind" => write(ctx, 1, 7),
            _ => write(ctx, inst.root, 7),
        }
    }

    fn update(
        &self,
        _alloc: Global,
        _ctx: &mut Ctx,
        _inst: &Instance,
        _key: &RecKey,
        _tuple: &Tuple,
    ) -> Move {
        Move::NoMemory
    }

    /// NoRecord where the instance has a second page, else NoMemory.
    fn get(&self, _alloc: Global, ctx: &mut Ctx, inst: &Instance, _key: &RecKey) -> Move {
        match ctx.after(Some(inst.root)) {
            None => Move::After(Some(inst.root)),
            Some(Some(_)) => Move::NoRecord,
            Some(None) => Move::NoMemory,
        }
    }

    fn next(
        &self,
        _alloc: Global,
        _ctx: &mut Ctx,
        _inst: &Instance,
        _after: Option<&RecKey>,
    ) -> Move {
        Move::NoMemory
    }
}

fn take(ctx: &mut Ctx) -> Move
    requires { IsClean ctx.old }
    ensures given { dropped ctx.new ≡ ctx.old }
    ensures asks { AsksFor ctx.new result }
    ensures made { IsMade ctx.old result }
{
    match ctx.fresh() {
        Some(_) => Move::Done,
        None => Move::Fresh,
    }
}

fn free(ctx: &mut Ctx, n: u32) -> Move
    requires { IsClean ctx.old }
    ensures given { dropped ctx.new ≡ ctx.old }
    ensures asks { AsksFor ctx.new result }
    ensures made { IsMade ctx.old result }
{
    match ctx.page(n) {
        None => return Move::Need(n),
        Some([]) => return Move::Broken(n),
        Some(_) => {}
    }
    match ctx.free(n) {
        Ok(()) => Move::Done,
        Err(_) => Move::NoMemory,
    }
}

fn write(ctx: &mut Ctx, n: u32, byte: u8) -> Move
    requires { IsClean ctx.old }
    ensures given { dropped ctx.new ≡ ctx.old }
    ensures asks { AsksFor ctx.new result }
    ensures made { IsMade ctx.old result }
{
    match ctx.page(n) {
        None => return Move::Need(n),
        Some([]) => return Move::Broken(n),
        Some(_) => {}
    }
    match ctx.edit(n, 0, &[byte]) {
        Ok(()) => Move::Done,
        Err(_) => Move::NoMemory,
    }
}

/// An attachment of code 1000 whose content is never formed: it marks its root at each change.
#[derive(Drop)]
struct Marker {}

impl Attachment for Marker {
    ghost attachment = { λ _. record (plain_attachment (plain_rules 1000) (λ inst P. None)) {
      may_break = λ inst held n. is_some (held n);
    } };

    fn code(&self) -> u16 {
        1000
    }

    fn fits(&self, _schema: &Schema, _desc: &Bytes) -> bool {
        true
    }

    fn prepare(&self, _alloc: Global, _ctx: &mut Ctx, _inst: &Instance) -> Move {
        Move::NoMemory
    }

    fn on_build(
        &self,
        _alloc: Global,
        _ctx: &mut Ctx,
        _inst: &Instance,
        _key: &RecKey,
        _tuple: &Tuple,
    ) -> Move {
        Move::NoMemory
    }

    fn on_change(&self, _alloc: Global, ctx: &mut Ctx, inst: &Instance, _change: &Change) -> Move {
        write(ctx, inst.root, 5)
    }

    /// Asks for the rows of eight numbers, one after another.
    fn late_check(&self, alloc: Global, ctx: &mut Ctx, _inst: &Instance, _entry: &Bytes) -> Move {
        for number in 0..8 {
            if let Some(made) = find(alloc, ctx, number) {
                return made;
            }
        }
        Move::Done
    }

    fn next_entry(
        &self,
        _alloc: Global,
        _ctx: &mut Ctx,
        _inst: &Instance,
        _low: &RecKey,
        _after: Option<&(RecKey, RecKey)>,
    ) -> Move {
        Move::NoMemory
    }

    fn sums(&self, _alloc: Global, _ctx: &mut Ctx, _inst: &Instance) -> Move {
        Move::NoMemory
    }

    fn seek(&self, _alloc: Global, _ctx: &mut Ctx, _inst: &Instance, _query: &Tuple) -> Move {
        Move::NoMemory
    }
}

/// What a find asks for.
#[derive(Drop)]
struct Asked {
    relation: Str,
    columns: Names,
    values: Tuple,
}

fn wanted(alloc: Global, number: i64) -> Result<Asked, AllocError> {
    let relation = text(alloc, "r")?;
    let columns = names(alloc, "a")?;
    let values = tuple(alloc, number)?;
    Ok(Asked {
        relation,
        columns,
        values,
    })
}

/// The find of this number's rows, where it isn't answered yet.
fn find(alloc: Global, ctx: &Ctx, number: i64) -> Option<Move>
    ensures asks { IfSome result (AsksForAttached ctx.now) }
    ensures ends { IfSome result IsFindOrNoMemory }
{
    let Ok(wanted) = wanted(alloc, number) else {
        return Some(Move::NoMemory);
    };
    let found = ctx.found(&wanted.relation, &wanted.columns, &wanted.values);
    if found.is_some() {
        drop(wanted);
        return None;
    }
    Some(find_of(ctx, wanted))
}

/// The find, where an answer more may be asked for.
fn find_of(ctx: &Ctx, wanted: Asked) -> Move
    requires { found_of ctx.now wanted.relation wanted.columns wanted.values ≡ None }
    ensures asks { AsksForAttached ctx.now result }
    ensures ends { IsFindOrNoMemory result }
{
    if ctx.finds() >= 8 {
        drop(wanted);
        return Move::NoMemory;
    }
    Move::Find {
        relation: wanted.relation,
        columns: wanted.columns,
        values: wanted.values,
    }
}

fn text(alloc: Global, text: &str) -> Result<Str, AllocError> {
    Ok(Str::from_string(String::from_str(alloc, text)?))
}

fn names(alloc: Global, name: &str) -> Result<Names, AllocError> {
    let name = text(alloc, name)?;
    Ok(Names::from_vec(vec![in alloc; name]?))
}

fn tuple(alloc: Global, number: i64) -> Result<Tuple, AllocError> {
    Ok(Tuple::from_vec(vec![in alloc; Value::Int(number)]?))
}

// Want of memory ends a test at once: where a test went on to an `Err`, each value that it has would be dropped on the way,
// which is dear to prove. A value that goes by a call of `drop` is far cheaper than one that goes at its scope's end.

/// An instance on a relation without columns.
fn instance(rt: &impl Abort, alloc: Global, owner: u16, root: u32) -> Instance
    requires { owner ≢ 0 }
    ensures { IsPlain result }
{
    let relation = text(alloc, "r").expect(rt, "memory");
    Instance {
        relation,
        owner,
        root,
        durable: true,
        code: 1000,
        desc: Bytes::new(alloc),
        schema: Schema::from_vec(Vec::new(alloc)),
        key: Names::from_vec(Vec::new(alloc)),
    }
}

/// A memory, and the owner and the root of its first instance.
fn memory_of_one(rt: &impl Abort, alloc: Global) -> (Memory, u16, u32)
    ensures { result.1 ≢ 0 }
{
    let mut memory = Memory::new(alloc);
    let (owner, root) = memory.new_instance(&[]).expect(rt, "memory");
    (memory, owner, root)
}

fn key(rt: &impl Abort, alloc: Global, bytes: &[u8]) -> RecKey
    ensures { result ≡ bytes.now }
{
    RecKey::from_vec(bytes.to_vec(alloc).expect(rt, "memory"))
}

/// How a driven call ended, in short.
#[derive(Clone, Copy)]
enum End {
    Done,
    NoRecord,
    Damaged(u32),
    Other,
}

fn end_of(end: Result<Move, DriveFault>) -> End {
    let short = match &end {
        Ok(Move::Done) => End::Done,
        Ok(Move::NoRecord) => End::NoRecord,
        Ok(_) => End::Other,
        Err(DriveFault::Damaged { page }) => End::Damaged(*page),
        Err(DriveFault::NoMemory) => End::Other,
    };
    drop(end);
    short
}

/// A delete of the scribe.
fn delete(rt: &impl Abort, memory: &mut Memory, alloc: Global, inst: &Instance, bytes: &[u8]) -> End
    requires { IsPlain inst.now }
{
    let call = MethodCall::Delete(key(rt, alloc, bytes));
    let end = drive_method(memory, alloc, &Scribe {}, inst, &call);
    drop(call);
    end_of(end)
}

/// Whether the instance has a page behind its root.
fn has_second(rt: &impl Abort, memory: &mut Memory, alloc: Global, inst: &Instance) -> bool
    requires { IsPlain inst.now }
{
    let call = MethodCall::Get(key(rt, alloc, b""));
    let end = drive_method(memory, alloc, &Scribe {}, inst, &call);
    drop(call);
    matches!(end_of(end), End::NoRecord)
}

#[test]
fn a_page_is_taken_and_undone(rt: HostRuntime) {
    let alloc = rt.alloc();
    let (mut memory, owner, root) = memory_of_one(&rt, alloc);
    assert!(rt; owner == 3 && root == 0);
    memory.keep();
    let start = memory.mark();
    let inst = instance(&rt, alloc, owner, root);
    let end = delete(&rt, &mut memory, alloc, &inst, b"take");
    assert!(rt; matches!(end, End::Done) && memory.owner_of(1) == 3);
    assert!(rt; memory.page(3, 1) == [0; 4096].as_slice());
    assert!(rt; has_second(&rt, &mut memory, alloc, &inst));
    memory.back_to(start);
    assert!(rt; memory.owner_of(1) == 0 && memory.page(3, 0).len() == 4096);
    assert!(rt; !has_second(&rt, &mut memory, alloc, &inst));
    drop(inst);
    drop(memory);
}

/// The first byte of page 0 as its owner sees it, after a delete with this key.
static WRITES: [(&'static [u8], Option<u8>); 3] = [
    (b"write", Some(7)),
    (b"take", Some(7)),
    (b"free", None),
];

#[test]
fn pages_are_written_and_freed(rt: HostRuntime) {
    let alloc = rt.alloc();
    let (mut memory, owner, root) = memory_of_one(&rt, alloc);
    memory.keep();
    let start = memory.mark();
    let inst = instance(&rt, alloc, owner, root);
    for (bytes, first) in WRITES.iter() {
        let end = delete(&rt, &mut memory, alloc, &inst, bytes);
        assert!(rt; matches!(end, End::Done));
        assert!(rt; memory.page(3, 0).first().copied() == *first);
    }
    drop(inst);
    memory.back_to(start);
    assert!(rt; memory.page(3, 0) == [0; 4096].as_slice());
    drop(memory);
}

/// The box gets no bytes of a page that another owner has, and calls it broken.
#[test]
fn another_owners_page_is_not_given(rt: HostRuntime) {
    let alloc = rt.alloc();
    let (mut memory, _, _) = memory_of_one(&rt, alloc);
    let (owner, root) = memory.new_instance(&[]).expect(&rt, "memory");
    assert!(rt; owner == 4 && root == 1);
    let inst = instance(&rt, alloc, 4, 0);
    let end = delete(&rt, &mut memory, alloc, &inst, b"write");
    drop(inst);
    drop(memory);
    assert!(rt; matches!(end, End::Damaged(0)));
}

/// The page that the box names is the one that is called damaged: not its root, which is whole.
#[test]
fn the_damaged_page_is_named(rt: HostRuntime) {
    let alloc = rt.alloc();
    let (mut memory, owner, root) = memory_of_one(&rt, alloc);
    let inst = instance(&rt, alloc, owner, root);
    let end = delete(&rt, &mut memory, alloc, &inst, b"behind");
    drop(inst);
    drop(memory);
    assert!(rt; root == 0 && matches!(end, End::Damaged(1)));
}

#[test]
fn an_attachment_is_driven(rt: HostRuntime) {
    let alloc = rt.alloc();
    let (mut memory, owner, root) = memory_of_one(&rt, alloc);
    let inst = instance(&rt, alloc, owner, root);
    let mut ctx = Ctx::new(alloc);
    memory.are_pages();
    let call = AttachCall::Changed(Change::Delete {
        key: key(&rt, alloc, b"k"),
        old: Tuple::from_vec(Vec::new(alloc)),
    });
    let end = drive_attachment(&mut memory, alloc, &Marker {}, &inst, &call, &mut ctx);
    drop(call);
    drop(ctx);
    drop(inst);
    assert!(rt; matches!(end_of(end), End::Done));
    assert!(rt; memory.page(3, 0).first().copied() == Some(5));
    drop(memory);
}

/// How many finds a late check asks, each of which is answered with no rows.
fn finds(rt: &impl Abort, memory: &mut Memory, alloc: Global, inst: &Instance, ctx: &mut Ctx) -> u32
    requires inst { IsPlain inst.now }
    requires clean { IsClean ctx.old }
    requires holds { HoldsOf (slots memory.old.now) inst.now.owner ctx.old }
{
    let call = AttachCall::Late(Bytes::new(alloc));
    for answered in 0..9 {
        let end = drive_attachment(memory, alloc, &Marker {}, inst, &call, ctx);
        match end.expect(rt, "memory") {
            Move::Find {
                relation,
                columns,
                values,
            } => {
                let keys = Keys::new(alloc);
                let given = ctx.give_found(&relation, &columns, &values, &keys);
                given.expect(rt, "memory");
                drop(keys);
                drop(relation);
                drop(columns);
                drop(values);
            }
            other => {
                drop(other);
                drop(call);
                return answered;
            }
        }
    }
    drop(call);
    9
}

#[test]
fn eight_finds_are_answered(rt: HostRuntime) {
    let alloc = rt.alloc();
    let (mut memory, owner, root) = memory_of_one(&rt, alloc);
    let inst = instance(&rt, alloc, owner, root);
    let mut ctx = Ctx::new(alloc);
    memory.are_pages();
    let asked = finds(&rt, &mut memory, alloc, &inst, &mut ctx);
    assert!(rt; asked == 8 && ctx.finds() == 8);
    drop(ctx);
    drop(inst);
    drop(memory);
}
