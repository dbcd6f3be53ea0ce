//! Two boxes whose pages are of no form: they do with them what they are told.

ghost use Rattle.std.specs.Prelude.{◌≡◌, ◌+◌, true, is_some, None, IfOk};
ghost use Rattle.sb_ctx.specs.Method.{plain_method};
ghost use Rattle.sb_ctx.specs.MethodAnswers.{AsksFor};
ghost use Rattle.sb_ctx.specs.View.{IsClean, dropped};
ghost use Rattle.sb_memory.specs.Examples.{IsMade};
ghost use Rattle.sb_space_tests.specs.Scribes.{IsScribes};

use sb_ctx::{Ctx, Instance, Move, StorageMethod};
use sb_value::{Bytes, Names, RecKey, Schema, Str, Tuple};
use std::alloc::{AllocError, Global};

/// The owner and the root of the first instance in a new store. Those of the second are greater by one.
pub const FIRST: (u16, u32) = (3, 2);

/// The storage method of code 1000. A delete does with the pages what its key says: what is done, with which page, as a digit, and a byte to be written.
#[derive(Drop)]
pub struct Scribe {}

impl StorageMethod for Scribe {
    ghost method = { λ _. record (plain_method (record { code = 1000; durable = true; fits = λ schema key. true }) (λ inst P. None)) {
      may_break = λ inst held n. is_some (held n);
    } };

    fn code(&self) -> u16 {
        1000
    }

    fn durable(&self) -> bool {
        true
    }

    fn fits(&self, _schema: &Schema, _key: &Names) -> bool {
        true
    }

    fn prepare(&self, _alloc: Global, _ctx: &mut Ctx, _inst: &Instance) -> Move {
        Move::NoMemory
    }

    fn insert(&self, _alloc: Global, _ctx: &mut Ctx, _inst: &Instance, _tuple: &Tuple) -> Move {
        Move::NoMemory
    }

    fn delete(&self, _alloc: Global, ctx: &mut Ctx, _inst: &Instance, key: &RecKey) -> Move {
        obey(ctx, key.as_slice())
    }

    fn update(
        &self,
        _alloc: Global,
        _ctx: &mut Ctx,
        _inst: &Instance,
        _key: &RecKey,
        _tuple: &Tuple,
    ) -> Move {
        Move::NoMemory
    }

    fn get(&self, _alloc: Global, _ctx: &mut Ctx, _inst: &Instance, _key: &RecKey) -> Move {
        Move::NoMemory
    }

    fn next(
        &self,
        _alloc: Global,
        _ctx: &mut Ctx,
        _inst: &Instance,
        _after: Option<&RecKey>,
    ) -> Move {
        Move::NoMemory
    }
}

/// The storage method of code 1001, which does the same.
#[derive(Drop)]
pub struct Clerk {}

impl StorageMethod for Clerk {
    ghost method = { λ _. record (plain_method (record { code = 1001; durable = true; fits = λ schema key. true }) (λ inst P. None)) {
      may_break = λ inst held n. is_some (held n);
    } };

    fn code(&self) -> u16 {
        1001
    }

    fn durable(&self) -> bool {
        true
    }

    fn fits(&self, _schema: &Schema, _key: &Names) -> bool {
        true
    }

    fn prepare(&self, _alloc: Global, _ctx: &mut Ctx, _inst: &Instance) -> Move {
        Move::NoMemory
    }

    fn insert(&self, _alloc: Global, _ctx: &mut Ctx, _inst: &Instance, _tuple: &Tuple) -> Move {
        Move::NoMemory
    }

    fn delete(&self, _alloc: Global, ctx: &mut Ctx, _inst: &Instance, key: &RecKey) -> Move {
        obey(ctx, key.as_slice())
    }

    fn update(
        &self,
        _alloc: Global,
        _ctx: &mut Ctx,
        _inst: &Instance,
        _key: &RecKey,
        _tuple: &Tuple,
    ) -> Move {
        Move::NoMemory
    }

    fn get(&self, _alloc: Global, _ctx: &mut Ctx, _inst: &Instance, _key: &RecKey) -> Move {
        Move::NoMemory
    }

    fn next(
        &self,
        _alloc: Global,
        _ctx: &mut Ctx,
        _inst: &Instance,
        _after: Option<&RecKey>,
    ) -> Move {
        Move::NoMemory
    }
}

/// Writes into a page, takes one, frees one, or asks for one and then takes a fresh one.
fn obey(ctx: &mut Ctx, order: &[u8]) -> Move
    requires { IsClean ctx.old }
    ensures given { dropped ctx.new ≡ ctx.old }
    ensures asks { AsksFor ctx.new result }
    ensures made { IsMade ctx.old result }
{
    match order {
        [b'w', page, byte] => write(ctx, number_of(*page), *byte),
        [b't', _, byte] => take(ctx, *byte),
        [b'f', page, _] => free(ctx, number_of(*page)),
        [b'a', page, byte] => ask(ctx, number_of(*page), *byte),
        _ => Move::NoMemory,
    }
}

fn number_of(digit: u8) -> u32 {
    u32::from(digit.saturating_sub(b'0'))
}

/// Writes the byte in front of a page. It calls one that has no bytes broken.
fn write(ctx: &mut Ctx, n: u32, byte: u8) -> Move
    requires { IsClean ctx.old }
    ensures given { dropped ctx.new ≡ ctx.old }
    ensures asks { AsksFor ctx.new result }
    ensures made { IsMade ctx.old result }
{
    match ctx.page(n) {
        None => return Move::Need(n),
        Some([]) => return Move::Broken(n),
        Some(_) => {}
    }
    match ctx.edit(n, 0, &[byte]) {
        Ok(()) => Move::Done,
        Err(_) => Move::NoMemory,
    }
}

/// Takes a fresh page, and writes the byte in front of it.
fn take(ctx: &mut Ctx, byte: u8) -> Move
    requires { IsClean ctx.old }
    ensures given { dropped ctx.new ≡ ctx.old }
    ensures asks { AsksFor ctx.new result }
    ensures made { IsMade ctx.old result }
{
    let Some(n) = ctx.fresh() else {
        return Move::Fresh;
    };
    match ctx.page(n) {
        None | Some([]) => return Move::NoMemory,
        Some(_) => {}
    }
    match ctx.edit(n, 0, &[byte]) {
        Ok(()) => Move::Done,
        Err(_) => Move::NoMemory,
    }
}

/// Frees a page. It calls one that has no bytes broken.
fn free(ctx: &mut Ctx, n: u32) -> Move
    requires { IsClean ctx.old }
    ensures given { dropped ctx.new ≡ ctx.old }
    ensures asks { AsksFor ctx.new result }
    ensures made { IsMade ctx.old result }
{
    match ctx.page(n) {
        None => return Move::Need(n),
        Some([]) => return Move::Broken(n),
        Some(_) => {}
    }
    match ctx.free(n) {
        Ok(()) => Move::Done,
        Err(_) => Move::NoMemory,
    }
}

/// Asks for a page, which it calls broken if it has bytes, and takes a fresh one.
fn ask(ctx: &mut Ctx, n: u32, byte: u8) -> Move
    requires { IsClean ctx.old }
    ensures given { dropped ctx.new ≡ ctx.old }
    ensures asks { AsksFor ctx.new result }
    ensures made { IsMade ctx.old result }
{
    match ctx.page(n) {
        None => return Move::Need(n),
        Some([]) => {}
        Some(_) => return Move::Broken(n),
    }
    take(ctx, byte)
}

/// An instance of the box with this number: 0 of the first, 1 of the second.
pub fn instance(alloc: Global, number: u8, root: u32) -> Result<Instance, AllocError>
    ensures { IfOk result (IsScribes number) }
{
    Ok(Instance {
        relation: Str::from_string(String::from_str(alloc, "r")?),
        owner: FIRST.0 + u16::from(number),
        root,
        durable: true,
        code: 1000 + u16::from(number),
        desc: Bytes::new(alloc),
        schema: Schema::from_vec(Vec::new(alloc)),
        key: Names::from_vec(Vec::new(alloc)),
    })
}
