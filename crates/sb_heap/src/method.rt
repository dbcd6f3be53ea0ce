//! The box.

ghost use Rattle.sb_heap.specs.Heap.{heap_method};

use crate::insertion::insert_row;
use crate::lookup::{get_row, next_row};
use crate::page::prepare_root;
use crate::removal::delete_row;
use crate::stop::question;
use crate::update::update_row;
use sb_ctx::{Ctx, Instance, Move, StorageMethod};
use sb_value::{Names, RecKey, Schema, Tuple};
use std::alloc::Global;

/// The storage method of code 1: the rows stand in pages that are linked where they have room, each under its page and its
/// slot there.
#[derive(Drop)]
pub struct Heap {}

impl Heap {
    pub fn new() -> Heap {
        Heap {}
    }
}

impl StorageMethod for Heap {
    ghost method = { λ m. heap_method };

    fn code(&self) -> u16 {
        1
    }

    fn durable(&self) -> bool {
        true
    }

    fn fits(&self, _schema: &Schema, _key: &Names) -> bool {
        true
    }

    fn prepare(&self, _alloc: Global, ctx: &mut Ctx, inst: &Instance) -> Move {
        match prepare_root(ctx, inst.root) {
            Ok(()) => Move::Done,
            Err(stop) => question(stop),
        }
    }

    fn insert(&self, alloc: Global, ctx: &mut Ctx, inst: &Instance, tuple: &Tuple) -> Move {
        match insert_row(alloc, ctx, inst, tuple) {
            Ok(key) => Move::Key(key),
            Err(stop) => question(stop),
        }
    }

    fn delete(&self, alloc: Global, ctx: &mut Ctx, inst: &Instance, key: &RecKey) -> Move {
        match delete_row(alloc, ctx, inst, key) {
            Ok(true) => Move::Done,
            Ok(false) => Move::NoRecord,
            Err(stop) => question(stop),
        }
    }

    fn update(
        &self,
        alloc: Global,
        ctx: &mut Ctx,
        inst: &Instance,
        key: &RecKey,
        tuple: &Tuple,
    ) -> Move {
        match update_row(alloc, ctx, inst, key, tuple) {
            Ok(Some(key)) => Move::Key(key),
            Ok(None) => Move::NoRecord,
            Err(stop) => question(stop),
        }
    }

    fn get(&self, alloc: Global, ctx: &mut Ctx, inst: &Instance, key: &RecKey) -> Move {
        match get_row(alloc, ctx, inst, key) {
            Ok(Some(row)) => match key.copy() {
                Ok(key) => Move::Row(key, row),
                Err(_) => Move::NoMemory,
            },
            Ok(None) => Move::NoRecord,
            Err(stop) => question(stop),
        }
    }

    fn next(&self, alloc: Global, ctx: &mut Ctx, inst: &Instance, after: Option<&RecKey>) -> Move {
        match next_row(alloc, ctx, inst, after) {
            Ok(Some((key, row))) => Move::Row(key, row),
            Ok(None) => Move::End,
            Err(stop) => question(stop),
        }
    }
}
