//! The box.

ghost use Rattle.std.specs.Prelude.{◌≡◌, option_map};
ghost use Rattle.sb_treemethod.specs.TreeMethod.{tree_method};

use crate::rows::entry_of;
use crate::walks::{
    got, inserted, is_broken, is_done, is_found, missing, prepared, question, removed, replaced,
    stepped,
};
use sb_btree::{find, insert, next, prepare, remove, replace};
use sb_ctx::{Ctx, Instance, Move, StorageMethod};
use sb_value::{Names, RecKey, Schema, Tuple};
use std::alloc::Global;

/// The storage method of code 2: the rows stand in a tree of pages, each under the ordered code of its key columns.
#[derive(Drop)]
pub struct TreeMethod {}

impl TreeMethod {
    pub fn new() -> TreeMethod {
        TreeMethod {}
    }
}

/// The bytes of a key, where there is one.
fn bytes_of<'a>(key: Option<&'a RecKey>) -> Option<&'a [u8]>
    ensures { option_map (λ bytes. bytes.now) result ≡ option_map (λ key. key.now) key.entry }
{
    Some(key?.as_slice())
}

impl StorageMethod for TreeMethod {
    ghost method = { λ m. tree_method };

    fn code(&self) -> u16 {
        2
    }

    fn durable(&self) -> bool {
        true
    }

    fn fits(&self, _schema: &Schema, _key: &Names) -> bool {
        true
    }

    fn prepare(&self, _alloc: Global, ctx: &mut Ctx, inst: &Instance) -> Move {
        prepared(prepare(ctx, inst.root))
    }

    fn insert(&self, alloc: Global, ctx: &mut Ctx, inst: &Instance, tuple: &Tuple) -> Move {
        let Ok((key, value)) = entry_of(alloc, inst, tuple) else {
            return Move::NoMemory;
        };
        let walk = insert(alloc, ctx, inst.root, key.as_slice(), value.as_slice());
        inserted(key, walk)
    }

    fn delete(&self, alloc: Global, ctx: &mut Ctx, inst: &Instance, key: &RecKey) -> Move {
        removed(remove(alloc, ctx, inst.root, key.as_slice()))
    }

    fn update(
        &self,
        alloc: Global,
        ctx: &mut Ctx,
        inst: &Instance,
        key: &RecKey,
        tuple: &Tuple,
    ) -> Move {
        let Ok((code, value)) = entry_of(alloc, inst, tuple) else {
            return Move::NoMemory;
        };
        if code == *key {
            let walk = replace(alloc, ctx, inst.root, key.as_slice(), value.as_slice());
            return replaced(code, walk);
        }
        let found = find(alloc, ctx, inst.root, key.as_slice());
        if !is_found(&found) {
            return missing(found);
        }
        let put = insert(alloc, ctx, inst.root, code.as_slice(), value.as_slice());
        if !is_done(&put) {
            return inserted(code, put);
        }
        let removal = remove(alloc, ctx, inst.root, key.as_slice());
        if !is_broken(&removal) {
            return replaced(code, removal);
        }
        // a page is called broken for what it was as it was given
        ctx.drop_edits();
        let alone = remove(alloc, ctx, inst.root, key.as_slice());
        question(alone)
    }

    fn get(&self, alloc: Global, ctx: &mut Ctx, inst: &Instance, key: &RecKey) -> Move {
        let walk = find(alloc, ctx, inst.root, key.as_slice());
        got(alloc, inst, walk)
    }

    fn next(&self, alloc: Global, ctx: &mut Ctx, inst: &Instance, after: Option<&RecKey>) -> Move {
        let walk = next(alloc, ctx, inst.root, bytes_of(after));
        stepped(alloc, inst, walk)
    }
}
