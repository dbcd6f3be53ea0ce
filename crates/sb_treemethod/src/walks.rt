//! Answers to walks over the tree.

ghost use Rattle.std.specs.Prelude.{◌≡◌, true};
ghost use Rattle.sb_codec.specs.Tuples.{tuple_spelling};
ghost use Rattle.sb_relation.specs.Keys.{is_record_key};
ghost use Rattle.sb_relation.specs.Lawful.{IsRow};
ghost use Rattle.sb_treemethod.specs.Answered.{IsFound, IsGot, IsNext, lack_move, missing_move, prepare_move, put_move, question_of, remove_move, replace_move, was_broken, was_done, was_found};

use crate::rows::key_of;
use sb_btree::{LeafEntry, Walk};
use sb_ctx::{Instance, Move};
use sb_forms::row_from;
use sb_value::{RecKey, Tuple};
use std::alloc::Global;

/// The bytes that a record key has at most.
const MOST_KEY: usize = 200;

/// What a walk asks for.
pub fn question<T: Drop>(walk: Walk<T>) -> Move
    ensures { result ≡ question_of walk }
{
    match walk {
        Walk::Need(n) => Move::Need(n),
        Walk::Fresh => Move::Fresh,
        Walk::Broken(n) => Move::Broken(n),
        _ => Move::NoMemory,
    }
}

/// The answer to a new tree.
pub fn prepared(walk: Walk<()>) -> Move
    ensures { result ≡ prepare_move walk }
{
    match walk {
        Walk::Ready(()) => Move::Done,
        walk => question(walk),
    }
}

/// The answer to an insert under a key.
pub fn inserted(key: RecKey, walk: Walk<bool>) -> Move
    ensures { result ≡ put_move key walk }
{
    match walk {
        Walk::Ready(true) => Move::Key(key),
        Walk::Ready(false) => Move::Duplicate,
        walk => question(walk),
    }
}

/// The answer to a removal.
pub fn removed(walk: Walk<bool>) -> Move
    ensures { result ≡ remove_move walk }
{
    match walk {
        Walk::Ready(true) => Move::Done,
        walk => lacking(walk),
    }
}

/// Whether an entry was put in.
pub fn is_done(walk: &Walk<bool>) -> bool
    ensures { result ≡ was_done walk.now }
{
    match walk {
        Walk::Ready(done) => *done,
        _ => false,
    }
}

/// Whether an entry was found.
pub fn is_found(walk: &Walk<Option<LeafEntry>>) -> bool
    ensures { result ≡ was_found walk.now }
{
    match walk {
        Walk::Ready(found) => found.is_some(),
        _ => false,
    }
}

/// The answer to a removal of what isn't there.
pub fn lacking(walk: Walk<bool>) -> Move
    ensures { result ≡ lack_move walk }
{
    match walk {
        Walk::Ready(false) => Move::NoRecord,
        walk => question(walk),
    }
}

/// The answer to another value under a key.
pub fn replaced(key: RecKey, walk: Walk<bool>) -> Move
    ensures { result ≡ replace_move key walk }
{
    match walk {
        Walk::Ready(true) => Move::Key(key),
        walk => lacking(walk),
    }
}

/// The answer to a look-up of a row that isn't there.
pub fn missing(walk: Walk<Option<LeafEntry>>) -> Move
    ensures { result ≡ missing_move walk }
{
    match walk {
        Walk::Ready(None) => Move::NoRecord,
        walk => question(walk),
    }
}

/// Whether a page was called broken.
pub fn is_broken(walk: &Walk<bool>) -> bool
    ensures { result ≡ was_broken walk.now }
{
    matches!(walk, Walk::Broken(_))
}

/// The answer to a look-up of a key.
pub fn got(alloc: Global, inst: &Instance, walk: Walk<Option<LeafEntry>>) -> Move
    ensures { IsGot inst.now walk result }
{
    match walk {
        Walk::Ready(Some(entry)) => found(alloc, inst, entry),
        Walk::Ready(None) => Move::NoRecord,
        walk => question(walk),
    }
}

/// The answer to a step of a scan.
pub fn stepped(alloc: Global, inst: &Instance, walk: Walk<Option<LeafEntry>>) -> Move
    ensures { IsNext inst.now walk result }
{
    match walk {
        Walk::Ready(Some(entry)) => found(alloc, inst, entry),
        Walk::Ready(None) => Move::End,
        walk => question(walk),
    }
}

/// Answers with the row of an entry, or calls its leaf broken where the entry is none of a row.
fn found(alloc: Global, inst: &Instance, entry: LeafEntry) -> Move
    ensures { IsFound inst.now entry result }
{
    if entry.key.len() > MOST_KEY {
        return Move::Broken(entry.leaf);
    }
    match row_from(alloc, &inst.schema, entry.value.as_slice()) {
        Ok(Some(row)) => found_row(alloc, inst, entry, row),
        Ok(None) => Move::Broken(entry.leaf),
        Err(_) => Move::NoMemory,
    }
}

/// Answers with the row that an entry spells, or calls its leaf broken where the row has another key.
fn found_row(alloc: Global, inst: &Instance, entry: LeafEntry, row: Tuple) -> Move
    requires short { is_record_key entry.key ≡ true }
    requires row { IsRow inst.now.schema row }
    requires spelled { entry.value ≡ tuple_spelling row }
    ensures { IsFound inst.now entry result }
{
    match key_of(alloc, inst, &row) {
        Ok(key) if key == entry.key => Move::Row(key, row),
        Ok(_) => Move::Broken(entry.leaf),
        Err(_) => Move::NoMemory,
    }
}
