//! An attachment that vetoes some rows.

ghost use Rattle.std.specs.Prelude.{◌≡◌};
ghost use Rattle.sb_foreign.specs.Limits.{limit, is_within};

use crate::watched::{new_row, verdict};
use sb_ctx::{Attachment, Ctx, Instance, Keys, Move};
use sb_relation::{Change, Sums};
use sb_value::{Bytes, RecKey, Schema, Tuple, Value};
use std::alloc::Global;

/// The attachment of code 1000: no new row has a number above the one byte of its desc.
#[derive(Drop)]
pub struct Limit {}

impl Attachment for Limit {
    ghost attachment = { λ _. limit };

    fn code(&self) -> u16 {
        1000
    }

    fn fits(&self, _schema: &Schema, desc: &Bytes) -> bool {
        desc.len() == 1
    }

    fn prepare(&self, _alloc: Global, _ctx: &mut Ctx, _inst: &Instance) -> Move {
        Move::Done
    }

    fn on_build(
        &self,
        _alloc: Global,
        _ctx: &mut Ctx,
        inst: &Instance,
        _key: &RecKey,
        tuple: &Tuple,
    ) -> Move {
        verdict(is_within(&inst.desc, tuple))
    }

    fn on_change(&self, _alloc: Global, _ctx: &mut Ctx, inst: &Instance, change: &Change) -> Move {
        match new_row(change) {
            Some(new) => verdict(is_within(&inst.desc, new)),
            None => Move::Done,
        }
    }

    fn late_check(&self, _alloc: Global, _ctx: &mut Ctx, _inst: &Instance, _entry: &Bytes) -> Move {
        Move::Done
    }

    fn next_entry(
        &self,
        _alloc: Global,
        _ctx: &mut Ctx,
        _inst: &Instance,
        _low: &RecKey,
        _after: Option<&(RecKey, RecKey)>,
    ) -> Move {
        Move::End
    }

    fn sums(&self, alloc: Global, _ctx: &mut Ctx, _inst: &Instance) -> Move {
        Move::Sums(Sums::from_vec(Vec::new(alloc)))
    }

    fn seek(&self, alloc: Global, _ctx: &mut Ctx, _inst: &Instance, _query: &Tuple) -> Move {
        Move::Hits(Keys::new(alloc))
    }
}

fn is_within(desc: &Bytes, row: &Tuple) -> bool
    ensures { result ≡ is_within desc.now row.now }
{
    match (desc.as_slice(), row.as_slice()) {
        ([most], [Value::Int(number)]) => *number <= i64::from(*most),
        _ => false,
    }
}
