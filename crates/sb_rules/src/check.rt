//! The box of checks.

ghost use Rattle.sb_rules.specs.Checks.{check};

use crate::keeping::check_kept;
use crate::rows::new_row;
use crate::testing::{none_stands, queue, verdict};
use sb_codec::decode_tuple;
use sb_ctx::{Attachment, Ctx, Instance, Keys, Move};
use sb_pred::eval;
use sb_relation::{Change, Sums};
use sb_value::{Bytes, RecKey, Schema, Tuple};
use std::alloc::Global;

/// The attachment of code 5, without pages: each row of its relation passes a predicate. A new row is tested at once, or,
/// where the rule is deferred, at the commit, if it stands then.
#[derive(Drop)]
pub struct Check {}

impl Check {
    pub fn new() -> Check {
        Check {}
    }
}

impl Attachment for Check {
    ghost attachment = { λ c. check };

    fn code(&self) -> u16 {
        5
    }

    fn fits(&self, _schema: &Schema, _desc: &Bytes) -> bool {
        true
    }

    fn prepare(&self, _alloc: Global, _ctx: &mut Ctx, _inst: &Instance) -> Move {
        Move::Done
    }

    fn on_build(
        &self,
        alloc: Global,
        _ctx: &mut Ctx,
        inst: &Instance,
        _key: &RecKey,
        tuple: &Tuple,
    ) -> Move {
        match check_kept(alloc, inst) {
            Ok(kept) => verdict(eval(&kept.pred, &inst.schema, None, Some(tuple))),
            Err(_) => Move::NoMemory,
        }
    }

    fn on_change(&self, alloc: Global, _ctx: &mut Ctx, inst: &Instance, change: &Change) -> Move {
        let Ok(kept) = check_kept(alloc, inst) else {
            return Move::NoMemory;
        };
        let Some(new) = new_row(change) else {
            return Move::Done;
        };
        if kept.deferred {
            queue(alloc, new)
        } else {
            verdict(eval(&kept.pred, &inst.schema, None, Some(new)))
        }
    }

    fn late_check(&self, alloc: Global, ctx: &mut Ctx, inst: &Instance, entry: &Bytes) -> Move {
        let Ok(kept) = check_kept(alloc, inst) else {
            return Move::NoMemory;
        };
        let Ok(spelled) = decode_tuple(alloc, entry.as_slice()) else {
            return Move::NoMemory;
        };
        let Some(row) = spelled else {
            return Move::Done;
        };
        if inst.schema.fits(&row).is_err() || eval(&kept.pred, &inst.schema, None, Some(&row)) {
            return Move::Done;
        }
        none_stands(alloc, ctx, inst, &row)
    }

    fn next_entry(
        &self,
        _alloc: Global,
        _ctx: &mut Ctx,
        _inst: &Instance,
        _low: &RecKey,
        _after: Option<&(RecKey, RecKey)>,
    ) -> Move {
        Move::End
    }

    fn sums(&self, alloc: Global, _ctx: &mut Ctx, _inst: &Instance) -> Move {
        Move::Sums(Sums::from_vec(Vec::new(alloc)))
    }

    fn seek(&self, alloc: Global, _ctx: &mut Ctx, _inst: &Instance, _query: &Tuple) -> Move {
        Move::Hits(Keys::new(alloc))
    }
}
