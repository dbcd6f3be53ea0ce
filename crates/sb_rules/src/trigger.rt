//! The box of triggers. What an instance keeps goes by calls of `drop`.

ghost use Rattle.sb_rules.specs.Triggers.{trigger};

use crate::acting::{act, meets};
use crate::keeping::trigger_kept;
use sb_ctx::{Attachment, Ctx, Instance, Keys, Move};
use sb_relation::{Change, Sums, bind};
use sb_value::{Bytes, RecKey, Schema, Tuple};
use std::alloc::Global;

/// The attachment of code 7, without pages: an action that follows from each change of its event that meets its
/// predicate, with the change's values in place of the columns that it names. It follows at once, or, where the rule is
/// deferred, at the commit.
#[derive(Drop)]
pub struct Trigger {}

impl Trigger {
    pub fn new() -> Trigger {
        Trigger {}
    }
}

impl Attachment for Trigger {
    ghost attachment = { λ t. trigger };

    fn code(&self) -> u16 {
        7
    }

    fn fits(&self, _schema: &Schema, _desc: &Bytes) -> bool {
        true
    }

    fn prepare(&self, _alloc: Global, _ctx: &mut Ctx, _inst: &Instance) -> Move {
        Move::Done
    }

    fn on_build(
        &self,
        _alloc: Global,
        _ctx: &mut Ctx,
        _inst: &Instance,
        _key: &RecKey,
        _tuple: &Tuple,
    ) -> Move {
        Move::Done
    }

    fn on_change(&self, alloc: Global, _ctx: &mut Ctx, inst: &Instance, change: &Change) -> Move {
        let Ok(kept) = trigger_kept(alloc, inst) else {
            return Move::NoMemory;
        };
        if !meets(&kept, &inst.schema, change) {
            drop(kept);
            return Move::Done;
        }
        let deferred = kept.deferred;
        let bound = bind(alloc, &kept.action, &inst.schema, change);
        drop(kept);
        match bound {
            Ok(action) => act(alloc, action, deferred),
            Err(_) => Move::NoMemory,
        }
    }

    fn late_check(&self, _alloc: Global, _ctx: &mut Ctx, _inst: &Instance, _entry: &Bytes) -> Move {
        Move::Done
    }

    fn next_entry(
        &self,
        _alloc: Global,
        _ctx: &mut Ctx,
        _inst: &Instance,
        _low: &RecKey,
        _after: Option<&(RecKey, RecKey)>,
    ) -> Move {
        Move::End
    }

    fn sums(&self, alloc: Global, _ctx: &mut Ctx, _inst: &Instance) -> Move {
        Move::Sums(Sums::from_vec(Vec::new(alloc)))
    }

    fn seek(&self, alloc: Global, _ctx: &mut Ctx, _inst: &Instance, _query: &Tuple) -> Move {
        Move::Hits(Keys::new(alloc))
    }
}
