//! Look-ups: the value of a key, and the entry behind a key.

ghost use Rattle.std.specs.Prelude.{◌≡◌, IfOk, IfErr, option_map};
ghost use Rattle.std.specs.FinMap.Entries.{find as value_of};
ghost use Rattle.std.specs.List.{find as first};
ghost use Rattle.sb_btree.specs.Leaves.{entry_in};
ghost use Rattle.sb_btree.specs.Ways.{is_behind};
ghost use Rattle.sb_map.specs.Calls.{Looks};
ghost use Rattle.sb_map.specs.Maps.{OverMap, OverPages};
ghost use Rattle.sb_drive.specs.Spaces.{IsReadFault};
ghost use Rattle.sb_map.specs.Refusals.{HasCause, IsUndamaged};
ghost use Rattle.sb_node.specs.Entries.{key_cmp};

use crate::place::Place;
use crate::turns::turn;
use sb_btree::{LeafEntry, find};
use sb_ctx::Ctx;
use sb_drive::{PageSpace, SpaceFault};
use sb_value::{Bytes, RecKey};
use std::alloc::Global;

/// The value of a key.
pub fn get<S: PageSpace>(
    space: &mut S,
    alloc: Global,
    place: Place,
    key: &[u8],
) -> Result<Option<Bytes>, SpaceFault>
    requires ready { S.is_ready space.old }
    ensures value { IfOk result (λ value. OverMap S.has place space.old (λ es. value ≡ value_of key_cmp key.now es)) }

    // why it is refused
    ensures damaged { IfErr result (λ e. OverPages S.has place space.old (λ P. HasCause place.root P e)) }
    ensures whole { IfErr result (λ e. OverMap S.has place space.old (λ es. IsUndamaged e)) }
    ensures reads { IfErr result IsReadFault }

    ensures looks { Looks S.has S.leads S.fails space.old space.new result }
    ensures ready { S.is_ready space.new }
{
    let mut ctx = Ctx::new(alloc);
    loop {
        let walk = find(alloc, &ctx, place.root, key);
        if let Some(found) = turn(space, place.owner, &mut ctx, walk)? {
            return Ok(value_in(found));
        }
    }
}

/// The first entry whose key is above a key, or the first of all.
pub fn next<S: PageSpace>(
    space: &mut S,
    alloc: Global,
    place: Place,
    after: Option<&[u8]>,
) -> Result<Option<(RecKey, Bytes)>, SpaceFault>
    requires ready { S.is_ready space.old }
    ensures entry { IfOk result (λ entry. OverMap S.has place space.old
        (λ es. entry ≡ first (is_behind (option_map (λ key. key.now) after.entry)) es)) }

    // why it is refused
    ensures damaged { IfErr result (λ e. OverPages S.has place space.old (λ P. HasCause place.root P e)) }
    ensures whole { IfErr result (λ e. OverMap S.has place space.old (λ es. IsUndamaged e)) }
    ensures reads { IfErr result IsReadFault }

    ensures looks { Looks S.has S.leads S.fails space.old space.new result }
    ensures ready { S.is_ready space.new }
{
    let mut ctx = Ctx::new(alloc);
    loop {
        let walk = sb_btree::next(alloc, &ctx, place.root, after);
        if let Some(found) = turn(space, place.owner, &mut ctx, walk)? {
            return Ok(pair_in(found));
        }
    }
}

fn value_in(found: Option<LeafEntry>) -> Option<Bytes>
    ensures { result ≡ option_map (λ e. e.value) found }
{
    Some(found?.value)
}

fn pair_in(found: Option<LeafEntry>) -> Option<(RecKey, Bytes)>
    ensures { result ≡ option_map entry_in found }
{
    let LeafEntry { key, value, .. } = found?;
    Some((key, value))
}
