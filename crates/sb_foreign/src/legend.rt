//! An attachment whose entries are the same over any rows.

ghost use Rattle.std.specs.Prelude.{◌≡◌, IfOk, option_map};
ghost use Rattle.std.specs.List.{find};
ghost use Rattle.sb_relation.specs.Images.{is_before};
ghost use Rattle.sb_ctx.specs.AttachAnswers.{is_entry_above};
ghost use Rattle.sb_foreign.specs.Legends.{entry_of, legend};

use sb_ctx::{Attachment, Ctx, Instance, Keys, Move};
use sb_relation::{Change, Sums};
use sb_value::{Bytes, RecKey, Schema, Tuple};
use std::alloc::{AllocError, Global};

/// The bytes of the entries' first parts, rising.
const SIGNS: [u8; 2] = [1, 2];

/// The attachment of code 1003: an entry for each sign, over any rows and in no page. The second part of an entry has no
/// bytes.
#[derive(Drop)]
pub struct Legend {}

impl Attachment for Legend {
    ghost attachment = { λ _. legend };

    fn code(&self) -> u16 {
        1003
    }

    fn fits(&self, _schema: &Schema, desc: &Bytes) -> bool {
        desc.is_empty()
    }

    fn prepare(&self, _alloc: Global, _ctx: &mut Ctx, _inst: &Instance) -> Move {
        Move::Done
    }

    fn on_build(
        &self,
        _alloc: Global,
        _ctx: &mut Ctx,
        _inst: &Instance,
        _key: &RecKey,
        _tuple: &Tuple,
    ) -> Move {
        Move::Done
    }

    fn on_change(
        &self,
        _alloc: Global,
        _ctx: &mut Ctx,
        _inst: &Instance,
        _change: &Change,
    ) -> Move {
        Move::Done
    }

    fn late_check(&self, _alloc: Global, _ctx: &mut Ctx, _inst: &Instance, _entry: &Bytes) -> Move {
        Move::Done
    }

    fn next_entry(
        &self,
        alloc: Global,
        _ctx: &mut Ctx,
        _inst: &Instance,
        low: &RecKey,
        after: Option<&(RecKey, RecKey)>,
    ) -> Move {
        let Some(sign) = next_sign(low, after) else {
            return Move::End;
        };
        match entry_of(alloc, sign) {
            Ok((first, second)) => Move::Entry(first, second),
            Err(_) => Move::NoMemory,
        }
    }

    fn sums(&self, alloc: Global, _ctx: &mut Ctx, _inst: &Instance) -> Move {
        Move::Sums(Sums::from_vec(Vec::new(alloc)))
    }

    fn seek(&self, alloc: Global, _ctx: &mut Ctx, _inst: &Instance, _query: &Tuple) -> Move {
        Move::Hits(Keys::new(alloc))
    }
}

fn entry_of(alloc: Global, sign: u8) -> Result<(RecKey, RecKey), AllocError>
    ensures { IfOk result (λ entry. entry ≡ entry_of sign) }
{
    let first = RecKey::from_vec(vec![in alloc; sign]?);
    Ok((first, RecKey::from_vec(Vec::new(alloc))))
}

/// The sign of the least entry whose first part isn't below `low` and that is above `after`.
fn next_sign(low: &RecKey, after: Option<&(RecKey, RecKey)>) -> Option<u8>
    ensures { result ≡ find (λ sign. is_entry_above low.now (option_map (λ entry. entry.now) after.entry) (entry_of sign)) SIGNS }
{
    SIGNS
        .iter()
        .copied()
        .find(|sign| is_above(low, after, *sign))
}

/// Whether the entry of a sign is one that a call asks for.
fn is_above(low: &RecKey, after: Option<&(RecKey, RecKey)>, sign: u8) -> bool
    ensures { result ≡ is_entry_above low.now (option_map (λ entry. entry.now) after.entry) (entry_of sign) }
{
    let first: &[u8] = &[sign];
    let second: &[u8] = &[];
    if first < low.as_slice() {
        return false;
    }
    match after {
        Some(entry) => is_before(entry, first, second),
        None => true,
    }
}

fn is_before(entry: &(RecKey, RecKey), first: &[u8], second: &[u8]) -> bool
    ensures { result ≡ is_before entry.now (first.now, second.now) }
{
    let firsts = entry.0.as_slice().cmp(first);
    firsts.then(entry.1.as_slice().cmp(second)).is_lt()
}
