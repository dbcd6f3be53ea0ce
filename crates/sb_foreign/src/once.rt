//! An attachment that asks which rows have a number.

ghost use Rattle.std.specs.Prelude.{◌≡◌, true, Some, codes, map, ◌∷◌, [], IfOk, IfErr, OnOk};
ghost use Rattle.sb_ctx.specs.AttachAnswers.{AsksFor};
ghost use Rattle.sb_foreign.specs.Onces.{once, number_row, asked, known_once, AreOnce, Stops, Judges};

use crate::watched::new_row;
use sb_ctx::{Attachment, Ctx, Instance, Keys, Move};
use sb_relation::{Change, Sums};
use sb_value::{Bytes, Names, RecKey, Schema, Str, Tuple, Value};
use std::alloc::{AllocError, Global};

/// So many finds a call may ask for.
const MOST_FINDS: u32 = 8;

/// The attachment of code 1001: at most one row has the number of a new row, and at most one has each of the numbers that
/// are the bytes of its desc, fewer than eight. It asks, one number after another, which rows have it.
#[derive(Drop)]
pub struct Once {}

impl Attachment for Once {
    ghost attachment = { λ _. once };

    fn code(&self) -> u16 {
        1001
    }

    fn fits(&self, _schema: &Schema, desc: &Bytes) -> bool {
        desc.len() < MOST_FINDS as usize
    }

    fn prepare(&self, _alloc: Global, _ctx: &mut Ctx, _inst: &Instance) -> Move {
        Move::Done
    }

    fn on_build(
        &self,
        alloc: Global,
        ctx: &mut Ctx,
        inst: &Instance,
        _key: &RecKey,
        tuple: &Tuple,
    ) -> Move {
        stands_once(alloc, ctx, inst, tuple)
    }

    fn on_change(&self, alloc: Global, ctx: &mut Ctx, inst: &Instance, change: &Change) -> Move {
        match new_row(change) {
            Some(new) => stands_once(alloc, ctx, inst, new),
            None => Move::Done,
        }
    }

    fn late_check(&self, _alloc: Global, _ctx: &mut Ctx, _inst: &Instance, _entry: &Bytes) -> Move {
        Move::Done
    }

    fn next_entry(
        &self,
        _alloc: Global,
        _ctx: &mut Ctx,
        _inst: &Instance,
        _low: &RecKey,
        _after: Option<&(RecKey, RecKey)>,
    ) -> Move {
        Move::End
    }

    fn sums(&self, alloc: Global, _ctx: &mut Ctx, _inst: &Instance) -> Move {
        Move::Sums(Sums::from_vec(Vec::new(alloc)))
    }

    fn seek(&self, alloc: Global, _ctx: &mut Ctx, _inst: &Instance, _query: &Tuple) -> Move {
        Move::Hits(Keys::new(alloc))
    }
}

/// Done where at most one row has each number that is asked for.
fn stands_once(alloc: Global, ctx: &Ctx, inst: &Instance, row: &Tuple) -> Move
    ensures answers { Judges ctx.now inst.now.relation (asked inst.now.desc row.now) result }
    ensures asks { AsksFor ctx.now result }
{
    if let Err(end) = is_once(alloc, ctx, &inst.relation, row) {
        return end;
    }
    match are_once(alloc, ctx, &inst.relation, inst.desc.as_slice()) {
        Ok(()) => Move::Done,
        Err(end) => end,
    }
}

/// Ok where at most one row has each of these numbers, else what the call answers.
fn are_once(alloc: Global, ctx: &Ctx, relation: &Str, numbers: &[u8]) -> Result<(), Move>
    ensures ok { OnOk result (AreOnce ctx.now relation.now (map number_row numbers.now)) }
    ensures err { IfErr result (Stops ctx.now relation.now (map number_row numbers.now)) }
    ensures asks { IfErr result (AsksFor ctx.now) }
{
    for number in numbers {
        let Ok(row) = row_of(alloc, *number) else {
            return Err(Move::NoMemory);
        };
        is_once(alloc, ctx, relation, &row)?;
    }
    Ok(())
}

/// Ok where at most one row has the number, else what the call answers.
fn is_once(alloc: Global, ctx: &Ctx, relation: &Str, row: &Tuple) -> Result<(), Move>
    ensures ok { OnOk result (known_once ctx.now relation.now row.now ≡ Some true) }
    ensures err { IfErr result (Stops ctx.now relation.now (row.now ∷ [])) }
    ensures asks { IfErr result (AsksFor ctx.now) }
{
    let Ok(columns) = column_k(alloc) else {
        return Err(Move::NoMemory);
    };
    if let Some(keys) = ctx.found(relation, &columns, row) {
        return if keys.as_slice().len() <= 1 {
            Ok(())
        } else {
            Err(Move::Veto)
        };
    }
    if ctx.finds() >= MOST_FINDS {
        return Err(Move::NoMemory);
    }
    match (relation.copy(), row.copy()) {
        (Ok(relation), Ok(values)) => Err(Move::Find {
            relation,
            columns,
            values,
        }),
        _ => Err(Move::NoMemory),
    }
}

/// The row of one number.
fn row_of(alloc: Global, number: u8) -> Result<Tuple, AllocError>
    ensures { IfOk result (λ row. row ≡ number_row number) }
{
    Ok(Tuple::from_vec(vec![in alloc; Value::Int(i64::from(number))]?))
}

/// The names `k`.
fn column_k(alloc: Global) -> Result<Names, AllocError>
    ensures { IfOk result (λ names. names ≡ codes "k" ∷ []) }
{
    let name = Str::from_string(String::from_str(alloc, "k")?);
    Ok(Names::from_vec(vec![in alloc; name]?))
}
