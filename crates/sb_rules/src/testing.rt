//! What a check answers.

ghost use Rattle.std.specs.Prelude.{◌≡◌, ◌∷◌, [], IfOk};
ghost use Rattle.sb_codec.specs.Tuples.{tuple_spelling, IsTuple};
ghost use Rattle.sb_ctx.specs.AttachAnswers.{AsksFor};
ghost use Rattle.sb_ctx.specs.declared.moves.Move.TheVariants.{Find as Finds};
ghost use Rattle.sb_rules.specs.Pageless.{IsOrMemory};
ghost use Rattle.sb_rules.specs.Checks.{verdict_of, queued, IsAsked};

use crate::keeping::names_of;
use sb_codec::encode_tuple;
use sb_ctx::{Actions, Checks, Ctx, Instance, Move};
use sb_relation::values_of;
use sb_value::{Names, Tuple};
use std::alloc::{AllocError, Global};

/// Done where the row passes.
pub fn verdict(passes: bool) -> Move
    ensures { result ≡ verdict_of passes }
{
    if passes { Move::Done } else { Move::Veto }
}

fn entry_of(alloc: Global, row: &Tuple) -> Result<Checks, AllocError>
    requires { IsTuple row.now }
    ensures { IfOk result (λ checks. checks ≡ tuple_spelling row.now ∷ []) }
{
    let mut entries = Vec::new(alloc);
    entries.push(encode_tuple(alloc, row)?)?;
    Ok(Checks::from_vec(entries))
}

/// Leaves the row for the commit.
pub fn queue(alloc: Global, row: &Tuple) -> Move
    requires { IsTuple row.now }
    ensures { IsOrMemory (queued row.now) result }
{
    match entry_of(alloc, row) {
        Ok(checks) => Move::Acts {
            now: Actions::new(alloc),
            late: Actions::new(alloc),
            checks,
        },
        Err(_) => Move::NoMemory,
    }
}

/// So many finds a call may ask for.
const MOST_FINDS: u32 = 8;

/// Done where no row of the relation has this row's values.
pub fn none_stands(alloc: Global, ctx: &Ctx, inst: &Instance, row: &Tuple) -> Move
    ensures answers { IsAsked ctx.now inst.now row.now result }
    ensures asks { AsksFor ctx.now result }
{
    let Ok(columns) = names_of(alloc, &inst.schema) else {
        return Move::NoMemory;
    };
    let Ok(values) = values_of(alloc, &inst.schema, row, &columns) else {
        return Move::NoMemory;
    };
    if let Some(keys) = ctx.found(&inst.relation, &columns, &values) {
        return verdict(keys.as_slice().is_empty());
    }
    if ctx.finds() < MOST_FINDS {
        find(inst, columns, values)
    } else {
        Move::NoMemory
    }
}

fn find(inst: &Instance, columns: Names, values: Tuple) -> Move
    ensures { IsOrMemory (Finds inst.now.relation columns values) result }
{
    match inst.relation.copy() {
        Ok(relation) => Move::Find {
            relation,
            columns,
            values,
        },
        Err(_) => Move::NoMemory,
    }
}
