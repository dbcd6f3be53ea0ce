//! One row, by its key or behind a key.

ghost use Rattle.std.specs.Prelude.{◌≡◌, IsTrue, IfOk, IfErr, IfSome};
ghost use Rattle.sb_relation.specs.Db.{Rows, row_at};
ghost use Rattle.sb_relation.specs.Lawful.{IsRow};
ghost use Rattle.sb_treemethod.specs.MethodAnswers.{IsRowOf, is_above, row_above};
ghost use Rattle.sb_registry.specs.Slots.{Slots};
ghost use Rattle.sb_registry.specs.Spaces.{Wanted};
ghost use Rattle.sb_registry.specs.Runs.{IsSound, Looks};
ghost use Rattle.sb_registry.specs.Live.{IsLive};
ghost use Rattle.sb_rows.specs.Live.{HasRows};
ghost use Rattle.sb_rows.specs.Scans.{IsRowOrEnd, IsRowOrNone, is_risen, row_in, tuple_in};

use sb_registry::{Boxes, PageSpace, SpaceFault};
use sb_treemethod::{Instance, MethodCall, Move};
use sb_value::{RecKey, Tuple};
use std::alloc::Global;

/// The row of the key, where there is one.
pub fn get_row<S: PageSpace, B: Boxes>(
    space: &mut S,
    alloc: Global,
    boxes: &B,
    inst: &Instance,
    key: &RecKey,
) -> Result<Option<Tuple>, SpaceFault>
    requires ready { S.is_ready space.old }
    requires live { IsLive (B.meanings boxes.now) inst.now }

    ensures row { IfOk result (λ row. (want : Wanted) (s : Slots) (rows : Rows) → S.has want s space.old
        → HasRows (B.meanings boxes.now) s inst.now rows → row ≡ row_at rows key.now) }
    ensures is_row { IfOk result (λ row. IfSome row (IsRow inst.now.schema)) }
    ensures looks { Looks S.has S.leads S.fails space.old space.new result }
    ensures undamaged { IfErr result (λ e. (want : Wanted) (s : Slots) (rows : Rows) → S.has want s space.old
        → HasRows (B.meanings boxes.now) s inst.now rows → IsSound e) }
    ensures ready { S.is_ready space.new }
{
    let copy = key.copy()?;
    let call = MethodCall::Get(copy);
    let made = boxes.run_method(space, alloc, inst, &call)?;
    Ok(tuple_in(made))
}

fn tuple_in(made: Move) -> Option<Tuple>
    requires { IsRowOrNone made }
    ensures { result ≡ tuple_in made }
{
    match made {
        Move::Row(_, row) => Some(row),
        Move::NoRecord => None,
        _ => unreachable!(),
    }
}

/// The first row whose key is above this one, or the first of all. Where the box answers a row that isn't above it,
/// the root is damaged.
pub fn next_row<S: PageSpace, B: Boxes>(
    space: &mut S,
    alloc: Global,
    boxes: &B,
    inst: &Instance,
    low: Option<RecKey>,
) -> Result<Option<(RecKey, Tuple)>, SpaceFault>
    requires ready { S.is_ready space.old }
    requires live { IsLive (B.meanings boxes.now) inst.now }

    ensures row { IfOk result (λ row. (want : Wanted) (s : Slots) (rows : Rows) → S.has want s space.old
        → HasRows (B.meanings boxes.now) s inst.now rows → row ≡ row_above low rows) }
    ensures is_row { IfOk result (λ row. IfSome row (λ r. IsRowOf inst.now r.0 r.1)) }
    ensures above { IfOk result (λ row. IfSome row (λ r. IsTrue (is_above low r.0))) }
    ensures looks { Looks S.has S.leads S.fails space.old space.new result }
    ensures undamaged { IfErr result (λ e. (want : Wanted) (s : Slots) (rows : Rows) → S.has want s space.old
        → HasRows (B.meanings boxes.now) s inst.now rows → IsSound e) }
    ensures ready { S.is_ready space.new }
{
    let call = MethodCall::Next(low);
    let made = match boxes.run_method(space, alloc, inst, &call) {
        Ok(made) => made,
        Err(fault) => {
            drop(call);
            return Err(fault);
        }
    };
    let risen = is_risen(&call, &made);
    drop(call);
    if !risen {
        drop(made);
        return Err(SpaceFault::Damaged { page: inst.root });
    }
    Ok(row_in(made))
}

/// Whether a row that a read of the next one answered has a key above the one of the call.
fn is_risen(call: &MethodCall, made: &Move) -> bool
    ensures { result ≡ is_risen call.now made.now }
{
    match (call, made) {
        (MethodCall::Next(Some(low)), Move::Row(key, _)) => low < key,
        _ => true,
    }
}

fn row_in(made: Move) -> Option<(RecKey, Tuple)>
    requires { IsRowOrEnd made }
    ensures { result ≡ row_in made }
{
    match made {
        Move::Row(key, row) => Some((key, row)),
        Move::End => None,
        _ => unreachable!(),
    }
}
