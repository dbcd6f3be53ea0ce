//! Changes of rows, and relations that are made.

ghost use Rattle.std.specs.Prelude.{◌≡◌, [], true, None, Some, OnOk, IfOk, IfErr, IfSome};
ghost use Rattle.sb_relation.specs.Db.{Rows, row_at, with_row, without_row};
ghost use Rattle.sb_relation.specs.Keys.{is_record_key, keying_of, new_keys};
ghost use Rattle.sb_treemethod.specs.Method.{code_of};
ghost use Rattle.sb_treemethod.specs.MethodAnswers.{GetsKey};
ghost use Rattle.sb_treemethod.specs.MethodCall.TheVariants.{Prepare, Insert, Delete, Update};
ghost use Rattle.sb_registry.specs.Slots.{Slots};
ghost use Rattle.sb_registry.specs.Spaces.{LeadsWithin, Wanted};
ghost use Rattle.sb_registry.specs.Runs.{IsSound, Works};
ghost use Rattle.sb_registry.specs.Live.{IsLive, MayTake};
ghost use Rattle.sb_rows.specs.Lacking.{LacksFor, WhereShort};
ghost use Rattle.sb_rows.specs.Live.{HasRows, IsNewIn, LeavesRows};
ghost use Rattle.sb_rows.specs.Placings.{IsDoneOrNone, IsGone, IsPlaced, IsPlacing, IsReplaced, IsReplacing, OfKey, RowCosts, has_key, has_new};
ghost use Rattle.sb_rows.specs.Placings.{is_gone, placing_in, replacing_in};

use sb_registry::{Boxes, PageSpace, SpaceFault};
use sb_treemethod::{Instance, MethodCall, Move};
use sb_value::{RecKey, Tuple};
use std::alloc::Global;

/// What becomes of a row that wants a record key: it gets this one, another row has its key, or there is no greater one.
#[derive(Drop)]
pub enum Placing {
    Key(RecKey),
    Duplicate,
    Range,
}

/// Inserts a row.
pub fn insert_row<S: PageSpace, B: Boxes>(
    space: &mut S,
    alloc: Global,
    boxes: &B,
    inst: &Instance,
    row: Tuple,
) -> Result<Placing, SpaceFault>
    requires ready { S.is_ready space.old }
    requires live { IsLive (B.meanings boxes.now) inst.now }
    requires row { MayTake inst.now row }

    ensures placed { IfOk result (λ placed. (want : Wanted) (s : Slots) (rows : Rows) → S.has want s space.old
        → HasRows (B.meanings boxes.now) s inst.now rows
        → IsPlaced (new_keys (keying_of inst.now.code) rows None (code_of inst.now row)) placed
        (λ key. LeavesRows S.has (B.meanings boxes.now) inst.now want s space.new (with_row rows key row))
        (LeavesRows S.has (B.meanings boxes.now) inst.now want s space.new rows)) }
    ensures is_key { IfOk result (λ placed. OfKey placed (λ key. is_record_key key ≡ true)) }
    ensures costs { (want : Wanted) (s : Slots) (rows : Rows) → S.has want s space.old
        → (has : HasRows (B.meanings boxes.now) s inst.now rows)
        → RowCosts S.leads has_key (GetsKey has.live.box inst.now (Insert row) rows) (has.live.box.cost (Insert row) rows) space.old space.new result }
    ensures full { IfErr result (λ e. (want : Wanted) (s : Slots) (rows : Rows) → S.has want s space.old
        → (has : HasRows (B.meanings boxes.now) s inst.now rows)
        → WhereShort e (LacksFor has.live.box inst.now (Insert row) rows s)) }
    ensures works { Works S.has S.leads S.fails S.durable S.total inst.now.owner space.old space.new result }
    ensures undamaged { IfErr result (λ e. (want : Wanted) (s : Slots) (rows : Rows) → S.has want s space.old
        → HasRows (B.meanings boxes.now) s inst.now rows → IsSound e) }
    ensures ready { S.is_ready space.new }
{
    let call = MethodCall::Insert(row);
    let made = boxes.run_method(space, alloc, inst, &call)?;
    Ok(placing_in(made))
}

fn placing_in(made: Move) -> Placing
    requires { IsPlacing made }
    ensures { result ≡ placing_in made }
{
    match made {
        Move::Key(key) => Placing::Key(key),
        Move::Duplicate => Placing::Duplicate,
        Move::Range => Placing::Range,
        _ => unreachable!(),
    }
}

/// Deletes the row of the key: whether there was one.
pub fn delete_row<S: PageSpace, B: Boxes>(
    space: &mut S,
    alloc: Global,
    boxes: &B,
    inst: &Instance,
    key: RecKey,
) -> Result<bool, SpaceFault>
    requires ready { S.is_ready space.old }
    requires live { IsLive (B.meanings boxes.now) inst.now }

    ensures gone { IfOk result (λ gone. (want : Wanted) (s : Slots) (rows : Rows) → S.has want s space.old
        → HasRows (B.meanings boxes.now) s inst.now rows
        → IsGone (row_at rows key) gone
        (LeavesRows S.has (B.meanings boxes.now) inst.now want s space.new (without_row rows key))
        (LeavesRows S.has (B.meanings boxes.now) inst.now want s space.new rows)) }
    ensures costs { (want : Wanted) (s : Slots) (rows : Rows) → S.has want s space.old
        → (has : HasRows (B.meanings boxes.now) s inst.now rows)
        → RowCosts S.leads (λ gone. gone) (Unit {0}) (has.live.box.cost (Delete key) rows) space.old space.new result }
    ensures full { IfErr result (λ e. (want : Wanted) (s : Slots) (rows : Rows) → S.has want s space.old
        → (has : HasRows (B.meanings boxes.now) s inst.now rows)
        → WhereShort e (LacksFor has.live.box inst.now (Delete key) rows s)) }
    ensures works { Works S.has S.leads S.fails S.durable S.total inst.now.owner space.old space.new result }
    ensures undamaged { IfErr result (λ e. (want : Wanted) (s : Slots) (rows : Rows) → S.has want s space.old
        → HasRows (B.meanings boxes.now) s inst.now rows → IsSound e) }
    ensures ready { S.is_ready space.new }
{
    let call = MethodCall::Delete(key);
    let made = boxes.run_method(space, alloc, inst, &call);
    drop(call);
    let made = made?;
    let gone = is_gone(&made);
    drop(made);
    Ok(gone)
}

fn is_gone(made: &Move) -> bool
    requires { IsDoneOrNone made.now }
    ensures { result ≡ is_gone made.now }
{
    matches!(made, Move::Done)
}

/// Gives the row of the key other values; it may get another key. None where there is no row of the key.
pub fn update_row<S: PageSpace, B: Boxes>(
    space: &mut S,
    alloc: Global,
    boxes: &B,
    inst: &Instance,
    key: RecKey,
    row: Tuple,
) -> Result<Option<Placing>, SpaceFault>
    requires ready { S.is_ready space.old }
    requires live { IsLive (B.meanings boxes.now) inst.now }
    requires row { MayTake inst.now row }

    ensures placed { IfOk result (λ placed. (want : Wanted) (s : Slots) (rows : Rows) → S.has want s space.old
        → HasRows (B.meanings boxes.now) s inst.now rows
        → IsReplaced (row_at rows key) (new_keys (keying_of inst.now.code) rows (Some key) (code_of inst.now row)) placed
        (λ new. LeavesRows S.has (B.meanings boxes.now) inst.now want s space.new
        (with_row (without_row rows key) new row))
        (LeavesRows S.has (B.meanings boxes.now) inst.now want s space.new rows)) }
    ensures is_key { IfOk result (λ placed. IfSome placed (λ new. OfKey new (λ k. is_record_key k ≡ true))) }
    ensures costs { (want : Wanted) (s : Slots) (rows : Rows) → S.has want s space.old
        → (has : HasRows (B.meanings boxes.now) s inst.now rows)
        → RowCosts S.leads has_new (GetsKey has.live.box inst.now (Update key row) rows) (has.live.box.cost (Update key row) rows) space.old space.new result }
    ensures full { IfErr result (λ e. (want : Wanted) (s : Slots) (rows : Rows) → S.has want s space.old
        → (has : HasRows (B.meanings boxes.now) s inst.now rows)
        → WhereShort e (LacksFor has.live.box inst.now (Update key row) rows s)) }
    ensures works { Works S.has S.leads S.fails S.durable S.total inst.now.owner space.old space.new result }
    ensures undamaged { IfErr result (λ e. (want : Wanted) (s : Slots) (rows : Rows) → S.has want s space.old
        → HasRows (B.meanings boxes.now) s inst.now rows → IsSound e) }
    ensures ready { S.is_ready space.new }
{
    let call = MethodCall::Update(key, row);
    let made = boxes.run_method(space, alloc, inst, &call)?;
    Ok(replacing_in(made))
}

fn replacing_in(made: Move) -> Option<Placing>
    requires { IsReplacing made }
    ensures { result ≡ replacing_in made }
{
    match made {
        Move::Key(key) => Some(Placing::Key(key)),
        Move::Duplicate => Some(Placing::Duplicate),
        Move::NoRecord => None,
        _ => unreachable!(),
    }
}

/// Makes the pages of a new instance those of a relation without rows.
pub fn prepare_rows<S: PageSpace, B: Boxes>(
    space: &mut S,
    alloc: Global,
    boxes: &B,
    inst: &Instance,
) -> Result<(), SpaceFault>
    requires ready { S.is_ready space.old }
    requires live { IsLive (B.meanings boxes.now) inst.now }

    ensures prepared { OnOk result ((want : Wanted) (s : Slots) → S.has want s space.old → IsNewIn s inst.now
        → LeavesRows S.has (B.meanings boxes.now) inst.now want s space.new []) }
    ensures costs { (want : Wanted) (s : Slots) → S.has want s space.old → IsNewIn s inst.now
        → (live : IsLive (B.meanings boxes.now) inst.now)
        → LeadsWithin S.leads (live.box.cost Prepare []) space.old space.new }
    ensures full { IfErr result (λ e. (want : Wanted) (s : Slots) → S.has want s space.old → IsNewIn s inst.now
        → (live : IsLive (B.meanings boxes.now) inst.now) → WhereShort e (LacksFor live.box inst.now Prepare [] s)) }
    ensures works { Works S.has S.leads S.fails S.durable S.total inst.now.owner space.old space.new result }
    ensures undamaged { IfErr result (λ e. (want : Wanted) (s : Slots) → S.has want s space.old → IsNewIn s inst.now → IsSound e) }
    ensures ready { S.is_ready space.new }
{
    let call = MethodCall::Prepare;
    let made = boxes.run_method(space, alloc, inst, &call);
    drop(call);
    let made = made?;
    drop(made);
    Ok(())
}
