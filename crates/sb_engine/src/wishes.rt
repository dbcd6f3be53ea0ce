//! What an action wishes of a row.

ghost use Rattle.std.specs.Prelude.{◌≡◌, List, Some, All, IfOk, IfErr, IfSome, option_map, slice_set};
ghost use Rattle.sb_relation.specs.Fits.{relation_of};
ghost use Rattle.sb_fold.specs.Fold.{wish_for};
ghost use Rattle.sb_fold.specs.Wishes.{with_value};
ghost use Rattle.sb_cascade.specs.Steps.{wish_there};
ghost use Rattle.sb_cascade.specs.Wishes.{wish_of};
ghost use Rattle.sb_drive.specs.Slots.{Slots};
ghost use Rattle.sb_drive.specs.Spaces.{Wanted};
ghost use Rattle.sb_registry.specs.Runs.{IsSound, Looks};
ghost use Rattle.sb_standing.specs.Tables.{Kept, db_of};
ghost use Rattle.sb_asking.specs.Opened.{IsOpen};
ghost use Rattle.sb_engine.specs.Opening.{IsKeeping};
ghost use Rattle.sb_engine.specs.Working.{MayDo, MayWish};

use crate::matching::{is_match, pairs_of};
use crate::opening::open_at;
use sb_asking::{OpenRelation, Place};
use sb_cascade::Wish;
use sb_drive::{PageSpace, SpaceFault};
use sb_kinds::relation_of;
use sb_pred::{Term, find_column};
use sb_registry::Boxes;
use sb_rule::Action;
use sb_standing::get_row;
use sb_value::{RecKey, Schema, Str, Tuple, Value};
use std::alloc::{AllocError, Global};

/// What an action wishes of the row of a key, where it stands and matches.
pub(crate) fn wish_at<S: PageSpace, B: Boxes>(
    space: &mut S,
    alloc: Global,
    boxes: &B,
    place: Place,
    opened: &[OpenRelation],
    action: &Action,
    key: &RecKey,
) -> Result<Option<Wish>, SpaceFault>
    requires ready { S.is_ready space.old }
    requires are_open { All (IsOpen (B.meanings boxes.now)) opened.now }
    requires may { MayDo opened.now action.now }

    ensures wish { IfOk result (λ x. (want : Wanted) (s : Slots) (kept : List Kept)
        → IsKeeping S.has (B.meanings boxes.now) place.root want s kept space.old opened.now
        → option_map wish_of x ≡ wish_there (db_of kept) action.now key.now) }
    ensures may { IfOk result (λ x. IfSome x (λ wish. MayWish opened.now (relation_of action.now) (wish_of wish))) }
    ensures undamaged { IfErr result (λ e. (want : Wanted) (s : Slots) (kept : List Kept)
        → IsKeeping S.has (B.meanings boxes.now) place.root want s kept space.old opened.now
        → IsSound e) }
    ensures looks { Looks S.has S.leads S.fails space.old space.new result }
    ensures ready { S.is_ready space.new }
{
    let Some(one) = open_at(opened, relation_of(action)) else {
        unreachable!()
    };
    match get_row(space, alloc, boxes, &one.table, key)? {
        None => Ok(None),
        Some(row) => Ok(wish_for(&one.table.schema, action, key, &row)?),
    }
}

/// What an action wishes of a row that stands, where that matches.
fn wish_for(
    schema: &Schema,
    action: &Action,
    key: &RecKey,
    row: &Tuple,
) -> Result<Option<Wish>, AllocError>
    ensures { IfOk result (λ x. option_map wish_of x ≡ wish_for schema.now action.now key.now (Some row.now)) }
{
    if !is_match(schema, pairs_of(action), row) {
        return Ok(None);
    }
    match action {
        Action::Insert { .. } => Ok(None),
        Action::Delete { .. } => Ok(Some(Wish::Remove(key.copy()?))),
        Action::Set {
            column,
            term: Term::Const(value),
            ..
        } => Ok(Some(Wish::Replace(key.copy()?, with_value(schema, column, value, row)?))),
        Action::Add {
            column,
            term: Term::Const(Value::Int(by)),
            ..
        } => Ok(Some(Wish::Raise(key.copy()?, column.copy()?, *by))),
        _ => Ok(None),
    }
}

/// The row with this value in a column.
fn with_value(
    schema: &Schema,
    column: &Str,
    value: &Value,
    row: &Tuple,
) -> Result<Tuple, AllocError>
    ensures { IfOk result (λ new. new ≡ with_value schema.now column.now value.now row.now) }
{
    match find_column(schema, column) {
        Some(place) => set_value(row, place, value),
        None => row.copy(),
    }
}

/// The row with this value in a place.
fn set_value(row: &Tuple, place: usize, value: &Value) -> Result<Tuple, AllocError>
    ensures { IfOk result (λ new. new ≡ slice_set row.now place value.now) }
{
    let copy = value.copy()?;
    let mut values = row.copy()?.into_vec();
    if let Some(old) = values.get_mut(place) {
        *old = copy;
    }
    Ok(Tuple::from_vec(values))
}
