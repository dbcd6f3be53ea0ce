//! The row of a record key that a test fixes.

ghost use Rattle.std.specs.Prelude.{◌≡◌, true, map, filter, All, IfOk, IfErr, IfSome};
ghost use Rattle.sb_relation.specs.Db.{Row, Rows, values_in};
ghost use Rattle.sb_relation.specs.Keys.{is_record_key};
ghost use Rattle.sb_treemethod.specs.MethodAnswers.{IsRowOf, is_above};
ghost use Rattle.sb_registry.specs.Slots.{Slots};
ghost use Rattle.sb_registry.specs.Spaces.{Wanted};
ghost use Rattle.sb_registry.specs.Runs.{IsSound, Looks};
ghost use Rattle.sb_registry.specs.Live.{IsLive};
ghost use Rattle.sb_rows.specs.Live.{HasRows};
ghost use Rattle.sb_rows.specs.Paths.{FixesKey, is_wanted, kept, rows_under};

use crate::lookups::get_row;
use crate::scans::RowTest;
use sb_codec::ordered_key;
use sb_registry::{Boxes, PageSpace, SpaceFault};
use sb_treemethod::{Instance, Keys};
use sb_value::{RecKey, Tuple};
use std::alloc::{AllocError, Global};

/// The code of the storage method that keeps rows under the ordered code of their key columns.
const TREE: u16 = 2;

/// The most bytes of a record key.
const LONGEST_KEY: usize = 200;

/// The record key of each row that passes, where the relation is a tree and the test fixes a value for each of its key
/// columns.
pub(crate) fn fixed_key<T: RowTest>(
    alloc: Global,
    inst: &Instance,
    test: &T,
) -> Result<Option<RecKey>, AllocError>
    requires over { T.over test.now inst.now.schema }
    ensures { IfOk result (λ r. IfSome r (FixesKey (T.passes test.now) inst.now)) }
{
    if inst.code != TREE {
        return Ok(None);
    }
    let Some(values) = fixed_values(alloc, inst, test)? else {
        return Ok(None);
    };
    let key = ordered_key(alloc, &values)?;
    Ok(Some(key))
}

/// The values of the key columns of each row that passes, where the test fixes one for each.
fn fixed_values<T: RowTest>(
    alloc: Global,
    inst: &Instance,
    test: &T,
) -> Result<Option<Tuple>, AllocError>
    requires over { T.over test.now inst.now.schema }
    ensures { IfOk result (λ r. IfSome r (λ values. (row : Row) → T.passes test.now row ≡ true
        → values_in inst.now.schema row inst.now.key ≡ values)) }
{
    let mut values = Vec::new(alloc);
    for name in inst.key.as_slice() {
        let Some(value) = test.fixed(name) else {
            return Ok(None);
        };
        values.push(value.copy()?)?;
    }
    Ok(Some(Tuple::from_vec(values)))
}

/// The row of the key, where it is there and passes. A longer key than a record's has no row.
fn passing_row<S: PageSpace, B: Boxes, T: RowTest>(
    space: &mut S,
    alloc: Global,
    boxes: &B,
    inst: &Instance,
    test: &T,
    key: &RecKey,
) -> Result<Option<Tuple>, SpaceFault>
    requires ready { S.is_ready space.old }
    requires live { IsLive (B.meanings boxes.now) inst.now }
    requires fixed { FixesKey (T.passes test.now) inst.now key.now }

    ensures row { IfOk result (λ row. (want : Wanted) (s : Slots) (rows : Rows) → S.has want s space.old
        → HasRows (B.meanings boxes.now) s inst.now rows
        → filter (λ row. T.passes test.now row.1) rows ≡ rows_under key.now row) }
    ensures is_row { IfOk result (λ row. IfSome row (IsRowOf inst.now key.now)) }
    ensures looks { Looks S.has S.leads S.fails space.old space.new result }
    ensures undamaged { IfErr result (λ e. (want : Wanted) (s : Slots) (rows : Rows) → S.has want s space.old
        → HasRows (B.meanings boxes.now) s inst.now rows → IsSound e) }
    ensures ready { S.is_ready space.new }
{
    if key.len() > LONGEST_KEY {
        return Ok(None);
    }
    let row = get_row(space, alloc, boxes, inst, key)?;
    Ok(kept(row, test))
}

/// The row, where it passes.
fn kept<T: RowTest>(row: Option<Tuple>, test: &T) -> Option<Tuple>
    ensures { result ≡ kept (T.passes test.now) row }
{
    let row = row?;
    if test.passes(&row) { Some(row) } else { None }
}

/// The keys of the rows that pass, where the test fixes this one.
pub(crate) fn keys_at<S: PageSpace, B: Boxes, T: RowTest>(
    space: &mut S,
    alloc: Global,
    boxes: &B,
    inst: &Instance,
    test: &T,
    key: RecKey,
) -> Result<Keys, SpaceFault>
    requires ready { S.is_ready space.old }
    requires live { IsLive (B.meanings boxes.now) inst.now }
    requires fixed { FixesKey (T.passes test.now) inst.now key }

    ensures keys { IfOk result (λ keys. (want : Wanted) (s : Slots) (rows : Rows) → S.has want s space.old
        → HasRows (B.meanings boxes.now) s inst.now rows
        → keys ≡ map (λ row. row.0) (filter (λ row. T.passes test.now row.1) rows)) }
    ensures are_keys { IfOk result (λ keys. All (λ key. is_record_key key ≡ true) keys) }
    ensures looks { Looks S.has S.leads S.fails space.old space.new result }
    ensures undamaged { IfErr result (λ e. (want : Wanted) (s : Slots) (rows : Rows) → S.has want s space.old
        → HasRows (B.meanings boxes.now) s inst.now rows → IsSound e) }
    ensures ready { S.is_ready space.new }
{
    let row = passing_row(space, alloc, boxes, inst, test, &key)?;
    let keys = one_key(alloc, key, row)?;
    Ok(keys)
}

/// The key, where it has a row.
fn one_key(alloc: Global, key: RecKey, row: Option<Tuple>) -> Result<Keys, AllocError>
    ensures { IfOk result (λ keys. keys ≡ map (λ row. row.0) (rows_under key row)) }
{
    match row {
        Some(_) => Ok(Keys::from_vec(vec![in alloc; key]?)),
        None => Ok(Keys::new(alloc)),
    }
}

/// The rows that pass, where the test fixes their key.
pub(crate) fn rows_at<S: PageSpace, B: Boxes, T: RowTest>(
    space: &mut S,
    alloc: Global,
    boxes: &B,
    inst: &Instance,
    test: &T,
    key: RecKey,
) -> Result<Vec<(RecKey, Tuple)>, SpaceFault>
    requires ready { S.is_ready space.old }
    requires live { IsLive (B.meanings boxes.now) inst.now }
    requires fixed { FixesKey (T.passes test.now) inst.now key }

    ensures rows { IfOk result (λ found. (want : Wanted) (s : Slots) (rows : Rows) → S.has want s space.old
        → HasRows (B.meanings boxes.now) s inst.now rows
        → found.items ≡ filter (λ row. T.passes test.now row.1) rows) }
    ensures are_rows { IfOk result (λ found. All (λ row. IsRowOf inst.now row.0 row.1) found.items) }
    ensures looks { Looks S.has S.leads S.fails space.old space.new result }
    ensures undamaged { IfErr result (λ e. (want : Wanted) (s : Slots) (rows : Rows) → S.has want s space.old
        → HasRows (B.meanings boxes.now) s inst.now rows → IsSound e) }
    ensures ready { S.is_ready space.new }
{
    let row = passing_row(space, alloc, boxes, inst, test, &key)?;
    let found = one_row(alloc, key, row)?;
    Ok(found)
}

/// The row under its key, where there is one.
fn one_row(
    alloc: Global,
    key: RecKey,
    row: Option<Tuple>,
) -> Result<Vec<(RecKey, Tuple)>, AllocError>
    ensures { IfOk result (λ found. found.items ≡ rows_under key row) }
{
    match row {
        Some(row) => Ok(vec![in alloc; (key, row)]?),
        None => Ok(Vec::new(alloc)),
    }
}

/// Whether the row of the key is among the first so many above the low one, where no other row passes.
pub(crate) fn is_wanted(key: &RecKey, low: &Option<RecKey>, limit: u64) -> bool
    ensures { result ≡ is_wanted key.now low.now limit }
{
    limit > 0 && is_above(low, key)
}

fn is_above(low: &Option<RecKey>, key: &RecKey) -> bool
    ensures { result ≡ is_above low.now key.now }
{
    match low {
        Some(low) => low < key,
        None => true,
    }
}
