//! All rows that pass a test: by the record key that the test fixes, or by reading all rows.

ghost use Rattle.std.specs.Prelude.{◌≡◌, ◌++◌, ◌∷◌, [], true, cond, map, take, filter, All, OnOk, IfOk, IfErr};
ghost use Rattle.sb_relation.specs.Db.{Rows};
ghost use Rattle.sb_relation.specs.Keys.{is_record_key};
ghost use Rattle.sb_treemethod.specs.MethodAnswers.{IsRowOf};
ghost use Rattle.sb_registry.specs.Slots.{Slots};
ghost use Rattle.sb_registry.specs.Spaces.{Wanted};
ghost use Rattle.sb_registry.specs.Runs.{IsSound, Looks};
ghost use Rattle.sb_registry.specs.Live.{IsLive};
ghost use Rattle.sb_rows.specs.Live.{HasRows};
ghost use Rattle.sb_rows.specs.Scans.{rows_above};

use crate::lookups::next_row;
use crate::paths::{fixed_key, is_wanted, keys_at, rows_at};
use sb_registry::{Boxes, PageSpace, SpaceFault};
use sb_treemethod::{Instance, Keys};
use sb_value::{RecKey, Str, Tuple, Value};
use std::alloc::{AllocError, Global};

/// More rows than a relation has.
const MOST_ROWS: u64 = 1 << 48;

/// A test of rows.
pub trait RowTest {
    ghost use Rattle.std.specs.Prelude.{◌≡◌, Bool, List, IfSome};
    ghost use Rattle.std.specs.Option.{option_copied};
    ghost use Rattle.sb_value.specs.declared.schema.Column.{Column};
    ghost use Rattle.sb_relation.specs.Db.{Row};
    ghost use Rattle.sb_rows.specs.Paths.{IsFixed};

    /// Whether a row passes.
    ghost passes: { Self → Row → Bool };

    /// It is a test of rows with these columns.
    ghost over: { Self → List Column → Type 0 };

    fn passes(&self, row: &Tuple) -> bool
        ensures { result ≡ passes self.now row.now };

    /// The value that every row that passes has in the column, where the test asks for one.
    fn fixed(&self, name: &Str) -> Option<&Value>
        ensures { IfSome (option_copied result) (λ value. (schema : List Column) → over self.now schema
            → IsFixed (passes self.now) schema name.now value) };
}

/// The record keys of the rows that pass, in rising order.
pub fn keys_where<S: PageSpace, B: Boxes, T: RowTest>(
    space: &mut S,
    alloc: Global,
    boxes: &B,
    inst: &Instance,
    test: &T,
) -> Result<Keys, SpaceFault>
    requires ready { S.is_ready space.old }
    requires live { IsLive (B.meanings boxes.now) inst.now }
    requires over { T.over test.now inst.now.schema }

    ensures keys { IfOk result (λ keys. (want : Wanted) (s : Slots) (rows : Rows) → S.has want s space.old
        → HasRows (B.meanings boxes.now) s inst.now rows
        → keys ≡ map (λ row. row.0) (filter (λ row. T.passes test.now row.1) rows)) }
    ensures are_keys { IfOk result (λ keys. All (λ key. is_record_key key ≡ true) keys) }
    ensures looks { Looks S.has S.leads S.fails space.old space.new result }
    ensures undamaged { IfErr result (λ e. (want : Wanted) (s : Slots) (rows : Rows) → S.has want s space.old
        → HasRows (B.meanings boxes.now) s inst.now rows → IsSound e) }
    ensures ready { S.is_ready space.new }
{
    let Some(key) = fixed_key(alloc, inst, test)? else {
        return scan_keys(space, alloc, boxes, inst, test);
    };
    keys_at(space, alloc, boxes, inst, test, key)
}

/// The same by reading all rows.
fn scan_keys<S: PageSpace, B: Boxes, T: RowTest>(
    space: &mut S,
    alloc: Global,
    boxes: &B,
    inst: &Instance,
    test: &T,
) -> Result<Keys, SpaceFault>
    requires ready { S.is_ready space.old }
    requires live { IsLive (B.meanings boxes.now) inst.now }

    ensures keys { IfOk result (λ keys. (want : Wanted) (s : Slots) (rows : Rows) → S.has want s space.old
        → HasRows (B.meanings boxes.now) s inst.now rows
        → keys ≡ map (λ row. row.0) (filter (λ row. T.passes test.now row.1) rows)) }
    ensures are_keys { IfOk result (λ keys. All (λ key. is_record_key key ≡ true) keys) }
    ensures looks { Looks S.has S.leads S.fails space.old space.new result }
    ensures undamaged { IfErr result (λ e. (want : Wanted) (s : Slots) (rows : Rows) → S.has want s space.old
        → HasRows (B.meanings boxes.now) s inst.now rows → IsSound e) }
    ensures ready { S.is_ready space.new }
{
    let mut keys = Vec::new(alloc);
    let mut last = None;
    'rows: for _ in 0..MOST_ROWS {
        let Some((key, row)) = next_row(space, alloc, boxes, inst, last)? else {
            return Ok(Keys::from_vec(keys));
        };
        let passed = test.passes(&row);
        add_key(&mut keys, &key, passed)?;
        last = Some(key);
    }
    Err(SpaceFault::Damaged { page: inst.root })
}

/// Adds the key of a row that passes.
fn add_key(keys: &mut Vec<RecKey>, key: &RecKey, passes: bool) -> Result<(), AllocError>
    ensures { OnOk result (keys.new.items ≡ keys.old.items ++ cond passes (key.now ∷ []) []) }
{
    if !passes {
        return Ok(());
    }
    let copy = key.copy()?;
    keys.push(copy)?;
    Ok(())
}

/// The first rows that pass of those whose keys are above this one, or of all; so many at most.
pub fn rows_where<S: PageSpace, B: Boxes, T: RowTest>(
    space: &mut S,
    alloc: Global,
    boxes: &B,
    inst: &Instance,
    test: &T,
    low: Option<RecKey>,
    limit: u64,
) -> Result<Vec<(RecKey, Tuple)>, SpaceFault>
    requires ready { S.is_ready space.old }
    requires live { IsLive (B.meanings boxes.now) inst.now }
    requires over { T.over test.now inst.now.schema }

    ensures rows { IfOk result (λ found. (want : Wanted) (s : Slots) (rows : Rows) → S.has want s space.old
        → HasRows (B.meanings boxes.now) s inst.now rows
        → found.items ≡ take limit (filter (λ row. T.passes test.now row.1) (rows_above low rows))) }
    ensures are_rows { IfOk result (λ found. All (λ row. IsRowOf inst.now row.0 row.1) found.items) }
    ensures looks { Looks S.has S.leads S.fails space.old space.new result }
    ensures undamaged { IfErr result (λ e. (want : Wanted) (s : Slots) (rows : Rows) → S.has want s space.old
        → HasRows (B.meanings boxes.now) s inst.now rows → IsSound e) }
    ensures ready { S.is_ready space.new }
{
    let Some(key) = fixed_key(alloc, inst, test)? else {
        return scan_rows(space, alloc, boxes, inst, test, low, limit);
    };
    if !is_wanted(&key, &low, limit) {
        return Ok(Vec::new(alloc));
    }
    rows_at(space, alloc, boxes, inst, test, key)
}

/// The same by reading all rows above the key.
fn scan_rows<S: PageSpace, B: Boxes, T: RowTest>(
    space: &mut S,
    alloc: Global,
    boxes: &B,
    inst: &Instance,
    test: &T,
    low: Option<RecKey>,
    limit: u64,
) -> Result<Vec<(RecKey, Tuple)>, SpaceFault>
    requires ready { S.is_ready space.old }
    requires live { IsLive (B.meanings boxes.now) inst.now }

    ensures rows { IfOk result (λ found. (want : Wanted) (s : Slots) (rows : Rows) → S.has want s space.old
        → HasRows (B.meanings boxes.now) s inst.now rows
        → found.items ≡ take limit (filter (λ row. T.passes test.now row.1) (rows_above low rows))) }
    ensures are_rows { IfOk result (λ found. All (λ row. IsRowOf inst.now row.0 row.1) found.items) }
    ensures looks { Looks S.has S.leads S.fails space.old space.new result }
    ensures undamaged { IfErr result (λ e. (want : Wanted) (s : Slots) (rows : Rows) → S.has want s space.old
        → HasRows (B.meanings boxes.now) s inst.now rows → IsSound e) }
    ensures ready { S.is_ready space.new }
{
    let mut found = Vec::new(alloc);
    let mut last = low;
    'rows: for _ in 0..MOST_ROWS {
        if found.len() as u64 == limit {
            drop(last);
            return Ok(found);
        }
        let next = match next_row(space, alloc, boxes, inst, last) {
            Ok(next) => next,
            Err(fault) => {
                drop(found);
                return Err(fault);
            }
        };
        let Some((key, row)) = next else {
            return Ok(found);
        };
        let passed = test.passes(&row);
        last = match add_row(&mut found, key, row, passed) {
            Ok(copy) => Some(copy),
            Err(_) => {
                drop(found);
                return Err(SpaceFault::NoMemory);
            }
        };
    }
    drop(found);
    drop(last);
    Err(SpaceFault::Damaged { page: inst.root })
}

/// Adds a row that passes. A copy of the row's key is answered.
fn add_row(
    found: &mut Vec<(RecKey, Tuple)>,
    key: RecKey,
    row: Tuple,
    passes: bool,
) -> Result<RecKey, AllocError>
    ensures copy { IfOk result (λ copy. copy ≡ key) }
    ensures added { OnOk result (found.new.items ≡ found.old.items ++ cond passes ((key, row) ∷ []) []) }
{
    let copy = key.copy()?;
    if passes {
        found.push((key, row))?;
    }
    Ok(copy)
}
