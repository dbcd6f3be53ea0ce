//! Rows of a relation that is open: one of a record key, those behind a key, those with some values.

ghost use Rattle.std.specs.Prelude.{◌≡◌, true, filter, IfOk, IfErr};
ghost use Rattle.sb_relation.specs.Db.{Rows, row_at};
ghost use Rattle.sb_relation.specs.Rules.{has_values};
ghost use Rattle.sb_drive.specs.Slots.{Slots};
ghost use Rattle.sb_drive.specs.Spaces.{Wanted};
ghost use Rattle.sb_registry.specs.Live.{IsLive};
ghost use Rattle.sb_registry.specs.Runs.{IsSound, Looks};
ghost use Rattle.sb_rows.specs.Live.{HasRows};
ghost use Rattle.sb_asking.specs.Opened.{IsOpen};
ghost use Rattle.sb_plain.specs.declared.reply.Reply.TheVariants.{Rows as Rowed};
ghost use Rattle.sb_plain.specs.Reading.{at_most, row_reply, rows_after};
ghost use Rattle.sb_reads.specs.Reads.{most_rows, IsAnswer};

use sb_asking::{OpenRelation, ValueTest};
use sb_ctx::Instance;
use sb_drive::{PageSpace, SpaceFault};
use sb_plain::{Picks, Refusal, Reply, Rows};
use sb_registry::Boxes;
use sb_rows::{RowTest, get_row, rows_where};
use sb_value::{Names, RecKey, Str, Tuple, Value};
use std::alloc::{AllocError, Global};

/// More rows than a relation has.
const MOST_ROWS: u64 = 1 << 48;

/// Passes every row.
#[derive(Clone, Copy, Drop)]
struct EachRow;

impl RowTest for EachRow {
    ghost passes = { λ t row. true };

    ghost over = { λ t schema. Unit {0} };

    fn passes(&self, _row: &Tuple) -> bool {
        true
    }

    fn fixed(&self, _name: &Str) -> Option<&Value> {
        None
    }
}

/// The row of a record key, or that there is none.
pub(crate) fn get<S: PageSpace, B: Boxes>(
    space: &mut S,
    alloc: Global,
    boxes: &B,
    opened: &OpenRelation,
    at: &RecKey,
) -> Result<Reply, SpaceFault>
    requires ready { S.is_ready space.old }
    requires open { IsOpen (B.meanings boxes.now) opened.now }

    ensures reply { IfOk result (λ x. (want : Wanted) (s : Slots) (rows : Rows) → S.has want s space.old
        → HasRows (B.meanings boxes.now) s opened.now.table rows → x ≡ row_reply opened.now.name at.now (row_at rows at.now)) }
    ensures answer { IfOk result IsAnswer }
    ensures undamaged { IfErr result (λ e. (want : Wanted) (s : Slots) (rows : Rows) → S.has want s space.old
        → HasRows (B.meanings boxes.now) s opened.now.table rows → IsSound e) }
    ensures looks { Looks S.has S.leads S.fails space.old space.new result }
    ensures ready { S.is_ready space.new }
{
    let row = get_row(space, alloc, boxes, &opened.table, at)?;
    let reply = row_reply(alloc, &opened.name, at, row)?;
    Ok(reply)
}

fn row_reply(
    alloc: Global,
    relation: &Str,
    at: &RecKey,
    row: Option<Tuple>,
) -> Result<Reply, AllocError>
    ensures reply { IfOk result (λ x. x ≡ row_reply relation.now at.now row) }
    ensures answer { IfOk result IsAnswer }
{
    match row {
        None => Ok(Reply::Refused(Refusal::NoRecord {
            relation: relation.copy()?,
        })),
        Some(row) => {
            let rows = vec![in alloc; (at.copy()?, row)]?;
            Ok(Reply::Rows {
                rows: Rows::from_vec(rows),
            })
        }
    }
}

/// The rows behind a record key, or all; so many at most, where that is said.
pub(crate) fn scan<S: PageSpace, B: Boxes>(
    space: &mut S,
    alloc: Global,
    boxes: &B,
    table: &Instance,
    after: &Option<RecKey>,
    limit: Option<u32>,
) -> Result<Reply, SpaceFault>
    requires ready { S.is_ready space.old }
    requires live { IsLive (B.meanings boxes.now) table.now }

    ensures reply { IfOk result (λ x. (want : Wanted) (s : Slots) (rows : Rows) → S.has want s space.old
        → HasRows (B.meanings boxes.now) s table.now rows → x ≡ Rowed (at_most limit (rows_after after.now rows))) }
    ensures answer { IfOk result IsAnswer }
    ensures undamaged { IfErr result (λ e. (want : Wanted) (s : Slots) (rows : Rows) → S.has want s space.old
        → HasRows (B.meanings boxes.now) s table.now rows → IsSound e) }
    ensures looks { Looks S.has S.leads S.fails space.old space.new result }
    ensures ready { S.is_ready space.new }
{
    let low = copy_key(after)?;
    let rows = rows_where(space, alloc, boxes, table, &EachRow, low, most_rows(limit))?;
    Ok(Reply::Rows {
        rows: Rows::from_vec(rows),
    })
}

fn copy_key(key: &Option<RecKey>) -> Result<Option<RecKey>, AllocError>
    ensures { IfOk result (λ copy. copy ≡ key.now) }
{
    match key {
        Some(key) => Ok(Some(key.copy()?)),
        None => Ok(None),
    }
}

/// So many rows, or more than a relation has.
fn most_rows(limit: Option<u32>) -> u64
    ensures { result ≡ most_rows limit }
{
    match limit {
        Some(limit) => limit as u64,
        None => MOST_ROWS,
    }
}

/// The rows with these values in these columns. Where they are the key columns of a tree, the row of their record key alone
/// is read; else all rows are.
pub(crate) fn rows_with<S: PageSpace, B: Boxes>(
    space: &mut S,
    alloc: Global,
    boxes: &B,
    table: &Instance,
    columns: &Names,
    values: &Tuple,
) -> Result<Reply, SpaceFault>
    requires ready { S.is_ready space.old }
    requires live { IsLive (B.meanings boxes.now) table.now }

    ensures reply { IfOk result (λ x. (want : Wanted) (s : Slots) (rows : Rows) → S.has want s space.old
        → HasRows (B.meanings boxes.now) s table.now rows
        → x ≡ Rowed (filter (λ row. has_values table.now.schema columns.now values.now row.1) rows)) }
    ensures answer { IfOk result IsAnswer }
    ensures undamaged { IfErr result (λ e. (want : Wanted) (s : Slots) (rows : Rows) → S.has want s space.old
        → HasRows (B.meanings boxes.now) s table.now rows → IsSound e) }
    ensures looks { Looks S.has S.leads S.fails space.old space.new result }
    ensures ready { S.is_ready space.new }
{
    let test = ValueTest {
        schema: &table.schema,
        columns,
        values,
    };
    let rows = rows_where(space, alloc, boxes, table, &test, None, MOST_ROWS)?;
    Ok(Reply::Rows {
        rows: Rows::from_vec(rows),
    })
}
