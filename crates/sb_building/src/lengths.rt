//! Rows of which a rule would keep too long a code.

ghost use Rattle.std.specs.Prelude.{◌≡◌, ◌==◌, not, length, IfErr, IfOk};
ghost use Rattle.std.specs.List.{list_any};
ghost use Rattle.sb_relation.specs.Db.{Rows};
ghost use Rattle.sb_relation.specs.Lawful.{is_long_for};
ghost use Rattle.sb_drive.specs.Slots.{Slots};
ghost use Rattle.sb_drive.specs.Spaces.{Wanted};
ghost use Rattle.sb_registry.specs.Live.{IsLive};
ghost use Rattle.sb_registry.specs.Runs.{IsSound, Looks};
ghost use Rattle.sb_rows.specs.Live.{HasRows};

use sb_ctx::Instance;
use sb_drive::{PageSpace, SpaceFault};
use sb_registry::Boxes;
use sb_rows::{RowTest, rows_where};
use sb_rule::Rule;
use sb_tables::is_long_for;
use sb_value::{RecKey, Schema, Str, Tuple, Value};
use std::alloc::Global;

/// Passes the rows of which the rule would keep too long a code.
#[derive(Drop)]
struct LengthTest<'a> {
    schema: &'a Schema,
    rule: &'a Rule,
}

impl<'a> RowTest for LengthTest<'a> {
    ghost passes = { λ t row. is_long_for t.schema.now row t.rule.now };

    ghost over = { λ t schema. Unit {0} };

    fn passes(&self, row: &Tuple) -> bool {
        is_long_for(self.schema, row, self.rule)
    }

    fn fixed(&self, _name: &Str) -> Option<&Value> {
        None
    }
}

/// Whether there is such a row in a relation.
pub(crate) fn has_long_row<S: PageSpace, B: Boxes>(
    space: &mut S,
    alloc: Global,
    boxes: &B,
    table: &Instance,
    rule: &Rule,
) -> Result<bool, SpaceFault>
    requires ready { S.is_ready space.old }
    requires live { IsLive (B.meanings boxes.now) table.now }

    ensures long { IfOk result (λ long. (want : Wanted) (s : Slots) (rows : Rows) → S.has want s space.old
        → HasRows (B.meanings boxes.now) s table.now rows
        → long ≡ list_any (λ row. is_long_for table.now.schema row.1 rule.now) rows) }
    ensures undamaged { IfErr result (λ e. (want : Wanted) (s : Slots) (rows : Rows) → S.has want s space.old
        → HasRows (B.meanings boxes.now) s table.now rows → IsSound e) }
    ensures looks { Looks S.has S.leads S.fails space.old space.new result }
    ensures ready { S.is_ready space.new }
{
    let test = LengthTest {
        schema: &table.schema,
        rule,
    };
    let found = rows_where(space, alloc, boxes, table, &test, None, 1)?;
    Ok(has_some(&found))
}

fn has_some(rows: &[(RecKey, Tuple)]) -> bool
    ensures { result ≡ not (length rows.now == 0) }
{
    !rows.is_empty()
}
