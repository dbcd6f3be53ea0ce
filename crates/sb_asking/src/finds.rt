//! Rows that are found by their values.

ghost use Rattle.std.specs.Prelude.{◌≡◌, true, List, All, IfOk, IfErr};
ghost use Rattle.sb_relation.specs.Keys.{is_record_key};
ghost use Rattle.sb_relation.specs.Rules.{has_values};
ghost use Rattle.sb_ctx.specs.View.{keys_with};
ghost use Rattle.sb_drive.specs.Slots.{Slots};
ghost use Rattle.sb_drive.specs.Spaces.{Wanted};
ghost use Rattle.sb_registry.specs.Runs.{IsSound, Looks};
ghost use Rattle.sb_opened.specs.Standing.{StandRules};
ghost use Rattle.sb_opened.specs.Tables.{Kept, Tables, db_of};
ghost use Rattle.sb_opened.specs.Opened.{IsDurable};

use crate::columns::{has_values, value_at};
use sb_ctx::Keys;
use sb_drive::{PageSpace, SpaceFault};
use sb_opened::{Place, RowTest, keys_where, open_relation};
use sb_registry::{Boxes, has_columns};
use sb_value::{Names, Schema, Str, Tuple, Value};
use std::alloc::Global;

/// Passes the rows that have these values in these columns.
#[derive(Drop)]
pub struct ValueTest<'a> {
    pub schema: &'a Schema,
    pub columns: &'a Names,
    pub values: &'a Tuple,
}

impl<'a> RowTest for ValueTest<'a> {
    ghost passes = { λ t row. has_values t.schema.now t.columns.now t.values.now row };

    ghost over = { λ t schema. t.schema.now ≡ schema };

    fn passes(&self, row: &Tuple) -> bool {
        has_values(
            self.schema,
            self.columns.as_slice(),
            self.values.as_slice(),
            row,
        )
    }

    fn fixed(&self, name: &Str) -> Option<&Value> {
        if self.columns.len() != self.values.len() {
            return None;
        }
        value_at(self.columns.as_slice(), self.values.as_slice(), name)
    }
}

/// The record keys of the rows of a relation that have these values, in rising order; none where the relation or a column
/// isn't there. Where they are the key columns of a tree, the row of their record key alone is read; else all rows are.
pub fn find_keys<S: PageSpace, B: Boxes>(
    space: &mut S,
    alloc: Global,
    boxes: &B,
    place: Place,
    relation: &Str,
    columns: &Names,
    values: &Tuple,
) -> Result<Keys, SpaceFault>
    requires ready { S.is_ready space.old }
    requires owner { place.owner ≡ 2 }

    ensures keys { IfOk result (λ keys. (want : Wanted) (s : Slots) (kept : List Kept) → S.has want s space.old
        → Tables (B.meanings boxes.now) IsDurable place.root s kept
        → keys ≡ keys_with (db_of kept) relation.now columns.now values.now) }
    ensures are_keys { IfOk result (λ keys. All (λ key. is_record_key key ≡ true) keys) }
    ensures undamaged { IfErr result (λ e. (want : Wanted) (s : Slots) (kept : List Kept) → S.has want s space.old
        → Tables (B.meanings boxes.now) IsDurable place.root s kept
        → StandRules (B.meanings boxes.now) IsDurable (db_of kept) kept → IsSound e) }
    ensures looks { Looks S.has S.leads S.fails space.old space.new result }
    ensures ready { S.is_ready space.new }
{
    let Some(opened) = open_relation(space, alloc, boxes, place, relation)? else {
        return Ok(Keys::new(alloc));
    };
    let schema = &opened.table.schema;
    if !has_columns(schema, columns.as_slice()) {
        return Ok(Keys::new(alloc));
    }
    let test = ValueTest {
        schema,
        columns,
        values,
    };
    keys_where(space, alloc, boxes, &opened.table, &test)
}
