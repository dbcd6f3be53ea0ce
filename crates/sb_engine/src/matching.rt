//! The rows that an action is of.

ghost use Rattle.std.specs.Prelude.{◌≡◌, ◌∷◌, [], List, All, IfOk, IfErr};
ghost use Rattle.std.specs.Option.{option_copied};
ghost use Rattle.sb_relation.specs.Rules.{has_values};
ghost use Rattle.sb_fold.specs.Fold.{matching};
ghost use Rattle.sb_fold.specs.Wishes.{const_of, is_match, pairs_of};
ghost use Rattle.sb_drive.specs.Slots.{Slots};
ghost use Rattle.sb_drive.specs.Spaces.{Wanted};
ghost use Rattle.sb_registry.specs.Runs.{IsSound, Looks};
ghost use Rattle.sb_standing.specs.Tables.{Kept, db_of};
ghost use Rattle.sb_asking.specs.Opened.{IsOpen};
ghost use Rattle.sb_engine.specs.Matching.{const_at};
ghost use Rattle.sb_engine.specs.Opening.{IsKeeping};
ghost use Rattle.sb_engine.specs.Working.{MayDo};

use crate::opening::open_at;
use sb_asking::{OpenRelation, Place};
use sb_drive::{PageSpace, SpaceFault};
use sb_kinds::relation_of;
use sb_pred::{Term, column_value};
use sb_registry::Boxes;
use sb_rule::Action;
use sb_standing::{RowTest, keys_where};
use sb_value::{RecKey, Schema, Str, Tuple, Value};
use std::alloc::Global;

/// Passes the rows whose columns have these values.
#[derive(Drop)]
struct MatchTest<'a> {
    schema: &'a Schema,
    pairs: &'a [(Str, Term)],
}

impl<'a> RowTest for MatchTest<'a> {
    ghost passes = { λ t row. is_match t.schema.now t.pairs.now row };

    ghost over = { λ t schema. t.schema.now ≡ schema };

    fn passes(&self, row: &Tuple) -> bool {
        is_match(self.schema, self.pairs, row)
    }

    fn fixed(&self, name: &Str) -> Option<&Value> {
        const_at(self.pairs, name)
    }
}

/// Whether each of these columns of a row has its value.
pub(crate) fn is_match(schema: &Schema, pairs: &[(Str, Term)], row: &Tuple) -> bool
    ensures { result ≡ is_match schema.now pairs.now row.now }
{
    match pairs {
        [pair, pairs @ ..] => {
            has_value(schema, &pair.0, &pair.1, row) && is_match(schema, pairs, row)
        }
        [] => true,
    }
}

/// The constant of the first of these columns of this name that has one.
fn const_at<'a>(pairs: &'a [(Str, Term)], name: &Str) -> Option<&'a Value>
    ensures { option_copied result ≡ const_at pairs.now name.now }
{
    let [pair, pairs @ ..] = pairs else {
        return None;
    };
    match &pair.1 {
        Term::Const(value) if pair.0 == *name => Some(value),
        _ => const_at(pairs, name),
    }
}

/// Whether the row has the value of a term in a column. What isn't there has the value of a term that is none.
fn has_value(schema: &Schema, name: &Str, term: &Term, row: &Tuple) -> bool
    ensures { result ≡ has_values schema.now (name.now ∷ []) (const_of term.now) row.now }
{
    match (column_value(schema, row, name), term) {
        (Some(value), Term::Const(given)) => value == given,
        (None, Term::Const(_)) => false,
        (Some(_), _) => false,
        (None, _) => true,
    }
}

/// The columns that the rows of an action have, each with its value.
pub(crate) fn pairs_of(action: &Action) -> &[(Str, Term)]
    ensures { result.now ≡ pairs_of action.now }
{
    match action {
        Action::Insert { .. } => &[],
        Action::Delete { pairs, .. } | Action::Set { pairs, .. } | Action::Add { pairs, .. } => {
            pairs.as_slice()
        }
    }
}

/// The record keys of the rows that an action is of, in rising order. Where its constants are those of the key columns of
/// a tree, the row of their record key alone is read; else all rows are.
pub(crate) fn keys_matching<S: PageSpace, B: Boxes>(
    space: &mut S,
    alloc: Global,
    boxes: &B,
    place: Place,
    opened: &[OpenRelation],
    action: &Action,
) -> Result<Vec<RecKey>, SpaceFault>
    requires ready { S.is_ready space.old }
    requires are_open { All (IsOpen (B.meanings boxes.now)) opened.now }
    requires may { MayDo opened.now action.now }

    ensures keys { IfOk result (λ keys. (want : Wanted) (s : Slots) (kept : List Kept)
        → IsKeeping S.has (B.meanings boxes.now) place.root want s kept space.old opened.now
        → keys.items ≡ matching (db_of kept) action.now) }
    ensures undamaged { IfErr result (λ e. (want : Wanted) (s : Slots) (kept : List Kept)
        → IsKeeping S.has (B.meanings boxes.now) place.root want s kept space.old opened.now
        → IsSound e) }
    ensures looks { Looks S.has S.leads S.fails space.old space.new result }
    ensures ready { S.is_ready space.new }
{
    let Some(one) = open_at(opened, relation_of(action)) else {
        unreachable!()
    };
    let test = MatchTest {
        schema: &one.table.schema,
        pairs: pairs_of(action),
    };
    let keys = keys_where(space, alloc, boxes, &one.table, &test)?;
    Ok(keys.into_vec())
}
