//! What is wished of one row: the edit that it comes to, and its end.

ghost use Rattle.std.specs.Prelude.{◌≡◌, true, Some, Err, IfOk, IfErr, IfSome};
ghost use Rattle.std.specs.Option.{option_copied};
ghost use Rattle.sb_cascade.specs.Wishes.{wish_of};
ghost use Rattle.sb_pred.specs.Columns.{column_kind};
ghost use Rattle.sb_relation.specs.Db.{Relation, Rows, row_at};
ghost use Rattle.sb_relation.specs.Keys.{is_record_key};
ghost use Rattle.sb_drive.specs.Slots.{Slots};
ghost use Rattle.sb_drive.specs.Spaces.{Wanted};
ghost use Rattle.sb_fold.specs.declared.refusal.Refusal.TheVariants as refusal;
ghost use Rattle.sb_fold.specs.Wishes.{edit_of, wished};
ghost use Rattle.sb_value.specs.declared.schema.Kind.TheVariants as kind;
ghost use Rattle.sb_registry.specs.Live.{IsLive};
ghost use Rattle.sb_registry.specs.Runs.{IsSound, Looks, Works};
ghost use Rattle.sb_standing.specs.Lacking.{WhereShort};
ghost use Rattle.sb_standing.specs.Live.{HasRows};
ghost use Rattle.sb_standing.specs.Tables.{IsWide};
ghost use Rattle.sb_value.specs.Fits.{Fits};
ghost use Rattle.sb_wishes.specs.Edits.{GivesEdit, IsEditOf, MayBeEdit, edit_in, edit_raised};
ghost use Rattle.sb_wishes.specs.Outcomes.{Begins, Comes, LacksPage, Meets};
ghost use Rattle.sb_wishes.specs.Wished.{IsTableOf, MayBeWished, NamesKey, key_in, row_wished};
ghost use Rattle.sb_cascade.specs.Runs.{IsQuiet};

use crate::raising::raised;
use crate::settling::{Edit, Outcome, settle};
use sb_cascade::Wish;
use sb_catalog::Attached;
use sb_ctx::Instance;
use sb_drive::{PageSpace, SpaceFault};
use sb_fold::Refusal;
use sb_registry::Boxes;
use sb_standing::get_row;
use sb_value::{RecKey, Str, Tuple};
use std::alloc::{AllocError, Global};

/// The bytes of a record key at most.
const MOST_KEY: usize = 200;

/// Carries out what is wished of one row of a relation, with the rules of its attachments. Over pages that aren't formed it
/// may be refused for any reason.
pub fn carry_out<S: PageSpace, B: Boxes>(
    space: &mut S,
    alloc: Global,
    boxes: &B,
    table: &Instance,
    rules: &[Attached],
    wish: &Wish,
) -> Result<Outcome, SpaceFault>
    requires ready { S.is_ready space.old }
    requires live { IsLive (B.meanings boxes.now) table.now }
    requires wide { IsWide table.now.schema }
    requires fits { MayBeWished table.now.schema (wish_of wish.now) }

    ensures comes { IfOk result (λ out. (want : Wanted) (s : Slots) (r : Relation) → S.has want s space.old
        → IsTableOf table.now rules.now r → (has : HasRows (B.meanings boxes.now) s table.now r.rows)
        → Comes S.has S.leads (B.meanings boxes.now) table.now want s space.old space.new r has
        (wished table.now.relation r (wish_of wish.now)) out) }
    ensures meets { IfOk result (Meets table.now.schema rules.now) }
    ensures works { Works S.has S.leads S.fails S.durable S.total table.now.owner space.old space.new result }
    ensures undamaged { IfErr result (λ e. (want : Wanted) (s : Slots) (rows : Rows) → S.has want s space.old
        → HasRows (B.meanings boxes.now) s table.now rows → IsSound e) }
    ensures full { IfErr result (λ e. (want : Wanted) (s : Slots) (r : Relation) → S.has want s space.old
        → IsTableOf table.now rules.now r → (has : HasRows (B.meanings boxes.now) s table.now r.rows)
        → WhereShort e (LacksPage S.leads (B.meanings boxes.now) s table.now r has (wished table.now.relation r (wish_of wish.now)) space.old space.new)) }
    ensures begins { IfErr result (λ e. (want : Wanted) (s : Slots) (r : Relation) → S.has want s space.old
        → IsTableOf table.now rules.now r → (has : HasRows (B.meanings boxes.now) s table.now r.rows)
        → Begins S.leads (B.meanings boxes.now) s table.now r has (wished table.now.relation r (wish_of wish.now)) space.old space.new) }
    ensures ready { S.is_ready space.new }
{
    let old = find_old(space, alloc, boxes, table, wish)?;
    match edit_of(table, wish, old)? {
        Ok(edit) => settle(space, alloc, boxes, table, rules, edit),
        Err(refusal) => Ok(Outcome::Refused(refusal)),
    }
}

/// The row that a wish is of, where there is one. No row has a key that is too long.
fn find_old<S: PageSpace, B: Boxes>(
    space: &mut S,
    alloc: Global,
    boxes: &B,
    table: &Instance,
    wish: &Wish,
) -> Result<Option<Tuple>, SpaceFault>
    requires ready { S.is_ready space.old }
    requires live { IsLive (B.meanings boxes.now) table.now }

    ensures old { IfOk result (λ old. (want : Wanted) (s : Slots) (rows : Rows) → S.has want s space.old
        → HasRows (B.meanings boxes.now) s table.now rows → old ≡ row_wished rows (wish_of wish.now)) }
    ensures fits { IfOk result (λ old. IfSome old (Fits table.now.schema)) }
    ensures key { IfOk result (λ old. IfSome old (λ _. NamesKey (wish_of wish.now))) }
    ensures looks { Looks S.has S.leads S.fails space.old space.new result }
    ensures undamaged { IfErr result (λ e. (want : Wanted) (s : Slots) (rows : Rows) → S.has want s space.old
        → HasRows (B.meanings boxes.now) s table.now rows → IsSound e) }
    ensures ready { S.is_ready space.new }
{
    let Some(key) = key_in(wish) else {
        return Ok(None);
    };
    if key.len() > MOST_KEY {
        return Ok(None);
    }
    get_row(space, alloc, boxes, table, key)
}

/// The record key that a wish names.
fn key_in(wish: &Wish) -> Option<&RecKey>
    ensures { option_copied result ≡ key_in (wish_of wish.now) }
{
    match wish {
        Wish::Put(_) => None,
        Wish::Remove(key) | Wish::Replace(key, _) | Wish::Raise(key, _, _) => Some(key),
    }
}

/// The edit that a wish comes to, with the row that it is of; or why there is none.
fn edit_of(
    table: &Instance,
    wish: &Wish,
    old: Option<Tuple>,
) -> Result<Result<Edit, Refusal>, AllocError>
    requires may { MayBeWished table.now.schema (wish_of wish.now) }
    requires fits { IfSome old (Fits table.now.schema) }
    requires key { IfSome old (λ _. NamesKey (wish_of wish.now)) }

    ensures gives { IfOk result (λ found. (r : Relation) → r.schema ≡ table.now.schema → old ≡ row_wished r.rows (wish_of wish.now)
        → GivesEdit (edit_of table.now.relation r (wish_of wish.now)) found) }
    ensures of { IfOk result (λ found. IfOk found (λ edit. (rows : Rows) → old ≡ row_wished rows (wish_of wish.now)
        → IsEditOf rows (edit_in edit))) }
    ensures may { IfOk result (λ found. IfOk found (λ edit. MayBeEdit table.now.schema (edit_in edit))) }
    ensures quiet { IfOk result (λ found. IfErr found IsQuiet) }
{
    match wish {
        Wish::Put(row) => Ok(Ok(Edit::Adds(row.copy()?))),
        Wish::Remove(key) => match old {
            Some(old) => Ok(Ok(Edit::Takes(key.copy()?, old))),
            None => no_record(table),
        },
        Wish::Replace(key, row) => match old {
            Some(old) => Ok(Ok(Edit::Turns(key.copy()?, old, row.copy()?))),
            None => no_record(table),
        },
        Wish::Raise(key, column, by) => match old {
            Some(old) => raise(table, key, old, column, *by),
            None => no_record(table),
        },
    }
}

fn no_record(table: &Instance) -> Result<Result<Edit, Refusal>, AllocError>
    ensures { IfOk result (λ found. found ≡ Err (refusal.NoRecord table.now.relation)) }
{
    Ok(Err(Refusal::NoRecord {
        relation: table.relation.copy()?,
    }))
}

/// The edit of a row whose column gets so much more.
fn raise(
    table: &Instance,
    key: &RecKey,
    old: Tuple,
    column: &Str,
    by: i64,
) -> Result<Result<Edit, Refusal>, AllocError>
    requires fits { Fits table.now.schema old }
    requires key { is_record_key key.now ≡ true }
    requires number { column_kind table.now.schema column.now ≡ Some kind.Int }

    ensures gives { IfOk result (GivesEdit (edit_raised table.now.relation table.now.schema key.now column.now by old)) }
    ensures of { IfOk result (λ found. IfOk found (λ edit. (rows : Rows) → row_at rows key.now ≡ Some old → IsEditOf rows (edit_in edit))) }
    ensures may { IfOk result (λ found. IfOk found (λ edit. MayBeEdit table.now.schema (edit_in edit))) }
    ensures quiet { IfOk result (λ found. IfErr found IsQuiet) }
{
    match raised(&table.schema, &old, column, by)? {
        Some(new) => Ok(Ok(Edit::Turns(key.copy()?, old, new))),
        None => Ok(Err(Refusal::Range {
            relation: table.relation.copy()?,
        })),
    }
}
