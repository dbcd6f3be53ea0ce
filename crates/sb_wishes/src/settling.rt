//! An edit of one row, as the relation's storage method makes it.

ghost use Rattle.std.specs.Prelude.{◌≡◌, IfOk, IfErr};
ghost use Rattle.sb_relation.specs.Db.{Relation, Rows};
ghost use Rattle.sb_drive.specs.Slots.{Slots};
ghost use Rattle.sb_drive.specs.Spaces.{Wanted};
ghost use Rattle.sb_fold.specs.Wishes.{Adds, Takes, Turns};
ghost use Rattle.sb_registry.specs.Live.{IsLive};
ghost use Rattle.sb_registry.specs.Runs.{IsSound, Works};
ghost use Rattle.sb_standing.specs.Lacking.{WhereShort};
ghost use Rattle.sb_standing.specs.Live.{HasRows};
ghost use Rattle.sb_standing.specs.Tables.{IsWide};
ghost use Rattle.sb_wishes.specs.Edits.{IsEditOf, MayBeEdit, added, edit_in, settled, taken, turned};
ghost use Rattle.sb_wishes.specs.Outcomes.{Begins, Comes, LacksPage, Meets};
ghost use Rattle.sb_wishes.specs.Wished.{IsTableOf};

use crate::lengths::is_too_long;
use sb_catalog::Attached;
use sb_ctx::Instance;
use sb_drive::{PageSpace, SpaceFault};
use sb_fold::Refusal;
use sb_registry::Boxes;
use sb_rule::Change;
use sb_standing::{Placing, delete_row, insert_row, update_row};
use sb_value::{RecKey, Str, Tuple};
use std::alloc::Global;

/// What a wish comes to: a change that was made, or why there is none.
#[derive(Drop)]
pub enum Outcome {
    Made(Change),
    Refused(Refusal),
}

/// The row that comes, the one that goes, or both.
#[derive(Drop)]
pub(crate) enum Edit {
    Adds(Tuple),
    Takes(RecKey, Tuple),
    Turns(RecKey, Tuple, Tuple),
}

/// Makes an edit.
pub(crate) fn settle<S: PageSpace, B: Boxes>(
    space: &mut S,
    alloc: Global,
    boxes: &B,
    table: &Instance,
    rules: &[Attached],
    edit: Edit,
) -> Result<Outcome, SpaceFault>
    requires ready { S.is_ready space.old }
    requires live { IsLive (B.meanings boxes.now) table.now }
    requires wide { IsWide table.now.schema }
    requires may { MayBeEdit table.now.schema (edit_in edit) }

    ensures comes { IfOk result (λ out. (want : Wanted) (s : Slots) (r : Relation) → S.has want s space.old
        → IsTableOf table.now rules.now r → (has : HasRows (B.meanings boxes.now) s table.now r.rows) → IsEditOf r.rows (edit_in edit)
        → Comes S.has S.leads (B.meanings boxes.now) table.now want s space.old space.new r has
        (settled table.now.relation r (edit_in edit)) out) }
    ensures meets { IfOk result (Meets table.now.schema rules.now) }
    ensures works { Works S.has S.leads S.fails S.durable S.total table.now.owner space.old space.new result }
    ensures undamaged { IfErr result (λ e. (want : Wanted) (s : Slots) (rows : Rows) → S.has want s space.old
        → HasRows (B.meanings boxes.now) s table.now rows → IsSound e) }
    ensures full { IfErr result (λ e. (want : Wanted) (s : Slots) (r : Relation) → S.has want s space.old
        → IsTableOf table.now rules.now r → (has : HasRows (B.meanings boxes.now) s table.now r.rows)
        → IsEditOf r.rows (edit_in edit)
        → WhereShort e (LacksPage S.leads (B.meanings boxes.now) s table.now r has (settled table.now.relation r (edit_in edit)) space.old space.new)) }
    ensures begins { IfErr result (λ e. (want : Wanted) (s : Slots) (r : Relation) → S.has want s space.old
        → IsTableOf table.now rules.now r → (has : HasRows (B.meanings boxes.now) s table.now r.rows)
        → IsEditOf r.rows (edit_in edit)
        → Begins S.leads (B.meanings boxes.now) s table.now r has (settled table.now.relation r (edit_in edit)) space.old space.new) }
    ensures ready { S.is_ready space.new }
{
    match edit {
        Edit::Adds(new) => add(space, alloc, boxes, table, rules, new),
        Edit::Takes(key, old) => take(space, alloc, boxes, table, rules, key, old),
        Edit::Turns(key, old, new) => turn(space, alloc, boxes, table, rules, key, old, new),
    }
}

/// Adds a row.
fn add<S: PageSpace, B: Boxes>(
    space: &mut S,
    alloc: Global,
    boxes: &B,
    table: &Instance,
    rules: &[Attached],
    new: Tuple,
) -> Result<Outcome, SpaceFault>
    requires ready { S.is_ready space.old }
    requires live { IsLive (B.meanings boxes.now) table.now }
    requires wide { IsWide table.now.schema }
    requires may { MayBeEdit table.now.schema (Adds new) }

    ensures comes { IfOk result (λ out. (want : Wanted) (s : Slots) (r : Relation) → S.has want s space.old
        → IsTableOf table.now rules.now r → (has : HasRows (B.meanings boxes.now) s table.now r.rows)
        → Comes S.has S.leads (B.meanings boxes.now) table.now want s space.old space.new r has
        (settled table.now.relation r (Adds new)) out) }
    ensures meets { IfOk result (Meets table.now.schema rules.now) }
    ensures works { Works S.has S.leads S.fails S.durable S.total table.now.owner space.old space.new result }
    ensures undamaged { IfErr result (λ e. (want : Wanted) (s : Slots) (rows : Rows) → S.has want s space.old
        → HasRows (B.meanings boxes.now) s table.now rows → IsSound e) }
    ensures full { IfErr result (λ e. (want : Wanted) (s : Slots) (r : Relation) → S.has want s space.old
        → IsTableOf table.now rules.now r → (has : HasRows (B.meanings boxes.now) s table.now r.rows)
        → WhereShort e (LacksPage S.leads (B.meanings boxes.now) s table.now r has (settled table.now.relation r (Adds new)) space.old space.new)) }
    ensures begins { IfErr result (λ e. (want : Wanted) (s : Slots) (r : Relation) → S.has want s space.old
        → IsTableOf table.now rules.now r → (has : HasRows (B.meanings boxes.now) s table.now r.rows)
        → Begins S.leads (B.meanings boxes.now) s table.now r has (settled table.now.relation r (Adds new)) space.old space.new) }
    ensures ready { S.is_ready space.new }
{
    let relation = table.relation.copy()?;
    if is_too_long(table, rules, &new) {
        return Ok(Outcome::Refused(Refusal::TooLong { relation }));
    }
    let row = new.copy()?;
    let placed = insert_row(space, alloc, boxes, table, row)?;
    Ok(added(relation, new, placed))
}

/// What comes of a row that was added.
fn added(relation: Str, new: Tuple, placed: Placing) -> Outcome
    ensures { result ≡ added relation new placed }
{
    match placed {
        Placing::Key(key) => Outcome::Made(Change::Insert { key, new }),
        Placing::Duplicate => Outcome::Refused(Refusal::Duplicate { relation }),
        Placing::Range => Outcome::Refused(Refusal::Range { relation }),
    }
}

/// Takes a row away.
fn take<S: PageSpace, B: Boxes>(
    space: &mut S,
    alloc: Global,
    boxes: &B,
    table: &Instance,
    rules: &[Attached],
    key: RecKey,
    old: Tuple,
) -> Result<Outcome, SpaceFault>
    requires ready { S.is_ready space.old }
    requires live { IsLive (B.meanings boxes.now) table.now }
    requires may { MayBeEdit table.now.schema (Takes key old) }

    ensures comes { IfOk result (λ out. (want : Wanted) (s : Slots) (r : Relation) → S.has want s space.old
        → (has : HasRows (B.meanings boxes.now) s table.now r.rows) → IsEditOf r.rows (Takes key old)
        → Comes S.has S.leads (B.meanings boxes.now) table.now want s space.old space.new r has
        (settled table.now.relation r (Takes key old)) out) }
    ensures meets { IfOk result (Meets table.now.schema rules.now) }
    ensures works { Works S.has S.leads S.fails S.durable S.total table.now.owner space.old space.new result }
    ensures undamaged { IfErr result (λ e. (want : Wanted) (s : Slots) (rows : Rows) → S.has want s space.old
        → HasRows (B.meanings boxes.now) s table.now rows → IsSound e) }
    ensures full { IfErr result (λ e. (want : Wanted) (s : Slots) (r : Relation) → S.has want s space.old
        → (has : HasRows (B.meanings boxes.now) s table.now r.rows)
        → IsEditOf r.rows (Takes key old)
        → WhereShort e (LacksPage S.leads (B.meanings boxes.now) s table.now r has (settled table.now.relation r (Takes key old)) space.old space.new)) }
    ensures begins { IfErr result (λ e. (want : Wanted) (s : Slots) (r : Relation) → S.has want s space.old
        → (has : HasRows (B.meanings boxes.now) s table.now r.rows) → IsEditOf r.rows (Takes key old)
        → Begins S.leads (B.meanings boxes.now) s table.now r has (settled table.now.relation r (Takes key old)) space.old space.new) }
    ensures ready { S.is_ready space.new }
{
    let relation = table.relation.copy()?;
    let at = key.copy()?;
    let gone = delete_row(space, alloc, boxes, table, at)?;
    Ok(taken(relation, key, old, gone))
}

/// What comes of a row that was to be taken away.
fn taken(relation: Str, key: RecKey, old: Tuple, gone: bool) -> Outcome
    ensures { result ≡ taken relation key old gone }
{
    if gone {
        Outcome::Made(Change::Delete { key, old })
    } else {
        Outcome::Refused(Refusal::NoRecord { relation })
    }
}

/// Turns a row into another.
fn turn<S: PageSpace, B: Boxes>(
    space: &mut S,
    alloc: Global,
    boxes: &B,
    table: &Instance,
    rules: &[Attached],
    key: RecKey,
    old: Tuple,
    new: Tuple,
) -> Result<Outcome, SpaceFault>
    requires ready { S.is_ready space.old }
    requires live { IsLive (B.meanings boxes.now) table.now }
    requires wide { IsWide table.now.schema }
    requires may { MayBeEdit table.now.schema (Turns key old new) }

    ensures comes { IfOk result (λ out. (want : Wanted) (s : Slots) (r : Relation) → S.has want s space.old
        → IsTableOf table.now rules.now r → (has : HasRows (B.meanings boxes.now) s table.now r.rows) → IsEditOf r.rows (Turns key old new)
        → Comes S.has S.leads (B.meanings boxes.now) table.now want s space.old space.new r has
        (settled table.now.relation r (Turns key old new)) out) }
    ensures meets { IfOk result (Meets table.now.schema rules.now) }
    ensures works { Works S.has S.leads S.fails S.durable S.total table.now.owner space.old space.new result }
    ensures undamaged { IfErr result (λ e. (want : Wanted) (s : Slots) (rows : Rows) → S.has want s space.old
        → HasRows (B.meanings boxes.now) s table.now rows → IsSound e) }
    ensures full { IfErr result (λ e. (want : Wanted) (s : Slots) (r : Relation) → S.has want s space.old
        → IsTableOf table.now rules.now r → (has : HasRows (B.meanings boxes.now) s table.now r.rows)
        → IsEditOf r.rows (Turns key old new)
        → WhereShort e (LacksPage S.leads (B.meanings boxes.now) s table.now r has (settled table.now.relation r (Turns key old new)) space.old space.new)) }
    ensures begins { IfErr result (λ e. (want : Wanted) (s : Slots) (r : Relation) → S.has want s space.old
        → IsTableOf table.now rules.now r → (has : HasRows (B.meanings boxes.now) s table.now r.rows) → IsEditOf r.rows (Turns key old new)
        → Begins S.leads (B.meanings boxes.now) s table.now r has (settled table.now.relation r (Turns key old new)) space.old space.new) }
    ensures ready { S.is_ready space.new }
{
    let relation = table.relation.copy()?;
    if is_too_long(table, rules, &new) {
        return Ok(Outcome::Refused(Refusal::TooLong { relation }));
    }
    let at = key.copy()?;
    let row = new.copy()?;
    let placed = update_row(space, alloc, boxes, table, at, row)?;
    Ok(turned(relation, key, old, new, placed))
}

/// What comes of a row that was to be turned into another.
fn turned(relation: Str, from: RecKey, old: Tuple, new: Tuple, placed: Option<Placing>) -> Outcome
    ensures { result ≡ turned relation from old new placed }
{
    match placed {
        Some(Placing::Key(to)) => Outcome::Made(Change::Update { from, old, to, new }),
        Some(Placing::Duplicate) => Outcome::Refused(Refusal::Duplicate { relation }),
        Some(Placing::Range) => Outcome::Refused(Refusal::Range { relation }),
        None => Outcome::Refused(Refusal::NoRecord { relation }),
    }
}
