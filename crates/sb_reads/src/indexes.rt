//! Attachments of a relation that is open, by their names: rows by an index, and contents.

ghost use Rattle.std.specs.Prelude.{◌≡◌, ◌++◌, [], true, filter_map, is_some, find, option_and_then, option_copied, option_map, bytes_eq, OnOk, IfOk, IfErr};
ghost use Rattle.sb_relation.specs.Db.{Rows};
ghost use Rattle.sb_fold.specs.Extensions.{Extensions};
ghost use Rattle.sb_drive.specs.Slots.{Slots};
ghost use Rattle.sb_drive.specs.Spaces.{Wanted};
ghost use Rattle.sb_registry.specs.Boxes.{boxes_of};
ghost use Rattle.sb_registry.specs.Live.{IsLive};
ghost use Rattle.sb_registry.specs.Runs.{IsSound, Looks};
ghost use Rattle.sb_rows.specs.Live.{HasRows};
ghost use Rattle.sb_asking.specs.Opened.{IsOpen};
ghost use Rattle.sb_plain.specs.declared.reply.Reply.TheVariants.{Rows as Rowed, Entries as Listed};
ghost use Rattle.std.specs.List.{cons_option};
ghost use Rattle.sb_plain.specs.Reading.{image_at, index_columns, looked_up, rows_between};
ghost use Rattle.sb_plain.specs.Refusing.{is_lookup, is_range};
ghost use Rattle.sb_reads.specs.Reads.{row_of, IsAnswer};
ghost use Rattle.sb_reads.specs.Stores.{OnOpen, attachment_in, columns_of, instance_beside};

use crate::entries::{entries_within, image_of};
use crate::rows::rows_with;
use sb_asking::{OpenRelation, Place};
use sb_catalog::Attached;
use sb_codec::ordered_key;
use sb_ctx::Instance;
use sb_drive::{PageSpace, SpaceFault};
use sb_plain::{Reply, Rows};
use sb_registry::Boxes;
use sb_rows::get_row;
use sb_rule::Rule;
use sb_value::{Names, RecKey, Str, Tuple};
use std::alloc::{AllocError, Global};

/// The rows with these values in the columns of an index. All rows are read: the index may give them later, under the
/// same contract.
pub(crate) fn lookup<S: PageSpace, B: Boxes>(
    space: &mut S,
    alloc: Global,
    boxes: &B,
    place: Place,
    opened: &OpenRelation,
    name: &Str,
    values: &Tuple,
) -> Result<Reply, SpaceFault>
    requires ready { S.is_ready space.old }
    requires open { IsOpen (B.meanings boxes.now) opened.now }

    ensures reply { IfOk result (λ x. OnOpen S.has (B.meanings boxes.now) place.root space.old opened.now (λ db r.
        is_lookup r.schema (attachment_in r name.now) values.now ≡ true
        → x ≡ Rowed (looked_up db opened.now.name (index_columns (attachment_in r name.now)) values.now))) }
    ensures answer { IfOk result IsAnswer }
    ensures undamaged { IfErr result (λ e. OnOpen S.has (B.meanings boxes.now) place.root space.old opened.now (λ db r.
        is_lookup r.schema (attachment_in r name.now) values.now ≡ true → IsSound e)) }
    ensures looks { Looks S.has S.leads S.fails space.old space.new result }
    ensures ready { S.is_ready space.new }
{
    let Some(columns) = columns_named(opened.descriptor.attachments.as_slice(), name) else {
        return Err(SpaceFault::Damaged { page: place.root });
    };
    rows_with(space, alloc, boxes, &opened.table, columns, values)
}

/// The rows from low to high in the columns of a tree index, by its entries.
pub(crate) fn range<S: PageSpace, B: Boxes>(
    space: &mut S,
    alloc: Global,
    boxes: &B,
    place: Place,
    opened: &OpenRelation,
    name: &Str,
    low: &Tuple,
    high: &Tuple,
) -> Result<Reply, SpaceFault>
    requires ready { S.is_ready space.old }
    requires owner { place.owner ≡ 2 }
    requires open { IsOpen (B.meanings boxes.now) opened.now }

    ensures reply { IfOk result (λ x. OnOpen S.has (B.meanings boxes.now) place.root space.old opened.now (λ db r.
        is_range r.schema (attachment_in r name.now) low.now ≡ true
        → x ≡ Rowed (rows_between db opened.now.name (index_columns (attachment_in r name.now)) low.now high.now))) }
    ensures answer { IfOk result IsAnswer }
    ensures undamaged { IfErr result (λ e. OnOpen S.has (B.meanings boxes.now) place.root space.old opened.now (λ db r.
        is_range r.schema (attachment_in r name.now) low.now ≡ true → IsSound e)) }
    ensures looks { Looks S.has S.leads S.fails space.old space.new result }
    ensures ready { S.is_ready space.new }
{
    let Some(index) = instance_named(opened, name) else {
        return Err(SpaceFault::Damaged { page: place.root });
    };
    let low = ordered_key(alloc, low)?;
    let high = ordered_key(alloc, high)?;
    let entries = entries_within(space, alloc, boxes, place, index, &low, Some(&high))?;
    let rows = rows_of(space, alloc, boxes, &opened.table, &entries)?;
    Ok(Reply::Rows {
        rows: Rows::from_vec(rows),
    })
}

/// The rows of the entries' record keys, in the order of the entries.
fn rows_of<S: PageSpace, B: Boxes>(
    space: &mut S,
    alloc: Global,
    boxes: &B,
    table: &Instance,
    entries: &[(RecKey, RecKey)],
) -> Result<Vec<(RecKey, Tuple)>, SpaceFault>
    requires ready { S.is_ready space.old }
    requires live { IsLive (B.meanings boxes.now) table.now }

    ensures rows { IfOk result (λ found. (want : Wanted) (s : Slots) (rows : Rows) → S.has want s space.old
        → HasRows (B.meanings boxes.now) s table.now rows → found.items ≡ filter_map (row_of rows) entries.now) }
    ensures undamaged { IfErr result (λ e. (want : Wanted) (s : Slots) (rows : Rows) → S.has want s space.old
        → HasRows (B.meanings boxes.now) s table.now rows → IsSound e) }
    ensures looks { Looks S.has S.leads S.fails space.old space.new result }
    ensures ready { S.is_ready space.new }
{
    let mut found = Vec::new(alloc);
    'entries: for entry in entries {
        let row = get_row(space, alloc, boxes, table, &entry.1)?;
        add_row(&mut found, &entry.1, row)?;
    }
    Ok(found)
}

/// Adds the row of the key, where there is one.
fn add_row(
    found: &mut Vec<(RecKey, Tuple)>,
    key: &RecKey,
    row: Option<Tuple>,
) -> Result<(), AllocError>
    ensures { OnOk result (found.new.items ≡ found.old.items ++ cons_option (option_map (λ r. (key.now, r)) row) []) }
{
    if let Some(row) = row {
        found.push((key.copy()?, row))?;
    }
    Ok(())
}

/// What an attachment contains.
pub(crate) fn entries<S: PageSpace, B: Boxes>(
    space: &mut S,
    alloc: Global,
    boxes: &B,
    place: Place,
    opened: &OpenRelation,
    name: &Str,
) -> Result<Reply, SpaceFault>
    requires ready { S.is_ready space.old }
    requires owner { place.owner ≡ 2 }
    requires open { IsOpen (B.meanings boxes.now) opened.now }

    ensures reply { IfOk result (λ x. OnOpen S.has (B.meanings boxes.now) place.root space.old opened.now (λ db r.
        (ext : Extensions) → ext.boxes ≡ boxes_of (B.meanings boxes.now) → is_some (attachment_in r name.now) ≡ true
        → x ≡ Listed (image_at ext db opened.now.name (attachment_in r name.now)))) }
    ensures answer { IfOk result IsAnswer }
    ensures undamaged { IfErr result (λ e. OnOpen S.has (B.meanings boxes.now) place.root space.old opened.now (λ db r.
        is_some (attachment_in r name.now) ≡ true → IsSound e)) }
    ensures looks { Looks S.has S.leads S.fails space.old space.new result }
    ensures ready { S.is_ready space.new }
{
    let Some(inst) = instance_named(opened, name) else {
        return Err(SpaceFault::Damaged { page: place.root });
    };
    let image = image_of(space, alloc, boxes, place, inst)?;
    Ok(Reply::Entries { image })
}

/// The columns of the index of a name.
fn columns_named<'a>(attachments: &'a [Attached], name: &Str) -> Option<&'a Names>
    ensures { option_copied result ≡ option_and_then (λ a. columns_of a.rule) (find (λ a. bytes_eq a.name name.now) attachments.now) }
{
    match attached_named(attachments, name) {
        Some(attached) => columns_of(&attached.rule),
        None => None,
    }
}

fn attached_named<'a>(attachments: &'a [Attached], name: &Str) -> Option<&'a Attached>
    ensures { option_copied result ≡ find (λ a. bytes_eq a.name name.now) attachments.now }
{
    attachments.iter().find(|attached| attached.name == *name)
}

fn columns_of(rule: &Rule) -> Option<&Names>
    ensures { option_copied result ≡ columns_of rule.now }
{
    match rule {
        Rule::TreeIndex { columns, .. } | Rule::HashIndex { columns } => Some(columns),
        _ => None,
    }
}

/// The instance of the attachment of a name.
fn instance_named<'a>(opened: &'a OpenRelation, name: &Str) -> Option<&'a Instance>
    ensures { option_copied result ≡ instance_beside opened.now.descriptor.attachments opened.now.rules.items name.now }
{
    instance_beside(
        opened.descriptor.attachments.as_slice(),
        &opened.rules,
        name,
    )
}

fn instance_beside<'a>(
    attachments: &[Attached],
    rules: &'a [Instance],
    name: &Str,
) -> Option<&'a Instance>
    ensures { option_copied result ≡ instance_beside attachments.now rules.now name.now }
{
    let [attached, attachments @ ..] = attachments else {
        return None;
    };
    let [inst, rules @ ..] = rules else {
        return None;
    };
    if attached.name == *name {
        Some(inst)
    } else {
        instance_beside(attachments, rules, name)
    }
}
