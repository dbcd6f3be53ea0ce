//! The first deferred rule that doesn't hold, by the entries that wait.

ghost use Rattle.std.specs.Prelude.{◌≡◌, ℕ, ◌&&◌, true, cond, List, None, Some, IfOk, IfErr, bytes_eq, option_copied, option_map};
ghost use Rattle.std.specs.List.{slice_get};
ghost use Rattle.sb_relation.specs.Build.{mirror_name};
ghost use Rattle.sb_fold.specs.Finish.{fails_late, first_failing, is_tested_late};
ghost use Rattle.sb_fold.specs.Outcome.{Entry};
ghost use Rattle.sb_deferred.specs.Complete.{AreMirrored, IsComplete};
ghost use Rattle.sb_deferred.specs.Waiting.{check_of};
ghost use Rattle.sb_registry.specs.Runs.{IsSound, Looks};
ghost use Rattle.sb_standing.specs.Tables.{db_of, first_above};
ghost use Rattle.sb_asking.specs.Opened.{IsOpen};
ghost use Rattle.sb_engine.specs.Failing.{OfAttached, OverKept, TellsOwn, first_late, is_own};
ghost use Rattle.sb_engine.specs.Working.{IsOpened, extensions_of};

use crate::late::{attached_at, entry_fails};
use crate::waiting::some_entry_fails;
use sb_asking::{OpenRelation, Place, next_relation};
use sb_deferred::Queue;
use sb_drive::{PageSpace, SpaceFault};
use sb_registry::Boxes;
use sb_rule::{Rule, Side};
use sb_value::Str;
use std::alloc::Global;

/// More relations than a catalogue has.
const MOST_RELATIONS: u64 = 1 << 48;

/// The relation and the name of the first deferred rule that doesn't hold, by the entries that wait. The relations are read only where
/// an entry is vetoed.
pub(crate) fn first_failing<S: PageSpace, B: Boxes>(
    space: &mut S,
    alloc: Global,
    boxes: &B,
    place: Place,
    queue: &Queue,
) -> Result<Option<(Str, Str)>, SpaceFault>
    requires ready { S.is_ready space.old }
    requires owner { place.owner ≡ 2 }

    ensures found { IfOk result (λ x. OverKept S.has (B.meanings boxes.now) place.root space.old (λ kept.
        AreMirrored (db_of kept) → IsComplete (db_of kept) queue.now
        → x ≡ first_failing (extensions_of (B.meanings boxes.now)) (db_of kept) (db_of kept))) }
    ensures undamaged { IfErr result (λ e. OverKept S.has (B.meanings boxes.now) place.root space.old (λ kept.
        IsComplete (db_of kept) queue.now → IsSound e)) }
    ensures looks { Looks S.has S.leads S.fails space.old space.new result }
    ensures ready { S.is_ready space.new }
{
    if some_entry_fails(space, alloc, boxes, place, queue)? {
        return first_rule(space, alloc, boxes, place, queue);
    }
    Ok(None)
}

/// The same by the relations one after the other.
fn first_rule<S: PageSpace, B: Boxes>(
    space: &mut S,
    alloc: Global,
    boxes: &B,
    place: Place,
    queue: &Queue,
) -> Result<Option<(Str, Str)>, SpaceFault>
    requires ready { S.is_ready space.old }
    requires owner { place.owner ≡ 2 }

    ensures found { IfOk result (λ x. OverKept S.has (B.meanings boxes.now) place.root space.old (λ kept. IsComplete (db_of kept) queue.now
        → x ≡ first_failing (extensions_of (B.meanings boxes.now)) (db_of kept) (db_of kept))) }
    ensures undamaged { IfErr result (λ e. OverKept S.has (B.meanings boxes.now) place.root space.old (λ kept.
        IsComplete (db_of kept) queue.now → IsSound e)) }
    ensures looks { Looks S.has S.leads S.fails space.old space.new result }
    ensures ready { S.is_ready space.new }
{
    let mut last = None;
    'relations: for _ in 0..MOST_RELATIONS {
        let Some((relation, failing)) = next_failing(
            space,
            alloc,
            boxes,
            place,
            last.as_ref(),
            queue,
        )?
        else {
            return Ok(None);
        };
        if let Some(name) = failing {
            return Ok(Some((relation, name)));
        }
        last = Some(relation);
    }
    Err(SpaceFault::Damaged { page: place.root })
}

/// The first relation behind a name, or of all, with its first deferred rule that doesn't hold.
fn next_failing<S: PageSpace, B: Boxes>(
    space: &mut S,
    alloc: Global,
    boxes: &B,
    place: Place,
    after: Option<&Str>,
    queue: &Queue,
) -> Result<Option<(Str, Option<Str>)>, SpaceFault>
    requires ready { S.is_ready space.old }
    requires owner { place.owner ≡ 2 }

    ensures found { IfOk result (λ x. OverKept S.has (B.meanings boxes.now) place.root space.old (λ kept. IsComplete (db_of kept) queue.now
        → x ≡ option_map (λ k. (k.name, first_late (extensions_of (B.meanings boxes.now)) (db_of kept) k))
        (first_above (option_copied after.entry) kept))) }
    ensures undamaged { IfErr result (λ e. OverKept S.has (B.meanings boxes.now) place.root space.old (λ kept. IsSound e)) }
    ensures looks { Looks S.has S.leads S.fails space.old space.new result }
    ensures ready { S.is_ready space.new }
{
    let Some(one) = next_relation(space, alloc, boxes, place, after)? else {
        return Ok(None);
    };
    let failing = first_late(space, alloc, boxes, place, &one, queue)?;
    Ok(Some((one.name, failing)))
}

/// The name of the first deferred rule of an open relation that doesn't hold.
fn first_late<S: PageSpace, B: Boxes>(
    space: &mut S,
    alloc: Global,
    boxes: &B,
    place: Place,
    one: &OpenRelation,
    queue: &Queue,
) -> Result<Option<Str>, SpaceFault>
    requires ready { S.is_ready space.old }
    requires owner { place.owner ≡ 2 }
    requires is_open { IsOpen (B.meanings boxes.now) one.now }

    ensures found { IfOk result (λ x. OverKept S.has (B.meanings boxes.now) place.root space.old (λ kept.
        (is : IsOpened (B.meanings boxes.now) kept one.now) → IsComplete (db_of kept) queue.now
        → x ≡ first_late (extensions_of (B.meanings boxes.now)) (db_of kept) is.one)) }
    ensures undamaged { IfErr result (λ e. OverKept S.has (B.meanings boxes.now) place.root space.old (λ kept.
        IsOpened (B.meanings boxes.now) kept one.now → IsSound e)) }
    ensures looks { Looks S.has S.leads S.fails space.old space.new result }
    ensures ready { S.is_ready space.new }
{
    for i in 0..one.rules.len() {
        if let Some(name) = late_at(space, alloc, boxes, place, one, i, queue)? {
            return Ok(Some(name));
        }
    }
    Ok(None)
}

/// The name of the attachment in this place, if its rule is tested at the commit and doesn't hold.
fn late_at<S: PageSpace, B: Boxes>(
    space: &mut S,
    alloc: Global,
    boxes: &B,
    place: Place,
    one: &OpenRelation,
    i: usize,
    queue: &Queue,
) -> Result<Option<Str>, SpaceFault>
    requires ready { S.is_ready space.old }
    requires owner { place.owner ≡ 2 }
    requires is_open { IsOpen (B.meanings boxes.now) one.now }

    ensures found { IfOk result (λ x. OverKept S.has (B.meanings boxes.now) place.root space.old (λ kept.
        OfAttached (B.meanings boxes.now) kept one.now i (λ a. IsComplete (db_of kept) queue.now
        → x ≡ cond (fails_late (extensions_of (B.meanings boxes.now)) (db_of kept) one.now.name a) (Some a.name) None))) }
    ensures undamaged { IfErr result (λ e. OverKept S.has (B.meanings boxes.now) place.root space.old (λ kept.
        IsOpened (B.meanings boxes.now) kept one.now → IsSound e)) }
    ensures looks { Looks S.has S.leads S.fails space.old space.new result }
    ensures ready { S.is_ready space.new }
{
    let Some(attached) = attached_at(one, i) else {
        return Ok(None);
    };
    if !is_tested_late(&attached.rule) {
        return Ok(None);
    }
    let name = attached.name.copy()?;
    if rule_fails(space, alloc, boxes, place, one, i, queue)? {
        return Ok(Some(name));
    }
    Ok(None)
}

/// Whether the rule in this place, which is tested at the commit, doesn't hold.
fn rule_fails<S: PageSpace, B: Boxes>(
    space: &mut S,
    alloc: Global,
    boxes: &B,
    place: Place,
    one: &OpenRelation,
    i: usize,
    queue: &Queue,
) -> Result<bool, SpaceFault>
    requires ready { S.is_ready space.old }
    requires owner { place.owner ≡ 2 }
    requires is_open { IsOpen (B.meanings boxes.now) one.now }

    ensures fails { IfOk result (λ fails. OverKept S.has (B.meanings boxes.now) place.root space.old (λ kept.
        OfAttached (B.meanings boxes.now) kept one.now i (λ a. IsComplete (db_of kept) queue.now → is_tested_late a.rule ≡ true
        → fails_late (extensions_of (B.meanings boxes.now)) (db_of kept) one.now.name a ≡ fails))) }
    ensures undamaged { IfErr result (λ e. OverKept S.has (B.meanings boxes.now) place.root space.old (λ kept.
        IsOpened (B.meanings boxes.now) kept one.now → IsSound e)) }
    ensures looks { Looks S.has S.leads S.fails space.old space.new result }
    ensures ready { S.is_ready space.new }
{
    for j in 0..queue.checks() {
        if own_fails(space, alloc, boxes, place, one, i, queue, j)? {
            return Ok(true);
        }
    }
    Ok(false)
}

/// Whether the entry that came as the j-th is one of the attachment's and is vetoed.
fn own_fails<S: PageSpace, B: Boxes>(
    space: &mut S,
    alloc: Global,
    boxes: &B,
    place: Place,
    one: &OpenRelation,
    i: usize,
    queue: &Queue,
    j: usize,
) -> Result<bool, SpaceFault>
    requires ready { S.is_ready space.old }
    requires owner { place.owner ≡ 2 }
    requires is_open { IsOpen (B.meanings boxes.now) one.now }

    ensures tells { IfOk result (λ fails. OverKept S.has (B.meanings boxes.now) place.root space.old (λ kept.
        OfAttached (B.meanings boxes.now) kept one.now i (λ a. (e : Entry) → slice_get queue.now.entries j ≡ Some e
        → TellsOwn (db_of kept) one.now.name a e fails))) }
    ensures undamaged { IfErr result (λ e. OverKept S.has (B.meanings boxes.now) place.root space.old (λ kept.
        IsOpened (B.meanings boxes.now) kept one.now → IsSound e)) }
    ensures looks { Looks S.has S.leads S.fails space.old space.new result }
    ensures ready { S.is_ready space.new }
{
    let Some((relation, label, entry)) = queue.check(j as u64) else {
        return Ok(false);
    };
    let Some(attached) = attached_at(one, i) else {
        return Ok(false);
    };
    if is_own(&one.name, &attached.name, &attached.rule, relation, label) {
        return entry_fails(space, alloc, boxes, place, one, i, entry);
    }
    Ok(false)
}

/// Whether a rule is tested at the commit.
fn is_tested_late(rule: &Rule) -> bool
    ensures { result ≡ is_tested_late rule.now }
{
    match rule {
        Rule::Check { deferred, .. } => *deferred,
        Rule::Refers {
            side: Side::Main,
            deferred,
            ..
        } => *deferred,
        _ => false,
    }
}

/// Whether the entries of this label, a relation's attachment, are those of the attachment of a relation, or of the mirror of its
/// refers.
fn is_own(name: &Str, attached: &Str, rule: &Rule, relation: &Str, label: &Str) -> bool
    ensures { (entry : List ℕ) → result ≡ is_own name.now attached.now rule.now (check_of relation.now label.now entry) }
{
    match rule {
        Rule::Refers {
            side: Side::Main,
            other,
            ..
        } => {
            is_of(relation, label, name, attached)
                || *relation == *other
                    && is_mirror_name(label.as_bytes(), name.as_bytes(), attached.as_bytes())
        }
        _ => is_of(relation, label, name, attached),
    }
}

fn is_of(relation: &Str, label: &Str, name: &Str, attached: &Str) -> bool
    ensures { result ≡ (bytes_eq relation.now name.now && bytes_eq label.now attached.now) }
{
    *relation == *name && *label == *attached
}

/// Whether this is the name of the mirror of a relation's attachment.
fn is_mirror_name(label: &[u8], relation: &[u8], name: &[u8]) -> bool
    ensures { result ≡ bytes_eq label.now (mirror_name relation.now name.now) }
{
    let [first, label @ ..] = label else {
        return false;
    };
    match relation {
        [byte, relation @ ..] => *first == *byte && is_mirror_name(label, relation, name),
        [] => *first == b'.' && *label == *name,
    }
}
