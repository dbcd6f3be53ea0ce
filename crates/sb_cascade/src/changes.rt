//! A change, and the actions that follow from it.

ghost use Rattle.std.specs.Prelude.{◌≡◌, ◌≤◌, IfOk, IfErr, OnOk};
ghost use Rattle.std.specs.List.{All, flat_map};
ghost use Rattle.sb_relation.specs.Fits.{relation_of};
ghost use Rattle.sb_fold.specs.Fold.{act, act_all, change_each, change_within, key_after};
ghost use Rattle.sb_fold.specs.Outcome.{Going};
ghost use Rattle.sb_fold.specs.Wishes.{const_of};
ghost use Rattle.sb_cascade.specs.Runs.{MadeFrom, OnFault, StopsFrom};
ghost use Rattle.sb_cascade.specs.Steps.{ask_all, change_key};
ghost use Rattle.sb_cascade.specs.Wishes.{wish_of};

use crate::layer::Layer;
use crate::wish::Wish;
use sb_fold::Refusal;
use sb_pred::Term;
use sb_rule::{Action, Change, Terms};
use sb_value::{RecKey, Str, Tuple};
use std::alloc::{AllocError, Global};

/// A change of one row, with so many levels left, and all that follows from it: the row's record key after it. A command's own change
/// has 16 levels; without one left it is refused by Depth.
#[cycle(changes)]
pub fn change<L: Layer>(
    layer: &mut L,
    alloc: Global,
    levels: u8,
    name: &Str,
    wish: &Wish,
) -> Result<Option<RecKey>, Refusal>
    requires ready { L.is_ready layer.old }
    requires may { L.may_wish name.now (wish_of wish.now) layer.old }
    ensures made { IfOk result (λ key. (g : Going) → L.stands g layer.old
        → MadeFrom L.stands (change_within (L.extensions layer.old) levels name.now (wish_of wish.now)) g key layer.new) }
    ensures refused { IfErr result (λ r. (g : Going) → L.stands g layer.old
        → StopsFrom L.stopped (change_within (L.extensions layer.old) levels name.now (wish_of wish.now)) g r layer.new) }
    ensures fault { IfErr result (λ r. OnFault r (L.failed layer.new)) }
    ensures leads { L.leads layer.old layer.new }
    ensures ready { L.is_ready layer.new }
{
    if levels == 0 {
        return Err(Refusal::Depth);
    }
    let change = layer.change_row(alloc, name, wish)?;
    let following = ask_all(layer, alloc, name, &change)?;
    act_all(layer, alloc, levels - 1, &following)?;
    Ok(key_after(change))
}

/// An action to its end, and how many rows it changed.
#[cycle(changes)]
pub fn act<L: Layer>(
    layer: &mut L,
    alloc: Global,
    levels: u8,
    action: &Action,
) -> Result<u64, Refusal>
    requires ready { L.is_ready layer.old }
    requires may { L.may_do action.now layer.old }
    ensures made { IfOk result (λ n. (g : Going) → L.stands g layer.old
        → MadeFrom L.stands (act (change_within (L.extensions layer.old) levels) action.now) g n layer.new) }
    ensures refused { IfErr result (λ r. (g : Going) → L.stands g layer.old
        → StopsFrom L.stopped (act (change_within (L.extensions layer.old) levels) action.now) g r layer.new) }
    ensures fault { IfErr result (λ r. OnFault r (L.failed layer.new)) }
    ensures leads { L.leads layer.old layer.new }
    ensures ready { L.is_ready layer.new }
{
    match action {
        Action::Insert { relation, terms } => {
            let Ok(row) = row_of(alloc, terms) else {
                return Err(Refusal::NoMemory);
            };
            change(layer, alloc, levels, relation, &Wish::Put(row))?;
            Ok(1)
        }
        _ => {
            let keys = layer.matching(alloc, action)?;
            change_each(layer, alloc, levels, action, &keys)
        }
    }
}

/// Asks the attachments of a changed relation in call order, and gives the actions that follow at once.
fn ask_all<L: Layer>(
    layer: &mut L,
    alloc: Global,
    name: &Str,
    change: &Change,
) -> Result<Vec<Action>, Refusal>
    requires ready { L.is_ready layer.old }
    requires may { L.may_ask name.now change.now layer.old }
    ensures made { IfOk result (λ following. (g : Going) → L.asks name.now change.now 0 g layer.old
        → MadeFrom L.stands (ask_all (L.extensions layer.old) name.now change.now) g following.items layer.new) }
    ensures may { IfOk result (λ following. All (λ a. L.may_do a layer.new) following.items) }
    ensures refused { IfErr result (λ r. (g : Going) → L.asks name.now change.now 0 g layer.old
        → StopsFrom L.stopped (ask_all (L.extensions layer.old) name.now change.now) g r layer.new) }
    ensures fault { IfErr result (λ r. OnFault r (L.failed layer.new)) }
    ensures leads { L.leads layer.old layer.new }
    ensures ready { L.is_ready layer.new }
{
    let mut following = Vec::new(alloc);
    let mut i = 0;
    while let Some(mut actions) = layer.ask(alloc, name, change, i)? {
        if following.append(&mut actions).is_err() {
            return Err(Refusal::NoMemory);
        }
        i += 1;
    }
    Ok(following)
}

/// Actions in their order, each to its end.
#[cycle(changes)]
fn act_all<L: Layer>(
    layer: &mut L,
    alloc: Global,
    levels: u8,
    actions: &[Action],
) -> Result<(), Refusal>
    requires ready { L.is_ready layer.old }
    requires may { All (λ a. L.may_do a layer.old) actions.now }
    ensures made { OnOk result ((g : Going) → L.stands g layer.old
        → MadeFrom L.stands (act_all (change_within (L.extensions layer.old) levels) actions.now) g tt layer.new) }
    ensures refused { IfErr result (λ r. (g : Going) → L.stands g layer.old
        → StopsFrom L.stopped (act_all (change_within (L.extensions layer.old) levels) actions.now) g r layer.new) }
    ensures fault { IfErr result (λ r. OnFault r (L.failed layer.new)) }
    ensures leads { L.leads layer.old layer.new }
    ensures ready { L.is_ready layer.new }
{
    for action in actions {
        act(layer, alloc, levels, action)?;
    }
    Ok(())
}

/// The rows of these keys, one by one, and how many of them were changed.
#[cycle(changes)]
fn change_each<L: Layer>(
    layer: &mut L,
    alloc: Global,
    levels: u8,
    action: &Action,
    keys: &[RecKey],
) -> Result<u64, Refusal>
    requires ready { L.is_ready layer.old }
    requires may { L.may_do action.now layer.old }
    ensures made { IfOk result (λ n. (g : Going) → L.stands g layer.old
        → MadeFrom L.stands (change_each (change_within (L.extensions layer.old) levels) action.now keys.now) g n layer.new) }
    ensures refused { IfErr result (λ r. (g : Going) → L.stands g layer.old
        → StopsFrom L.stopped (change_each (change_within (L.extensions layer.old) levels) action.now keys.now) g r layer.new) }
    ensures fault { IfErr result (λ r. OnFault r (L.failed layer.new)) }
    ensures leads { L.leads layer.old layer.new }
    ensures ready { L.is_ready layer.new }
{
    let mut count = 0;
    for key in keys {
        count += change_key(layer, alloc, levels, action, key)?;
    }
    Ok(count)
}

/// The row of a key, where it still stands and still matches, and how many rows that is.
#[cycle(changes)]
fn change_key<L: Layer>(
    layer: &mut L,
    alloc: Global,
    levels: u8,
    action: &Action,
    key: &RecKey,
) -> Result<u64, Refusal>
    requires ready { L.is_ready layer.old }
    requires may { L.may_do action.now layer.old }
    ensures few { IfOk result (λ n. n ≤ 1) }
    ensures made { IfOk result (λ n. (g : Going) → L.stands g layer.old
        → MadeFrom L.stands (change_key (change_within (L.extensions layer.old) levels) action.now key.now) g n layer.new) }
    ensures refused { IfErr result (λ r. (g : Going) → L.stands g layer.old
        → StopsFrom L.stopped (change_key (change_within (L.extensions layer.old) levels) action.now key.now) g r layer.new) }
    ensures fault { IfErr result (λ r. OnFault r (L.failed layer.new)) }
    ensures leads { L.leads layer.old layer.new }
    ensures ready { L.is_ready layer.new }
{
    match layer.wish_at(alloc, action, key)? {
        None => Ok(0),
        Some(wish) => {
            change(layer, alloc, levels, relation_of(action), &wish)?;
            Ok(1)
        }
    }
}

/// The relation that an action changes.
fn relation_of(action: &Action) -> &Str
    ensures { result.now ≡ relation_of action.now }
{
    match action {
        Action::Insert { relation, .. } => relation,
        Action::Delete { relation, .. } => relation,
        Action::Set { relation, .. } => relation,
        Action::Add { relation, .. } => relation,
    }
}

/// The row of an insert whose terms are values.
fn row_of(alloc: Global, terms: &Terms) -> Result<Tuple, AllocError>
    ensures { IfOk result (λ row. row ≡ flat_map const_of terms.now) }
{
    let mut row = Vec::new(alloc);
    for term in terms.as_slice() {
        if let Term::Const(value) = term {
            row.push(value.copy()?)?;
        }
    }
    Ok(Tuple::from_vec(row))
}

/// The record key that a row has after a change.
fn key_after(change: Change) -> Option<RecKey>
    ensures { result ≡ key_after change }
{
    match change {
        Change::Insert { key, .. } => Some(key),
        Change::Delete { .. } => None,
        Change::Update { to, .. } => Some(to),
    }
}
