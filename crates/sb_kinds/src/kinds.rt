//! Kinds of columns, values and terms.

ghost use Rattle.std.specs.Prelude.{◌≡◌, ◌≤◌, ◌&&◌, List, Option, Some, map};
ghost use Rattle.sb_value.specs.declared.schema.Column.{Column};
ghost use Rattle.sb_value.specs.Fits.{kind_of};
ghost use Rattle.sb_pred.specs.Typing.{term_kind, is_one_kind, is_well_typed};
ghost use Rattle.sb_relation.specs.Db.{Db};
ghost use Rattle.sb_relation.specs.Fits.{are_one_kind, kinds_at, pairs_fit, action_fits, rule_fits, method_fits, foreign_method_fits, is_empty, has_old, has_new};
ghost use Rattle.sb_relation.specs.Foreign.{AttachRules, MethodRules};
ghost use Rattle.sb_kinds.specs.Others.{IsBeside, SaysFits};

use sb_pred::{Pred, Term, kind_of_column, kind_of_term, well_typed};
use sb_rule::{Action, Event, Rule};
use sb_value::{Column, Kind, Names, Schema, Str, Value};

/// The code of the storage method tree.
const TREE: u16 = 2;

/// The least code of another's extension.
const FIRST_FOREIGN: u16 = 1000;

fn is_one_kind(first: Option<Kind>, second: Option<Kind>) -> bool
    ensures { result ≡ is_one_kind first second }
{
    match (first, second) {
        (Some(first), Some(second)) => first == second,
        _ => false,
    }
}

/// Whether as many columns of two relations have the same kinds.
fn columns_fit(schema: &Schema, columns: &[Str], other: &Schema, others: &[Str]) -> bool
    ensures { result ≡ are_one_kind (kinds_at schema.now columns.now) (kinds_at other.now others.now) }
{
    let [column, columns @ ..] = columns else {
        return others.is_empty();
    };
    let [second, others @ ..] = others else {
        return false;
    };
    is_one_kind(
        kind_of_column(schema, column),
        kind_of_column(other, second),
    ) && columns_fit(schema, columns, other, others)
}

/// Whether the columns have the kinds of as many values.
pub fn values_fit(schema: &Schema, columns: &[Str], values: &[Value]) -> bool
    ensures { result ≡ are_one_kind (kinds_at schema.now columns.now) (map (λ v. Some (kind_of v)) values.now) }
{
    let [column, columns @ ..] = columns else {
        return values.is_empty();
    };
    let [value, values @ ..] = values else {
        return false;
    };
    is_one_kind(kind_of_column(schema, column), Some(value.kind()))
        && values_fit(schema, columns, values)
}

/// Whether the columns have the kinds of as many terms.
fn terms_fit(own: &[Column], terms: &[Term], schema: &Schema, old: bool, new: bool) -> bool
    ensures { result ≡ are_one_kind (map (λ c. Some c.kind) own.now) (map (term_kind schema.now old new) terms.now) }
{
    let [column, own @ ..] = own else {
        return terms.is_empty();
    };
    let [term, terms @ ..] = terms else {
        return false;
    };
    is_one_kind(Some(column.kind), kind_of_term(term, schema, old, new))
        && terms_fit(own, terms, schema, old, new)
}

/// Whether each column has the kind of its term.
fn pairs_fit(own: &Schema, pairs: &[(Str, Term)], schema: &Schema, old: bool, new: bool) -> bool
    ensures { result ≡ pairs_fit own.now (term_kind schema.now old new) pairs.now }
{
    let [(column, term), pairs @ ..] = pairs else {
        return true;
    };
    is_one_kind(
        kind_of_column(own, column),
        kind_of_term(term, schema, old, new),
    ) && pairs_fit(own, pairs, schema, old, new)
}

/// Whether an action is well typed: its own columns are those of its relation, and its terms may name columns of the old and the new row or not.
pub fn action_fits(own: &Schema, action: &Action, schema: &Schema, old: bool, new: bool) -> bool
    ensures { result ≡ action_fits own.now (term_kind schema.now old new) action.now }
{
    match action {
        Action::Insert { terms, .. } => {
            terms_fit(own.as_slice(), terms.as_slice(), schema, old, new)
        }
        Action::Delete { pairs, .. } => pairs_fit(own, pairs.as_slice(), schema, old, new),
        Action::Set {
            column,
            term,
            pairs,
            ..
        } => {
            is_one_kind(
                kind_of_column(own, column),
                kind_of_term(term, schema, old, new),
            ) && pairs_fit(own, pairs.as_slice(), schema, old, new)
        }
        Action::Add {
            column,
            term,
            pairs,
            ..
        } => {
            is_one_kind(kind_of_column(own, column), Some(Kind::Int))
                && is_one_kind(Some(Kind::Int), kind_of_term(term, schema, old, new))
                && pairs_fit(own, pairs.as_slice(), schema, old, new)
        }
    }
}

fn is_keyless(key: &Names) -> bool
    ensures { result ≡ is_empty key.now }
{
    match key.as_slice() {
        [] => true,
        _ => false,
    }
}

/// Whether a method keeps relations of this key: tree wants a key, the others of ours want none, and a foreign one says itself whether it fits.
pub fn method_fits(method: u16, key: &Names, foreign_fits: bool) -> bool
    ensures { (box : Option MethodRules) (schema : List Column) → (1000 ≤ method → foreign_method_fits box schema key.now ≡ foreign_fits)
        → result ≡ method_fits box method schema key.now }
{
    if method == TREE {
        !is_keyless(key)
    } else if method < FIRST_FOREIGN {
        is_keyless(key)
    } else {
        foreign_fits
    }
}

fn has_old(event: Event) -> bool
    ensures { result ≡ has_old event }
{
    match event {
        Event::Insert => false,
        Event::Delete => true,
        Event::Update => true,
    }
}

fn has_new(event: Event) -> bool
    ensures { result ≡ has_new event }
{
    match event {
        Event::Insert => true,
        Event::Delete => false,
        Event::Update => true,
    }
}

/// Whether the predicate and the action of a trigger are well typed.
fn reaction_fits(
    schema: &Schema,
    other: &Schema,
    event: Event,
    pred: &Pred,
    action: &Action,
) -> bool
    ensures { result ≡ (is_well_typed schema.now (has_old event) (has_new event) pred.now
        && action_fits other.now (term_kind schema.now (has_old event) (has_new event)) action.now) }
{
    let old = has_old(event);
    let new = has_new(event);
    well_typed(pred, schema, old, new) && action_fits(other, action, schema, old, new)
}

/// Whether the rule is well typed on a relation of these columns; the others are those of the second relation that it names. Of a foreign
/// rule its extension says itself whether it fits.
pub fn rule_fits(schema: &Schema, other: &Schema, rule: &Rule, foreign_fits: bool) -> bool
    ensures { (box : Option AttachRules) (db : Db) → IsBeside db rule.now other.now → SaysFits box schema.now rule.now foreign_fits
        → result ≡ rule_fits box db schema.now rule.now }
{
    match rule {
        Rule::TreeIndex { .. } => true,
        Rule::HashIndex { .. } => true,
        Rule::JoinIndex {
            columns,
            others,
            ..
        } => columns_fit(schema, columns.as_slice(), other, others.as_slice()),
        Rule::Stats { column, .. } => is_one_kind(kind_of_column(schema, column), Some(Kind::Int)),
        Rule::Check { pred, .. } => well_typed(pred, schema, false, true),
        Rule::Refers {
            columns,
            others,
            ..
        } => columns_fit(schema, columns.as_slice(), other, others.as_slice()),
        Rule::Trigger {
            event,
            pred,
            action,
            ..
        } => reaction_fits(schema, other, *event, pred, action),
        Rule::Foreign { .. } => foreign_fits,
    }
}
