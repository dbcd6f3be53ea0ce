//! Columns that are to be there.

ghost use Rattle.std.specs.Prelude.{◌≡◌, ◌∷◌, ◌++◌, [], option_copied};
ghost use Rattle.std.specs.List.{flat_map};
ghost use Rattle.sb_relation.specs.Db.{Db};
ghost use Rattle.sb_relation.specs.Fits.{places_in, term_places, pred_places, pair_places, action_places, rule_places};
ghost use Rattle.sb_kinds.specs.Others.{IsBeside};
ghost use Rattle.sb_kinds.specs.Unnamed.{unnamed_in};

use sb_pred::{Node, Pred, Term, kind_of_column};
use sb_rule::{Action, Rule};
use sb_value::{Schema, Str};

/// The column, where it isn't there.
fn unnamed_column<'a>(schema: &Schema, name: &'a Str) -> Option<&'a Str>
    ensures { option_copied result ≡ unnamed_in ((schema.now, name.now) ∷ []) }
{
    match kind_of_column(schema, name) {
        Some(_) => None,
        None => Some(name),
    }
}

/// The first of these columns that isn't there.
pub fn unnamed_columns<'a>(schema: &Schema, names: &'a [Str]) -> Option<&'a Str>
    ensures { option_copied result ≡ unnamed_in (places_in schema.now names.now) }
{
    match names {
        [name, names @ ..] => match kind_of_column(schema, name) {
            Some(_) => unnamed_columns(schema, names),
            None => Some(name),
        },
        [] => None,
    }
}

/// The first of these columns that isn't among those of the one or of the other relation.
#[tactic(auto, using(crate::proofs::FirstPlaces::unnamed_in_two))]
fn unnamed_in_both<'a>(
    schema: &Schema,
    columns: &'a [Str],
    other: &Schema,
    others: &'a [Str],
) -> Option<&'a Str>
    ensures { option_copied result ≡ unnamed_in (places_in schema.now columns.now ++ places_in other.now others.now) }
{
    match unnamed_columns(schema, columns) {
        Some(name) => Some(name),
        None => unnamed_columns(other, others),
    }
}

fn unnamed_term<'a>(schema: &Schema, term: &'a Term) -> Option<&'a Str>
    ensures { option_copied result ≡ unnamed_in (term_places schema.now term.now) }
{
    match term {
        Term::Const(_) => None,
        Term::New(name) => unnamed_column(schema, name),
        Term::Old(name) => unnamed_column(schema, name),
    }
}

#[tactic(auto, using(crate::proofs::FirstPlaces::unnamed_in_two))]
fn unnamed_terms<'a>(schema: &Schema, terms: &'a [Term]) -> Option<&'a Str>
    ensures { option_copied result ≡ unnamed_in (flat_map (term_places schema.now) terms.now) }
{
    match terms {
        [term, terms @ ..] => match unnamed_term(schema, term) {
            Some(name) => Some(name),
            None => unnamed_terms(schema, terms),
        },
        [] => None,
    }
}

/// The first column of the predicate that isn't there.
#[tactic(auto, using(crate::proofs::FirstPlaces::unnamed_in_two))]
fn unnamed_pred<'a>(schema: &Schema, pred: &'a Pred) -> Option<&'a Str>
    ensures { option_copied result ≡ unnamed_in (pred_places schema.now pred.now) }
{
    match pred.node() {
        Node::Always => None,
        Node::Cmp(_, left, right) => match unnamed_term(schema, left) {
            Some(name) => Some(name),
            None => unnamed_term(schema, right),
        },
        Node::And(left, right) => match unnamed_pred(schema, left) {
            Some(name) => Some(name),
            None => unnamed_pred(schema, right),
        },
        Node::Or(left, right) => match unnamed_pred(schema, left) {
            Some(name) => Some(name),
            None => unnamed_pred(schema, right),
        },
        Node::Not(inner) => unnamed_pred(schema, inner),
    }
}

/// The column or the term's one that isn't there; the column is the own relation's.
#[tactic(auto, using(crate::proofs::FirstPlaces::unnamed_in_two))]
fn unnamed_pair<'a>(
    own: &Schema,
    schema: &Schema,
    column: &'a Str,
    term: &'a Term,
) -> Option<&'a Str>
    ensures { option_copied result ≡ unnamed_in ((own.now, column.now) ∷ term_places schema.now term.now) }
{
    match unnamed_column(own, column) {
        Some(name) => Some(name),
        None => unnamed_term(schema, term),
    }
}

#[tactic(auto, using(crate::proofs::FirstPlaces::unnamed_in_two))]
fn unnamed_pairs<'a>(own: &Schema, schema: &Schema, pairs: &'a [(Str, Term)]) -> Option<&'a Str>
    ensures { option_copied result ≡ unnamed_in (pair_places own.now schema.now pairs.now) }
{
    match pairs {
        [(column, term), pairs @ ..] => match unnamed_pair(own, schema, column, term) {
            Some(name) => Some(name),
            None => unnamed_pairs(own, schema, pairs),
        },
        [] => None,
    }
}

#[tactic(auto, using(crate::proofs::FirstPlaces::unnamed_in_two))]
fn unnamed_assignment<'a>(
    own: &Schema,
    schema: &Schema,
    column: &'a Str,
    term: &'a Term,
    pairs: &'a [(Str, Term)],
) -> Option<&'a Str>
    ensures { option_copied result ≡ unnamed_in ((own.now, column.now) ∷ term_places schema.now term.now ++ pair_places own.now schema.now pairs.now) }
{
    match unnamed_pair(own, schema, column, term) {
        Some(name) => Some(name),
        None => unnamed_pairs(own, schema, pairs),
    }
}

/// The first column of an action that isn't there. Its own columns are those of its relation, and the others those of the rows that its terms name.
pub fn unnamed_action<'a>(own: &Schema, schema: &Schema, action: &'a Action) -> Option<&'a Str>
    ensures { option_copied result ≡ unnamed_in (action_places own.now schema.now action.now) }
{
    match action {
        Action::Insert { terms, .. } => unnamed_terms(schema, terms.as_slice()),
        Action::Delete { pairs, .. } => unnamed_pairs(own, schema, pairs.as_slice()),
        Action::Set {
            column,
            term,
            pairs,
            ..
        } => unnamed_assignment(own, schema, column, term, pairs.as_slice()),
        Action::Add {
            column,
            term,
            pairs,
            ..
        } => unnamed_assignment(own, schema, column, term, pairs.as_slice()),
    }
}

/// The first column of a predicate and of the action of its trigger that isn't there.
#[tactic(auto, using(crate::proofs::FirstPlaces::unnamed_in_two))]
fn unnamed_reaction<'a>(
    schema: &Schema,
    other: &Schema,
    pred: &'a Pred,
    action: &'a Action,
) -> Option<&'a Str>
    ensures { option_copied result ≡ unnamed_in (pred_places schema.now pred.now ++ action_places other.now schema.now action.now) }
{
    match unnamed_pred(schema, pred) {
        Some(name) => Some(name),
        None => unnamed_action(other, schema, action),
    }
}

/// The first column of a rule that isn't among those of its relation or, where it names a second one, among those of the other.
pub fn unnamed_rule<'a>(schema: &Schema, other: &Schema, rule: &'a Rule) -> Option<&'a Str>
    ensures { (db : Db) → IsBeside db rule.now other.now → option_copied result ≡ unnamed_in (rule_places db schema.now rule.now) }
{
    match rule {
        Rule::TreeIndex { columns, .. } => unnamed_columns(schema, columns.as_slice()),
        Rule::HashIndex { columns } => unnamed_columns(schema, columns.as_slice()),
        Rule::JoinIndex {
            columns,
            others,
            ..
        } => unnamed_in_both(schema, columns.as_slice(), other, others.as_slice()),
        Rule::Stats { column, .. } => unnamed_column(schema, column),
        Rule::Check { pred, .. } => unnamed_pred(schema, pred),
        Rule::Refers {
            columns,
            others,
            ..
        } => unnamed_in_both(schema, columns.as_slice(), other, others.as_slice()),
        Rule::Trigger { pred, action, .. } => unnamed_reaction(schema, other, pred, action),
        Rule::Foreign { .. } => None,
    }
}
