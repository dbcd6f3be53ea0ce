//! Actions with the values of a change in place of the columns that they name.

ghost use Rattle.std.specs.Prelude.{◌≡◌, IfOk, map};
ghost use Rattle.std.specs.Option.{option_copied};
ghost use Rattle.sb_rule.specs.Bound.{row_before, row_after, bound_term, bound_pair, bound, EachTerm, FitsSchema, IsThere, IsConstant};

use crate::{Action, Change, Pairs, Terms};
use sb_pred::{Term, value_of};
use sb_value::{Schema, Tuple};
use std::alloc::{AllocError, Global};

fn before(change: &Change) -> Option<&Tuple>
    ensures { option_copied result ≡ row_before change.now }
{
    match change {
        Change::Insert { .. } => None,
        Change::Delete { old, .. } | Change::Update { old, .. } => Some(old),
    }
}

fn after(change: &Change) -> Option<&Tuple>
    ensures { option_copied result ≡ row_after change.now }
{
    match change {
        Change::Delete { .. } => None,
        Change::Insert { new, .. } | Change::Update { new, .. } => Some(new),
    }
}

fn bind_term(term: &Term, schema: &Schema, change: &Change) -> Result<Term, AllocError>
    ensures { IfOk result (λ t. t ≡ bound_term schema.now change.now term.now) }
{
    match value_of(term, schema, before(change), after(change)) {
        Some(value) => Ok(Term::Const(value.copy()?)),
        None => term.copy(),
    }
}

fn bind_terms(
    alloc: Global,
    terms: &Terms,
    schema: &Schema,
    change: &Change,
) -> Result<Terms, AllocError>
    ensures { IfOk result (λ t. t ≡ map (bound_term schema.now change.now) terms.now) }
{
    let mut bound = Vec::new(alloc);
    for term in terms.as_slice() {
        bound.push(bind_term(term, schema, change)?)?;
    }
    Ok(Terms::from_vec(bound))
}

fn bind_pairs(
    alloc: Global,
    pairs: &Pairs,
    schema: &Schema,
    change: &Change,
) -> Result<Pairs, AllocError>
    ensures { IfOk result (λ p. p ≡ map (bound_pair schema.now change.now) pairs.now) }
{
    let mut bound = Vec::new(alloc);
    for pair in pairs.as_slice() {
        bound.push((pair.0.copy()?, bind_term(&pair.1, schema, change)?))?;
    }
    Ok(Pairs::from_vec(bound))
}

/// The action with the values of the change, which is one of a relation with this schema, in place of the columns that
/// it names. A column that isn't there stays as it is.
pub fn bind(
    alloc: Global,
    action: &Action,
    schema: &Schema,
    change: &Change,
) -> Result<Action, AllocError>
    ensures ok { IfOk result (λ a. a ≡ bound schema.now change.now action.now) }

    // Where each column is there, in rows that fit, only constants are left.
    ensures closed { FitsSchema schema.now change.now → EachTerm (IsThere schema.now change.now) action.now → IfOk result (EachTerm IsConstant) }
{
    match action {
        Action::Insert { relation, terms } => Ok(Action::Insert {
            relation: relation.copy()?,
            terms: bind_terms(alloc, terms, schema, change)?,
        }),
        Action::Delete { relation, pairs } => Ok(Action::Delete {
            relation: relation.copy()?,
            pairs: bind_pairs(alloc, pairs, schema, change)?,
        }),
        Action::Set {
            relation,
            column,
            term,
            pairs,
        } => Ok(Action::Set {
            relation: relation.copy()?,
            column: column.copy()?,
            term: bind_term(term, schema, change)?,
            pairs: bind_pairs(alloc, pairs, schema, change)?,
        }),
        Action::Add {
            relation,
            column,
            term,
            pairs,
        } => Ok(Action::Add {
            relation: relation.copy()?,
            column: column.copy()?,
            term: bind_term(term, schema, change)?,
            pairs: bind_pairs(alloc, pairs, schema, change)?,
        }),
    }
}
