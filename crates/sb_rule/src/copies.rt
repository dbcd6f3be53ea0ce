//! Copies of rules, of actions and of changes.

ghost use Rattle.std.specs.Prelude.{◌≡◌, IfOk};

use crate::{Action, Change, Event, Mode, Pairs, Rule, Side, Terms};
use sb_pred::{Pred, Term};
use sb_value::{Names, Str};
use std::alloc::{AllocError, Global};

impl Action {
    pub fn copy(&self, alloc: Global) -> Result<Action, AllocError>
        ensures { IfOk result (λ a. a ≡ self.now) }
    {
        match self {
            Action::Insert { relation, terms } => Ok(Action::Insert {
                relation: relation.copy()?,
                terms: copy_terms(alloc, terms)?,
            }),
            Action::Delete { relation, pairs } => Ok(Action::Delete {
                relation: relation.copy()?,
                pairs: copy_pairs(alloc, pairs)?,
            }),
            Action::Set {
                relation,
                column,
                term,
                pairs,
            } => Ok(Action::Set {
                relation: relation.copy()?,
                column: column.copy()?,
                term: term.copy()?,
                pairs: copy_pairs(alloc, pairs)?,
            }),
            Action::Add {
                relation,
                column,
                term,
                pairs,
            } => Ok(Action::Add {
                relation: relation.copy()?,
                column: column.copy()?,
                term: term.copy()?,
                pairs: copy_pairs(alloc, pairs)?,
            }),
        }
    }
}

impl Rule {
    pub fn copy(&self, alloc: Global) -> Result<Rule, AllocError>
        ensures { IfOk result (λ r. r ≡ self.now) }
    {
        match self {
            Rule::TreeIndex { columns, unique } => Ok(Rule::TreeIndex {
                columns: columns.copy()?,
                unique: *unique,
            }),
            Rule::HashIndex { columns } => Ok(Rule::HashIndex {
                columns: columns.copy()?,
            }),
            Rule::JoinIndex {
                side,
                columns,
                other,
                others,
            } => copy_join_index(*side, columns, other, others),
            Rule::Stats { column, low, width } => Ok(Rule::Stats {
                column: column.copy()?,
                low: *low,
                width: *width,
            }),
            Rule::Check { pred, deferred } => Ok(Rule::Check {
                pred: pred.copy()?,
                deferred: *deferred,
            }),
            Rule::Refers {
                side,
                columns,
                other,
                others,
                mode,
                deferred,
            } => copy_refers(*side, columns, other, others, *mode, *deferred),
            Rule::Trigger {
                event,
                pred,
                action,
                deferred,
            } => copy_trigger(alloc, *event, pred, action, *deferred),
            Rule::Foreign { code, desc } => Ok(Rule::Foreign {
                code: *code,
                desc: desc.copy()?,
            }),
        }
    }
}

impl Change {
    pub fn copy(&self) -> Result<Change, AllocError>
        ensures { IfOk result (λ c. c ≡ self.now) }
    {
        match self {
            Change::Insert { key, new } => Ok(Change::Insert {
                key: key.copy()?,
                new: new.copy()?,
            }),
            Change::Delete { key, old } => Ok(Change::Delete {
                key: key.copy()?,
                old: old.copy()?,
            }),
            Change::Update { from, old, to, new } => Ok(Change::Update {
                from: from.copy()?,
                old: old.copy()?,
                to: to.copy()?,
                new: new.copy()?,
            }),
        }
    }
}

fn copy_terms(alloc: Global, terms: &Terms) -> Result<Terms, AllocError>
    ensures { IfOk result (λ t. t ≡ terms.now) }
{
    let mut copies = Vec::new(alloc);
    for term in terms.as_slice() {
        copies.push(term.copy()?)?;
    }
    Ok(Terms::from_vec(copies))
}

fn copy_pair(pair: &(Str, Term)) -> Result<(Str, Term), AllocError>
    ensures { IfOk result (λ p. p ≡ pair.now) }
{
    Ok((pair.0.copy()?, pair.1.copy()?))
}

fn copy_pairs(alloc: Global, pairs: &Pairs) -> Result<Pairs, AllocError>
    ensures { IfOk result (λ p. p ≡ pairs.now) }
{
    let mut copies = Vec::new(alloc);
    for pair in pairs.as_slice() {
        copies.push(copy_pair(pair)?)?;
    }
    Ok(Pairs::from_vec(copies))
}

fn copy_join_index(
    side: Side,
    columns: &Names,
    other: &Str,
    others: &Names,
) -> Result<Rule, AllocError>
    ensures { IfOk result (λ r. r ≡ Rule.JoinIndex side columns.now other.now others.now) }
{
    Ok(Rule::JoinIndex {
        side,
        columns: columns.copy()?,
        other: other.copy()?,
        others: others.copy()?,
    })
}

fn copy_refers(
    side: Side,
    columns: &Names,
    other: &Str,
    others: &Names,
    mode: Mode,
    deferred: bool,
) -> Result<Rule, AllocError>
    ensures { IfOk result (λ r. r ≡ Rule.Refers side columns.now other.now others.now mode deferred) }
{
    Ok(Rule::Refers {
        side,
        columns: columns.copy()?,
        other: other.copy()?,
        others: others.copy()?,
        mode,
        deferred,
    })
}

fn copy_trigger(
    alloc: Global,
    event: Event,
    pred: &Pred,
    action: &Action,
    deferred: bool,
) -> Result<Rule, AllocError>
    ensures { IfOk result (λ r. r ≡ Rule.Trigger event pred.now action.now deferred) }
{
    Ok(Rule::Trigger {
        event,
        pred: pred.copy()?,
        action: action.copy(alloc)?,
        deferred,
    })
}
