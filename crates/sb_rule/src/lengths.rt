//! How long spellings of rules are.

ghost use Rattle.std.specs.Prelude.{◌≡◌, ◌-◌, ◌^◌, min, length};
ghost use Rattle.sb_pred.specs.Spelling.{term_spelling, pred_spelling};
ghost use Rattle.sb_rule.specs.Spelling.{names_spelling, terms_spelling, pairs_spelling, tie_spelling, assignment_spelling, action_spelling, rule_spelling};

use crate::{Action, Pairs, Rule};
use sb_pred::{Node, Pred, Term};
use sb_value::{Names, Str, Value};

fn term_len(term: &Term) -> usize
    ensures { result ≡ min (length (term_spelling term.now)) (2 ^ 64 - 1) }
{
    match term {
        Term::Const(Value::Int(_)) => 10,
        Term::Const(Value::Text(text)) => text.len().saturating_add(3),
        Term::New(name) | Term::Old(name) => name.len().saturating_add(2),
    }
}

fn pred_len(pred: &Pred) -> usize
    ensures { result ≡ min (length (pred_spelling pred.now)) (2 ^ 64 - 1) }
{
    match pred.node() {
        Node::Always => 1,
        Node::Cmp(_, left, right) => term_len(left)
            .saturating_add(term_len(right))
            .saturating_add(2),
        Node::And(left, right) | Node::Or(left, right) => pred_len(left)
            .saturating_add(pred_len(right))
            .saturating_add(1),
        Node::Not(inner) => pred_len(inner).saturating_add(1),
    }
}

/// The bytes of the spelling of a list of names, or 2^64 - 1 where there are more.
pub fn names_len(names: &[Str]) -> usize
    ensures { result ≡ min (length (names_spelling names.now)) (2 ^ 64 - 1) }
{
    let mut len: usize = 1;
    for name in names {
        len = len.saturating_add(name.len()).saturating_add(1);
    }
    len
}

fn terms_len(terms: &[Term]) -> usize
    ensures { result ≡ min (length (terms_spelling terms.now)) (2 ^ 64 - 1) }
{
    let mut len: usize = 1;
    for term in terms {
        len = len.saturating_add(term_len(term));
    }
    len
}

fn pairs_len(pairs: &[(Str, Term)]) -> usize
    ensures { result ≡ min (length (pairs_spelling pairs.now)) (2 ^ 64 - 1) }
{
    let mut len: usize = 1;
    for (column, term) in pairs {
        len = len
            .saturating_add(column.len())
            .saturating_add(term_len(term))
            .saturating_add(1);
    }
    len
}

fn assignment_len(relation: &Str, column: &Str, term: &Term, pairs: &Pairs) -> usize
    ensures { result ≡ min (length (assignment_spelling (relation.now, column.now, term.now, pairs.now))) (2 ^ 64 - 1) }
{
    let names = relation.len().saturating_add(column.len());
    let values = term_len(term).saturating_add(pairs_len(pairs.as_slice()));
    names.saturating_add(values).saturating_add(2)
}

fn action_len(action: &Action) -> usize
    ensures { result ≡ min (length (action_spelling action.now)) (2 ^ 64 - 1) }
{
    match action {
        Action::Insert { relation, terms } => relation
            .len()
            .saturating_add(terms_len(terms.as_slice()))
            .saturating_add(2),
        Action::Delete { relation, pairs } => relation
            .len()
            .saturating_add(pairs_len(pairs.as_slice()))
            .saturating_add(2),
        Action::Set {
            relation,
            column,
            term,
            pairs,
        }
        | Action::Add {
            relation,
            column,
            term,
            pairs,
        } => assignment_len(relation, column, term, pairs).saturating_add(1),
    }
}

/// The bytes of the spelling of the columns of two relations and the other one's name, or 2^64 - 1 where there are more.
pub fn tie_len(columns: &Names, other: &Str, others: &Names) -> usize
    ensures { result ≡ min (length (tie_spelling (columns.now, other.now, others.now))) (2 ^ 64 - 1) }
{
    names_len(columns.as_slice())
        .saturating_add(other.len())
        .saturating_add(names_len(others.as_slice()))
        .saturating_add(1)
}

/// The bytes of the rule's spelling, or 2^64 - 1 where there are more.
#[tactic(auto, unfolding(crate::specs::Spelling::number_spelling))]
pub fn rule_len(rule: &Rule) -> usize
    ensures { result ≡ min (length (rule_spelling rule.now)) (2 ^ 64 - 1) }
{
    match rule {
        Rule::TreeIndex { columns, .. } => names_len(columns.as_slice()).saturating_add(1),
        Rule::HashIndex { columns } => names_len(columns.as_slice()),
        Rule::JoinIndex {
            columns,
            other,
            others,
            ..
        } => tie_len(columns, other, others).saturating_add(1),
        Rule::Stats { column, .. } => column.len().saturating_add(17),
        Rule::Check { pred, .. } => pred_len(pred).saturating_add(1),
        Rule::Refers {
            columns,
            other,
            others,
            ..
        } => tie_len(columns, other, others).saturating_add(3),
        Rule::Trigger { pred, action, .. } => pred_len(pred)
            .saturating_add(action_len(action))
            .saturating_add(2),
        Rule::Foreign { desc, .. } => desc.len(),
    }
}
