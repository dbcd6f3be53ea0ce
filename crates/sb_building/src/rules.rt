//! Rules that can be stored.

ghost use Rattle.std.specs.Prelude.{◌≡◌, ◌↔◌, All, IfOk, IfSome, IsSome, IsTrue};
ghost use Rattle.sb_pred.specs.Spelling.{IsShortPred, IsShortTerm};
ghost use Rattle.sb_rule.specs.Spelling.{IsShortAction, IsShortList, IsShortName, IsShortPair, IsShortRule, IsShortTie, IsWithinLimits, rule_code};
ghost use Rattle.sb_catalog.specs.Descriptors.{IsCountedRule};

use sb_pred::{Node, Pred, Term, nodes};
use sb_rule::{Action, Pairs, Rule, read_rule, write_rule};
use sb_value::{Bytes, Names, Str, Value};
use std::alloc::{AllocError, Global};

/// The bytes of a name or a text at most, and the items of a list.
const MOST_SHORT: usize = 255;

/// The nodes of a predicate at most, the least code of a foreign rule, and the bytes of a rule at most.
const MOST_NODES: u32 = 32;

const FOREIGN: u16 = 1000;

const MOST_BYTES: usize = 65535;

/// The rule as it is read once it is stored, where it can be stored.
pub(crate) fn stored(alloc: Global, rule: &Rule) -> Result<Option<Rule>, AllocError>
    ensures copy { IfOk result (λ copy. IfSome copy (λ r. r ≡ rule.now)) }
    ensures storable { IfOk result (λ copy. IfSome copy (λ r. IsCountedRule (rule_code rule.now) rule.now)) }
    ensures only { IsCountedRule (rule_code rule.now) rule.now → IfOk result IsSome }
{
    if !is_short(rule) || !is_within_limits(rule) {
        return Ok(None);
    }
    let mut bytes = Bytes::new(alloc);
    write_rule(rule, &mut bytes)?;
    if bytes.len() > MOST_BYTES {
        return Ok(None);
    }
    read_rule(alloc, code_of(rule), bytes.as_slice())
}

/// The code under which a rule is stored.
pub(crate) fn code_of(rule: &Rule) -> u16
    ensures { result ≡ rule_code rule.now }
{
    match rule {
        Rule::TreeIndex { .. } => 1,
        Rule::HashIndex { .. } => 2,
        Rule::JoinIndex { .. } => 3,
        Rule::Stats { .. } => 4,
        Rule::Check { .. } => 5,
        Rule::Refers { .. } => 6,
        Rule::Trigger { .. } => 7,
        Rule::Foreign { code, .. } => *code,
    }
}

fn is_within_limits(rule: &Rule) -> bool
    ensures { IsTrue result ↔ IsWithinLimits rule.now }
{
    match rule {
        Rule::Check { pred, .. } => nodes(pred) <= MOST_NODES,
        Rule::Trigger { pred, .. } => nodes(pred) <= MOST_NODES,
        Rule::Foreign { code, .. } => *code >= FOREIGN,
        Rule::TreeIndex { .. }
        | Rule::HashIndex { .. }
        | Rule::JoinIndex { .. }
        | Rule::Stats { .. }
        | Rule::Refers { .. } => true,
    }
}

/// Whether its names and texts have at most 255 bytes, its lists at most 255 items, and its width is at least 1.
fn is_short(rule: &Rule) -> bool
    ensures { IsTrue result ↔ IsShortRule rule.now }
{
    match rule {
        Rule::TreeIndex { columns, .. } | Rule::HashIndex { columns } => are_short(columns),
        Rule::JoinIndex {
            columns,
            other,
            others,
            ..
        } => is_short_tie(columns, other, others),
        Rule::Stats { column, width, .. } => column.len() <= MOST_SHORT && *width >= 1,
        Rule::Check { pred, .. } => is_short_pred(pred),
        Rule::Refers {
            columns,
            other,
            others,
            ..
        } => is_short_tie(columns, other, others),
        Rule::Trigger { pred, action, .. } => is_short_pred(pred) && is_short_action(action),
        Rule::Foreign { .. } => true,
    }
}

pub(crate) fn is_short_name(name: &Str) -> bool
    ensures { IsTrue result ↔ IsShortName name.now }
{
    name.len() <= MOST_SHORT
}

fn is_short_tie(columns: &Names, other: &Str, others: &Names) -> bool
    ensures { IsTrue result ↔ IsShortTie (columns.now, other.now, others.now) }
{
    are_short(columns) && other.len() <= MOST_SHORT && are_short(others)
}

fn is_short_action(action: &Action) -> bool
    ensures { IsTrue result ↔ IsShortAction action.now }
{
    match action {
        Action::Insert { relation, terms } => {
            relation.len() <= MOST_SHORT
                && terms.len() <= MOST_SHORT
                && are_short_terms(terms.as_slice())
        }
        Action::Delete { relation, pairs } => {
            relation.len() <= MOST_SHORT && is_short_match(pairs)
        }
        Action::Set {
            relation,
            column,
            term,
            pairs,
        }
        | Action::Add {
            relation,
            column,
            term,
            pairs,
        } => {
            relation.len() <= MOST_SHORT
                && column.len() <= MOST_SHORT
                && is_short_term(term)
                && is_short_match(pairs)
        }
    }
}

fn is_short_match(pairs: &Pairs) -> bool
    ensures { IsTrue result ↔ IsShortList IsShortPair pairs.now }
{
    pairs.len() <= MOST_SHORT && are_short_pairs(pairs.as_slice())
}

fn is_short_pred(pred: &Pred) -> bool
    ensures { IsTrue result ↔ IsShortPred pred.now }
{
    match pred.node() {
        Node::Always => true,
        Node::Cmp(_, left, right) => is_short_term(left) && is_short_term(right),
        Node::And(left, right) | Node::Or(left, right) => {
            is_short_pred(left) && is_short_pred(right)
        }
        Node::Not(inner) => is_short_pred(inner),
    }
}

fn is_short_term(term: &Term) -> bool
    ensures { IsTrue result ↔ IsShortTerm term.now }
{
    match term {
        Term::Const(Value::Int(_)) => true,
        Term::Const(Value::Text(text)) => text.len() <= MOST_SHORT,
        Term::New(name) | Term::Old(name) => name.len() <= MOST_SHORT,
    }
}

fn are_short(names: &Names) -> bool
    ensures { IsTrue result ↔ IsShortList IsShortName names.now }
{
    names.len() <= MOST_SHORT && are_short_names(names.as_slice())
}

fn are_short_names(names: &[Str]) -> bool
    ensures { IsTrue result ↔ All IsShortName names.now }
{
    match names {
        [name, names @ ..] => name.len() <= MOST_SHORT && are_short_names(names),
        [] => true,
    }
}

fn are_short_terms(terms: &[Term]) -> bool
    ensures { IsTrue result ↔ All IsShortTerm terms.now }
{
    match terms {
        [term, terms @ ..] => is_short_term(term) && are_short_terms(terms),
        [] => true,
    }
}

fn are_short_pairs(pairs: &[(Str, Term)]) -> bool
    ensures { IsTrue result ↔ All IsShortPair pairs.now }
{
    match pairs {
        [(name, term), pairs @ ..] => {
            name.len() <= MOST_SHORT && is_short_term(term) && are_short_pairs(pairs)
        }
        [] => true,
    }
}
