//! Limits of rules, descriptors, attachments and savepoints.

ghost use Rattle.std.specs.Prelude.{◌≡◌, ◌+◌, ◌-◌, ◌^◌, ℕ, min, nat_lt, nat_le, cond, ◌||◌, Option};
ghost use Rattle.std.specs.List.{list_any};
ghost use Rattle.std.specs.Str.{bytes_eq};
ghost use Rattle.sb_pred.specs.Tree.{node_count};
ghost use Rattle.sb_relation.specs.Build.{with_rule};
ghost use Rattle.sb_relation.specs.Db.{Db, Relation, relation_at};
ghost use Rattle.sb_relation.specs.Limits.{is_long_text, has_long_text, has_long_pair, has_long_term, is_large_rule, is_crowded, has_large_descriptor};
ghost use Rattle.sb_kinds.specs.Others.{tied_by};
ghost use Rattle.sb_plain.specs.State.{State, view};
ghost use Rattle.sb_plain.specs.Refusing.{passes_limits};
ghost use Rattle.sb_refusals.specs.Lengths.{is_over, count_of};
ghost use Rattle.sb_refusals.specs.Seen.{IsSeen, AreSeen, relation_named};

use crate::catalogue::Catalogue;
use crate::lengths::{attached_len, mirror_len};
use crate::seen::{Named, Seen};
use sb_plain::Command;
use sb_pred::{Node, Pred, Term, nodes};
use sb_rule::{Action, Rule};
use sb_value::{Str, Value};

/// The nodes of a predicate at most.
const MOST_NODES: u32 = 32;

/// The bytes of a text in a rule at most.
const MOST_TEXT: usize = 255;

/// The attachments of a relation at most.
const MOST_ATTACHMENTS: usize = 16;

/// The savepoints of a transaction at most.
const MOST_POINTS: usize = 64;

fn is_long_text(term: &Term) -> bool
    ensures { result ≡ is_long_text term.now }
{
    match term {
        Term::Const(Value::Text(text)) => text.len() > MOST_TEXT,
        _ => false,
    }
}

fn has_long_text(pred: &Pred) -> bool
    ensures { result ≡ has_long_text pred.now }
{
    match pred.node() {
        Node::Always => false,
        Node::Cmp(_, left, right) => is_long_text(left) || is_long_text(right),
        Node::And(left, right) | Node::Or(left, right) => {
            has_long_text(left) || has_long_text(right)
        }
        Node::Not(inner) => has_long_text(inner),
    }
}

fn are_long(terms: &[Term]) -> bool
    ensures { result ≡ list_any is_long_text terms.now }
{
    let [term, terms @ ..] = terms else {
        return false;
    };
    is_long_text(term) || are_long(terms)
}

fn has_long_pair(pairs: &[(Str, Term)]) -> bool
    ensures { result ≡ has_long_pair pairs.now }
{
    let [(_, term), pairs @ ..] = pairs else {
        return false;
    };
    is_long_text(term) || has_long_pair(pairs)
}

fn has_long_term(action: &Action) -> bool
    ensures { result ≡ has_long_term action.now }
{
    match action {
        Action::Insert { terms, .. } => are_long(terms.as_slice()),
        Action::Delete { pairs, .. } => has_long_pair(pairs.as_slice()),
        Action::Set { term, pairs, .. } => is_long_text(term) || has_long_pair(pairs.as_slice()),
        Action::Add { term, pairs, .. } => is_long_text(term) || has_long_pair(pairs.as_slice()),
    }
}

/// More than 32 nodes, or a text of more than 255 bytes.
fn is_large_pred(pred: &Pred) -> bool
    ensures { result ≡ (nat_lt 32 (node_count pred.now) || has_long_text pred.now) }
{
    nodes(pred) > MOST_NODES || has_long_text(pred)
}

fn is_large_rule(rule: &Rule) -> bool
    ensures { result ≡ is_large_rule rule.now }
{
    match rule {
        Rule::Check { pred, .. } => is_large_pred(pred),
        Rule::Trigger { pred, action, .. } => is_large_pred(pred) || has_long_term(action),
        _ => false,
    }
}

fn is_full(seen: &Seen) -> bool
    ensures { (r : Option Relation) → IsSeen r seen.now → result ≡ nat_le 16 (count_of r) }
{
    seen.attachments().len() >= MOST_ATTACHMENTS
}

fn has_no_two(seen: &Seen) -> bool
    ensures { (r : Option Relation) → IsSeen r seen.now → result ≡ nat_le 15 (count_of r) }
{
    seen.attachments().len() >= MOST_ATTACHMENTS - 1
}

/// Whether the rule would bring a 17th attachment to one of its relations. A reference of a relation to itself brings two.
fn is_crowded(named: &Named, relation: &Str, rule: &Rule) -> bool
    ensures { (db : Db) → IsSeen (relation_at db relation.now) named.now.own → IsSeen (relation_named db (tied_by rule.now)) named.now.other
        → result ≡ is_crowded db relation.now rule.now }
{
    match rule {
        Rule::JoinIndex { .. } => is_full(&named.own) || is_full(&named.other),
        Rule::Refers { other, .. } => {
            if *relation == *other {
                has_no_two(&named.own)
            } else {
                is_full(&named.own) || is_full(&named.other)
            }
        }
        _ => is_full(&named.own),
    }
}

/// Whether a descriptor of the two relations is too large with so many bytes more; those of the mirror are the same relation's where it is tied to itself.
fn is_tied_over(named: &Named, is_one: bool, own: usize, mirror: usize) -> bool
    ensures { (a b : Option Relation) (n m : ℕ) → IsSeen a named.now.own → IsSeen b named.now.other
        → own ≡ min n (2 ^ 64 - 1) → mirror ≡ min m (2 ^ 64 - 1)
        → result ≡ cond is_one (is_over a (n + m)) (is_over a n || is_over b m) }
{
    if is_one {
        return named.own.is_over(own.saturating_add(mirror));
    }
    named.own.is_over(own) || named.other.is_over(mirror)
}

/// Whether a relation would have too large a descriptor with the attachment and its mirror.
fn has_large_descriptor(named: &Named, relation: &Str, name: &Str, rule: &Rule) -> bool
    ensures { (db : Db) → IsSeen (relation_at db relation.now) named.now.own → IsSeen (relation_named db (tied_by rule.now)) named.now.other
        → result ≡ has_large_descriptor relation.now rule.now (with_rule db relation.now name.now rule.now) }
{
    let own = attached_len(name, rule);
    let mirror = mirror_len(relation, name, rule);
    match rule {
        Rule::JoinIndex { other, .. } => is_tied_over(named, *relation == *other, own, mirror),
        Rule::Refers { other, .. } => is_tied_over(named, *relation == *other, own, mirror),
        _ => named.own.is_over(own),
    }
}

/// Whether the command would bring too much: a rule that is too large, a 17th attachment, a descriptor that is too large, or a 65th savepoint.
pub(crate) fn passes_limits<C: Catalogue>(catalogue: &C, named: &Named, command: &Command) -> bool
    ensures { (s : State) → C.sees s catalogue.now → AreSeen (view s) command.now named.now → result ≡ passes_limits s command.now }
{
    match command {
        Command::Attach {
            relation,
            name,
            rule,
        } => {
            is_large_rule(rule)
                || is_crowded(named, relation, rule)
                || has_large_descriptor(named, relation, name, rule)
        }
        Command::Savepoint { .. } => catalogue.points() >= MOST_POINTS,
        _ => false,
    }
}
