//! The second relation of a rule.

ghost use Rattle.std.specs.Prelude.{◌≡◌, option_copied};
ghost use Rattle.sb_relation.specs.Fits.{relation_of, other_relations};
ghost use Rattle.sb_kinds.specs.Others.{tied_by, names_of};

use sb_rule::{Action, Rule};
use sb_value::Str;

pub fn relation_of(action: &Action) -> &Str
    ensures { result.now ≡ relation_of action.now }
{
    match action {
        Action::Insert { relation, .. }
        | Action::Delete { relation, .. }
        | Action::Set { relation, .. }
        | Action::Add { relation, .. } => relation,
    }
}

/// The second relation that a rule names.
pub fn other_relation(rule: &Rule) -> Option<&Str>
    ensures named { option_copied result ≡ tied_by rule.now }
    ensures only { other_relations rule.now ≡ names_of (option_copied result) }
{
    match rule {
        Rule::JoinIndex { other, .. } => Some(other),
        Rule::Refers { other, .. } => Some(other),
        Rule::Trigger { action, .. } => Some(relation_of(action)),
        Rule::TreeIndex { .. } => None,
        Rule::HashIndex { .. } => None,
        Rule::Stats { .. } => None,
        Rule::Check { .. } => None,
        Rule::Foreign { .. } => None,
    }
}
