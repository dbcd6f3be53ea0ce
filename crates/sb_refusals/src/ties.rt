//! Ties between relations that outlive the run and others.

ghost use Rattle.std.specs.Prelude.{◌≡◌, Option};
ghost use Rattle.std.specs.Str.{bytes_eq};
ghost use Rattle.sb_relation.specs.Db.{Relation};
ghost use Rattle.sb_plain.specs.State.{State, view};
ghost use Rattle.sb_plain.specs.Refusing.{is_mixed};
ghost use Rattle.sb_refusals.specs.Seen.{IsSeen, AreSeen};
ghost use Rattle.sb_refusals.specs.Ties.{outlives, differ};

use crate::catalogue::Catalogue;
use crate::seen::{Named, Seen};
use sb_plain::Command;
use sb_rule::Rule;
use sb_value::Str;

fn outlives<C: Catalogue>(catalogue: &C, seen: &Seen) -> bool
    ensures { (s : State) (r : Option Relation) → C.sees s catalogue.now → IsSeen r seen.now → result ≡ outlives (C.extensions catalogue.now) r }
{
    match seen.method() {
        Some(method) => catalogue.is_durable(method),
        None => true,
    }
}

/// Whether one of the relations outlives the run, and the other doesn't.
fn differ<C: Catalogue>(catalogue: &C, named: &Named) -> bool
    ensures { (s : State) (a b : Option Relation) → C.sees s catalogue.now → IsSeen a named.now.own → IsSeen b named.now.other
        → result ≡ differ (C.extensions catalogue.now) a b }
{
    let other = outlives(catalogue, &named.other);
    if outlives(catalogue, &named.own) {
        !other
    } else {
        other
    }
}

/// Whether the command would tie a relation that outlives the run to one that doesn't, or a relation to itself by a join index.
pub(crate) fn is_mixed<C: Catalogue>(catalogue: &C, named: &Named, command: &Command) -> bool
    ensures { (s : State) → C.sees s catalogue.now → AreSeen (view s) command.now named.now
        → result ≡ is_mixed (C.extensions catalogue.now) (view s) command.now }
{
    let Command::Attach { relation, rule, .. } = command else {
        return false;
    };
    match rule {
        Rule::JoinIndex { other, .. } => *relation == *other || differ(catalogue, named),
        Rule::Refers { .. } => differ(catalogue, named),
        Rule::Trigger { .. } => differ(catalogue, named),
        _ => false,
    }
}
