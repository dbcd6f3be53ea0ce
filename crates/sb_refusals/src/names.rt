//! Names that are to be there, and names that are to be new.

ghost use Rattle.std.specs.Prelude.{◌≡◌, ◌++◌, Option, map, is_some, is_none, option_copied};
ghost use Rattle.std.specs.List.{find};
ghost use Rattle.std.specs.Option.{option_or};
ghost use Rattle.std.specs.Str.{bytes_eq};
ghost use Rattle.sb_relation.specs.Db.{Relation, Db, relation_at, schema_at};
ghost use Rattle.sb_relation.specs.Fits.{first_missing, first_unnamed, rule_places};
ghost use Rattle.sb_kinds.specs.Others.{names_of, tied_by};
ghost use Rattle.sb_plain.specs.State.{State, view};
ghost use Rattle.sb_plain.specs.Refusing.{relations_of, first_twice, rule_twice, some_where, first_existing, unnamed, first_absent};
ghost use Rattle.sb_refusals.specs.Seen.{IsSeen, AreSeen, attachments_of, columns_of, relation_named};

use crate::catalogue::Catalogue;
use crate::seen::{Named, Seen, other_relation, own_relation};
use crate::twice::{first_column_twice, first_twice, rule_twice};
use sb_kinds::{unnamed_action, unnamed_columns};
use sb_plain::Command;
use sb_rule::Rule;
use sb_value::{Names, Schema, Str};

/// The relation of this name, where one is named and it isn't there.
fn missing<'a>(seen: &Seen, name: Option<&'a Str>) -> Option<&'a Str>
    ensures { (db : Db) → IsSeen (relation_named db (option_copied name.entry)) seen.now
        → option_copied result ≡ first_missing db (names_of (option_copied name.entry)) }
{
    let name = name?;
    if seen.is_there() { None } else { Some(name) }
}

fn missing_in<'a>(named: &Named, own: Option<&'a Str>, other: Option<&'a Str>) -> Option<&'a Str>
    ensures { (db : Db) → IsSeen (relation_named db (option_copied own.entry)) named.now.own
        → IsSeen (relation_named db (option_copied other.entry)) named.now.other
        → option_copied result ≡ first_missing db (names_of (option_copied own.entry) ++ names_of (option_copied other.entry)) }
{
    match missing(&named.own, own) {
        Some(name) => Some(name),
        None => missing(&named.other, other),
    }
}

/// The first relation in the order of the line that is to be there and isn't.
pub(crate) fn first_missing<'a>(named: &Named, command: &'a Command) -> Option<&'a Str>
    ensures { (db : Db) → AreSeen db command.now named.now → option_copied result ≡ first_missing db (relations_of command.now) }
{
    match command {
        Command::Create { .. } => None,
        _ => missing_in(named, own_relation(command), other_relation(command)),
    }
}

fn created_twice<'a>(
    own: &Seen,
    relation: &'a Str,
    schema: &'a Schema,
    key: &'a Names,
) -> Option<&'a Str>
    ensures { (r : Option Relation) → IsSeen r own.now → option_copied result
        ≡ option_or (some_where (is_some r) relation.now) (option_or (first_twice (map (λ c. c.name) schema.now)) (first_twice key.now)) }
{
    if own.is_there() {
        return Some(relation);
    }
    match first_column_twice(schema.as_slice()) {
        Some(name) => Some(name),
        None => first_twice(key.as_slice()),
    }
}

fn attached_twice<'a>(own: &Seen, name: &'a Str, rule: &'a Rule) -> Option<&'a Str>
    ensures { (r : Option Relation) → IsSeen r own.now → option_copied result
        ≡ option_or (some_where (is_some (find (λ a. bytes_eq a.name name.now) (attachments_of r))) name.now) (rule_twice rule.now) }
{
    if own.rule(name).is_some() {
        return Some(name);
    }
    rule_twice(rule)
}

/// The first name that is to be new and isn't.
pub(crate) fn first_existing<'a, C: Catalogue>(
    catalogue: &C,
    named: &Named,
    command: &'a Command,
) -> Option<&'a Str>
    ensures { (s : State) → C.sees s catalogue.now → AreSeen (view s) command.now named.now
        → option_copied result ≡ first_existing s command.now }
{
    match command {
        Command::Create {
            relation,
            schema,
            key,
            ..
        } => created_twice(&named.own, relation, schema, key),
        Command::Attach { name, rule, .. } => attached_twice(&named.own, name, rule),
        Command::Savepoint { name } => {
            if catalogue.has_point(name) {
                Some(name)
            } else {
                None
            }
        }
        _ => None,
    }
}

/// The first column of a rule that isn't among those of its relation or, where it has a second one, among those of the other.
#[tactic(auto, using(crate::proofs::Beside::beside_named))]
fn unnamed_rule<'a>(schema: &Schema, other: &Schema, rule: &'a Rule) -> Option<&'a Str>
    ensures { (db : Db) → other.now ≡ columns_of (relation_named db (tied_by rule.now))
        → option_copied result ≡ unnamed (first_unnamed (rule_places db schema.now rule.now)) }
{
    sb_kinds::unnamed_rule(schema, other, rule)
}

fn unattached<'a>(own: &Seen, name: &'a Str) -> Option<&'a Str>
    ensures { (r : Option Relation) → IsSeen r own.now
        → option_copied result ≡ some_where (is_none (find (λ a. bytes_eq a.name name.now) (attachments_of r))) name.now }
{
    match own.rule(name) {
        Some(_) => None,
        None => Some(name),
    }
}

/// The first name of an attachment, a savepoint or a column that is to be there and isn't.
pub(crate) fn first_absent<'a, C: Catalogue>(
    catalogue: &C,
    named: &Named,
    command: &'a Command,
) -> Option<&'a Str>
    ensures { (s : State) → C.sees s catalogue.now → AreSeen (view s) command.now named.now
        → option_copied result ≡ first_absent s command.now }
{
    let own = named.own.schema();
    let other = named.other.schema();
    match command {
        Command::Create { schema, key, .. } => unnamed_columns(schema, key.as_slice()),
        Command::Attach { rule, .. } => unnamed_rule(own, other, rule),
        Command::Detach { name, .. } => unattached(&named.own, name),
        Command::Rollback { name } => {
            if catalogue.has_point(name) {
                None
            } else {
                Some(name)
            }
        }
        // There is no other relation, and so no column of rows that a term could name.
        Command::Act { action } => unnamed_action(own, other, action),
        Command::Lookup { name, .. } => unattached(&named.own, name),
        Command::Range { name, .. } => unattached(&named.own, name),
        Command::Entries { name, .. } => unattached(&named.own, name),
        _ => None,
    }
}
