//! Kinds of what a command brings, over a catalogue.

ghost use Rattle.std.specs.Prelude.{◌≡◌, ◌&&◌, Option};
ghost use Rattle.std.specs.List.{find};
ghost use Rattle.std.specs.Str.{bytes_eq};
ghost use Rattle.sb_relation.specs.Db.{Relation};
ghost use Rattle.sb_relation.specs.Fits.{rule_fits, method_fits};
ghost use Rattle.sb_fold.specs.Extensions.{box_of, method_of};
ghost use Rattle.sb_kinds.specs.Others.{tied_by, SaysFits};
ghost use Rattle.sb_plain.specs.State.{State, view};
ghost use Rattle.sb_plain.specs.Refusing.{is_lookup, is_range, is_well_kinded};
ghost use Rattle.sb_refusals.specs.Seen.{IsSeen, AreSeen, attachments_of, columns_of, relation_named};

use crate::catalogue::Catalogue;
use crate::seen::{Named, Seen};
use sb_kinds::{action_fits, values_fit};
use sb_plain::Command;
use sb_rule::Rule;
use sb_value::{Names, Schema, Str, Tuple};

/// Whether the method keeps relations of these columns and this key.
fn method_fits<C: Catalogue>(catalogue: &C, method: u16, schema: &Schema, key: &Names) -> bool
    ensures { (s : State) → C.sees s catalogue.now
        → result ≡ method_fits (method_of (C.extensions catalogue.now) method) method schema.now key.now }
{
    let foreign_fits = catalogue.method_fits(method, schema, key);
    sb_kinds::method_fits(method, key, foreign_fits)
}

/// What the extension of a foreign rule says of these columns.
fn foreign_fits<C: Catalogue>(catalogue: &C, schema: &Schema, rule: &Rule) -> bool
    ensures { (s : State) → C.sees s catalogue.now → SaysFits (box_of (C.extensions catalogue.now) rule.now) schema.now rule.now result }
{
    match rule {
        Rule::Foreign { code, desc } => catalogue.rule_fits(*code, schema, desc),
        _ => false,
    }
}

/// Whether the rule is well typed on a relation of these columns; the others are those of the second relation that it names.
fn rule_fits<C: Catalogue>(catalogue: &C, schema: &Schema, other: &Schema, rule: &Rule) -> bool
    ensures { (s : State) → C.sees s catalogue.now → other.now ≡ columns_of (relation_named (view s) (tied_by rule.now))
        → result ≡ rule_fits (box_of (C.extensions catalogue.now) rule.now) (view s) schema.now rule.now }
{
    let foreign_fits = foreign_fits(catalogue, schema, rule);
    sb_kinds::rule_fits(schema, other, rule, foreign_fits)
}

/// Whether the attachment of this name is an index, and the values are of its columns.
fn is_lookup(own: &Seen, name: &Str, values: &Tuple) -> bool
    ensures { (r : Option Relation) → IsSeen r own.now
        → result ≡ is_lookup (columns_of r) (find (λ a. bytes_eq a.name name.now) (attachments_of r)) values.now }
{
    match own.rule(name) {
        Some(Rule::TreeIndex { columns, .. }) => {
            values_fit(own.schema(), columns.as_slice(), values.as_slice())
        }
        Some(Rule::HashIndex { columns }) => {
            values_fit(own.schema(), columns.as_slice(), values.as_slice())
        }
        _ => false,
    }
}

/// Whether the attachment of this name is a tree index, and the values are of its columns.
fn is_range(own: &Seen, name: &Str, values: &Tuple) -> bool
    ensures { (r : Option Relation) → IsSeen r own.now
        → result ≡ is_range (columns_of r) (find (λ a. bytes_eq a.name name.now) (attachments_of r)) values.now }
{
    match own.rule(name) {
        Some(Rule::TreeIndex { columns, .. }) => {
            values_fit(own.schema(), columns.as_slice(), values.as_slice())
        }
        _ => false,
    }
}

/// Whether values, columns and terms are of the right kinds and of the right number.
pub(crate) fn is_well_kinded<C: Catalogue>(catalogue: &C, named: &Named, command: &Command) -> bool
    ensures { (s : State) → C.sees s catalogue.now → AreSeen (view s) command.now named.now
        → result ≡ is_well_kinded (C.extensions catalogue.now) (view s) command.now }
{
    let own = &named.own;
    let other = named.other.schema();
    match command {
        Command::Create {
            method,
            schema,
            key,
            ..
        } => method_fits(catalogue, *method, schema, key),
        Command::Attach { rule, .. } => rule_fits(catalogue, own.schema(), other, rule),
        Command::Insert { values, .. } => own.schema().fits(values).is_ok(),
        Command::Update { values, .. } => own.schema().fits(values).is_ok(),
        // There are no old and new rows that a term could name.
        Command::Act { action } => action_fits(own.schema(), action, other, false, false),
        Command::Lookup { name, values, .. } => is_lookup(own, name, values),
        Command::Range {
            name,
            low,
            high,
            ..
        } => is_range(own, name, low) && is_range(own, name, high),
        _ => true,
    }
}
