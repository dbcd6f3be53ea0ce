//! Relations that may be made, and rules that may stand.

ghost use Rattle.std.specs.Prelude.{◌≡◌, ◌≤◌, ◌↔◌, ◌&&◌, Option, IsTrue, is_none, option_copied};
ghost use Rattle.sb_relation.specs.Db.{Db};
ghost use Rattle.sb_relation.specs.Fits.{first_unnamed, rule_places, rule_fits, foreign_method_fits, MayKeep, MayStand};
ghost use Rattle.sb_relation.specs.Foreign.{AttachRules, MethodRules};
ghost use Rattle.sb_kinds.specs.Others.{IsBeside, Knows, SaysFits};

use crate::kinds::{method_fits, rule_fits};
use crate::others::other_relation;
use crate::unnamed::{unnamed_columns, unnamed_rule};
use sb_rule::Rule;
use sb_value::{Names, Schema};

/// Whether the columns that a rule names are there, and it is well typed; the others are those of the second relation that it names.
fn stands_beside(schema: &Schema, other: &Schema, rule: &Rule, foreign_fits: bool) -> bool
    ensures { (box : Option AttachRules) (db : Db) → IsBeside db rule.now other.now → SaysFits box schema.now rule.now foreign_fits
        → result ≡ (is_none (first_unnamed (rule_places db schema.now rule.now)) && rule_fits box db schema.now rule.now) }
{
    unnamed_rule(schema, other, rule).is_none() && rule_fits(schema, other, rule, foreign_fits)
}

/// Whether a rule may stand on a relation of these columns: what it names is there, and it is well typed. The others are the columns of the
/// second relation that the rule names, where it names one and it is there; of a foreign rule its extension says itself whether it fits.
pub fn may_stand(schema: &Schema, other: Option<&Schema>, rule: &Rule, foreign_fits: bool) -> bool
    ensures { (box : Option AttachRules) (db : Db) → Knows db rule.now (option_copied other.entry) → SaysFits box schema.now rule.now foreign_fits
        → (IsTrue result ↔ MayStand box db schema.now rule.now) }
{
    match other_relation(rule) {
        // No column of a second relation is looked up.
        None => stands_beside(schema, schema, rule, foreign_fits),
        Some(_) => match other {
            Some(other) => stands_beside(schema, other, rule, foreign_fits),
            None => false,
        },
    }
}

/// Whether a method may keep relations of these columns and this key; a foreign one says itself whether it fits.
pub fn may_keep(schema: &Schema, key: &Names, method: u16, foreign_fits: bool) -> bool
    ensures { (box : Option MethodRules) → (1000 ≤ method → foreign_method_fits box schema.now key.now ≡ foreign_fits)
        → (IsTrue result ↔ MayKeep box method schema.now key.now) }
{
    unnamed_columns(schema, key.as_slice()).is_none() && method_fits(method, key, foreign_fits)
}
