//! Names that stand twice in one list.

ghost use Rattle.std.specs.Prelude.{◌≡◌, map, option_copied};
ghost use Rattle.std.specs.List.{list_any};
ghost use Rattle.std.specs.Option.{option_or};
ghost use Rattle.std.specs.Str.{bytes_eq};
ghost use Rattle.sb_plain.specs.Refusing.{first_twice, rule_twice};

use sb_rule::Rule;
use sb_value::{Column, Names, Str};

fn has_name(names: &[Str], name: &Str) -> bool
    ensures { result ≡ list_any (λ x. bytes_eq name.now x) names.now }
{
    names.iter().any(|other| *name == *other)
}

/// The first name that stands in the list before.
pub(crate) fn first_twice(names: &[Str]) -> Option<&Str>
    ensures { option_copied result ≡ first_twice names.now }
{
    for (i, name) in names.iter().enumerate() {
        if has_name(&names[..i], name) {
            return Some(name);
        }
    }
    None
}

fn has_column(columns: &[Column], name: &Str) -> bool
    ensures { result ≡ list_any (λ c. bytes_eq name.now c.name) columns.now }
{
    columns.iter().any(|other| *name == other.name)
}

/// The first column whose name stands in the list before.
pub(crate) fn first_column_twice(columns: &[Column]) -> Option<&Str>
    ensures { option_copied result ≡ first_twice (map (λ c. c.name) columns.now) }
{
    for (i, column) in columns.iter().enumerate() {
        if has_column(&columns[..i], &column.name) {
            return Some(&column.name);
        }
    }
    None
}

fn first_twice_in<'a>(columns: &'a Names, others: &'a Names) -> Option<&'a Str>
    ensures { option_copied result ≡ option_or (first_twice columns.now) (first_twice others.now) }
{
    match first_twice(columns.as_slice()) {
        Some(name) => Some(name),
        None => first_twice(others.as_slice()),
    }
}

/// A column that stands twice in one list of the rule.
pub(crate) fn rule_twice(rule: &Rule) -> Option<&Str>
    ensures { option_copied result ≡ rule_twice rule.now }
{
    match rule {
        Rule::TreeIndex { columns, .. } => first_twice(columns.as_slice()),
        Rule::HashIndex { columns } => first_twice(columns.as_slice()),
        Rule::JoinIndex {
            columns,
            others,
            ..
        } => first_twice_in(columns, others),
        Rule::Refers {
            columns,
            others,
            ..
        } => first_twice_in(columns, others),
        _ => None,
    }
}
