//! Rows that are too long.

ghost use Rattle.std.specs.Prelude.{◌≡◌, ◌-◌, ◌^◌, ◌==◌, min, length, true, false, count_by, All};
ghost use Rattle.std.specs.Option.{option_copied};
ghost use Rattle.std.specs.List.{flat_map, list_any};
ghost use Rattle.sb_relation.specs.Db.{values_in};
ghost use Rattle.sb_relation.specs.Lawful.{IsRow, is_long_code, is_long_for, is_long_row};
ghost use Rattle.sb_standing.specs.Tables.{IsWide};
ghost use Rattle.sb_value.specs.Code.{escaped, ordered_code};
ghost use Rattle.sb_value.specs.Fits.{Fits, is_short_enough, is_within};
ghost use Rattle.sb_value.specs.Spelling.{IsStorable};
ghost use Rattle.sb_wishes.specs.Wished.{is_long_in, values_at};

use sb_catalog::Attached;
use sb_codec::tuple_len;
use sb_ctx::Instance;
use sb_pred::column_value;
use sb_rule::Rule;
use sb_value::{Column, Schema, Str, Tuple, Value};

/// The code of the storage method that keeps its rows under codes.
const TREE: u16 = 2;

/// The bytes of a row's spelling at most, and those of an ordered code.
const MOST_ROW: u32 = 1000;

const MOST_CODE: usize = 200;

/// Whether a relation refuses a row that fits as too long: a text is over its column's limit, its spelling is too long, or
/// the ordered code that the tree or an index keeps of it.
pub(crate) fn is_too_long(table: &Instance, rules: &[Attached], row: &Tuple) -> bool
    requires wide { IsWide table.now.schema }
    requires fits { Fits table.now.schema row.now }
    ensures is { result ≡ is_long_in table.now rules.now row.now }
    ensures row { result ≡ false → IsRow table.now.schema row.now }
{
    let schema = &table.schema;
    is_long_row(schema, row)
        || table.code == TREE && is_long_code(schema, table.key.as_slice(), row)
        || has_long_code(schema, rules, row)
}

/// Whether an attachment would keep too long a code of the row.
fn has_long_code(schema: &Schema, rules: &[Attached], row: &Tuple) -> bool
    ensures { result ≡ list_any (λ a. is_long_for schema.now row.now a.rule) rules.now }
{
    match rules.split_first() {
        Some((first, others)) => {
            is_long_for(schema, row, &first.rule) || has_long_code(schema, others, row)
        }
        None => false,
    }
}

/// Whether an attachment with the rule would keep too long a code of the row.
pub fn is_long_for(schema: &Schema, row: &Tuple, rule: &Rule) -> bool
    ensures { result ≡ is_long_for schema.now row.now rule.now }
{
    match rule {
        Rule::TreeIndex { columns, .. } | Rule::HashIndex { columns } => {
            is_long_code(schema, columns.as_slice(), row)
        }
        _ => false,
    }
}

/// Whether the row is too long in itself.
fn is_long_row(schema: &Schema, row: &Tuple) -> bool
    requires wide { IsWide schema.now }
    requires fits { Fits schema.now row.now }
    ensures is { result ≡ is_long_row schema.now row.now }
    ensures row { result ≡ false → IsRow schema.now row.now }
{
    if !schema.short_enough(row) {
        return true;
    }
    learn_values(schema.as_slice(), row.as_slice());
    tuple_len(row) > MOST_ROW
}

/// Nothing is done: that values within the limits of their columns can be stored is learnt from their types.
fn learn_values(columns: &[Column], values: &[Value])
    requires fits { Fits columns.now values.now }
    requires short { is_short_enough columns.now values.now ≡ true }
    ensures { All IsStorable values.now }
{
    let Some((value, values)) = values.split_first() else {
        return;
    };
    let Some((column, columns)) = columns.split_first() else {
        return;
    };
    learn_value(column, value);
    learn_values(columns, values);
}

fn learn_value(column: &Column, value: &Value)
    requires { is_within column.now value.now ≡ true }
    ensures { IsStorable value.now }
{
    match value {
        Value::Int(number) => {
            let _number = *number;
        }
        Value::Text(text) => {
            let _limit = column.limit;
            let _text = text.as_str();
        }
    }
}

/// Whether the ordered code of the named columns is too long.
fn is_long_code(schema: &Schema, names: &[Str], row: &Tuple) -> bool
    ensures { result ≡ is_long_code schema.now names.now row.now }
{
    codes_len(schema, names, row) > MOST_CODE
}

/// The length of the ordered code of the named columns, or 2^64 - 1 where it is more.
fn codes_len(schema: &Schema, names: &[Str], row: &Tuple) -> usize
    ensures { result ≡ min (length (ordered_code (values_in schema.now row.now names.now))) (2 ^ 64 - 1) }
{
    match names.split_first() {
        Some((name, others)) => {
            code_len(column_value(schema, row, name)).saturating_add(codes_len(schema, others, row))
        }
        None => 0,
    }
}

/// The length of the value's code, or 2^64 - 1 where it is more.
fn code_len(value: Option<&Value>) -> usize
    ensures { result ≡ min (length (ordered_code (values_at (option_copied value.entry)))) (2 ^ 64 - 1) }
{
    match value {
        Some(Value::Int(_)) => 8,
        Some(Value::Text(text)) => escaped_len(text.as_bytes()).saturating_add(2),
        None => 0,
    }
}

fn escaped_len(bytes: &[u8]) -> usize
    ensures { result ≡ min (length (flat_map escaped bytes.now)) (2 ^ 64 - 1) }
{
    bytes.len().saturating_add(zeros(bytes))
}

fn zeros(bytes: &[u8]) -> usize
    ensures { result ≡ count_by (λ b. b == 0) bytes.now }
{
    bytes.iter().filter(|b| **b == 0).count()
}
