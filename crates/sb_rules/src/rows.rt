//! The rows of a change.

ghost use Rattle.std.specs.Prelude.{◌≡◌};
ghost use Rattle.std.specs.Option.{option_copied};
ghost use Rattle.sb_rule.specs.Bound.{row_before, row_after};

use sb_relation::Change;
use sb_value::Tuple;

pub fn old_row(change: &Change) -> Option<&Tuple>
    ensures { option_copied result ≡ row_before change.now }
{
    match change {
        Change::Insert { .. } => None,
        Change::Delete { old, .. } | Change::Update { old, .. } => Some(old),
    }
}

pub fn new_row(change: &Change) -> Option<&Tuple>
    ensures { option_copied result ≡ row_after change.now }
{
    match change {
        Change::Delete { .. } => None,
        Change::Insert { new, .. } | Change::Update { new, .. } => Some(new),
    }
}
