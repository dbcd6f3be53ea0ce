//! What the attachments have in common.

ghost use Rattle.std.specs.Prelude.{◌≡◌};
ghost use Rattle.std.specs.Option.{option_copied};
ghost use Rattle.sb_rule.specs.Bound.{row_after};
ghost use Rattle.sb_foreign.specs.Watched.{verdict_of};

use sb_ctx::Move;
use sb_relation::Change;
use sb_value::Tuple;

/// Done where the row is admitted.
pub fn verdict(admitted: bool) -> Move
    ensures { result ≡ verdict_of admitted }
{
    if admitted { Move::Done } else { Move::Veto }
}

pub fn new_row(change: &Change) -> Option<&Tuple>
    ensures { option_copied result ≡ row_after change.now }
{
    match change {
        Change::Delete { .. } => None,
        Change::Insert { new, .. } | Change::Update { new, .. } => Some(new),
    }
}
