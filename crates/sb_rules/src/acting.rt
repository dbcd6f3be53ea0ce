//! What a trigger answers.

ghost use Rattle.std.specs.Prelude.{◌≡◌, ◌∷◌, [], IfOk};
ghost use Rattle.sb_relation.specs.Rules.{is_event};
ghost use Rattle.sb_rules.specs.Pageless.{IsOrMemory};
ghost use Rattle.sb_rules.specs.Triggers.{meets, acted};

use crate::keeping::KeptTrigger;
use crate::rows::{new_row, old_row};
use sb_ctx::{Actions, Checks, Move};
use sb_pred::eval;
use sb_relation::{Action, Change, Event};
use sb_value::Schema;
use std::alloc::{AllocError, Global};

fn is_event(event: Event, change: &Change) -> bool
    ensures { result ≡ is_event event change.now }
{
    match (event, change) {
        (Event::Insert, Change::Insert { .. }) => true,
        (Event::Delete, Change::Delete { .. }) => true,
        (Event::Update, Change::Update { .. }) => true,
        _ => false,
    }
}

/// Whether the change, of a relation with this schema, sets the trigger off.
pub fn meets(kept: &KeptTrigger, schema: &Schema, change: &Change) -> bool
    ensures { result ≡ meets schema.now kept.now.event kept.now.pred change.now }
{
    is_event(kept.event, change) && eval(&kept.pred, schema, old_row(change), new_row(change))
}

fn one(alloc: Global, action: Action) -> Result<Actions, AllocError>
    ensures { IfOk result (λ actions. actions ≡ action ∷ []) }
{
    Ok(Actions::from_vec(vec![in alloc; action]?))
}

/// Leaves the action to follow at once or, where it is deferred, for the commit.
pub fn act(alloc: Global, action: Action, deferred: bool) -> Move
    ensures { IsOrMemory (acted deferred action) result }
{
    let Ok(actions) = one(alloc, action) else {
        return Move::NoMemory;
    };
    if deferred {
        Move::Acts {
            now: Actions::new(alloc),
            late: actions,
            checks: Checks::new(alloc),
        }
    } else {
        Move::Acts {
            now: actions,
            late: Actions::new(alloc),
            checks: Checks::new(alloc),
        }
    }
}
