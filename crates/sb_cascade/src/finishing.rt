//! What is done before a commit.

ghost use Rattle.std.specs.Prelude.{◌≡◌, [], false, IfErr, IfOk, OnOk};
ghost use Rattle.sb_fold.specs.Finish.{drain, finish};
ghost use Rattle.sb_fold.specs.Fold.{act, first_change};
ghost use Rattle.sb_fold.specs.Outcome.{Going};
ghost use Rattle.sb_cascade.specs.Runs.{MadeFrom, OnFault, StopsFrom, is_room};

use crate::changes::act;
use crate::layer::Layer;
use sb_fold::Refusal;
use sb_rule::Action;
use std::alloc::Global;

/// How many actions may wait at most.
const MOST_WAITING: u32 = 1000;

/// The levels of a command's own change.
const LEVELS: u8 = 16;

/// Does what waits for the commit: the actions in order, each to its end, and those that they make behind them; then each deferred rule is to hold.
pub fn finish<L: Layer>(layer: &mut L, alloc: Global) -> Result<(), Refusal>
    requires ready { L.is_ready layer.old }
    ensures made { OnOk result ((g : Going) → L.stands g layer.old → MadeFrom L.stands (finish (L.extensions layer.old)) g tt layer.new) }
    ensures refused { IfErr result (λ r. (g : Going) → L.stands g layer.old
        → StopsFrom L.stopped (finish (L.extensions layer.old)) g r layer.new) }
    ensures fault { IfErr result (λ r. OnFault r (L.failed layer.new)) }
    ensures leads { L.leads layer.old layer.new }
    ensures ready { L.is_ready layer.new }

    // Where no action waits no room is wanting.
    ensures room { IfErr result (λ r. (g : Going) → L.stands g layer.old → g.queue.actions ≡ [] → is_room r ≡ false) }
{
    drain(layer, alloc, MOST_WAITING)?;
    match layer.first_failing(alloc)? {
        None => Ok(()),
        Some((relation, name)) => Err(Refusal::Veto { relation, name }),
    }
}

/// The actions that wait, in order, each to its end, and those that they make behind them: at most so many.
fn drain<L: Layer>(layer: &mut L, alloc: Global, most: u32) -> Result<(), Refusal>
    requires ready { L.is_ready layer.old }
    ensures made { OnOk result ((g : Going) → L.stands g layer.old → MadeFrom L.stands (drain (L.extensions layer.old) most) g tt layer.new) }
    ensures refused { IfErr result (λ r. (g : Going) → L.stands g layer.old
        → StopsFrom L.stopped (drain (L.extensions layer.old) most) g r layer.new) }
    ensures fault { IfErr result (λ r. OnFault r (L.failed layer.new)) }
    ensures leads { L.leads layer.old layer.new }
    ensures ready { L.is_ready layer.new }

    // Where no action waits no room is wanting.
    ensures room { IfErr result (λ r. (g : Going) → L.stands g layer.old → g.queue.actions ≡ [] → is_room r ≡ false) }
{
    let mut left = most;
    while let Some(action) = layer.next_waiting(alloc)? {
        if left == 0 {
            drop(action);
            return Err(Refusal::DeferLimit);
        }
        act_waiting(layer, alloc, action)?;
        left -= 1;
    }
    Ok(())
}

/// An action that waited to its end, as one of a command's own.
fn act_waiting<L: Layer>(layer: &mut L, alloc: Global, action: Action) -> Result<u64, Refusal>
    requires ready { L.is_ready layer.old }
    requires may { L.may_do action layer.old }
    ensures made { IfOk result (λ n. (g : Going) → L.stands g layer.old
        → MadeFrom L.stands (act (first_change (L.extensions layer.old)) action) g n layer.new) }
    ensures refused { IfErr result (λ r. (g : Going) → L.stands g layer.old
        → StopsFrom L.stopped (act (first_change (L.extensions layer.old)) action) g r layer.new) }
    ensures fault { IfErr result (λ r. OnFault r (L.failed layer.new)) }
    ensures leads { L.leads layer.old layer.new }
    ensures ready { L.is_ready layer.new }
{
    let made = act(layer, alloc, LEVELS, &action);
    drop(action);
    made
}
