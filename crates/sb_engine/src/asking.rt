//! What attachments put off. What is left to it goes by calls of `drop`.

ghost use Rattle.std.specs.Prelude.{◌≡◌, ◌++◌, [], OnOk};
ghost use Rattle.sb_deferred.specs.Waiting.{IsFront};
ghost use Rattle.sb_engine.specs.Asking.{with_late};

use sb_ctx::{Actions, Checks};
use sb_deferred::Queue;
use sb_rule::Action;
use sb_value::{Bytes, Str};
use std::alloc::{AllocError, Global};

/// Puts off what an attachment of this name has left for the commit.
pub(crate) fn put_left(
    queue: &mut Queue,
    alloc: Global,
    relation: &Str,
    name: Str,
    late: Actions,
    checks: Checks,
) -> Result<(), AllocError>
    ensures put { OnOk result (queue.new ≡ with_late queue.old relation.now name late checks) }
    ensures front { IsFront queue.old queue.new }
{
    let put = put_off(
        queue,
        alloc,
        relation,
        &name,
        late.as_slice(),
        checks.as_slice(),
    );
    drop(name);
    drop(late);
    drop(checks);
    put
}

/// Puts the actions that wait for the commit, and the entries that are tested then, behind what waits; where memory is wanting, the
/// first of them.
fn put_off(
    queue: &mut Queue,
    alloc: Global,
    relation: &Str,
    name: &Str,
    late: &[Action],
    checks: &[Bytes],
) -> Result<(), AllocError>
    ensures put { OnOk result (queue.new ≡ with_late queue.old relation.now name.now late.now checks.now) }
    ensures front { IsFront queue.old queue.new }
{
    put_actions(queue, alloc, late)?;
    put_checks(queue, relation, name, checks)
}

fn put_actions(queue: &mut Queue, alloc: Global, late: &[Action]) -> Result<(), AllocError>
    ensures put { OnOk result (queue.new ≡ record { actions = queue.old.actions ++ late.now; entries = queue.old.entries }) }
    ensures front { IsFront queue.old queue.new }
{
    for action in late {
        let copy = action.copy(alloc)?;
        queue.push_action(copy)?;
    }
    Ok(())
}

fn put_checks(
    queue: &mut Queue,
    relation: &Str,
    name: &Str,
    checks: &[Bytes],
) -> Result<(), AllocError>
    ensures put { OnOk result (queue.new ≡ with_late queue.old relation.now name.now [] checks.now) }
    ensures front { IsFront queue.old queue.new }
{
    for entry in checks {
        let owner = relation.copy()?;
        let label = name.copy()?;
        let copy = entry.copy()?;
        queue.push_check(owner, label, copy)?;
    }
    Ok(())
}
