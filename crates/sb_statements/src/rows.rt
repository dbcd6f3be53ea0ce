//! Rows that come, go and change.

ghost use Rattle.std.specs.Prelude.{◌≡◌, true, is_some, IfOk, IfErr};
ghost use Rattle.sb_fold.specs.Fold.{first_change};
ghost use Rattle.sb_fold.specs.Outcome.{Going};
ghost use Rattle.sb_plain.specs.declared.command.Command.TheVariants as command;
ghost use Rattle.sb_plain.specs.Step.{plainly, with_key};
ghost use Rattle.sb_cascade.specs.Fitting.{IsFittingWish};
ghost use Rattle.sb_cascade.specs.Runs.{MadeFrom, StopsFrom};
ghost use Rattle.sb_cascade.specs.Wishes.{wish_of};
ghost use Rattle.sb_building.specs.Working.{Goes, GoesOpen, IsServing, IsStoppedFor, StandsFor, extensions_in, open_at};
ghost use Rattle.sb_statements.specs.Statements.{IsDone, IsStopped, answer_of};
ghost use Rattle.sb_building.specs.Refusals.{HasFaultCause};

use crate::answers::{Answer, row_answer};
use crate::opening::open_wish;
use sb_building::Running;
use sb_cascade::{Wish, change};
use sb_drive::PageSpace;
use sb_fold::Refusal;
use sb_registry::Boxes;
use sb_value::{RecKey, Str, Tuple};
use std::alloc::Global;

/// The levels of a command's own change.
pub(crate) const LEVELS: u8 = 16;

pub(crate) fn insert<B: Boxes, S: PageSpace>(
    running: &mut Running<'_, B, S>,
    alloc: Global,
    relation: &Str,
    values: &Tuple,
) -> Result<Answer, Refusal>
    requires ready { IsServing S.is_ready B.meanings running.old }

    ensures done { IfOk result (λ x. IsDone S.has S.spent B.meanings (command.Insert relation.now values.now) running.old (answer_of x) running.new) }
    ensures stopped { IfErr result (λ r. IsStopped S.has S.spent S.leads S.fails S.table B.meanings (command.Insert relation.now values.now) running.old r running.new) }
    ensures fault { IfErr result (λ r. HasFaultCause S.fails r running.new.space.now) }
    ensures goes { Goes S.leads running.old running.new }
    ensures ready { IsServing S.is_ready B.meanings running.new }
{
    let Ok(row) = values.copy() else {
        return Err(Refusal::NoMemory);
    };
    change_keyed(running, alloc, relation, &Wish::Put(row))
}

pub(crate) fn update<B: Boxes, S: PageSpace>(
    running: &mut Running<'_, B, S>,
    alloc: Global,
    relation: &Str,
    at: &RecKey,
    values: &Tuple,
) -> Result<Answer, Refusal>
    requires ready { IsServing S.is_ready B.meanings running.old }

    ensures done { IfOk result (λ x. IsDone S.has S.spent B.meanings (command.Update relation.now at.now values.now) running.old (answer_of x) running.new) }
    ensures stopped { IfErr result (λ r. IsStopped S.has S.spent S.leads S.fails S.table B.meanings (command.Update relation.now at.now values.now) running.old r running.new) }
    ensures fault { IfErr result (λ r. HasFaultCause S.fails r running.new.space.now) }
    ensures goes { Goes S.leads running.old running.new }
    ensures ready { IsServing S.is_ready B.meanings running.new }
{
    let Ok(row) = values.copy() else {
        return Err(Refusal::NoMemory);
    };
    let Ok(key) = at.copy() else {
        return Err(Refusal::NoMemory);
    };
    change_keyed(running, alloc, relation, &Wish::Replace(key, row))
}

pub(crate) fn delete<B: Boxes, S: PageSpace>(
    running: &mut Running<'_, B, S>,
    alloc: Global,
    relation: &Str,
    at: &RecKey,
) -> Result<Answer, Refusal>
    requires ready { IsServing S.is_ready B.meanings running.old }

    ensures done { IfOk result (λ x. IsDone S.has S.spent B.meanings (command.Delete relation.now at.now) running.old (answer_of x) running.new) }
    ensures stopped { IfErr result (λ r. IsStopped S.has S.spent S.leads S.fails S.table B.meanings (command.Delete relation.now at.now) running.old r running.new) }
    ensures fault { IfErr result (λ r. HasFaultCause S.fails r running.new.space.now) }
    ensures goes { Goes S.leads running.old running.new }
    ensures ready { IsServing S.is_ready B.meanings running.new }
{
    let Ok(key) = at.copy() else {
        return Err(Refusal::NoMemory);
    };
    change_plainly(running, alloc, relation, &Wish::Remove(key))
}

/// A change of one row and all that follows from it, with the record key that the row has after it as a command answers it.
fn change_keyed<B: Boxes, S: PageSpace>(
    running: &mut Running<'_, B, S>,
    alloc: Global,
    name: &Str,
    wish: &Wish,
) -> Result<Answer, Refusal>
    requires ready { IsServing S.is_ready B.meanings running.old }

    ensures made { IfOk result (λ x. (g : Going) → StandsFor S.has S.spent B.meanings g running.old → IsFittingWish g.db name.now (wish_of wish.now)
        → MadeFrom (StandsFor S.has S.spent B.meanings) (with_key name.now (first_change (extensions_in B.meanings running.old) name.now (wish_of wish.now)))
        g (answer_of x) running.new) }
    ensures refused { IfErr result (λ r. (g : Going) → StandsFor S.has S.spent B.meanings g running.old → IsFittingWish g.db name.now (wish_of wish.now)
        → StopsFrom (IsStoppedFor S.has S.spent S.leads S.fails S.table B.meanings) (with_key name.now (first_change (extensions_in B.meanings running.old) name.now (wish_of wish.now)))
        g r running.new) }
    ensures fault { IfErr result (λ r. HasFaultCause S.fails r running.new.space.now) }
    ensures goes { Goes S.leads running.old running.new }
    ensures ready { IsServing S.is_ready B.meanings running.new }
{
    match change_fitting(running, alloc, name, wish) {
        Ok(key) => Ok(row_answer(&running.work.opened, name, key)),
        Err(refusal) => Err(refusal),
    }
}

/// The same, where the command answers no record key.
fn change_plainly<B: Boxes, S: PageSpace>(
    running: &mut Running<'_, B, S>,
    alloc: Global,
    name: &Str,
    wish: &Wish,
) -> Result<Answer, Refusal>
    requires ready { IsServing S.is_ready B.meanings running.old }

    ensures made { IfOk result (λ x. (g : Going) → StandsFor S.has S.spent B.meanings g running.old → IsFittingWish g.db name.now (wish_of wish.now)
        → MadeFrom (StandsFor S.has S.spent B.meanings) (plainly (first_change (extensions_in B.meanings running.old) name.now (wish_of wish.now)))
        g (answer_of x) running.new) }
    ensures refused { IfErr result (λ r. (g : Going) → StandsFor S.has S.spent B.meanings g running.old → IsFittingWish g.db name.now (wish_of wish.now)
        → StopsFrom (IsStoppedFor S.has S.spent S.leads S.fails S.table B.meanings) (plainly (first_change (extensions_in B.meanings running.old) name.now (wish_of wish.now)))
        g r running.new) }
    ensures fault { IfErr result (λ r. HasFaultCause S.fails r running.new.space.now) }
    ensures goes { Goes S.leads running.old running.new }
    ensures ready { IsServing S.is_ready B.meanings running.new }
{
    match change_fitting(running, alloc, name, wish) {
        Ok(_key) => Ok(Answer::Plain),
        Err(refusal) => Err(refusal),
    }
}

/// A change of one row of a relation, which is opened, and all that follows from it: the record key that the row has after it.
fn change_fitting<B: Boxes, S: PageSpace>(
    running: &mut Running<'_, B, S>,
    alloc: Global,
    name: &Str,
    wish: &Wish,
) -> Result<Option<RecKey>, Refusal>
    requires ready { IsServing S.is_ready B.meanings running.old }

    ensures made { IfOk result (λ key. (g : Going) → StandsFor S.has S.spent B.meanings g running.old → IsFittingWish g.db name.now (wish_of wish.now)
        → MadeFrom (StandsFor S.has S.spent B.meanings) (first_change (extensions_in B.meanings running.old) name.now (wish_of wish.now)) g key running.new) }
    ensures refused { IfErr result (λ r. (g : Going) → StandsFor S.has S.spent B.meanings g running.old → IsFittingWish g.db name.now (wish_of wish.now)
        → StopsFrom (IsStoppedFor S.has S.spent S.leads S.fails S.table B.meanings) (first_change (extensions_in B.meanings running.old) name.now (wish_of wish.now)) g r running.new) }
    ensures fault { IfErr result (λ r. HasFaultCause S.fails r running.new.space.now) }
    ensures open { IfOk result (λ key. is_some (open_at running.new.work.now.opened.items name.now) ≡ true) }
    ensures goes { GoesOpen S.leads running.old running.new }
    ensures ready { IsServing S.is_ready B.meanings running.new }
{
    match open_wish(running, alloc, name, wish) {
        Ok(()) => change(running, alloc, LEVELS, name, wish),
        Err(refusal) => Err(refusal),
    }
}
