//! Actions as commands.

ghost use Rattle.std.specs.Prelude.{IfOk, IfErr};
ghost use Rattle.sb_plain.specs.declared.command.Command.TheVariants as command;
ghost use Rattle.sb_building.specs.Working.{Goes, IsServing};
ghost use Rattle.sb_statements.specs.Statements.{IsDone, IsStopped, answer_of};
ghost use Rattle.sb_building.specs.Refusals.{HasFaultCause};

use crate::answers::Answer;
use crate::opening::open_action;
use crate::rows::LEVELS;
use sb_building::Running;
use sb_cascade::act;
use sb_drive::PageSpace;
use sb_fold::Refusal;
use sb_registry::Boxes;
use sb_rule::Action;
use std::alloc::Global;

/// An action to its end, and how many rows it changed.
pub(crate) fn act_on<B: Boxes, S: PageSpace>(
    running: &mut Running<'_, B, S>,
    alloc: Global,
    action: &Action,
) -> Result<Answer, Refusal>
    requires ready { IsServing S.is_ready B.meanings running.old }

    ensures done { IfOk result (λ x. IsDone S.has S.spent B.meanings (command.Act action.now) running.old (answer_of x) running.new) }
    ensures stopped { IfErr result (λ r. IsStopped S.has S.spent S.leads S.fails S.table B.meanings (command.Act action.now) running.old r running.new) }
    ensures fault { IfErr result (λ r. HasFaultCause S.fails r running.new.space.now) }
    ensures goes { Goes S.leads running.old running.new }
    ensures ready { IsServing S.is_ready B.meanings running.new }
{
    match open_action(running, alloc, action) {
        Ok(()) => match act(running, alloc, LEVELS, action) {
            Ok(count) => Ok(Answer::Counts(count)),
            Err(refusal) => Err(refusal),
        },
        Err(refusal) => Err(refusal),
    }
}
