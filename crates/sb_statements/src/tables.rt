//! Relations and rules that come and go.

ghost use Rattle.std.specs.Prelude.{IfOk, IfErr};
ghost use Rattle.sb_plain.specs.declared.command.Command.TheVariants as command;
ghost use Rattle.sb_building.specs.Working.{Goes, IsServing};
ghost use Rattle.sb_statements.specs.Statements.{IsDone, IsStopped, answer_of};
ghost use Rattle.sb_building.specs.Refusals.{HasFaultCause};

use crate::answers::Answer;
use sb_building::{Running, attach, create, detach, drop_relation};
use sb_fold::Refusal;
use sb_owners::Owners;
use sb_registry::Boxes;
use sb_rule::Rule;
use sb_value::{Names, Schema, Str};
use std::alloc::Global;

/// A new relation.
pub(crate) fn create_relation<B: Boxes, S: Owners>(
    running: &mut Running<'_, B, S>,
    alloc: Global,
    relation: &Str,
    method: u16,
    schema: &Schema,
    key: &Names,
) -> Result<Answer, Refusal>
    requires ready { IsServing S.is_ready B.meanings running.old }

    ensures done { IfOk result (λ x. IsDone S.has S.spent B.meanings (command.Create relation.now method schema.now key.now) running.old (answer_of x) running.new) }
    ensures stopped { IfErr result (λ r. IsStopped S.has S.spent S.leads S.fails S.table B.meanings (command.Create relation.now method schema.now key.now) running.old r running.new) }
    ensures fault { IfErr result (λ r. HasFaultCause S.fails r running.new.space.now) }
    ensures goes { Goes S.leads running.old running.new }
    ensures ready { IsServing S.is_ready B.meanings running.new }
{
    match create(running, alloc, relation, method, schema, key) {
        Ok(()) => Ok(Answer::Plain),
        Err(refusal) => Err(refusal),
    }
}

/// A relation that goes.
pub(crate) fn drop_named<B: Boxes, S: Owners>(
    running: &mut Running<'_, B, S>,
    alloc: Global,
    relation: &Str,
) -> Result<Answer, Refusal>
    requires ready { IsServing S.is_ready B.meanings running.old }

    ensures done { IfOk result (λ x. IsDone S.has S.spent B.meanings (command.Drop relation.now) running.old (answer_of x) running.new) }
    ensures stopped { IfErr result (λ r. IsStopped S.has S.spent S.leads S.fails S.table B.meanings (command.Drop relation.now) running.old r running.new) }
    ensures fault { IfErr result (λ r. HasFaultCause S.fails r running.new.space.now) }
    ensures goes { Goes S.leads running.old running.new }
    ensures ready { IsServing S.is_ready B.meanings running.new }
{
    match drop_relation(running, alloc, relation) {
        Ok(()) => Ok(Answer::Plain),
        Err(refusal) => Err(refusal),
    }
}

/// A rule that comes.
pub(crate) fn attach_rule<B: Boxes, S: Owners>(
    running: &mut Running<'_, B, S>,
    alloc: Global,
    relation: &Str,
    name: &Str,
    rule: &Rule,
) -> Result<Answer, Refusal>
    requires ready { IsServing S.is_ready B.meanings running.old }

    ensures done { IfOk result (λ x. IsDone S.has S.spent B.meanings (command.Attach relation.now name.now rule.now) running.old (answer_of x) running.new) }
    ensures stopped { IfErr result (λ r. IsStopped S.has S.spent S.leads S.fails S.table B.meanings (command.Attach relation.now name.now rule.now) running.old r running.new) }
    ensures fault { IfErr result (λ r. HasFaultCause S.fails r running.new.space.now) }
    ensures goes { Goes S.leads running.old running.new }
    ensures ready { IsServing S.is_ready B.meanings running.new }
{
    match attach(running, alloc, relation, name, rule) {
        Ok(()) => Ok(Answer::Plain),
        Err(refusal) => Err(refusal),
    }
}

/// A rule that goes.
pub(crate) fn detach_rule<B: Boxes, S: Owners>(
    running: &mut Running<'_, B, S>,
    alloc: Global,
    relation: &Str,
    name: &Str,
) -> Result<Answer, Refusal>
    requires ready { IsServing S.is_ready B.meanings running.old }

    ensures done { IfOk result (λ x. IsDone S.has S.spent B.meanings (command.Detach relation.now name.now) running.old (answer_of x) running.new) }
    ensures stopped { IfErr result (λ r. IsStopped S.has S.spent S.leads S.fails S.table B.meanings (command.Detach relation.now name.now) running.old r running.new) }
    ensures fault { IfErr result (λ r. HasFaultCause S.fails r running.new.space.now) }
    ensures goes { Goes S.leads running.old running.new }
    ensures ready { IsServing S.is_ready B.meanings running.new }
{
    match detach(running, alloc, relation, name) {
        Ok(()) => Ok(Answer::Plain),
        Err(refusal) => Err(refusal),
    }
}
