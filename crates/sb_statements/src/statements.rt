//! A command's work.

ghost use Rattle.std.specs.Prelude.{IfOk, IfErr};
ghost use Rattle.sb_building.specs.Working.{Goes, IsServing};
ghost use Rattle.sb_statements.specs.Statements.{IsDone, IsStopped, answer_of};
ghost use Rattle.sb_building.specs.Refusals.{HasFaultCause};

use crate::actions::act_on;
use crate::answers::Answer;
use crate::rows::{delete, insert, update};
use crate::tables::{attach_rule, create_relation, detach_rule, drop_named};
use sb_building::Running;
use sb_fold::Refusal;
use sb_owners::Owners;
use sb_plain::Command;
use sb_registry::Boxes;
use std::alloc::Global;

/// Does the work of a command that was tested before. One that changes no relation has none.
pub fn work<B: Boxes, S: Owners>(
    running: &mut Running<'_, B, S>,
    alloc: Global,
    command: &Command,
) -> Result<Answer, Refusal>
    requires ready { IsServing S.is_ready B.meanings running.old }

    ensures done { IfOk result (λ x. IsDone S.has S.spent B.meanings command.now running.old (answer_of x) running.new) }
    ensures stopped { IfErr result (λ r. IsStopped S.has S.spent S.leads S.fails S.table B.meanings command.now running.old r running.new) }
    ensures fault { IfErr result (λ r. HasFaultCause S.fails r running.new.space.now) }
    ensures goes { Goes S.leads running.old running.new }
    ensures ready { IsServing S.is_ready B.meanings running.new }
{
    match command {
        Command::Create {
            relation,
            method,
            schema,
            key,
        } => create_relation(running, alloc, relation, *method, schema, key),
        Command::Drop { relation } => drop_named(running, alloc, relation),
        Command::Attach {
            relation,
            name,
            rule,
        } => attach_rule(running, alloc, relation, name, rule),
        Command::Detach { relation, name } => detach_rule(running, alloc, relation, name),
        Command::Insert { relation, values } => insert(running, alloc, relation, values),
        Command::Delete { relation, at } => delete(running, alloc, relation, at),
        Command::Update {
            relation,
            at,
            values,
        } => update(running, alloc, relation, at, values),
        Command::Act { action } => act_on(running, alloc, action),
        Command::Register { .. }
        | Command::Retire { .. }
        | Command::Begin
        | Command::Commit
        | Command::Abort
        | Command::Savepoint { .. }
        | Command::Rollback { .. }
        | Command::Get { .. }
        | Command::Scan { .. }
        | Command::Lookup { .. }
        | Command::Range { .. }
        | Command::Entries { .. }
        | Command::Show { .. }
        | Command::Tables
        | Command::Checkpoint => {
            stay(running);
            Ok(Answer::Plain)
        }
    }
}

/// Nothing is done.
fn stay<B: Boxes, S: Owners>(running: &mut Running<'_, B, S>)
    requires ready { IsServing S.is_ready B.meanings running.old }
    ensures goes { Goes S.leads running.old running.new }
    ensures ready { IsServing S.is_ready B.meanings running.new }
{}
