//! The answer to one line.

ghost use Rattle.std.specs.Prelude.{◌≡◌, ◌∷◌, ◌++◌, [], ℕ, List, IfOk, OnErr, OnOk, false};
ghost use Rattle.sb_grammar.specs.Columns.{IsItem, Says};
ghost use Rattle.sb_opening.specs.Sessions.{CanRun, KeepsSession};
ghost use Rattle.sb_kernel.specs.World.{world};
ghost use Rattle.sb_kernel.specs.Answering.{HasReplied};

use crate::starts::Starts;
use sb_disk::Disk;
use sb_execution::exec;
use sb_fold::Refusal;
use sb_opening::Session;
use sb_plain::{Command, Reply};
use sb_reader::{LineFault, parse_line};
use sb_vectors::Vectors;
use std::alloc::{AllocError, Global};

/// Answers a line that asks for a reply. Where memory is wanting to read it, nothing has begun.
pub(crate) fn answer_line<B: Vectors, D: Disk>(
    session: &mut Session<B>,
    starts: &mut Starts,
    disk: &mut D,
    alloc: Global,
    line: &[u8],
) -> Result<Reply, AllocError>
    requires runs { CanRun B.meanings D.told D.len disk.old session.old }
    requires up { session.old.down ≡ false }

    ensures replied { IfOk result (λ reply. HasReplied (world B.meanings D.told D.len D.clock D.faults) line.now disk.old disk.new session.old session.new reply) }
    ensures begun { OnOk result (starts.new ≡ starts.old ++ D.clock disk.old ∷ []) }
    ensures keeps { IfOk result (λ reply. KeepsSession D.len D.faults disk.old disk.new session.old session.new reply) }
    ensures unread { OnErr result ((session.new ≡ session.old) × (disk.new ≡ disk.old) × (starts.new ≡ starts.old)) }
    ensures runs { CanRun B.meanings D.told D.len disk.new session.new }
{
    match parse_line(alloc, line) {
        Ok(command) => {
            let reply = answer_command(session, starts, disk, alloc, &command);
            drop(command);
            reply
        }
        Err(LineFault::Syntax { column }) => {
            starts.push(disk.clock())?;
            Ok(Reply::Refused(Refusal::Syntax { column }))
        }
        Err(LineFault::NoMemory) => Err(AllocError),
    }
}

/// The same of a command that a line says.
fn answer_command<B: Vectors, D: Disk>(
    session: &mut Session<B>,
    starts: &mut Starts,
    disk: &mut D,
    alloc: Global,
    command: &Command,
) -> Result<Reply, AllocError>
    requires runs { CanRun B.meanings D.told D.len disk.old session.old }
    requires up { session.old.down ≡ false }

    ensures replied { IfOk result (λ reply. (line : List ℕ) → IsItem line (Says command.now)
        → HasReplied (world B.meanings D.told D.len D.clock D.faults) line disk.old disk.new session.old session.new reply) }
    ensures begun { OnOk result (starts.new ≡ starts.old ++ D.clock disk.old ∷ []) }
    ensures keeps { IfOk result (λ reply. KeepsSession D.len D.faults disk.old disk.new session.old session.new reply) }
    ensures unread { OnErr result ((session.new ≡ session.old) × (disk.new ≡ disk.old) × (starts.new ≡ starts.old)) }
    ensures runs { CanRun B.meanings D.told D.len disk.new session.new }
{
    starts.push(disk.clock())?;
    Ok(exec(session, disk, alloc, command))
}
