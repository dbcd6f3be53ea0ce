//! Commands that have no place here.

ghost use Rattle.std.specs.Prelude.{◌≡◌};
ghost use Rattle.sb_plain.specs.State.{State};
ghost use Rattle.sb_plain.specs.Refusing.{is_misplaced};

use crate::catalogue::Catalogue;
use sb_plain::Command;

/// Whether the command is of another place: inside a transaction, outside of one, or behind actions that wait.
pub(crate) fn is_misplaced<C: Catalogue>(catalogue: &C, command: &Command) -> bool
    ensures { (s : State) → C.sees s catalogue.now → result ≡ is_misplaced s command.now }
{
    match command {
        Command::Begin => catalogue.is_inside(),
        Command::Checkpoint => catalogue.is_inside(),
        Command::Register { .. } => catalogue.is_inside(),
        Command::Retire { .. } => catalogue.is_inside(),
        Command::Commit => !catalogue.is_inside(),
        Command::Abort => !catalogue.is_inside(),
        Command::Savepoint { .. } => !catalogue.is_inside(),
        Command::Rollback { .. } => !catalogue.is_inside(),
        Command::Drop { .. } => catalogue.has_waiting(),
        _ => false,
    }
}
