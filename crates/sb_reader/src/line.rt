//! Command lines.

ghost use Rattle.std.specs.Prelude.{◌≡◌, ℕ, List};
ghost use Rattle.sb_reader.specs.Line as spec;
ghost use Rattle.sb_reader.specs.Line.{IsRead, SaysOneThing};

use crate::reading::read_command;
use sb_phrases::Fault;
use sb_plain::Command;
use sb_tokens::{Ending, Placed, Row, has_one_row, scan};
use std::alloc::{AllocError, Global};

/// How many bytes a line may have.
const LINE_LIMIT: usize = 4096;

/// Why a line is no command. Columns are counted in bytes, from 1.
#[derive(Clone, Copy, Debug, PartialEq, Eq)]
pub enum LineFault {
    Syntax { column: u32 },
    NoMemory,
}

impl From<AllocError> for LineFault {
    ghost use Rattle.sb_reader.specs.declared.line.LineFault.TheVariants.{NoMemory};

    ghost from_gives = { λ _ fault. fault ≡ NoMemory };

    fn from(_error: AllocError) -> LineFault {
        LineFault::NoMemory
    }
}

/// The column of the first token, or of the ending where there is none.
fn column_at(tokens: &[Placed], ending: Ending) -> u32
    ensures { result ≡ spec.column_at tokens.now ending }
{
    if let [first, ..] = tokens {
        return first.column;
    }
    match ending {
        Ending::Whole(column) => column,
        Ending::Stuck(column) => column,
    }
}

/// The command, unless bytes behind its tokens are none.
fn unless_stuck(command: Command, ending: Ending) -> Result<Command, LineFault>
    ensures { result ≡ spec.unless_stuck command ending }
{
    match ending {
        Ending::Whole(_) => Ok(command),
        Ending::Stuck(column) => {
            drop(command);
            Err(LineFault::Syntax { column })
        }
    }
}

/// The line's fault, where its tokens are no command.
fn line_fault(fault: Fault<'_>, row: &Row) -> LineFault
    ensures { result ≡ spec.line_fault fault.entry row.now.ending }
{
    match fault {
        Fault::Misfit(rest) => {
            let column = column_at(rest, row.ending);
            LineFault::Syntax { column }
        }
        Fault::NoMemory => LineFault::NoMemory,
    }
}

/// The command that a line spells, or the column of its fault.
pub fn parse_line(alloc: Global, line: &[u8]) -> Result<Command, LineFault>
    ensures read { IsRead line.now result }
{
    if line.len() > LINE_LIMIT {
        return Err(LineFault::Syntax { column: 4097 });
    }
    let row = scan(alloc, line)?;
    match read_command(alloc, &row.tokens) {
        Ok(command) => unless_stuck(command, row.ending),
        Err(fault) => Err(line_fault(fault, &row)),
    }
}

/// A law: no line says two things.
pub fn one_item()
    ensures { (line : List ℕ) → SaysOneThing line }
{
    has_one_row();
}
