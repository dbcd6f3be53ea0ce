//! Reading all the tokens of a line.

ghost use Rattle.std.specs.Prelude.{◌≡◌, List, IfOk, Ok, Err, ◌≤◌, length};
ghost use Rattle.sb_tokens.specs.declared.token.Token.{Token};
ghost use Rattle.sb_tokens.specs.Rows.{tokens_of};
ghost use Rattle.sb_plain.specs.declared.command.Command.{Command as Order};
ghost use Rattle.sb_grammar.specs.Grammar.{Spells};
ghost use Rattle.sb_reader.specs.Commands.{command_at};
ghost use Rattle.sb_phrases.specs.Gives.{Fails};
ghost use Rattle.sb_reader.specs.Outcome.{IsOrMemory, FaultIsMisfit, IsMisfitOfLast, SpellsOneCommand};

use crate::commands::read_front;
use sb_phrases::Fault;
use sb_plain::Command;
use sb_tokens::Placed;
use std::alloc::Global;

/// The fault at the last so many tokens.
fn misfit_of_last<'a>(count: usize, tokens: &'a [Placed]) -> Fault<'a>
    requires { count ≤ length tokens.now }
    ensures { IsMisfitOfLast count tokens.now result }
{
    Fault::Misfit(&tokens[tokens.len() - count..])
}

/// The fault, at the last tokens of the row.
fn stopped<'a>(fault: Fault<'a>, tokens: &'a [Placed]) -> Fault<'a>
    requires { Fails fault (command_at (tokens_of tokens.now)) }
    ensures only { (c : Order) → Spells c (tokens_of tokens.now) → IsOrMemory (Err result) c }
    ensures fault { FaultIsMisfit tokens.now (Err result) }
{
    match fault {
        Fault::Misfit(rest) => misfit_of_last(rest.len(), tokens),
        Fault::NoMemory => Fault::NoMemory,
    }
}

/// The command, where nothing stands behind it.
fn ended<'a>(
    command: Command,
    rest: &'a [Placed],
    tokens: &'a [Placed],
) -> Result<Command, Fault<'a>>
    requires { command_at (tokens_of tokens.now) ≡ Ok (command, tokens_of rest.now) }
    ensures found { IfOk result (λ c. Spells c (tokens_of tokens.now)) }
    ensures only { (c : Order) → Spells c (tokens_of tokens.now) → IsOrMemory result c }
    ensures fault { FaultIsMisfit tokens.now result }
{
    if rest.is_empty() {
        return Ok(command);
    }
    drop(command);
    Err(misfit_of_last(rest.len(), tokens))
}

/// The command that the tokens spell. The fault holds the tokens from the first one on that no command goes on with.
pub fn read_command<'a>(alloc: Global, tokens: &'a [Placed]) -> Result<Command, Fault<'a>>
    ensures found { IfOk result (λ c. Spells c (tokens_of tokens.now)) }
    ensures only { (c : Order) → Spells c (tokens_of tokens.now) → IsOrMemory result c }
    ensures fault { FaultIsMisfit tokens.now result }
{
    match read_front(alloc, tokens) {
        Ok((command, rest)) => ended(command, rest, tokens),
        Err(fault) => Err(stopped(fault, tokens)),
    }
}

/// No row of tokens spells two commands.
pub fn one_command()
    ensures { (tokens : List Token) → SpellsOneCommand tokens }
{}
