//! Codes of extensions that are to be live, or spare.

ghost use Rattle.std.specs.Prelude.{◌≡◌, cond, not};
ghost use Rattle.sb_rule.specs.Spelling.{rule_code};
ghost use Rattle.sb_plain.specs.State.{State, codes_of, has_code};
ghost use Rattle.sb_plain.specs.Refusing.{code_where, missing_code};

use crate::catalogue::Catalogue;
use sb_plain::Command;
use sb_rule::Rule;

/// The code of the rule's attachment.
fn code_of(rule: &Rule) -> u16
    ensures { result ≡ rule_code rule.now }
{
    match rule {
        Rule::TreeIndex { .. } => 1,
        Rule::HashIndex { .. } => 2,
        Rule::JoinIndex { .. } => 3,
        Rule::Stats { .. } => 4,
        Rule::Check { .. } => 5,
        Rule::Refers { .. } => 6,
        Rule::Trigger { .. } => 7,
        Rule::Foreign { code, .. } => *code,
    }
}

/// The code, where no live extension has it, or no spare one.
fn unless_there<C: Catalogue>(catalogue: &C, live: bool, method: bool, code: u16) -> Option<u16>
    ensures { (s : State) → C.sees s catalogue.now
        → result ≡ code_where (not (has_code (codes_of method (cond live s.live s.spare)) code)) code }
{
    if catalogue.has_code(live, method, code) {
        None
    } else {
        Some(code)
    }
}

/// The code that no live extension has, or no spare one that is to be registered.
pub(crate) fn missing_code<C: Catalogue>(catalogue: &C, command: &Command) -> Option<u16>
    ensures { (s : State) → C.sees s catalogue.now → result ≡ missing_code s command.now }
{
    match command {
        Command::Create { method, .. } => unless_there(catalogue, true, true, *method),
        Command::Attach { rule, .. } => unless_there(catalogue, true, false, code_of(rule)),
        Command::Register { method, code } => unless_there(catalogue, false, *method, *code),
        Command::Retire { method, code } => unless_there(catalogue, true, *method, *code),
        _ => None,
    }
}
