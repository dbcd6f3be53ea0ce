//! Laws of printed commands.

ghost use Rattle.std.specs.Prelude.{ℕ, ◌≤◌, List, length};
ghost use Rattle.sb_plain.specs.declared.command.Command.{Command};
ghost use Rattle.sb_plain.specs.Printing.{command_text};
ghost use Rattle.sb_grammar.specs.Columns.{IsCommand, IsItem, Says};

/// A command that some line spells is spelled by its own text. Where that text isn't too long for a line, it says the command, so reading it gives an equal one.
pub fn text_is_a_line()
    ensures spelled { (line : List ℕ) (c : Command) → IsCommand line c → IsCommand (command_text c) c }
    ensures said { (line : List ℕ) (c : Command) → IsCommand line c → length (command_text c) ≤ 4096 → IsItem (command_text c) (Says c) }
{}
