//! Laws of lines.

ghost use Rattle.std.specs.Prelude.{IsUtf8};
ghost use Rattle.sb_plain.specs.declared.command.Command.{Command};
ghost use Rattle.sb_plain.specs.Printing.{command_text};
ghost use Rattle.sb_showing.specs.Lines.{IsStorableCommand};

/// The text of a command that makes a relation or puts an attachment on it is UTF-8, where what it names can be stored.
pub fn storable_texts_are_utf8()
    ensures { (c : Command) → IsStorableCommand c → IsUtf8 (command_text c) }
{}
