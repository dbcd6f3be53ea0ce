//! Laws of commands that are carried out.

ghost use Rattle.sb_statements.specs.Posed.{TestedMayWork};

/// A posed command that no test refuses may be carried out.
pub fn tested_commands_may_work()
    ensures { TestedMayWork }
{}
