//! The law of commands that a line says.

ghost use Rattle.sb_posing.specs.Posing.{ReadIsPosed};

/// The grammar bounds words, numbers, lists and predicates; the tests bound texts, codes and descriptors.
pub fn read_commands_are_posed()
    ensures { ReadIsPosed }
{}
