//! Laws of what lines say.

ghost use Rattle.sb_said.specs.Laws.{LinesAreWritten, ItemsAreWritten, FirstItemsAreWritten};
ghost use Rattle.sb_said.specs.Laws.{WrittenStepsLeaveLawful, DatabasesAreLawful, NothingIsLawful, AlikeAreLawful, DownIsLawful};

/// Every command that a line spells is written: its new names have no dot, it attaches no mirror, its numbers have 64 bits and its texts are UTF-8, a row
/// has 1 to 16 values, and a column's texts have at most 255 bytes. So it is with what each line of the input says.
///
/// A text that is written may have any length. One of more than 255 bytes can't be stored: no row takes it, and no rule is attached that has it.
pub fn lines_are_written()
    ensures lines { LinesAreWritten }
    ensures items { ItemsAreWritten }
    ensures first { FirstItemsAreWritten }
{}

/// Each step of such a command leaves a lawful state whose columns are limited, whatever the picks, and whether it is refused or not. All databases of
/// such a state are lawful and well named.
pub fn written_steps_leave_lawful()
    ensures step { WrittenStepsLeaveLawful }
    ensures databases { DatabasesAreLawful }
{}

/// Such a state is that of a new kernel, whose only commit is the empty database. It stays one with any extensions of which those are the same that its
/// databases name, in whichever order, and when a fault or damage has ended the kernel.
pub fn lawful_states_stay()
    ensures nothing { NothingIsLawful }
    ensures order { AlikeAreLawful }
    ensures down { DownIsLawful }
{}
