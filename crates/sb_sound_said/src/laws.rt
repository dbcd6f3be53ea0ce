//! Laws of commands that lines write, on which rules hold.

ghost use Rattle.sb_sound_said.specs.Laws.{WrittenStepsLeaveSound, NothingIsSound, AlikeAreSound, DownIsSound};

/// Each step of a sound state by a command that a line can write leaves a sound state, whatever the picks, and whether it is refused or not. What such a
/// command can't put into rows, as a text that is too long, is refused or changes nothing.
pub fn written_steps_are_sound()
    ensures { WrittenStepsLeaveSound }
{}

/// The state of a new kernel is sound, with any codes. A sound state stays so with any extensions of which those are the same that its databases name, in
/// whichever order, and when a fault or damage has ended the kernel.
pub fn sound_states_stay()
    ensures nothing { NothingIsSound }
    ensures order { AlikeAreSound }
    ensures down { DownIsSound }
{}
