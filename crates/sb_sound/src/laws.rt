//! The law of steps on which rules hold, and what it makes of plays.

ghost use Rattle.sb_sound.specs.Laws.{StepsLeaveSound, PlaysStaySound, PlaysFromNothingSound, AlikeAreSound, DownIsSound};

/// Each step of a sound state leaves a sound state, for every command that the language has, whatever the picks, and whether it is refused or not: in its
/// commits each rule with a code of ours holds, deferred or not, and in its open database and at its savepoints each that isn't deferred.
pub fn steps_leave_sound()
    ensures { StepsLeaveSound }
{}

/// Commands of the language, one after the other and with whatever picks, lead from a sound state through sound states alone. So they do from the state of
/// a new kernel, whose only commit is the empty database, with any codes.
pub fn plays_stay_sound()
    ensures from { PlaysStaySound }
    ensures nothing { PlaysFromNothingSound }
{}

/// A sound state stays so with any extensions of which those are the same that its databases name, in whichever order, and when a fault or damage has ended
/// the kernel.
pub fn sound_states_stay()
    ensures order { AlikeAreSound }
    ensures down { DownIsSound }
{}
